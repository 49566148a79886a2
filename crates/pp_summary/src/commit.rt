//! A commit record.
ghost use Rattle.std.specs.Prelude.{◌<◌, IfOk};
ghost use Rattle.pp_records.specs.Records.{Commit};
ghost use Rattle.pp_summary.specs.Moving.{Answers};
ghost use Rattle.pp_summary.specs.Shown.{KeepsQuick};

use crate::commits::add_commits;
use crate::own::Own;
use crate::parts::{OpenTx, Parts};
use pp_core::{CommittedTx, Name, OutOfMemory};
use pp_kind::Parted;
use pp_log_shared::Shared;

/// Takes a commit record if it is good. It is good if the open transaction has completed its body.
/// Its operations are then committed. The only error is out of memory.
pub fn commit<S: Parted>(
    parts: &mut Parts<S::Shape, S::Op, Shared<S>, Own<S>>,
    tx: &Name,
) -> Result<bool, OutOfMemory>
    requires keeps { KeepsQuick S.object S.place_of parts.old }
    requires few { parts.old.count < 4_294_967_295 }
    ensures { IfOk result (λ good. Answers S.object S.place_of parts.old (Commit tx.now) good
        parts.new) }
{
    let Some(slot) = parts.slots.get_mut(tx) else {
        return Ok(false);
    };
    let Some(it) = slot.take() else {
        return Ok(false);
    };
    if !it.walk.complete() {
        *slot = Some(it);
        return Ok(false);
    }
    let OpenTx {
        thread,
        walk: _,
        own,
        seen: _,
    } = it;
    parts.threads.swap_remove(&thread);
    let own = own.into_items();
    parts.shared.commit(tx, &own);
    add_commits::<S>(parts.alloc, &mut parts.commits, own.as_slice())?;
    parts.committed.push(CommittedTx {
        name: *tx,
        entries: own,
    })?;
    parts.count += 1;
    Ok(true)
}
