//! A begin record.
ghost use Rattle.std.specs.Prelude.{◌<◌, IfOk, option_map};
ghost use Rattle.pp_core.specs.Steps.{Begin};
ghost use Rattle.pp_core.specs.Trees.{IsWithinLimits, tree};
ghost use Rattle.pp_records.specs.Records.{Plain};
ghost use Rattle.pp_summary.specs.Moving.{Answers};
ghost use Rattle.pp_summary.specs.Shown.{KeepsQuick};

use crate::open_tx::fresh;
use crate::own::Own;
use crate::parts::Parts;
use crate::slots::put_new;
use pp_core::{Body, Name, OutOfMemory};
use pp_kind::Parted;
use pp_log_shared::Shared;

/// Begins a transaction if its name is new and its thread is not busy. The only error is out of
/// memory.
pub fn begin<S: Parted>(
    parts: &mut Parts<S::Shape, S::Op, Shared<S>, Own<S>>,
    tx: &Name,
    thread: &Name,
    body: &Option<Body>,
) -> Result<bool, OutOfMemory>
    requires keeps { KeepsQuick S.object S.place_of parts.old }
    requires within { IsWithinLimits (option_map tree body.now) }
    requires few { parts.old.count < 4_294_967_295 }
    ensures { IfOk result (λ answer. Answers S.object S.place_of parts.old
        (Plain (Begin tx.now thread.now (option_map tree body.now))) answer parts.new) }
{
    if parts.slots.contains_key(tx) {
        return Ok(false);
    }
    if parts.threads.contains(thread) {
        return Ok(false);
    }
    let it = fresh::<S>(parts.alloc, thread, body)?;
    parts.threads.insert(*thread)?;
    put_new(&mut parts.slots, tx, Some(it))?;
    parts.count += 1;
    Ok(true)
}
