//! An op record.
ghost use Rattle.std.specs.Prelude.{◌+◌, ◌<◌, ◌≤◌, IfOk};
ghost use Rattle.pp_records.specs.Records.{Op};
ghost use Rattle.pp_summary.specs.Held.{IsOpAsked, TakeCosts};
ghost use Rattle.pp_summary.specs.Moving.{Answers};
ghost use Rattle.pp_summary.specs.Shown.{KeepsQuick, shown};

use crate::commits::swaps_with_unseen;
use crate::open_tx::add_operation;
use crate::own::Own;
use crate::parts::Parts;
use pp_core::{Item, Name, OutOfMemory, SharedEntry, Ticks};
use pp_kind::Parted;
use pp_log_shared::Shared;
use std::sync::ledger::Ledger;

/// Takes an op record if it is good: the shared log then ends with the operation of the open
/// transaction. The only error is out of memory.
pub fn do_op<S: Parted, L: Ledger>(
    parts: &mut Parts<S::Shape, S::Op, Shared<S>, Own<S>>,
    tx: &Name,
    id: u32,
    op: &S::Op,
    ticks: &mut Ticks<L>,
) -> Result<bool, OutOfMemory>
    requires keeps { KeepsQuick S.object S.place_of parts.old }
    requires asked { IsOpAsked S.object parts.old.shape op.now }
    requires few { parts.old.count < 4_294_967_295 }
    ensures answers { IfOk result (λ good. Answers S.object S.place_of parts.old
        (Op tx.now id op.now) good parts.new) }
    ensures cost { IfOk result (λ good. TakeCosts (shown S.place_of parts.old)
        (Op tx.now id op.now) good ticks.old ticks.new) }
    ensures rises { ticks.old ≤ ticks.new }
    ensures bound { ticks.new ≤ ticks.old + 1 }
{
    let Some(slot) = parts.slots.get_mut(tx) else {
        return Ok(false);
    };
    let Some(it) = slot.as_mut() else {
        return Ok(false);
    };
    if parts.ids.contains(id) {
        return Ok(false);
    }
    if !it.walk.can(&S::call(op)) {
        return Ok(false);
    }
    if !swaps_with_unseen::<S>(it, &parts.shared, &parts.commits, op) {
        return Ok(false);
    }
    if let Some(_) = parts.shared.blocking(tx, op) {
        return Ok(false);
    }
    if !parts.shared.legal(op) {
        return Ok(false);
    }
    let entry = SharedEntry {
        id,
        owner: *tx,
        committed: false,
        op: *op,
    };
    parts.shared.push(entry, ticks)?;
    parts.ids.insert(id)?;
    add_operation::<S>(it, &parts.commits, Item { id, op: *op })?;
    parts.count += 1;
    Ok(true)
}
