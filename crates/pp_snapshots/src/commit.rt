//! A commit record.
ghost use Rattle.std.specs.Prelude.{◌≡◌, ◌+◌, ◌*◌, ◌<◌, ◌≤◌, IfOk, OnOk, length};
ghost use Rattle.pp_model.specs.Object.{ops};
ghost use Rattle.pp_records.specs.Records.{Commit};
ghost use Rattle.pp_snapshots.specs.Moving.{Answers};
ghost use Rattle.pp_snapshots.specs.Shown.{Keeps};
ghost use Rattle.pp_snapshots.specs.Closing.{IsOpenNow, Settles};
ghost use Rattle.pp_snapshots.specs.Ops.{open_most};

use crate::many::apply_all;
use crate::parts::Parts;
use pp_core::{CommittedTx, Item, Name, OutOfMemory, Ticks};
use pp_kind::Placed;
use pp_summary::{OpenTx, find_open, take_out};
use std::alloc::Global;
use std::sync::ledger::Ledger;

/// The operations of the items, in order. The only error is out of memory.
pub fn ops_of<O: Copy>(alloc: Global, items: &[Item<O>]) -> Result<Vec<O>, OutOfMemory>
    ensures { IfOk result (λ l. l.items ≡ ops items.now) }
{
    let mut all = Vec::new(alloc);
    for item in items {
        all.push(item.op)?;
    }
    Ok(all)
}

/// The open transaction is committed, with its own operations. The only error is out of
/// memory.
fn settle<S: Placed>(
    parts: &mut Parts<S::Shape, S::State, S::Op, S::Undo>,
    tx: &Name,
) -> Result<(), OutOfMemory>
    requires { IsOpenNow parts.old tx.now }
    ensures { OnOk result (Settles parts.old tx.now parts.new) }
{
    let Some(it) = take_out(&mut parts.slots, tx) else {
        unreachable!()
    };
    let OpenTx {
        thread,
        walk: _,
        own,
        seen: _,
    } = it;
    parts.threads.swap_remove(&thread);
    parts.committed.push(CommittedTx {
        name: *tx,
        entries: own,
    })?;
    parts.count += 1;
    Ok(())
}

/// Takes a commit record if it is good: the open transaction has come to an end of its body, and
/// its operations are legal in the serial state, one after another. The only error is out of
/// memory.
pub fn commit<S: Placed, L: Ledger>(
    parts: &mut Parts<S::Shape, S::State, S::Op, S::Undo>,
    tx: &Name,
    ticks: &mut Ticks<L>,
) -> Result<bool, OutOfMemory>
    requires keeps { Keeps S.object S.place_of parts.old }
    requires few { parts.old.count < 4_294_967_295 }
    ensures answers { IfOk result (λ good.
        Answers S.object S.place_of parts.old (Commit tx.now) good parts.new) }
    ensures rises { ticks.old ≤ ticks.new }
    ensures bound { ticks.new ≤ ticks.old
        + open_most tx.now parts.old (λ x. 2 * length x.own) }
    ensures index { OnOk result (parts.new.by_part ≡ parts.old.by_part) }
{
    let Some(it) = find_open(&parts.slots, tx) else {
        return Ok(false);
    };
    if !it.walk.complete() {
        return Ok(false);
    }
    let own = ops_of(parts.alloc, it.own.as_slice())?;
    if !apply_all::<S, L>(&mut parts.past, &own, ticks)? {
        return Ok(false);
    }
    settle::<S>(parts, tx)?;
    Ok(true)
}
