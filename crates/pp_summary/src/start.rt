//! The start of a run: operations that are committed before the first record.
ghost use Rattle.std.specs.Prelude.{◌≡◌, ◌≤◌, ◌+◌, length, map, reverse, IfOk, OnOk};
ghost use Rattle.std.specs.Prelude.{IfNone, IfSome, Some, IsTrue};
ghost use Rattle.std.specs.List.{All};
ghost use Rattle.pp_model.specs.Config.{start_with};
ghost use Rattle.pp_model.specs.Object.{HasDistinctIds};
ghost use Rattle.pp_model.specs.Rules.{StartMeets};
ghost use Rattle.pp_summary.specs.Held.{IsItemAsked};
ghost use Rattle.pp_summary.specs.Shown.{KeepsQuick};
ghost use Rattle.pp_summary.specs.Starting.{IsNew, MakesLog, PutsStart, StartAnswers};
ghost use Rattle.pp_summary.specs.Starting.{start_entries};
ghost use Rattle.pp_kind.specs.Object.{rules_of};

use crate::commits::add_commits;
use crate::own::Own;
use crate::parts::Parts;
use crate::slots::put_new;
use pp_core::{CommittedTx, IdSet, Item, Items, Name, OutOfMemory, SharedEntry, Ticks};
use pp_kind::Parted;
use pp_log_shared::Shared;
use std::alloc::Global;
use std::sync::ledger::Ledger;

/// The ids of the items, from the last to the first, or nothing if two items have the same id. The
/// only error is out of memory.
fn distinct_ids<O: Copy>(alloc: Global, items: &[Item<O>]) -> Result<Option<IdSet>, OutOfMemory>
    ensures ids { IfOk result (λ r. IfSome r (λ ids.
        reverse ids ≡ map (λ p. p.id) items.now)) }
    ensures some { IfOk result (λ r. IfSome r (λ _. HasDistinctIds items.now)) }
    ensures none { IfOk result (λ r. IfNone r (HasDistinctIds items.now → ⊥)) }
{
    let mut ids = IdSet::new(alloc);
    let mut left = items.len();
    while left > 0 {
        left -= 1;
        let item = &items[left];
        if ids.contains(item.id) {
            return Ok(None);
        }
        ids.insert(item.id)?;
    }
    Ok(Some(ids))
}

/// Makes the log with the items as uncommitted entries of the transaction, or nothing if they are
/// not allowed. The only error is out of memory.
fn make_log<S: Parted, L: Ledger>(
    alloc: Global,
    shape: &S::Shape,
    tx: &Name,
    items: &[Item<S::Op>],
    ticks: &mut Ticks<L>,
) -> Result<Option<Shared<S>>, OutOfMemory>
    requires asked { All (IsItemAsked S.object shape.now) items.now }
    requires few { length items.now ≤ 256 }
    requires distinct { HasDistinctIds items.now }
    ensures log { IfOk result (MakesLog S.object shape.now tx.now items.now) }
    ensures cost { IfOk result (λ r. IfSome r (λ _. ticks.new ≡ ticks.old + length items.now)) }
    ensures rises { ticks.old ≤ ticks.new }
    ensures bound { ticks.new ≤ ticks.old + length items.now }
{
    let mut shared = Shared::new(alloc, shape)?;
    for k in 0..items.len() {
        let item = &items[k];
        if !shared.legal(&item.op) {
            return Ok(None);
        }
        let entry = SharedEntry {
            id: item.id,
            owner: *tx,
            committed: false,
            op: item.op,
        };
        shared.push(entry, ticks)?;
    }
    Ok(Some(shared))
}

/// Commits the operations of the start, in the log that they make, as those of a transaction of
/// this name that has begun and ended. No open transaction misses them, since there is none. The
/// only error is out of memory.
fn put_start<S: Parted>(
    parts: &mut Parts<S::Shape, S::Op, Shared<S>, Own<S>>,
    tx: &Name,
    items: &Items<S::Op>,
    ids: IdSet,
    shared: Shared<S>,
) -> Result<(), OutOfMemory>
    requires keeps { KeepsQuick S.object S.place_of parts.old }
    requires new { IsNew S.object S.place_of parts.old }
    requires asked { All (IsItemAsked S.object parts.old.shape) items.now }
    requires few { length items.now ≤ 256 }
    requires meets { StartMeets (rules_of S.object parts.old.shape)
        (Some (start_with tx.now items.now)) }
    requires ids { reverse ids ≡ map (λ p. p.id) items.now }
    requires log { shared ≡ (parts.old.shape, start_entries tx.now items.now) }
    ensures { OnOk result
        (PutsStart S.object S.place_of parts.old (start_with tx.now items.now) parts.new) }
{
    let mut shared = shared;
    shared.commit(tx, items);
    parts.shared = shared;
    parts.ids = ids;
    put_new(&mut parts.slots, tx, None)?;
    add_commits::<S>(parts.alloc, &mut parts.commits, items.as_slice())?;
    let entries = Items::copy_of(items.as_slice(), parts.alloc)?;
    parts.committed.push(CommittedTx { name: *tx, entries })?;
    Ok(())
}

/// Commits operations if their ids differ and they are allowed. Otherwise it returns false, and
/// nothing has changed but the ticks. The only error is out of memory.
pub fn start<S: Parted, L: Ledger>(
    parts: &mut Parts<S::Shape, S::Op, Shared<S>, Own<S>>,
    tx: &Name,
    items: &Items<S::Op>,
    ticks: &mut Ticks<L>,
) -> Result<bool, OutOfMemory>
    requires keeps { KeepsQuick S.object S.place_of parts.old }
    requires new { IsNew S.object S.place_of parts.old }
    requires asked { All (IsItemAsked S.object parts.old.shape) items.now }
    requires few { length items.now ≤ 256 }
    ensures answers { IfOk result (λ good. StartAnswers S.object S.place_of parts.old
        (start_with tx.now items.now) good parts.new) }
    ensures cost { IfOk result (λ good. IsTrue good → ticks.new ≡ ticks.old + length items.now) }
    ensures repeated { (HasDistinctIds items.now → ⊥) → ticks.new ≡ ticks.old }
    ensures rises { ticks.old ≤ ticks.new }
    ensures bound { ticks.new ≤ ticks.old + length items.now }
{
    let Some(ids) = distinct_ids(parts.alloc, items.as_slice())? else {
        return Ok(false);
    };
    let log = make_log(parts.alloc, &parts.shape, tx, items.as_slice(), ticks)?;
    let Some(shared) = log else {
        return Ok(false);
    };
    put_start(parts, tx, items, ids, shared)?;
    Ok(true)
}
