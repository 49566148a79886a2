//! An optimistic run before its first record.
ghost use Rattle.std.specs.Prelude.{◌≡◌, ◌≤◌, ◌+◌, ◌*◌, [], length, map, reverse, None};
ghost use Rattle.std.specs.Prelude.{IfNone, IfOk, IfSome, IsTrue, OnOk};
ghost use Rattle.std.specs.List.{All};
ghost use Rattle.std.specs.Map.{lookup};
ghost use Rattle.std.specs.Str.{bytes_eq};
ghost use Rattle.pp_model.specs.Config.{start_with};
ghost use Rattle.pp_model.specs.Object.{HasDistinctIds};
ghost use Rattle.pp_summary.specs.Held.{IsItemAsked};
ghost use Rattle.pp_snapshots.specs.Held.{first_taken};
ghost use Rattle.pp_snapshots.specs.ByPart.{IsListed, ops_in};
ghost use Rattle.pp_snapshots.specs.Moving.{IsNew, as_taken};
ghost use Rattle.pp_snapshots.specs.Shown.{Keeps};
ghost use Rattle.pp_snapshots.specs.Starting.{PutsIn, StartAnswers};

use crate::by_part::nothing_listed;
use crate::commit::ops_of;
use crate::many::apply_all;
use crate::parts::Parts;
use crate::past::no_past;
use indexmap::{IndexMap, IndexSet};
use pp_core::{Committed, CommittedTx, IdSet, Item, Items, Name, OutOfMemory, Ticks};
use pp_kind::{Parted, Placed};
use pp_summary::put_new;
use std::alloc::Global;
use std::sync::ledger::Ledger;

/// A run with no transaction. The only error is out of memory.
pub fn no_run<S: Parted>(
    alloc: Global,
    shape: S::Shape,
) -> Result<Parts<S::Shape, S::State, S::Op, S::Undo>, OutOfMemory>
    ensures new { IfOk result (IsNew S.place_of) }
    ensures keeps { IfOk result (Keeps S.object S.place_of) }
    ensures taken { IfOk result (λ v. as_taken v ≡ first_taken shape None) }
    ensures listed { IfOk result (λ v. IsListed S.place_of S.part_of v.by_part (ops_in v.past)) }
{
    let past = no_past::<S>(alloc, &shape)?;
    Ok(Parts {
        alloc,
        shape,
        slots: IndexMap::new(alloc),
        threads: IndexSet::new(alloc),
        ids: IdSet::new(alloc),
        past,
        by_part: nothing_listed(alloc),
        committed: Committed::new(alloc),
        count: 0,
    })
}

/// The ids of the items, the last first, unless one of them is repeated. The only error is out of
/// memory.
fn distinct_ids<O: Copy>(alloc: Global, items: &[Item<O>]) -> Result<Option<IdSet>, OutOfMemory>
    ensures ids { IfOk result (λ r. IfSome r (λ ids.
        reverse ids ≡ map (λ p. p.id) items.now)) }
    ensures some { IfOk result (λ r. IfSome r (λ _. HasDistinctIds items.now)) }
    ensures none { IfOk result (λ r. IfNone r (HasDistinctIds items.now → ⊥)) }
{
    let mut ids = IdSet::new(alloc);
    let mut left = items.len();
    while left > 0 {
        left -= 1;
        let item = &items[left];
        if ids.contains(item.id) {
            return Ok(None);
        }
        ids.insert(item.id)?;
    }
    Ok(Some(ids))
}

/// Puts the transaction of a start in, which has begun and ended. The only error is out of memory.
fn put_start<S: Placed>(
    parts: &mut Parts<S::Shape, S::State, S::Op, S::Undo>,
    tx: &Name,
    items: &Items<S::Op>,
    ids: IdSet,
) -> Result<(), OutOfMemory>
    requires new { lookup (bytes_eq tx.now) parts.old.slots.entries ≡ None }
    requires ids { reverse ids ≡ map (λ p. p.id) items.now }
    ensures { OnOk result (PutsIn parts.old (start_with tx.now items.now) parts.new) }
{
    parts.ids = ids;
    put_new(&mut parts.slots, tx, None)?;
    let entries = Items::copy_of(items.as_slice(), parts.alloc)?;
    parts.committed.push(CommittedTx { name: *tx, entries })?;
    Ok(())
}

/// Commits the operations of a start, if their ids are distinct and they are allowed. Otherwise it
/// returns false, and nothing has changed that is seen. The only error is out of memory.
pub fn start<S: Placed, L: Ledger>(
    parts: &mut Parts<S::Shape, S::State, S::Op, S::Undo>,
    tx: &Name,
    items: &Items<S::Op>,
    ticks: &mut Ticks<L>,
) -> Result<bool, OutOfMemory>
    requires keeps { Keeps S.object S.place_of parts.old }
    requires new { as_taken parts.old ≡ first_taken parts.old.shape None }
    requires asked { All (IsItemAsked S.object parts.old.shape) items.now }
    requires few { length items.now ≤ 256 }
    ensures answers { IfOk result (λ good. StartAnswers S.object S.place_of parts.old
        (start_with tx.now items.now) good parts.new) }
    ensures cost { IfOk result (λ good. IsTrue good → ticks.new ≤ ticks.old + length items.now) }
    ensures repeated { (HasDistinctIds items.now → ⊥) → ticks.new ≡ ticks.old }
    ensures rises { ticks.old ≤ ticks.new }
    ensures bound { ticks.new ≤ ticks.old + 2 * length items.now }
    ensures index { OnOk result (parts.new.by_part ≡ parts.old.by_part) }
{
    let Some(ids) = distinct_ids(parts.alloc, items.as_slice())? else {
        return Ok(false);
    };
    let ops = ops_of(parts.alloc, items.as_slice())?;
    if !apply_all::<S, L>(&mut parts.past, &ops, ticks)? {
        return Ok(false);
    }
    put_start::<S>(parts, tx, items, ids)?;
    Ok(true)
}
