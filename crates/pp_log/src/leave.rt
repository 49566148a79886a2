//! Entries that leave a log, one after another.
ghost use Rattle.std.specs.Prelude.{◌≡◌, ◌+◌, ◌≤◌, IsTrue, OnOk, false, length, map};
ghost use Rattle.pp_log.specs.Leaves.{AllLeave, CanAllLeave, CanLeave, CanLeaveOut, HasIdAt};
ghost use Rattle.pp_log.specs.Leaves.{Leaves, StandFrom};
ghost use Rattle.pp_log.specs.Leaving.{without_items};
ghost use Rattle.pp_log.specs.TakesOut.{CanPassOut, PassesOutOf};

use crate::carry::{carry_out, has_id_at};
use crate::entries::Entries;
use crate::index::Index;
use crate::place::Place;
use crate::sides::Side;
use crate::take_out::position_in_place;
use pp_core::{Item, OutOfMemory, Ticks};
use pp_kind::TakesBack;
use std::sync::ledger::Ledger;

/// Takes the entry with this operation, at `from`, out of its place, as if it were the last one
/// there. Those after it may move past it.
fn pass_out<S: TakesBack, L: Ledger>(
    place: &mut Place<S::Undo>,
    from: usize,
    op: &S::Op,
    state: &mut S::State,
    ticks: &mut Ticks<L>,
) -> Result<(), OutOfMemory>
    requires { CanPassOut S.object S.place_of place.old state.old from op.now }
    ensures takes { OnOk result (PassesOutOf S.object S.place_of from op.now
        place.old state.old place.new state.new) }
    ensures cost { ticks.new ≡ ticks.old + 1 }
{
    let _ = place.ids.remove(from);
    let undo = carry_out::<S>(op, &mut place.undos, from);
    S::undo(state, op, undo, ticks)?;
    Ok(())
}

/// Takes an item at a position of the log back. Those of its place after it may move past it. Its
/// undo value is dropped.
fn take_one_back<S: TakesBack, L: Ledger>(
    item: &Item<S::Op>,
    i: usize,
    ids: &mut Index,
    places: &mut Vec<Place<S::Undo>>,
    state: &mut S::State,
    ticks: &mut Ticks<L>,
) -> Result<(), OutOfMemory>
    requires { CanLeave S.object S.place_of state.old places.old.items ids.old i item.now }
    ensures leaves { OnOk result (Leaves S.object S.place_of i item.now
        state.old places.old.items ids.old state.new places.new.items ids.new) }
    ensures cost { ticks.new ≡ ticks.old + 1 }
{
    let p = usize::from(S::place(&item.op));
    let place = &mut places[p];
    let Some(from) = position_in_place(&place.ids, ids, i, item.id) else {
        unreachable!()
    };
    pass_out::<S, L>(place, from, &item.op, state, ticks)?;
    ids.remove(i, item.id);
    Ok(())
}

/// Takes items back from the last to the first. The others after each may move past it. What is
/// kept is then of the others.
pub fn take_each_back<S: TakesBack, L: Ledger>(
    own: &[Item<S::Op>],
    ids: &mut Index,
    places: &mut Vec<Place<S::Undo>>,
    state: &mut S::State,
    ticks: &mut Ticks<L>,
) -> Result<(), OutOfMemory>
    requires { CanAllLeave S.object S.place_of state.old places.old.items ids.old own.now }
    ensures leaves { OnOk result (AllLeave S.object S.place_of own.now
        state.old places.old.items ids.old state.new places.new.items ids.new) }
    ensures cost { OnOk result (ticks.new ≡ ticks.old + length own.now) }
    ensures rises { ticks.old ≤ ticks.new }
    ensures bound { ticks.new ≤ ticks.old + length own.now }
{
    let mut left = own.len();
    while left > 0 {
        left -= 1;
        let item = &own[left];
        let Some(i) = ids.find(item.id) else {
            unreachable!()
        };
        take_one_back::<S, L>(item, i, ids, places, state, ticks)?;
    }
    Ok(())
}

/// Whether an entry is the own item at a position.
fn is_next<O: Copy, T: Side<O>>(entry: &T::Entry, own: &[Item<O>], next: usize) -> bool
    ensures yes { IsTrue result → HasIdAt own.now next (T.item_of entry.now).id }
    ensures no { result ≡ false → HasIdAt own.now next (T.item_of entry.now).id → ⊥ }
{
    has_id_at(own, next, T::item(entry).id)
}

/// Leaves out the entries that are these items, which are in their order, the first of them at a
/// position. Those that stay after it move up, each once.
fn keep_others<O: Copy, T: Side<O>>(entries: &mut Entries<T::Entry>, own: &[Item<O>], from: usize)
    requires { StandFrom own.now (map T.item_of entries.old.items) from }
    ensures { entries.new.items ≡ without_items T.item_of own.now entries.old.items }
{
    let mut kept = from;
    let mut next = 0;
    for at in from..entries.len() {
        if is_next::<O, T>(&entries.as_slice()[at], own, next) {
            next += 1;
        } else {
            let entry = entries.as_slice()[at];
            entries.set(kept, entry);
            kept += 1;
        }
    }
    entries.truncate(kept);
}

/// Takes out the entries that are these items, which are in their order, one after another, from
/// the last to the first. At each the fewer others move.
fn take_each_out<O: Copy, T: Side<O>>(entries: &mut Entries<T::Entry>, ids: &Index, own: &[Item<O>])
    requires { CanLeaveOut own.now (map T.item_of entries.old.items) ids.now }
    ensures { entries.new.items ≡ without_items T.item_of own.now entries.old.items }
{
    let mut rest = own.len();
    while rest > 0 {
        rest -= 1;
        let item = &own[rest];
        // It has the position that it had, since those that have left were after it.
        let Some(i) = ids.find(item.id) else {
            unreachable!()
        };
        entries.remove(i);
    }
}

/// Whether each of these items is so near the front that to move all before it, one item after
/// another, surely moves no more than those after the first. Nothing is promised of it.
fn stand_in_front<O: Copy>(own: &[Item<O>], ids: &Index, from: usize, len: usize) -> bool {
    own.last().and_then(|item| ids.find(item.id)).is_some_and(|to| own.len().saturating_mul(to)
        < len.saturating_sub(from))
}

/// Leaves out the entries that are these items, which are in their order. It looks at none before
/// the first of them, or moves no more than are from it on.
pub fn leave_out<O: Copy, T: Side<O>>(entries: &mut Entries<T::Entry>, ids: &Index, own: &[Item<O>])
    requires { CanLeaveOut own.now (map T.item_of entries.old.items) ids.now }
    ensures { entries.new.items ≡ without_items T.item_of own.now entries.old.items }
{
    let Some(first) = own.first() else {
        return;
    };
    let Some(from) = ids.find(first.id) else {
        unreachable!()
    };
    if stand_in_front(own, ids, from, entries.len()) {
        take_each_out::<O, T>(entries, ids, own);
    } else {
        keep_others::<O, T>(entries, own, from);
    }
}
