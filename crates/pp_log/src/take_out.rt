//! Taking an entry out of its place.
ghost use Rattle.std.specs.Prelude.{◌≡◌, ◌<◌, ◌≤◌, ◌+◌, ◌*◌, IfOk, OnOk, IfSome, IfNone};
ghost use Rattle.std.specs.Prelude.{IsTrue, Some, false, length, slice_get};
ghost use Rattle.pp_model.specs.Lists.{In};
ghost use Rattle.pp_log.specs.declared.place.Removed.TheVariants.{Done};
ghost use Rattle.pp_log.specs.Logs.{removal_ticks};
ghost use Rattle.pp_log.specs.Parts.{with_first};
ghost use Rattle.pp_log.specs.TakesOut.{CanPassOut, HasWhole, PassesOutOf, TakesOutOf};

use crate::gap::{Crossing, gap_behind};
use crate::index::Index;
use crate::place::{Place, Removed};
use crate::run::{rewind, unwind};
use crate::sides::Side;
use pp_core::{OutOfMemory, Ticks};
use pp_kind::{Gapped, Placed};
use std::sync::ledger::Ledger;

/// The last position of this id.
fn last_with(ids: &[u32], id: u32) -> Option<usize>
    ensures found { IfSome result (λ k. slice_get ids.now k ≡ Some id) }
    ensures none { IfNone result (In id ids.now → ⊥) }
{
    for k in (0..ids.len()).rev() {
        if ids[k] == id {
            return Some(k);
        }
    }
    None
}

/// The position that the id of an entry should have among those of its place, by the positions of
/// their entries in the index. It looks at the last one, and else halves over them. Nothing is
/// promised of it.
fn likely_position(ids: &[u32], index: &Index, i: usize, id: u32) -> usize {
    let mut high = ids.len().saturating_sub(1);
    if high < ids.len() && ids[high] == id {
        return high;
    }
    let mut low = 0;
    'halve: while low < high {
        let middle = low + (high - low) / 2;
        match index.find(ids[middle]) {
            Some(at) if at < i => low = middle + 1,
            _ => high = middle,
        }
    }
    low
}

/// The position of an entry's id among those of its place. It looks first where it should be, and
/// at all of them only if it is not there.
pub fn position_in_place(ids: &[u32], index: &Index, i: usize, id: u32) -> Option<usize>
    ensures found { IfSome result (λ k. slice_get ids.now k ≡ Some id) }
    ensures none { IfNone result (In id ids.now → ⊥) }
{
    let likely = likely_position(ids, index, i, id);
    if likely < ids.len() && ids[likely] == id {
        return Some(likely);
    }
    last_with(ids, id)
}

/// Takes the last entry of a place back, which has this operation and is at `from` there.
fn take_last<S: Placed, L: Ledger>(
    place: &mut Place<S::Undo>,
    from: usize,
    op: &S::Op,
    state: &mut S::State,
    ticks: &mut Ticks<L>,
) -> Result<(), OutOfMemory>
    requires last { from + 1 ≡ length place.old.undos.items }
    requires there { CanPassOut S.object S.place_of place.old state.old from op.now }
    ensures takes { OnOk result (PassesOutOf S.object S.place_of from op.now
        place.old state.old place.new state.new) }
    ensures cost { ticks.new ≡ ticks.old + 1 }
{
    let _ = place.ids.remove(from);
    let Some(undo) = place.undos.pop() else {
        unreachable!()
    };
    S::undo(state, op, undo, ticks)?;
    Ok(())
}

/// Takes the first of these entries out of its place, where it is at `from` with others after it,
/// if the gap that it leaves is known after these, and borne. Otherwise all stays, and it returns
/// false. Only closing a gap ticks.
fn leave_by_gap<S: Placed + Gapped, T: Side<S::Op>, L: Ledger>(
    place: &mut Place<S::Undo>,
    from: usize,
    entries: &[T::Entry],
    state: &mut S::State,
    ticks: &mut Ticks<L>,
) -> Result<bool, OutOfMemory>
    requires some { 0 < length entries.now }
    requires whole { HasWhole S.object from (with_first S.place_of T.item_of entries.now)
        place.old state.old }
    ensures takes { IfOk result (λ left. IsTrue left → TakesOutOf S.object from
        (with_first S.place_of T.item_of entries.now) place.old state.old place.new state.new
        Done) }
    ensures place { IfOk result (λ left. left ≡ false → place.new ≡ place.old) }
    ensures state { IfOk result (λ left. left ≡ false → state.new ≡ state.old) }
    ensures none { IfOk result (λ left. left ≡ false → ticks.new ≡ ticks.old) }
    ensures rises { ticks.old ≤ ticks.new }
    ensures bound { ticks.new ≤ ticks.old + 1 }
{
    match gap_behind::<S, T>(T::op(&entries[0]), &place.undos[from], &entries[1..]) {
        Crossing::Idle => {
            place.forget(from);
            Ok(true)
        }
        Crossing::Apart(gap) => {
            if !S::bears(&gap, state) {
                return Ok(false);
            }
            place.forget(from);
            S::close(state, &gap, ticks)?;
            Ok(true)
        }
        Crossing::Same { at, undo } => {
            place.forget(from);
            place.undos[from + at] = undo;
            Ok(true)
        }
        Crossing::Unknown => Ok(false),
    }
}

/// Takes the first of these entries out of its place, where it is at `from`. If it is the last one
/// there, it alone is taken back. Otherwise the gap that it leaves is closed. If that is not known
/// or not borne, those after it are taken back too, and applied again without it. If one of them
/// differs, the place is as it was.
pub fn take_out<S: Placed + Gapped, T: Side<S::Op>, L: Ledger>(
    place: &mut Place<S::Undo>,
    from: usize,
    entries: &[T::Entry],
    state: &mut S::State,
    ticks: &mut Ticks<L>,
) -> Result<Removed, OutOfMemory>
    requires some { 0 < length entries.now }
    requires whole { HasWhole S.object from (with_first S.place_of T.item_of entries.now)
        place.old state.old }
    ensures takes { IfOk result (TakesOutOf S.object from
        (with_first S.place_of T.item_of entries.now) place.old state.old place.new state.new) }
    ensures cost { IfOk result (λ removed. removal_ticks removed
        (length (with_first S.place_of T.item_of entries.now)) ticks.old ticks.new) }
    ensures rises { ticks.old ≤ ticks.new }
    ensures bound { ticks.new + 3
        ≤ ticks.old + 4 * length (with_first S.place_of T.item_of entries.now) }
{
    let op = T::op(&entries[0]);
    let is_last = from + 1 == place.undos.len();
    if is_last {
        take_last::<S, L>(place, from, op, state, ticks)?;
        return Ok(Removed::Done);
    }
    if leave_by_gap::<S, T, L>(place, from, entries, state, ticks)? {
        return Ok(Removed::Done);
    }
    replay::<S, T, L>(place, from, entries, state, ticks)
}

/// Takes the operation of the first of these entries out of its place, where it is at `from`, and
/// takes those after it there back and applies them again. If one differs, the place is as it was.
fn replay<S: Placed, T: Side<S::Op>, L: Ledger>(
    place: &mut Place<S::Undo>,
    from: usize,
    entries: &[T::Entry],
    state: &mut S::State,
    ticks: &mut Ticks<L>,
) -> Result<Removed, OutOfMemory>
    requires some { 0 < length entries.now }
    requires whole { HasWhole S.object from (with_first S.place_of T.item_of entries.now)
        place.old state.old }
    ensures takes { IfOk result (TakesOutOf S.object from
        (with_first S.place_of T.item_of entries.now) place.old state.old place.new state.new) }
    ensures cost { IfOk result (λ removed. removal_ticks removed
        (length (with_first S.place_of T.item_of entries.now)) ticks.old ticks.new) }
    ensures rises { ticks.old ≤ ticks.new }
    ensures bound { ticks.new + 3
        ≤ ticks.old + 4 * length (with_first S.place_of T.item_of entries.now) }
{
    let p = S::place(T::op(&entries[0]));
    unwind::<S, T, L>(entries, p, &mut place.undos, from, state, ticks)?;
    let others = &entries[1..];
    let Some(stop) = rewind::<S, T, L>(others, p, &mut place.undos, state, ticks)? else {
        let _ = place.ids.remove(from);
        return Ok(Removed::Done);
    };
    unwind::<S, T, L>(&others[..stop.at], p, &mut place.undos, from, state, ticks)?;
    let None = rewind::<S, T, L>(entries, p, &mut place.undos, state, ticks)? else {
        unreachable!()
    };
    let id = T::item(&others[stop.at]).id;
    let answer = stop.answer;
    Ok(Removed::Differs { entry: id, answer })
}
