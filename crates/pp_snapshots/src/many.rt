//! Operations that are applied one after another, or taken back.
ghost use Rattle.std.specs.Prelude.{◌≡◌, ◌+◌, ◌-◌, ◌*◌, ◌≤◌, ◌++◌, ℕ, IfOk, OnOk, cond, drop, length};
ghost use Rattle.pp_snapshots.specs.Past.{IsSomePast, made_at};
ghost use Rattle.pp_snapshots.specs.Many.{AllFollow, AllGoBack, AreAsked, AreThere, CanAllGoBack};
ghost use Rattle.pp_kind.specs.declared.range.TheConstants.{MOST_OPERATIONS};
ghost use Rattle.pp_snapshots.specs.Many.{AllAreDone, CanFollow, FollowsSome, TellsBehind, ops_made};

use crate::past::{Done, Past, apply, take_back};
use pp_core::{OutOfMemory, Ticks};
use pp_kind::Placed;
use std::alloc::Global;
use std::sync::ledger::Ledger;

/// Takes these operations back, the last one first, which were the last ones at their places. The
/// only error is out of memory.
pub fn take_all_back<S: Placed, L: Ledger>(
    past: &mut Past<S::State, S::Op, S::Undo>,
    ops: &[S::Op],
    ticks: &mut Ticks<L>,
) -> Result<(), OutOfMemory>
    requires can { CanAllGoBack S.object S.place_of past.old ops.now }
    requires few { past.old.size ≤ MOST_OPERATIONS }
    ensures back { OnOk result (AllGoBack S.object S.place_of past.old ops.now past.new) }
    ensures size { OnOk result (past.new.size + length ops.now ≡ past.old.size) }
    ensures rises { ticks.old ≤ ticks.new }
    ensures bound { ticks.new ≤ ticks.old + length ops.now }
{
    let mut left = ops.len();
    while left > 0 {
        left -= 1;
        take_back::<S, L>(past, S::place(&ops[left]), ticks)?;
    }
    Ok(())
}

/// Applies these operations, one after another, where each is legal, and else says false and takes
/// those before it back. The only error is out of memory.
pub fn apply_all<S: Placed, L: Ledger>(
    past: &mut Past<S::State, S::Op, S::Undo>,
    ops: &[S::Op],
    ticks: &mut Ticks<L>,
) -> Result<bool, OutOfMemory>
    requires some { IsSomePast S.object S.place_of past.old }
    requires asked { AreAsked S.object past.old ops.now }
    requires few { past.old.size + length ops.now ≤ MOST_OPERATIONS }
    ensures follow { IfOk result (λ good.
        AllFollow S.object S.place_of past.old ops.now good past.new) }
    ensures size { IfOk result (λ good.
        past.new.size ≡ past.old.size + cond good (length ops.now) 0) }
    ensures rises { ticks.old ≤ ticks.new }
    ensures bound { ticks.new ≤ ticks.old + 2 * length ops.now }
    ensures good { IfOk result (λ good. ticks.new
        ≤ ticks.old + cond good (length ops.now) (2 * length ops.now)) }
    ensures least { IfOk result (λ good. ticks.old + cond good (length ops.now) 0 ≤ ticks.new) }
{
    for k in 0..ops.len() {
        if !apply::<S, L>(past, &ops[k], ticks)? {
            take_all_back::<S, L>(past, &ops[..k], ticks)?;
            return Ok(false);
        }
    }
    Ok(true)
}

/// Whether these operations may follow. None of them is applied afterwards. The only error is
/// out of memory.
fn can_follow<S: Placed, L: Ledger>(
    past: &mut Past<S::State, S::Op, S::Undo>,
    ops: &[S::Op],
    ticks: &mut Ticks<L>,
) -> Result<bool, OutOfMemory>
    requires some { IsSomePast S.object S.place_of past.old }
    requires asked { AreAsked S.object past.old ops.now }
    requires few { past.old.size + length ops.now ≤ MOST_OPERATIONS }
    ensures tells { IfOk result (λ good.
        CanFollow S.object S.place_of past.old ops.now good past.new) }
    ensures size { OnOk result (past.new.size ≡ past.old.size) }
    ensures rises { ticks.old ≤ ticks.new }
    ensures bound { ticks.new ≤ ticks.old + 2 * length ops.now }
    ensures least { IfOk result (λ good. ticks.old + cond good (length ops.now) 0 ≤ ticks.new) }
{
    if !apply_all::<S, L>(past, ops, ticks)? {
        return Ok(false);
    }
    take_all_back::<S, L>(past, ops, ticks)?;
    Ok(true)
}

/// Applies operations again that may follow. The only error is out of memory.
fn put_again<S: Placed, L: Ledger>(
    past: &mut Past<S::State, S::Op, S::Undo>,
    ops: &[S::Op],
    ticks: &mut Ticks<L>,
) -> Result<(), OutOfMemory>
    requires may { FollowsSome S.object S.place_of past.old ops.now }
    requires asked { AreAsked S.object past.old ops.now }
    requires few { past.old.size + length ops.now ≤ MOST_OPERATIONS }
    ensures done { OnOk result (AllAreDone S.object S.place_of past.old ops.now past.new) }
    ensures size { OnOk result (past.new.size ≡ past.old.size + length ops.now) }
    ensures rises { ticks.old ≤ ticks.new }
    ensures bound { ticks.new ≤ ticks.old + length ops.now }
{
    for k in 0..ops.len() {
        if !apply::<S, L>(past, &ops[k], ticks)? {
            unreachable!()
        }
    }
    Ok(())
}

/// The operations at a place but the first ones, in order. The only error is out of
/// memory.
pub fn ops_from<O: Copy, U: Drop>(
    alloc: Global,
    places: &Vec<Done<O, U>>,
    place: usize,
    from: usize,
) -> Result<Vec<O>, OutOfMemory>
    ensures { IfOk result (λ l. l.items ≡ drop from (ops_made (made_at place places.now.items))) }
{
    let mut later = Vec::new(alloc);
    let Some(done) = places.get(place) else {
        return Ok(later);
    };
    for k in from..done.made.len() {
        let made = &done.made[k];
        later.push(made.op)?;
    }
    Ok(later)
}

/// Adds these operations at the end. The only error is out of memory.
pub fn append<O: Copy>(list: &mut Vec<O>, more: &[O]) -> Result<(), OutOfMemory>
    ensures { OnOk result (list.new.items ≡ list.old.items ++ more.now) }
{
    for op in more {
        list.push(*op)?;
    }
    Ok(())
}

/// Whether these operations, all at one place, are allowed behind the first ones there, as many as
/// `seen` says. The later ones there are taken back meanwhile. The only error is out of
/// memory.
pub fn may_follow<S: Placed, L: Ledger>(
    past: &mut Past<S::State, S::Op, S::Undo>,
    place: u16,
    seen: usize,
    ops: &[S::Op],
    ticks: &mut Ticks<L>,
) -> Result<bool, OutOfMemory>
    requires some { IsSomePast S.object S.place_of past.old }
    requires asked { AreAsked S.object past.old ops.now }
    requires there { AreThere S.place_of place ops.now }
    requires few { past.old.size ≤ MOST_OPERATIONS }
    requires room { past.old.size + length ops.now
        ≤ MOST_OPERATIONS + (length (made_at place past.old.places.items) - seen) }
    ensures tells { IfOk result (λ good.
        TellsBehind S.object S.place_of past.old place seen ops.now good past.new) }
    ensures size { OnOk result (past.new.size ≡ past.old.size) }
    ensures rises { ticks.old ≤ ticks.new }
    ensures bound { ticks.new ≤ ticks.old
        + 2 * ((length (made_at place past.old.places.items) - seen) + length ops.now) }
    ensures least { IfOk result (λ good. ticks.old + cond good (length ops.now) 0 ≤ ticks.new) }
{
    let later = ops_from(past.alloc, &past.places, usize::from(place), seen)?;
    take_all_back::<S, L>(past, &later, ticks)?;
    let good = can_follow::<S, L>(past, ops, ticks)?;
    put_again::<S, L>(past, &later, ticks)?;
    Ok(good)
}
