//! An op record.
ghost use Rattle.std.specs.Prelude.{◌≡◌, ◌==◌, ◌&&◌, ◌+◌, ◌*◌, ◌<◌, ◌≤◌, ◌++◌, ◌∷◌, [], not, cond, nat_eq, zero};
ghost use Rattle.std.specs.Prelude.{IfOk, IsTrue, OnOk, is_some, length, false, true};
ghost use Rattle.std.specs.List.{list_any};
ghost use Rattle.pp_body.specs.Walks.{HasTaken, MayTake};
ghost use Rattle.pp_laws_summary.specs.Places.{ops_at};
ghost use Rattle.pp_model.specs.Object.{ops};
ghost use Rattle.pp_summary.specs.Held.{IsOpAsked};
ghost use Rattle.pp_summary.specs.Shown.{calls_of};
ghost use Rattle.pp_records.specs.Records.{Op};
ghost use Rattle.pp_snapshots.specs.ByPart.{IsListed, IsListedOf, ops_in};
ghost use Rattle.pp_snapshots.specs.Costs.{has_part, ops_of_part};
ghost use Rattle.pp_snapshots.specs.Many.{AreAsked, TellsBehind};
ghost use Rattle.pp_snapshots.specs.Moving.{Answers};
ghost use Rattle.pp_snapshots.specs.Ops.{AddsOp, HasAllowed, IsGrown, MayAddOp, MayHave, TellsOp};
ghost use Rattle.pp_snapshots.specs.Ops.{made_from, missed_after, op_most, open_most, tried_after};
ghost use Rattle.pp_snapshots.specs.Past.{IsSomePast, made_at};
ghost use Rattle.pp_kind.specs.declared.range.TheConstants.{MOST_OPERATIONS};
ghost use Rattle.pp_snapshots.specs.Shown.{Keeps, seen_in};

use crate::anew::are_allowed;
use crate::by_part::{ByPart, first_of_part, misses_part};
use crate::many::{append, may_follow};
use crate::parts::Parts;
use crate::past::{Done, Past};
use pp_core::{IdSet, Item, Items, Name, OutOfMemory, Ticks};
use pp_kind::{Parted, Placed};
use pp_kind_parts::PartByPart;
use pp_summary::{OpenTx, Seen, find_open, put_back, take_out};
use std::alloc::Global;
use std::sync::ledger::Ledger;

/// The own operations at a place, in order. The only error is out of memory.
pub fn own_at<S: Placed>(
    alloc: Global,
    own: &[Item<S::Op>],
    place: u16,
) -> Result<Vec<S::Op>, OutOfMemory>
    ensures { IfOk result (λ l. l.items ≡ ops_at S.place_of place (ops own.now)) }
{
    let mut there = Vec::new(alloc);
    for item in own {
        if S::place(&item.op) == place {
            there.push(item.op)?;
        }
    }
    Ok(there)
}

/// How many commits there were at a place.
pub fn count_at<O: Copy, U: Drop>(places: &Vec<Done<O, U>>, place: u16) -> usize
    ensures { result ≡ length (made_at place places.now.items) }
{
    match places.get(usize::from(place)) {
        None => 0,
        Some(done) => done.made.len(),
    }
}

/// How many commits at a place were seen: none where the place is not there.
pub fn seen_at(seen: &Seen, place: u16) -> usize
    ensures { result ≡ seen_in seen.now.entries place }
{
    match seen.get(place) {
        None => 0,
        Some(n) => n,
    }
}

/// Whether one of the operations is at a place.
pub(crate) fn has_own_at<S: Placed>(own: &[Item<S::Op>], place: u16) -> bool
    ensures { result ≡ list_any (λ p. S.place_of p.op == place) own.now }
{
    own.iter().any(|item| S::place(&item.op) == place)
}

/// Whether one of these operations is of the part of another.
pub(crate) fn has_part<S: Parted>(ops: &[S::Op], op: &S::Op) -> bool
    ensures { result ≡ has_part S.part_of op.now ops.now }
{
    let part = S::part(op);
    ops.iter().any(|a| S::part(a) == part)
}

/// The own operations of the part of another, in order. The only error is out of memory.
fn own_of_part<S: Parted>(
    alloc: Global,
    own: &[Item<S::Op>],
    op: &S::Op,
) -> Result<Vec<S::Op>, OutOfMemory>
    ensures { IfOk result (λ l. l.items ≡ ops_of_part S.part_of op.now (ops own.now)) }
{
    let part = S::part(op);
    let mut of_part = Vec::new(alloc);
    for item in own {
        if S::part(&item.op) == part {
            of_part.push(item.op)?;
        }
    }
    Ok(of_part)
}

/// After how many committed operations at its place an operation is tried: after those of the
/// snapshot, and after all if the transaction has nothing of the place.
fn snapshot(seen: usize, own: bool, all: usize) -> usize
    ensures { result ≡ cond (nat_eq seen zero && not own) all seen }
{
    if seen == 0 && !own { all } else { seen }
}

/// Whether an operation is allowed after the first ones at its place and the own ones there. All later
/// ones there are taken back meanwhile. The only error is out of memory.
fn ask_place<S: Placed, L: Ledger>(
    past: &mut Past<S::State, S::Op, S::Undo>,
    own: &[Item<S::Op>],
    seen: usize,
    op: &S::Op,
    ticks: &mut Ticks<L>,
) -> Result<bool, OutOfMemory>
    requires some { IsSomePast S.object S.place_of past.old }
    requires own { AreAsked S.object past.old (ops own.now) }
    requires asked { IsOpAsked S.object (S.object.shape past.old.state) op.now }
    requires few { past.old.size + length own.now < MOST_OPERATIONS }
    ensures tells { IfOk result (λ good. TellsBehind S.object S.place_of past.old
        (S.place_of op.now) seen (ops_at S.place_of (S.place_of op.now) (ops own.now)
        ++ op.now ∷ []) good past.new) }
    ensures size { OnOk result (past.new.size ≡ past.old.size) }
    ensures rises { ticks.old ≤ ticks.new }
    ensures bound { ticks.new ≤ ticks.old
        + 2 * (length (made_from past.old (S.place_of op.now) seen)
        + length (ops_at S.place_of (S.place_of op.now) (ops own.now)) + 1) }
    ensures least { IfOk result (λ good. IsTrue good → ticks.old < ticks.new) }
{
    let place = S::place(op);
    let mut asked = own_at::<S>(past.alloc, own, place)?;
    asked.push(*op)?;
    may_follow::<S, L>(past, place, seen, &asked, ticks)
}

/// The same, where no later operation is of the part of this one. Then it is enough to ask it after
/// all that were applied and the own ones of its part. The only error is out of memory.
fn ask_part<S: PartByPart, L: Ledger>(
    past: &mut Past<S::State, S::Op, S::Undo>,
    own: &[Item<S::Op>],
    seen: usize,
    op: &S::Op,
    ticks: &mut Ticks<L>,
) -> Result<bool, OutOfMemory>
    requires some { IsSomePast S.object S.place_of past.old }
    requires own { AreAsked S.object past.old (ops own.now) }
    requires asked { IsOpAsked S.object (S.object.shape past.old.state) op.now }
    requires have { MayHave S.object S.place_of past.old (S.place_of op.now) seen (ops own.now) }
    requires misses { has_part S.part_of op.now (made_from past.old (S.place_of op.now) seen)
        ≡ false }
    requires few { past.old.size + length own.now < MOST_OPERATIONS }
    ensures tells { IfOk result (λ good. TellsBehind S.object S.place_of past.old
        (S.place_of op.now) seen (ops_at S.place_of (S.place_of op.now) (ops own.now)
        ++ op.now ∷ []) good past.new) }
    ensures size { OnOk result (past.new.size ≡ past.old.size) }
    ensures rises { ticks.old ≤ ticks.new }
    ensures bound { ticks.new ≤ ticks.old
        + 2 * (length (ops_of_part S.part_of op.now (ops own.now)) + 1) }
    ensures least { IfOk result (λ good. IsTrue good → ticks.old < ticks.new) }
{
    let place = S::place(op);
    let all = count_at(&past.places, place);
    let mut asked = own_of_part::<S>(past.alloc, own, op)?;
    asked.push(*op)?;
    may_follow::<S, L>(past, place, all, &asked, ticks)
}

/// The same of an operation whose call has no result, which is allowed. It is tried alone, after all that
/// were applied. The only error is out of memory.
fn ask_silent<S: PartByPart, L: Ledger>(
    past: &mut Past<S::State, S::Op, S::Undo>,
    own: &[Item<S::Op>],
    seen: usize,
    op: &S::Op,
    ticks: &mut Ticks<L>,
) -> Result<bool, OutOfMemory>
    requires some { IsSomePast S.object S.place_of past.old }
    requires asked { IsOpAsked S.object (S.object.shape past.old.state) op.now }
    requires have { MayHave S.object S.place_of past.old (S.place_of op.now) seen (ops own.now) }
    requires silent { S.silent_of op.now ≡ true }
    requires few { past.old.size < MOST_OPERATIONS }
    ensures tells { IfOk result (λ good. TellsBehind S.object S.place_of past.old
        (S.place_of op.now) seen (ops_at S.place_of (S.place_of op.now) (ops own.now)
        ++ op.now ∷ []) good past.new) }
    ensures size { OnOk result (past.new.size ≡ past.old.size) }
    ensures rises { ticks.old ≤ ticks.new }
    ensures bound { ticks.new ≤ ticks.old + 2 }
    ensures least { IfOk result (λ good. IsTrue good → ticks.old < ticks.new) }
{
    let place = S::place(op);
    let all = count_at(&past.places, place);
    let mut asked = Vec::new(past.alloc);
    asked.push(*op)?;
    may_follow::<S, L>(past, place, all, &asked, ticks)
}

/// These operations, the own ones of the part of another, and then this one. The only error is out of
/// memory.
fn with_own<S: Parted>(
    alloc: Global,
    first: Vec<S::Op>,
    own: &[Item<S::Op>],
    op: &S::Op,
) -> Result<Vec<S::Op>, OutOfMemory>
    ensures { IfOk result (λ l. l.items
        ≡ first.items ++ (ops_of_part S.part_of op.now (ops own.now) ++ op.now ∷ [])) }
{
    let mut asked = first;
    let mine = own_of_part::<S>(alloc, own, op)?;
    append(&mut asked, &mine)?;
    asked.push(*op)?;
    Ok(asked)
}

/// The same, where later operations may be of the part of this one. If no more of the first ones are of
/// its part than are later, these, the own ones of its part, and it are tried on new objects. Otherwise
/// all later ones are taken back meanwhile. The only error is out of memory.
fn ask_missed<S: PartByPart, L: Ledger>(
    shape: &S::Shape,
    by_part: &ByPart<S::Op>,
    past: &mut Past<S::State, S::Op, S::Undo>,
    own: &[Item<S::Op>],
    seen: usize,
    op: &S::Op,
    ticks: &mut Ticks<L>,
) -> Result<bool, OutOfMemory>
    requires some { IsSomePast S.object S.place_of past.old }
    requires listed { IsListedOf S.place_of S.part_of by_part.now (ops_in past.old) op.now }
    requires same { S.object.shape past.old.state ≡ shape.now }
    requires own { AreAsked S.object past.old (ops own.now) }
    requires asked { IsOpAsked S.object (S.object.shape past.old.state) op.now }
    requires have { MayHave S.object S.place_of past.old (S.place_of op.now) seen (ops own.now) }
    requires few { past.old.size + length own.now < MOST_OPERATIONS }
    ensures tells { IfOk result (λ good. TellsBehind S.object S.place_of past.old
        (S.place_of op.now) seen (ops_at S.place_of (S.place_of op.now) (ops own.now)
        ++ op.now ∷ []) good past.new) }
    ensures size { OnOk result (past.new.size ≡ past.old.size) }
    ensures rises { ticks.old ≤ ticks.new }
    ensures bound { ticks.new ≤ ticks.old
        + 2 * (missed_after S.place_of S.part_of past.old seen (ops own.now) op.now + 1) }
    ensures least { IfOk result (λ good. IsTrue good → ticks.old < ticks.new) }
{
    let later = count_at(&past.places, S::place(op)).saturating_sub(seen);
    let Some(first) = first_of_part::<S>(by_part, seen, op, later)? else {
        return ask_place::<S, L>(past, own, seen, op, ticks);
    };
    let asked = with_own::<S>(past.alloc, first, own, op)?;
    are_allowed::<S, L>(past.alloc, shape, &asked, ticks)
}

/// Whether an operation is allowed after the first ones at its place and the own ones there. The only
/// error is out of memory.
fn ask<S: PartByPart, L: Ledger>(
    shape: &S::Shape,
    by_part: &mut ByPart<S::Op>,
    past: &mut Past<S::State, S::Op, S::Undo>,
    own: &[Item<S::Op>],
    seen: usize,
    op: &S::Op,
    ticks: &mut Ticks<L>,
) -> Result<bool, OutOfMemory>
    requires some { IsSomePast S.object S.place_of past.old }
    requires listed { IsListed S.place_of S.part_of by_part.old (ops_in past.old) }
    requires same { S.object.shape past.old.state ≡ shape.now }
    requires own { AreAsked S.object past.old (ops own.now) }
    requires asked { IsOpAsked S.object (S.object.shape past.old.state) op.now }
    requires have { MayHave S.object S.place_of past.old (S.place_of op.now) seen (ops own.now) }
    requires few { past.old.size + length own.now < MOST_OPERATIONS }
    ensures tells { IfOk result (λ good. TellsBehind S.object S.place_of past.old
        (S.place_of op.now) seen (ops_at S.place_of (S.place_of op.now) (ops own.now)
        ++ op.now ∷ []) good past.new) }
    ensures listed { OnOk result (IsListed S.place_of S.part_of by_part.new (ops_in past.old)) }
    ensures size { OnOk result (past.new.size ≡ past.old.size) }
    ensures rises { ticks.old ≤ ticks.new }
    ensures bound { ticks.new ≤ ticks.old
        + 2 * (tried_after S.place_of S.part_of S.silent_of past.old seen (ops own.now) op.now
        + 1) }
    ensures least { IfOk result (λ good. IsTrue good → ticks.old < ticks.new) }
{
    if S::is_silent(op) {
        ask_silent::<S, L>(past, own, seen, op, ticks)
    } else if misses_part::<S>(by_part, past, seen, op)? {
        ask_missed::<S, L>(shape, by_part, past, own, seen, op, ticks)
    } else {
        ask_part::<S, L>(past, own, seen, op, ticks)
    }
}

/// The snapshot behind which the operation of an open transaction is asked, if it is good. The only
/// error is out of memory.
pub fn may_op<S: PartByPart, L: Ledger>(
    it: &OpenTx<Items<S::Op>>,
    ids: &IdSet,
    shape: &S::Shape,
    by_part: &mut ByPart<S::Op>,
    past: &mut Past<S::State, S::Op, S::Undo>,
    id: u32,
    op: &S::Op,
    ticks: &mut Ticks<L>,
) -> Result<Option<usize>, OutOfMemory>
    requires some { IsSomePast S.object S.place_of past.old }
    requires listed { IsListed S.place_of S.part_of by_part.old (ops_in past.old) }
    requires same { S.object.shape past.old.state ≡ shape.now }
    requires taken { HasTaken it.now.walk (calls_of S.object it.now.own) }
    requires own { AreAsked S.object past.old (ops it.now.own) }
    requires asked { IsOpAsked S.object (S.object.shape past.old.state) op.now }
    requires has { HasAllowed S.object S.place_of past.old it.now }
    requires few { past.old.size + length it.now.own < MOST_OPERATIONS }
    ensures tells { IfOk result (λ found. TellsOp S.object S.place_of past.old ids.now id op.now
        it.now found past.new) }
    ensures listed { OnOk result (IsListed S.place_of S.part_of by_part.new (ops_in past.old)) }
    ensures size { OnOk result (past.new.size ≡ past.old.size) }
    ensures rises { ticks.old ≤ ticks.new }
    ensures bound { ticks.new ≤ ticks.old
        + op_most S.place_of S.part_of S.silent_of past.old it.now op.now }
    ensures least { IfOk result (λ found. IsTrue (is_some found) → ticks.old < ticks.new) }
{
    if ids.contains(id) {
        return Ok(None);
    }
    if !it.walk.can(&S::call(op)) {
        return Ok(None);
    }
    let place = S::place(op);
    let own = it.own.as_slice();
    let all = count_at(&past.places, place);
    let seen = snapshot(seen_at(&it.seen, place), has_own_at::<S>(own, place), all);
    if !ask::<S, L>(shape, by_part, past, own, seen, op, ticks)? {
        return Ok(None);
    }
    Ok(Some(seen))
}

/// Adds an operation to the own ones, with this snapshot of its place. The only error is out of
/// memory.
pub fn grow<S: Placed>(
    it: &mut OpenTx<Items<S::Op>>,
    seen: usize,
    item: Item<S::Op>,
) -> Result<(), OutOfMemory>
    requires { MayTake it.old.walk (S.object.call item.op) }
    ensures { OnOk result (IsGrown S.object S.place_of it.old seen item it.new) }
{
    it.walk.follow(&S::call(&item.op))?;
    it.own.push(item)?;
    it.seen.insert(S::place(&item.op), seen)?;
    Ok(())
}

/// Lets a good operation take effect. The only error is out of memory.
fn add_op<S: Placed>(
    parts: &mut Parts<S::Shape, S::State, S::Op, S::Undo>,
    tx: &Name,
    seen: usize,
    item: Item<S::Op>,
) -> Result<(), OutOfMemory>
    requires { MayAddOp S.object parts.old tx.now item }
    ensures { OnOk result (AddsOp S.object S.place_of parts.old tx.now seen item parts.new) }
{
    let Some(mut it) = take_out(&mut parts.slots, tx) else {
        unreachable!()
    };
    grow::<S>(&mut it, seen, item)?;
    put_back(&mut parts.slots, tx, it);
    parts.ids.insert(item.id)?;
    parts.count += 1;
    Ok(())
}

/// Takes an op record if it is good: the operation is the last own one of the open transaction.
/// The only error is out of memory.
pub fn do_op<S: PartByPart, L: Ledger>(
    parts: &mut Parts<S::Shape, S::State, S::Op, S::Undo>,
    tx: &Name,
    id: u32,
    op: &S::Op,
    ticks: &mut Ticks<L>,
) -> Result<bool, OutOfMemory>
    requires keeps { Keeps S.object S.place_of parts.old }
    requires listed { IsListed S.place_of S.part_of parts.old.by_part (ops_in parts.old.past) }
    requires asked { IsOpAsked S.object parts.old.shape op.now }
    requires few { parts.old.count < 4_294_967_295 }
    ensures answers { IfOk result (λ good. Answers S.object S.place_of parts.old
        (Op tx.now id op.now) good parts.new) }
    ensures listed { OnOk result
        (IsListed S.place_of S.part_of parts.new.by_part (ops_in parts.old.past)) }
    ensures rises { ticks.old ≤ ticks.new }
    ensures bound { ticks.new ≤ ticks.old
        + open_most tx.now parts.old (λ x.
        op_most S.place_of S.part_of S.silent_of parts.old.past x op.now) }
    ensures least { IfOk result (λ good. IsTrue good → ticks.old < ticks.new) }
{
    let Some(it) = find_open(&parts.slots, tx) else {
        return Ok(false);
    };
    let found = may_op::<S, L>(
        it,
        &parts.ids,
        &parts.shape,
        &mut parts.by_part,
        &mut parts.past,
        id,
        op,
        ticks,
    )?;
    let Some(seen) = found else {
        return Ok(false);
    };
    add_op::<S>(parts, tx, seen, Item { id, op: *op })?;
    Ok(true)
}
