//! The operations that were applied, part by part.
ghost use Rattle.std.specs.Prelude.{◌≡◌, ◌≤◌, ◌∷◌, ℕ, List, [], IfOk, IsTrue, OnOk, drop, length, take};
ghost use Rattle.pp_kind.specs.declared.part.Part.{Part as PartOf};
ghost use Rattle.pp_snapshots.specs.ByPart.{AddsListed, FewTold, IsListed, IsListedOf, ops_in};
ghost use Rattle.pp_snapshots.specs.Costs.{has_part};
ghost use Rattle.pp_snapshots.specs.Many.{ops_made};
ghost use Rattle.pp_snapshots.specs.Ops.{made_from};
ghost use Rattle.pp_snapshots.specs.Past.{IsSomePast};
ghost use Rattle.pp_snapshots.specs.Shown.{seen_in};

use crate::op::count_at;
use crate::past::{Done, Past};
use indexmap::IndexMap;
use pp_core::OutOfMemory;
use pp_kind::{Part, Parted};
use pp_kind_parts::PartByPart;
use std::alloc::Global;

/// An operation, and how many were applied at its place before it.
#[derive(Drop)]
pub struct Numbered<O: Copy> {
    pub number: usize,
    pub op: O,
}

/// Operations of one part, in order.
#[derive(Drop)]
pub struct PartOps<O: Copy> {
    pub ops: Vec<Numbered<O>>,
}

/// The first operations of each place, part by part. The others are listed when they are looked for.
#[derive(Drop)]
pub struct ByPart<O: Copy> {
    pub alloc: Global,
    pub lists: IndexMap<Part, PartOps<O>>,
    /// How many operations of each place are listed.
    pub counts: IndexMap<u16, usize>,
}

/// Nothing is listed. It takes no memory.
pub fn nothing_listed<O: Copy>(alloc: Global) -> ByPart<O>
    ensures { (place : O → ℕ) (part : O → PartOf) (h : ℕ → List O) → IsListed place part result h }
{
    ByPart {
        alloc,
        lists: IndexMap::new(alloc),
        counts: IndexMap::new(alloc),
    }
}

/// Adds one more operation to the list of its part. The only error is out of memory.
fn add<S: Parted>(
    alloc: Global,
    lists: &mut IndexMap<Part, PartOps<S::Op>>,
    number: usize,
    op: &S::Op,
) -> Result<(), OutOfMemory>
    ensures { OnOk result
        (AddsListed S.part_of lists.old.entries number (op.now ∷ []) lists.new.entries) }
{
    let part = S::part(op);
    if let Some(list) = lists.get_mut(&part) {
        list.ops.push(Numbered { number, op: *op })?;
        return Ok(());
    }
    let mut ops = Vec::new(alloc);
    ops.push(Numbered { number, op: *op })?;
    lists.insert(part, PartOps { ops })?;
    Ok(())
}

/// Adds all operations of a place but the first ones to the lists of their parts. The only error is
/// out of memory.
fn add_from<S: Parted>(
    alloc: Global,
    lists: &mut IndexMap<Part, PartOps<S::Op>>,
    done: &Done<S::Op, S::Undo>,
    from: usize,
) -> Result<(), OutOfMemory>
    ensures { OnOk result (AddsListed S.part_of lists.old.entries from
        (drop from (ops_made done.now.made.items)) lists.new.entries) }
{
    for k in from..done.made.len() {
        let made = &done.made[k];
        add::<S>(alloc, lists, k, &made.op)?;
    }
    Ok(())
}

/// How many operations of a place are listed.
fn count_listed(counts: &IndexMap<u16, usize>, place: u16) -> usize
    ensures { result ≡ seen_in counts.now.entries place }
{
    match counts.get(&place) {
        None => 0,
        Some(count) => *count,
    }
}

/// Lists all operations of a place. The only error is out of memory.
fn catch_up<S: PartByPart>(
    by_part: &mut ByPart<S::Op>,
    past: &Past<S::State, S::Op, S::Undo>,
    place: u16,
) -> Result<(), OutOfMemory>
    requires some { IsSomePast S.object S.place_of past.now }
    requires listed { IsListed S.place_of S.part_of by_part.old (ops_in past.now) }
    ensures listed { OnOk result (IsListed S.place_of S.part_of by_part.new (ops_in past.now)) }
    ensures all { OnOk result
        (length (ops_in past.now place) ≤ seen_in by_part.new.counts.entries place) }
{
    let Some(done) = past.places.get(usize::from(place)) else {
        return Ok(());
    };
    let from = count_listed(&by_part.counts, place);
    add_from::<S>(by_part.alloc, &mut by_part.lists, done, from)?;
    by_part.counts.insert(place, done.made.len())?;
    Ok(())
}

/// Whether one of the operations of the part of another is not among the first ones at its place, where
/// all of them are listed.
fn misses_listed<S: Parted>(by_part: &ByPart<S::Op>, from: usize, op: &S::Op) -> bool
    ensures { (h : ℕ → List S.Op) → IsListedOf S.place_of S.part_of by_part.now h op.now →
        result ≡ has_part S.part_of op.now (drop from (h (S.place_of op.now))) }
{
    let Some(list) = by_part.lists.get(&S::part(op)) else {
        return false;
    };
    let count = list.ops.len();
    if count == 0 {
        return false;
    }
    let last = &list.ops[count - 1];
    from <= last.number
}

/// Whether one of the operations that were applied at the place of another, but for the first ones, is
/// of its part. If so, all of its part are listed then. The only error is out of memory.
pub fn misses_part<S: PartByPart>(
    by_part: &mut ByPart<S::Op>,
    past: &Past<S::State, S::Op, S::Undo>,
    from: usize,
    op: &S::Op,
) -> Result<bool, OutOfMemory>
    requires some { IsSomePast S.object S.place_of past.now }
    requires listed { IsListed S.place_of S.part_of by_part.old (ops_in past.now) }
    ensures misses { IfOk result (λ r.
        r ≡ has_part S.part_of op.now (made_from past.now (S.place_of op.now) from)) }
    ensures listed { OnOk result (IsListed S.place_of S.part_of by_part.new (ops_in past.now)) }
    ensures all { IfOk result (λ r. IsTrue r →
        IsListedOf S.place_of S.part_of by_part.new (ops_in past.now) op.now) }
{
    let place = S::place(op);
    if count_at(&past.places, place) <= from {
        return Ok(false);
    }
    catch_up::<S>(by_part, past, place)?;
    Ok(misses_listed::<S>(by_part, from, op))
}

/// The operations of the part of another among the first ones at its place, in order, if they are no
/// more than this many. All of its part are listed. The only error is out of memory.
pub fn first_of_part<S: Parted>(
    by_part: &ByPart<S::Op>,
    seen: usize,
    op: &S::Op,
    most: usize,
) -> Result<Option<Vec<S::Op>>, OutOfMemory>
    ensures { IfOk result (λ found. (h : ℕ → List S.Op) →
        IsListedOf S.place_of S.part_of by_part.now h op.now →
        FewTold S.part_of op.now most (take seen (h (S.place_of op.now))) found) }
{
    let mut first = Vec::new(by_part.alloc);
    let Some(list) = by_part.lists.get(&S::part(op)) else {
        return Ok(Some(first));
    };
    for k in 0..list.ops.len() {
        let one = &list.ops[k];
        if seen <= one.number {
            return Ok(Some(first));
        }
        if most <= k {
            return Ok(None);
        }
        first.push(one.op)?;
    }
    Ok(Some(first))
}
