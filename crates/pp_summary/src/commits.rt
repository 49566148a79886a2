//! The commits at each place, and which of them an open transaction has seen.
ghost use Rattle.std.specs.Prelude.{◌≡◌, ◌<◌, ◌∷◌, ◌++◌, [], ℕ, false, IsTrue, OnOk, drop, length};
ghost use Rattle.pp_summary.specs.Passing.{HaveEntries, HaveOwnIds, LetAllPass, StopsOne};
ghost use Rattle.pp_summary.specs.Passing.{with_commit};
ghost use Rattle.pp_summary.specs.Shown.{at, ids_at, unseen_at};

use crate::own::Own;
use crate::parts::{Commits, OpenTx};
use pp_core::{Item, OutOfMemory, Sequence};
use pp_kind::{Parted, Placed};
use pp_log_shared::Shared;
use std::alloc::Global;

/// How many commits there are at a place.
pub fn count_at(commits: &Commits, place: u16) -> usize
    ensures { result ≡ length (at place commits.now.items) }
{
    match commits.get(usize::from(place)) {
        None => 0,
        Some(done) => done.len(),
    }
}

/// Makes an empty list for each place up to this one that has no list. The only error is out of
/// memory.
fn make_lists(alloc: Global, commits: &mut Commits, place: usize) -> Result<(), OutOfMemory>
    ensures same { (q : ℕ) → at q commits.new.items ≡ at q commits.old.items }
    ensures there { OnOk result (place < length commits.new.items) }
{
    'grow: while commits.len() <= place {
        commits.push(Sequence::new(alloc))?;
    }
    Ok(())
}

/// Adds a commit at its place. The only error is out of memory.
fn add_commit<S: Placed>(
    alloc: Global,
    commits: &mut Commits,
    item: &Item<S::Op>,
) -> Result<(), OutOfMemory>
    ensures { OnOk result ((q : ℕ) → at q commits.new.items
        ≡ with_commit S.place_of item.now q (at q commits.old.items)) }
{
    let place = usize::from(S::place(&item.op));
    make_lists(alloc, commits, place)?;
    commits[place].push(item.id)
}

/// Adds the commits of all these items. The only error is out of memory.
pub fn add_commits<S: Placed>(
    alloc: Global,
    commits: &mut Commits,
    items: &[Item<S::Op>],
) -> Result<(), OutOfMemory>
    ensures { OnOk result ((q : ℕ) → at q commits.new.items
        ≡ at q commits.old.items ++ ids_at S.place_of q items.now) }
{
    for item in items {
        add_commit::<S>(alloc, commits, item)?;
    }
    Ok(())
}

/// Whether the own operations at its place swap with the operation of the entry with this id.
fn swaps_with_entry<S: Parted>(own: &Own<S>, shared: &Shared<S>, id: u32) -> bool
    requires ids { HaveOwnIds shared.now.1 }
    requires entries { HaveEntries shared.now.1 (id ∷ []) }
    ensures yes { IsTrue result →
        LetAllPass S.object S.place_of own.now shared.now.1 (id ∷ []) }
    ensures no { result ≡ false →
        StopsOne S.object S.place_of own.now shared.now.1 (id ∷ []) }
{
    let Some(position) = shared.find(id) else {
        unreachable!()
    };
    let Some(entry) = shared.entry(position) else {
        unreachable!()
    };
    own.let_pass(&entry.op)
}

/// Whether the own operations swap with the operations of all these ids, from a position on.
fn swaps_with_entries<S: Parted>(
    own: &Own<S>,
    shared: &Shared<S>,
    done: &[u32],
    from: usize,
) -> bool
    requires ids { HaveOwnIds shared.now.1 }
    requires entries { HaveEntries shared.now.1 done.now }
    ensures yes { IsTrue result →
        LetAllPass S.object S.place_of own.now shared.now.1 (drop from done.now) }
    ensures no { result ≡ false →
        StopsOne S.object S.place_of own.now shared.now.1 (drop from done.now) }
{
    for k in from..done.len() {
        if !swaps_with_entry::<S>(own, shared, done[k]) {
            return false;
        }
    }
    true
}

/// Whether the own operations at the place of an operation swap with each commit there that the
/// transaction has not seen. It asks about no other places.
pub fn swaps_with_unseen<S: Parted>(
    it: &OpenTx<Own<S>>,
    shared: &Shared<S>,
    commits: &Commits,
    op: &S::Op,
) -> bool
    requires ids { HaveOwnIds shared.now.1 }
    requires entries { (q : ℕ) → HaveEntries shared.now.1 (at q commits.now.items) }
    ensures yes { IsTrue result → LetAllPass S.object S.place_of it.now.own shared.now.1
        (unseen_at (S.place_of op.now) commits.now.items it.now.seen.entries) }
    ensures no { result ≡ false → StopsOne S.object S.place_of it.now.own shared.now.1
        (unseen_at (S.place_of op.now) commits.now.items it.now.seen.entries) }
{
    let place = S::place(op);
    let Some(seen) = it.seen.get(place) else {
        return true;
    };
    let Some(done) = commits.get(usize::from(place)) else {
        return true;
    };
    swaps_with_entries::<S>(&it.own, shared, done.as_slice(), seen)
}
