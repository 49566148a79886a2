//! What an open transaction has of an object, and what it misses there.
ghost use Rattle.std.specs.Prelude.{◌≡◌, ◌==◌, ◌++◌, ℕ, List, IfOk, OnOk, drop, map, true};
ghost use Rattle.std.specs.List.{list_any};
ghost use Rattle.pp_core.specs.declared.call.Kind.{Kind as KindOf};
ghost use Rattle.pp_model.specs.Config.{as_shared};
ghost use Rattle.pp_model.specs.Names.{Name as NameOf};
ghost use Rattle.pp_laws_summary.specs.Summary.{summary_missing, summary_pulled};
ghost use Rattle.pp_snapshots.specs.Shown.{Keeps, shown, shown_tx};
ghost use Rattle.pp_summary.specs.Shown.{items_at};
ghost use Rattle.pp_conflicts.specs.Searches.{at_commit, has_of, shared_at, view_items};

use pp_core::{Committed, Item, Items, Name, OutOfMemory, SharedEntry};
use pp_kind::Placed;
use pp_snapshots::{Parts, seen_at};
use pp_summary::OpenTx;
use pp_violations::{add_items, committed_at};
use std::alloc::Global;

/// What the transaction has of a place: the commits there that it has seen, and its own operations.
pub(crate) fn make_view<S: Placed>(
    parts: &Parts<S::Shape, S::State, S::Op, S::Undo>,
    it: &OpenTx<Items<S::Op>>,
    place: u16,
) -> Result<Vec<Item<S::Op>>, OutOfMemory>
    ensures { IfOk result (λ list. list.items ≡ view_items S.place_of place parts.now it.now) }
{
    let mut list = committed_at::<S>(parts.alloc, &parts.committed, place)?;
    list.truncate(seen_at(&it.seen, place));
    add_items::<S>(&mut list, it.own.as_slice(), place)?;
    Ok(list)
}

/// Adds the operations of a committed transaction at a place, as entries of the shared log.
fn add_entries<S: Placed>(
    list: &mut Vec<SharedEntry<S::Op>>,
    owner: &Name,
    items: &[Item<S::Op>],
    place: u16,
) -> Result<(), OutOfMemory>
    ensures { OnOk result (list.new.items ≡ list.old.items
        ++ map (as_shared owner.now true) (items_at S.place_of place items.now)) }
{
    for item in items {
        if S::place(&item.op) == place {
            list.push(SharedEntry {
                id: item.id,
                owner: *owner,
                committed: true,
                op: item.op,
            })?;
        }
    }
    Ok(())
}

/// The entries of the shared log at a place, which are committed.
fn entries_at<S: Placed>(
    alloc: Global,
    committed: &Committed<S::Op>,
    place: u16,
) -> Result<Vec<SharedEntry<S::Op>>, OutOfMemory>
    ensures { IfOk result (λ list. list.items ≡ shared_at S.place_of place committed.now) }
{
    let mut list = Vec::new(alloc);
    for transaction in committed.as_slice() {
        let entries = transaction.entries.as_slice();
        add_entries::<S>(&mut list, &transaction.name, entries, place)?;
    }
    Ok(list)
}

/// The entries but the first ones.
fn entries_from<O: Copy>(
    alloc: Global,
    entries: &[SharedEntry<O>],
    from: usize,
) -> Result<Vec<SharedEntry<O>>, OutOfMemory>
    ensures { IfOk result (λ list. list.items ≡ drop from entries.now) }
{
    let mut list = Vec::new(alloc);
    for k in from..entries.len() {
        list.push(entries[k])?;
    }
    Ok(list)
}

/// The commits at a place that the transaction has not seen, in commit order.
pub(crate) fn find_missing<S: Placed>(
    parts: &Parts<S::Shape, S::State, S::Op, S::Undo>,
    it: &OpenTx<Items<S::Op>>,
    place: u16,
) -> Result<Vec<SharedEntry<S::Op>>, OutOfMemory>
    requires keeps { Keeps S.object S.place_of parts.now }
    ensures { IfOk result (λ list. (ks : List KindOf) (t : NameOf) → list.items
        ≡ summary_missing S.place_of place (shown ks parts.now) (shown_tx t it.now)) }
{
    let entries = entries_at::<S>(parts.alloc, &parts.committed, place)?;
    entries_from(parts.alloc, &entries, seen_at(&it.seen, place))
}

/// Whether one of the operations is at a place.
fn has_at<S: Placed>(items: &[Item<S::Op>], place: u16) -> bool
    ensures { result ≡ list_any (λ p. S.place_of p.op == place) items.now }
{
    for item in items {
        if S::place(&item.op) == place {
            return true;
        }
    }
    false
}

/// Whether the transaction has commits of a place or own operations there.
fn has_any<S: Placed>(it: &OpenTx<Items<S::Op>>, place: u16) -> bool
    ensures { result ≡ has_of S.place_of place it.now }
{
    seen_at(&it.seen, place) != 0 || has_at::<S>(it.own.as_slice(), place)
}

/// The commits that an operation at a place pulls first, in commit order: all of them, if the
/// transaction has nothing of the place, and none otherwise.
pub(crate) fn find_pulled<S: Placed>(
    parts: &Parts<S::Shape, S::State, S::Op, S::Undo>,
    it: &OpenTx<Items<S::Op>>,
    place: u16,
) -> Result<Vec<SharedEntry<S::Op>>, OutOfMemory>
    requires keeps { Keeps S.object S.place_of parts.now }
    ensures { IfOk result (λ list. (ks : List KindOf) (t : NameOf) → list.items
        ≡ summary_pulled S.place_of at_commit place (shown ks parts.now) (shown_tx t it.now)) }
{
    if has_any::<S>(it, place) {
        return Ok(Vec::new(parts.alloc));
    }
    find_missing::<S>(parts, it, place)
}
