//! The operations of an open transaction at a place, and the commits that it misses there.
ghost use Rattle.std.specs.Prelude.{◌≡◌, ◌==◌, ◌||◌, ◌++◌, ℕ, IfOk, OnOk, filter, take};
ghost use Rattle.std.specs.List.{list_any};
ghost use Rattle.pp_model.specs.Names.{Name as NameOf};
ghost use Rattle.pp_model.specs.Serial.{has_id};
ghost use Rattle.pp_laws_summary.specs.LocalLogs.{serial_at};
ghost use Rattle.pp_laws_summary.specs.Summary.{summary_missing};
ghost use Rattle.pp_summary.specs.Shown.{KeepsQuick, at, items_at};
ghost use Rattle.pp_violations.specs.Summarised.{kept_open, kept_summary, seen_of};
ghost use Rattle.pp_violations.specs.Searches.{is_lacking, view_items};

use pp_core::{Committed, IdSet, Item, OutOfMemory, SharedEntry};
use pp_kind::{Parted, Placed};
use pp_log_shared::Shared;
use pp_summary::{Commits, OpenTx, Own, Parts, Seen};
use std::alloc::Global;

/// Adds the operations at a place.
pub fn add_items<S: Placed>(
    list: &mut Vec<Item<S::Op>>,
    items: &[Item<S::Op>],
    place: u16,
) -> Result<(), OutOfMemory>
    ensures { OnOk result
        (list.new.items ≡ list.old.items ++ items_at S.place_of place items.now) }
{
    for item in items {
        if S::place(&item.op) == place {
            list.push(*item)?;
        }
    }
    Ok(())
}

/// The committed operations at a place, in commit order.
pub fn committed_at<S: Placed>(
    alloc: Global,
    committed: &Committed<S::Op>,
    place: u16,
) -> Result<Vec<Item<S::Op>>, OutOfMemory>
    ensures { IfOk result (λ list. list.items ≡ serial_at S.place_of place committed.now) }
{
    let mut list = Vec::new(alloc);
    for transaction in committed.as_slice() {
        add_items::<S>(&mut list, transaction.entries.as_slice(), place)?;
    }
    Ok(list)
}

/// How many commits at a place the transaction has seen.
fn count_seen(seen: &Seen, place: u16) -> usize
    ensures { result ≡ seen_of seen.now.entries place }
{
    match seen.get(place) {
        None => 0,
        Some(count) => count,
    }
}

/// The operations that a transaction has at a place: the commits there that it has seen, and then
/// its own operations.
pub(crate) fn make_view<S: Parted>(
    parts: &Parts<S::Shape, S::Op, Shared<S>, Own<S>>,
    it: &OpenTx<Own<S>>,
    place: u16,
) -> Result<Vec<Item<S::Op>>, OutOfMemory>
    ensures { IfOk result (λ list. list.items ≡ view_items S.place_of place parts.now it.now) }
{
    let mut list = committed_at::<S>(parts.alloc, &parts.committed, place)?;
    list.truncate(count_seen(&it.seen, place));
    add_items::<S>(&mut list, it.own.as_slice(), place)?;
    Ok(list)
}

/// The ids of the commits at a place.
fn commits_at(commits: &Commits, place: u16) -> &[u32]
    ensures { result.now ≡ at place commits.now.items }
{
    match commits.get(usize::from(place)) {
        None => &[],
        Some(done) => done.as_slice(),
    }
}

/// Adds an id unless it is in the set.
fn add_id(ids: &mut IdSet, id: u32) -> Result<(), OutOfMemory>
    ensures { OnOk result ((j : ℕ) → list_any (λ i. j == i) ids.new
        ≡ (list_any (λ i. j == i) ids.old || (id == j))) }
{
    if ids.contains(id) {
        return Ok(());
    }
    ids.insert(id)
}

/// The first ids of a list, at most this many.
fn first_ids(alloc: Global, ids: &[u32], count: usize) -> Result<IdSet, OutOfMemory>
    ensures { IfOk result (λ set. (j : ℕ) →
        list_any (λ i. j == i) set ≡ has_id j (take count ids.now)) }
{
    let mut set = IdSet::new(alloc);
    for k in 0..count.min(ids.len()) {
        add_id(&mut set, ids[k])?;
    }
    Ok(set)
}

/// Whether an entry is a commit at a place, and its id is not among those seen.
fn is_missing<S: Placed>(entry: &SharedEntry<S::Op>, place: u16, seen: &IdSet) -> bool
    ensures { result ≡ is_lacking S.place_of place seen.now entry.now }
{
    entry.committed && S::place(&entry.op) == place && !seen.contains(entry.id)
}

/// The entries that are commits at a place, and whose ids are not among those seen.
fn missing_in<S: Placed>(
    alloc: Global,
    entries: &[SharedEntry<S::Op>],
    place: u16,
    seen: &IdSet,
) -> Result<Vec<SharedEntry<S::Op>>, OutOfMemory>
    ensures { IfOk result (λ list. list.items
        ≡ filter (is_lacking S.place_of place seen.now) entries.now) }
{
    let mut list = Vec::new(alloc);
    for entry in entries {
        if is_missing::<S>(entry, place, seen) {
            list.push(*entry)?;
        }
    }
    Ok(list)
}

/// The commits at a place that the transaction has not seen, in the order of the shared log.
pub(crate) fn find_missing<S: Parted>(
    parts: &Parts<S::Shape, S::Op, Shared<S>, Own<S>>,
    it: &OpenTx<Own<S>>,
    place: u16,
) -> Result<Vec<SharedEntry<S::Op>>, OutOfMemory>
    requires keeps { KeepsQuick S.object S.place_of parts.now }
    ensures { IfOk result (λ list. (t : NameOf) → list.items
        ≡ summary_missing S.place_of place (kept_summary parts.now) (kept_open t it.now)) }
{
    let ids = commits_at(&parts.commits, place);
    let seen = first_ids(parts.alloc, ids, count_seen(&it.seen, place))?;
    missing_in::<S>(parts.alloc, parts.shared.entries(), place, &seen)
}
