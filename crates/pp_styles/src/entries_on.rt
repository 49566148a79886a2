//! How many entries of the shared log are on each object. They decide only what is faster, so that
//! nothing is promised of them.
use indexmap::IndexMap;
use pp_kind::Parted;
use pp_log_shared::Shared;
use std::alloc::Global;

/// For each object a number of entries. Objects without a number have none.
pub(crate) type Counts = IndexMap<u16, usize>;

/// The number of entries on an object.
pub(crate) fn count_of(counts: &Counts, object: u16) -> usize {
    counts.get(&object).copied().unwrap_or(0)
}

/// Counts one more. If memory runs out, the object may have no number.
pub(crate) fn count_more(counts: &mut Counts, object: u16) {
    let count = count_of(counts, object).saturating_add(1);
    let _ = counts.insert(object, count);
}

/// Counts one less.
pub(crate) fn count_less(counts: &mut Counts, object: u16) {
    if let Some(count) = counts.get_mut(&object) {
        *count = count.saturating_sub(1);
    }
}

/// The numbers of all entries.
pub(crate) fn count_all<S: Parted>(alloc: Global, shared: &Shared<S>) -> Counts {
    let mut counts = Counts::new(alloc);
    for entry in shared.entries() {
        count_more(&mut counts, S::place(&entry.op));
    }
    counts
}
