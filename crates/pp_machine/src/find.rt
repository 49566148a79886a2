//! The look-ups of the machine in logs.
ghost use Rattle.std.specs.Prelude.{◌≡◌, ◌<◌, length, ◌==◌, ◌&&◌, not, Some, None};
ghost use Rattle.std.specs.Prelude.{position, slice_get, option_map, MatchOption, IfOk, IfSome};
ghost use Rattle.pp_model.specs.Config.{is_mark, is_own, last, own_items, at_mark, of_other};
ghost use Rattle.pp_core.specs.declared.entry.LocalEntry.{LocalEntry as EntryOf};
ghost use Rattle.pp_model.specs.Rules.{IsLast};
ghost use Rattle.pp_machine.specs.Finding.{AreDistinct, HaveOwnIds, IsLastUnpushed};
ghost use Rattle.pp_machine.specs.Standing.{stands_committed};

use pp_core::{Item, Items, LocalEntry, Mark, Name, OutOfMemory, SharedEntry};
use pp_kind::Parted;
use pp_log_local::Local;
use pp_log_shared::Shared;
use std::alloc::Global;

/// Whether two marks are one.
fn is_mark(mark: Mark, other: Mark) -> bool
    ensures { result ≡ is_mark mark other }
{
    mark == other
}

/// Whether an entry of this mark is own.
pub fn is_own(mark: Mark) -> bool
    ensures { result ≡ is_own mark }
{
    mark != Mark::Pulled
}

/// The entry of this id and mark, with its position.
pub fn marked_at<S: Parted>(
    local: &Local<S>,
    id: u32,
    mark: Mark,
) -> Option<(usize, LocalEntry<S::Op>)>
    requires { AreDistinct local.now.1 }
    ensures entry { option_map (λ r. r.1) result ≡ at_mark id mark local.now.1 }
    ensures place { IfSome result (λ r. slice_get local.now.1 r.0 ≡ Some r.1) }
    ensures found { IfSome result (λ r. position (λ e. e.id == id) local.now.1 ≡ Some r.0) }
{
    let i = local.find(id)?;
    let entry = local.entry(i)?;
    if is_mark(entry.mark, mark) {
        Some((i, *entry))
    } else {
        None
    }
}

/// The position of the last entry, if it has this id and is own and unpushed.
pub fn last_unpushed<O: Copy>(entries: &[LocalEntry<O>], id: u32) -> Option<usize>
    ensures { MatchOption result (IsLast id (last entries.now) → ⊥)
        (IsLastUnpushed id entries.now) }
{
    let last = entries.last()?;
    if last.id == id && is_mark(last.mark, Mark::Unpushed) {
        Some(entries.len() - 1)
    } else {
        None
    }
}

/// Whether the entry at a position is own.
pub fn is_own_at<O: Copy>(entries: &[LocalEntry<O>], i: usize) -> bool
    requires { i < length entries.now }
    ensures { (e : EntryOf O) → slice_get entries.now i ≡ Some e → result ≡ is_own e.mark }
{
    let entry = &entries[i];
    is_own(entry.mark)
}

/// The entry of this id that another owns.
pub fn other_at<S: Parted>(shared: &Shared<S>, owner: &Name, id: u32) -> Option<SharedEntry<S::Op>>
    requires { HaveOwnIds shared.now.1 }
    ensures { result ≡ of_other owner.now id shared.now.1 }
{
    let i = shared.find(id)?;
    let entry = shared.entry(i)?;
    if entry.owner.same(owner) {
        None
    } else {
        Some(*entry)
    }
}

/// The position of the first own entry that is not pushed.
pub fn first_unpushed<O: Copy>(entries: &[LocalEntry<O>]) -> Option<usize>
    ensures { result ≡ position (λ e. is_mark e.mark Mark.Unpushed) entries.now }
{
    entries
        .iter()
        .position(|entry| is_mark(entry.mark, Mark::Unpushed))
}

/// Whether the entry of this id is committed.
fn stands_committed<S: Parted>(shared: &Shared<S>, id: u32) -> bool
    ensures { result ≡ stands_committed id shared.now.1 }
{
    let Some(i) = shared.find(id) else {
        return false;
    };
    let Some(entry) = shared.entry(i) else {
        return false;
    };
    entry.committed
}

/// The position of the first pulled entry that is not committed.
pub fn first_not_standing<S: Parted>(
    entries: &[LocalEntry<S::Op>],
    shared: &Shared<S>,
) -> Option<usize>
    ensures { result ≡ position (λ e. is_mark e.mark Mark.Pulled
        && not (stands_committed e.id shared.now.1)) entries.now }
{
    entries.iter().position(|entry| is_mark(entry.mark, Mark::Pulled)
        && !stands_committed(shared, entry.id))
}

/// The own entries.
pub fn own_items<O: Copy>(alloc: Global, entries: &[LocalEntry<O>]) -> Result<Items<O>, OutOfMemory>
    ensures { IfOk result (λ items. items ≡ own_items entries.now) }
{
    let mut items = Items::new(alloc);
    for entry in entries {
        if is_own(entry.mark) {
            items.push(Item {
                id: entry.id,
                op: entry.op,
            })?;
        }
    }
    Ok(items)
}
