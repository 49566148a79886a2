//! What a transaction pulls: the entries of an object that it lacks.
ghost use Rattle.std.specs.Prelude.{◌≡◌, ◌++◌, IfNone, IfOk, IfSome, IsSorted, OnOk, drop};
ghost use Rattle.std.specs.Ordering.{nat_cmp};
ghost use Rattle.std.specs.Option.{option_copied};
ghost use Rattle.pp_records.specs.Expansions.{follow, is_followed, refresh, stands_in, touches};
ghost use Rattle.pp_log.specs.Logs.{IsFirstFrom, IsOn, NoneFrom};
ghost use Rattle.pp_model.specs.Config.{shared_item};
ghost use Rattle.pp_styles.specs.Meanings.{meanings};
ghost use Rattle.pp_styles.specs.Knowing.{HoldsPositions, HoldsWanted, IsAllBut, IsFollowedBut};
ghost use Rattle.pp_styles.specs.Pulling.{pull_followed, pull_on, pull_unless};
ghost use Rattle.pp_styles.specs.Sources.{kept_sources};

use crate::source_set::{SourceSet, is_among};
use crate::step_list::{StepList, add};
use pp_core::{MOST_OBJECTS, Name, OutOfMemory, SharedEntry, Step};
use pp_kind::Parted;
use pp_log_local::Local;
use pp_log_shared::Shared;
use std::alloc::Global;

/// How many entries are looked at, one after another, before the index is asked. If the objects of a
/// run take turns, the next entry on one of them is no further.
const NEAR: usize = MOST_OBJECTS;

/// Whether an entry of this id is in the log. It looks first at the position of the hint, and moves
/// the hint after what it finds: entries that were pulled are mostly in the order in which they are
/// looked for.
fn stands_in<S: Parted>(local: &Local<S>, id: u32, hint: &mut usize) -> bool
    ensures { result ≡ stands_in local.now.1 id }
{
    let entries = local.entries();
    if *hint < entries.len() && entries[*hint].id == id {
        *hint += 1;
        return true;
    }
    let Some(at) = local.find(id) else {
        return false;
    };
    *hint = at + 1;
    true
}

/// Whether an entry from a position on is on the object.
pub fn touches<S: Parted>(local: &Local<S>, object: u16, from: usize) -> bool
    ensures { result ≡ touches S.place_of object (drop from local.now.1) }
{
    local.next_on(object, from).is_some()
}

/// The first position at `from` or after it whose operation is on the object, as `Shared::next_on`
/// has it. It looks at the next entries, one after another, and asks the index only if none of these
/// is on the object: most entries of a busy object are close together.
fn next_near<S: Parted>(shared: &Shared<S>, object: u16, from: usize) -> Option<usize>
    ensures found { IfSome result
        (IsFirstFrom (IsOn S.place_of shared_item object) shared.now.1 from) }
    ensures none { IfNone result
        (NoneFrom (IsOn S.place_of shared_item object) shared.now.1 from) }
{
    let entries = shared.entries();
    let end = entries.len().min(from.saturating_add(NEAR));
    let mut at = from;
    'look: while at < end {
        if S::place(&entries[at].op) == object {
            return Some(at);
        }
        at += 1;
    }
    shared.next_on(object, at)
}

/// Adds PULL of an entry that is not in the local log. The hint is that of `stands_in`.
fn pull_missing<S: Parted>(
    list: &mut StepList<S::Op>,
    tx: &Name,
    id: u32,
    local: &Local<S>,
    hint: &mut usize,
) -> Result<(), OutOfMemory>
    ensures { OnOk result (meanings list.new
        ≡ meanings list.old ++ pull_unless (stands_in local.now.1 id) tx.now id) }
{
    if stands_in(local, id, hint) {
        return Ok(());
    }
    add(list, Step::Pull { tx: *tx, id })
}

/// Whether an entry is committed or owned by a source.
fn is_followed<O: Copy>(sources: Option<&SourceSet>, entry: &SharedEntry<O>) -> bool
    ensures { result ≡ is_followed (kept_sources (option_copied sources.entry)) entry.now }
{
    entry.committed || is_among(sources, &entry.owner)
}

/// Adds PULL of an entry that is followed and not in the local log. The hint is that of
/// `stands_in`.
fn pull_followed<S: Parted>(
    list: &mut StepList<S::Op>,
    tx: &Name,
    sources: Option<&SourceSet>,
    entry: &SharedEntry<S::Op>,
    local: &Local<S>,
    hint: &mut usize,
) -> Result<(), OutOfMemory>
    ensures { OnOk result (meanings list.new ≡ meanings list.old
        ++ pull_followed (kept_sources (option_copied sources.entry)) local.now.1 tx.now
        entry.now) }
{
    if !is_followed(sources, entry) {
        return Ok(());
    }
    pull_missing(list, tx, entry.id, local, hint)
}

/// Adds PULL of each entry on the object that is committed or owned by a source and not in the local
/// log, in order. The only error is out of memory, and the list is then of no more use.
pub fn follow<S: Parted>(
    list: &mut StepList<S::Op>,
    tx: &Name,
    object: u16,
    sources: Option<&SourceSet>,
    shared: &Shared<S>,
    local: &Local<S>,
) -> Result<(), OutOfMemory>
    ensures { OnOk result (meanings list.new ≡ meanings list.old
        ++ follow S.place_of tx.now object (kept_sources (option_copied sources.entry)) shared.now.1
        local.now.1) }
{
    let entries = shared.entries();
    let mut from = 0;
    let mut hint = 0;
    'pulls: while from < entries.len() {
        let Some(at) = next_near(shared, object, from) else {
            return Ok(());
        };
        let entry = &entries[at];
        pull_followed(list, tx, sources, entry, local, &mut hint)?;
        from = at + 1;
    }
    Ok(())
}

/// The positions in the shared log at which these ids are, in ascending order.
fn positions<S: Parted>(
    alloc: Global,
    shared: &Shared<S>,
    ids: &[u32],
) -> Result<Vec<usize>, OutOfMemory>
    ensures { IfOk result (λ at. IsSorted nat_cmp at.items
        × HoldsPositions ids.now shared.now.1 at.items) }
{
    // It is called for what its clauses say of each log.
    let _distinct = shared.len();
    let mut at = Vec::new(alloc);
    for id in ids {
        if let Some(position) = shared.find(*id) {
            at.push(position)?;
        }
    }
    at.sort()?;
    Ok(at)
}

/// Adds PULL of an entry that is followed, on the object, and not in the local log. The hint is that
/// of `stands_in`.
fn pull_on<S: Parted>(
    list: &mut StepList<S::Op>,
    tx: &Name,
    object: u16,
    sources: Option<&SourceSet>,
    entry: &SharedEntry<S::Op>,
    local: &Local<S>,
    hint: &mut usize,
) -> Result<(), OutOfMemory>
    ensures { OnOk result (meanings list.new ≡ meanings list.old
        ++ pull_on S.place_of object (kept_sources (option_copied sources.entry)) local.now.1 tx.now
        entry.now) }
{
    if S::place(&entry.op) != object {
        return Ok(());
    }
    pull_followed(list, tx, sources, entry, local, hint)
}

/// Adds PULL of the entries at these positions that are followed, on the object, and not in the
/// local log.
fn pull_at<S: Parted>(
    list: &mut StepList<S::Op>,
    tx: &Name,
    object: u16,
    sources: Option<&SourceSet>,
    at: &[usize],
    shared: &Shared<S>,
    local: &Local<S>,
) -> Result<(), OutOfMemory>
    requires sorted { IsSorted nat_cmp at.now }
    requires all { HoldsWanted S.place_of object (kept_sources (option_copied sources))
        shared.now.1 local.now.1 at.now }
    ensures { OnOk result (meanings list.new ≡ meanings list.old
        ++ follow S.place_of tx.now object (kept_sources (option_copied sources.entry)) shared.now.1
        local.now.1) }
{
    let entries = shared.entries();
    let mut from = 0;
    let mut hint = 0;
    for position in at {
        // No position counts twice.
        if *position >= from && *position < entries.len() {
            pull_on(
                list,
                tx,
                object,
                sources,
                &entries[*position],
                local,
                &mut hint,
            )?;
            from = *position + 1;
        }
    }
    Ok(())
}

/// Adds what `follow` adds. It is given ids of entries, and looks at no others: each entry that
/// `follow` pulls is among these.
pub fn follow_ids<S: Parted>(
    alloc: Global,
    list: &mut StepList<S::Op>,
    tx: &Name,
    object: u16,
    sources: Option<&SourceSet>,
    ids: &[u32],
    shared: &Shared<S>,
    local: &Local<S>,
) -> Result<(), OutOfMemory>
    requires { IsFollowedBut S.place_of object (kept_sources (option_copied sources))
        shared.now.1 local.now.1 ids.now }
    ensures { OnOk result (meanings list.new ≡ meanings list.old
        ++ follow S.place_of tx.now object (kept_sources (option_copied sources.entry)) shared.now.1
        local.now.1) }
{
    if ids.is_empty() {
        return Ok(());
    }
    let at = positions(alloc, shared, ids)?;
    pull_at(list, tx, object, sources, &at, shared, local)
}

/// Adds the steps by which a transaction pulls what is committed on an object: PULL of each committed
/// entry on it that is not in the local log, in the order of the shared log. It is given ids of
/// committed entries, and looks at no others: each entry that is pulled is among these. The only
/// error is out of memory, and the list is then of no more use.
pub fn refresh<S: Parted>(
    alloc: Global,
    list: &mut StepList<S::Op>,
    tx: &Name,
    object: u16,
    ids: &[u32],
    shared: &Shared<S>,
    local: &Local<S>,
) -> Result<(), OutOfMemory>
    requires { IsAllBut S.place_of object shared.now.1 local.now.1 ids.now }
    ensures { OnOk result (meanings list.new
        ≡ meanings list.old ++ refresh S.place_of tx.now object shared.now.1 local.now.1) }
{
    follow_ids(alloc, list, tx, object, None, ids, shared, local)
}
