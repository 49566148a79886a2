//! What the transactions that drop sources pulled from others.
ghost use Rattle.std.specs.Prelude.{◌≡◌, IfOk, OnOk, if◌then◌else◌, nat_eq};
ghost use Rattle.indexmap.specs.IndexSet.{insert_key};
ghost use Rattle.pp_records.specs.Expansions.{stands_in};
ghost use Rattle.pp_records.specs.Fronts.{at_name};
ghost use Rattle.pp_model.specs.Names.{Name as NameOf};
ghost use Rattle.pp_styles.specs.Dropping.{AddsPulled, HasPulled, KeepsThere, TrimsAt, ids_from};

use crate::walks::is_mark;
use indexmap::{IndexMap, IndexSet};
use pp_core::{LocalEntry, Mark, Name, OutOfMemory};
use pp_kind::Parted;
use pp_log_local::Local;
use std::alloc::Global;

/// For each owner the ids of entries that were pulled from it, each of them once.
type Owners = IndexMap<Name, IndexSet<u32>>;

/// Lists of what open transactions pulled. None are kept of a transaction before it drops a source.
#[derive(Drop)]
pub struct Pulled {
    alloc: Global,
    /// If lists of a transaction are kept, each pulled entry of its local log has its id in the list
    /// of its owner. An id that left the local log stays in its list until the list is trimmed.
    lists: IndexMap<Name, Owners>,
}

/// Whether an entry of this id is in the local log.
fn has_id<S: Parted>(local: &Local<S>, id: u32) -> bool
    ensures { result ≡ stands_in local.now.1 id }
{
    local.find(id).is_some()
}

/// Adds an id to the list of its owner.
fn add_to(alloc: Global, owners: &mut Owners, owner: &Name, id: u32) -> Result<(), OutOfMemory>
    ensures { OnOk result ((v : NameOf) → ids_from v owners.new.entries
        ≡ at_name owner.now (insert_key nat_eq (ids_from owner.now owners.old.entries) id)
        (λ w. ids_from w owners.old.entries) v) }
{
    let mut ids = match owners.swap_remove(owner) {
        Some(ids) => ids,
        None => IndexSet::new(alloc),
    };
    ids.insert(id)?;
    owners.insert(*owner, ids)?;
    Ok(())
}

/// Adds the id of an entry to the list of its owner, if it was pulled.
fn add_pulled<O: Copy>(
    alloc: Global,
    owners: &mut Owners,
    entry: &LocalEntry<O>,
) -> Result<(), OutOfMemory>
    ensures { OnOk result (AddsPulled entry.now (λ v. ids_from v owners.old.entries)
        (λ v. ids_from v owners.new.entries)) }
{
    if !is_mark(entry.mark, Mark::Pulled) {
        return Ok(());
    }
    add_to(alloc, owners, &entry.owner, entry.id)
}

/// The ids of all pulled entries of a local log, in the lists of their owners.
fn list_all<O: Copy>(alloc: Global, entries: &[LocalEntry<O>]) -> Result<Owners, OutOfMemory>
    ensures { IfOk result (λ owners. HasPulled (λ v. ids_from v owners.entries) entries.now) }
{
    let mut owners = IndexMap::new(alloc);
    for entry in entries {
        add_pulled(alloc, &mut owners, entry)?;
    }
    Ok(owners)
}

/// The ids that are listed of an owner.
fn listed<'a>(owners: &'a Owners, owner: &Name) -> &'a [u32]
    ensures { result.now ≡ ids_from owner.now owners.now.entries }
{
    match owners.get(owner) {
        Some(ids) => ids.as_slice(),
        None => &[],
    }
}

/// Adds an id to a list, if its entry is in the local log.
fn add_if_there<S: Parted>(
    there: &mut IndexSet<u32>,
    local: &Local<S>,
    id: u32,
) -> Result<(), OutOfMemory>
    ensures { OnOk result (there.new.keys ≡ (if stands_in local.now.1 id
        then insert_key nat_eq there.old.keys id else there.old.keys)) }
{
    if has_id(local, id) {
        there.insert(id)?;
    }
    Ok(())
}

/// Of these ids those whose entries are in the local log.
fn ids_there<S: Parted>(
    alloc: Global,
    local: &Local<S>,
    ids: &[u32],
) -> Result<IndexSet<u32>, OutOfMemory>
    ensures { IfOk result (λ there. KeepsThere local.now.1 ids.now there.keys) }
{
    let mut there = IndexSet::new(alloc);
    for id in ids {
        add_if_there(&mut there, local, *id)?;
    }
    Ok(there)
}

/// Keeps in the list of an owner only the ids whose entries are in the local log. If memory runs
/// out, the list is as it was.
fn trim_at<S: Parted>(alloc: Global, owners: &mut Owners, owner: &Name, local: &Local<S>)
    ensures { TrimsAt owner.now local.now.1 (λ v. ids_from v owners.old.entries)
        (λ v. ids_from v owners.new.entries) }
{
    let Some(ids) = owners.get_mut(owner) else {
        return;
    };
    if let Ok(there) = ids_there(alloc, local, ids.as_slice()) {
        *ids = there;
    }
}

impl Pulled {
    ghost use Rattle.std.specs.Prelude.{◌≡◌, IfSome, false, true};
    ghost use Rattle.pp_model.specs.Names.{Name as NameOf};
    ghost use Rattle.pp_styles.specs.Dropping.{AddsAt, Looks, Loses, Puts, Trims, ids_from, pullings};

    /// No lists are kept.
    pub fn new(alloc: Global) -> Pulled
        ensures { (u : NameOf) → (pullings result).kept u ≡ false }
    {
        Pulled {
            alloc,
            lists: IndexMap::new(alloc),
        }
    }

    /// Keeps no lists of a transaction.
    pub fn forget(&mut self, tx: &Name)
        ensures { Loses (pullings self.old) (pullings self.new) }
    {
        self.lists.swap_remove(tx);
    }

    /// Adds an id that a transaction pulls to the list of its owner, if lists of the transaction are
    /// kept. If memory runs out, none are kept of it.
    pub fn add(&mut self, tx: &Name, owner: &Name, id: u32)
        ensures { AddsAt tx.now owner.now id (pullings self.old) (pullings self.new) }
    {
        let Some(mut owners) = self.lists.swap_remove(tx) else {
            return;
        };
        if let Ok(()) = add_to(self.alloc, &mut owners, owner, id) {
            let _ = self.lists.insert(*tx, owners);
        }
    }

    /// Keeps these lists of a transaction. If memory runs out, none are kept of it.
    fn put(&mut self, tx: &Name, owners: Owners)
        ensures { Puts tx.now (λ v. ids_from v owners.entries) (pullings self.old)
            (pullings self.new) }
    {
        let _ = self.lists.insert(*tx, owners);
    }

    /// Begins to keep lists of what an open transaction pulled, unless they are kept. If memory runs
    /// out, none are kept of it.
    pub fn look<O: Copy>(&mut self, tx: &Name, entries: &[LocalEntry<O>])
        ensures { Looks tx.now entries.now (pullings self.old) (pullings self.new) }
    {
        if self.lists.contains_key(tx) {
            return;
        }
        if let Ok(owners) = list_all(self.alloc, entries) {
            self.put(tx, owners);
        }
    }

    /// Keeps in a list of a transaction only the ids whose entries are in its local log. If memory
    /// runs out, the list is as it was.
    pub fn trim<S: Parted>(&mut self, tx: &Name, owner: &Name, local: &Local<S>)
        ensures { Trims tx.now owner.now local.now.1 (pullings self.old) (pullings self.new) }
    {
        if let Some(owners) = self.lists.get_mut(tx) {
            trim_at(self.alloc, owners, owner, local);
        }
    }

    /// The ids that are listed of what a transaction pulled from an owner, if lists are kept.
    pub fn ids(&self, tx: &Name, owner: &Name) -> Option<&[u32]>
        ensures { IfSome result (λ ids. ((pullings self.now).kept tx.now ≡ true)
            × (ids.now ≡ (pullings self.now).ids tx.now owner.now)) }
    {
        let owners = self.lists.get(tx)?;
        Some(listed(owners, owner))
    }
}
