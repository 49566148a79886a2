//! For each object and each transaction, the ids that the transaction pushed there.
ghost use Rattle.std.specs.Prelude.{◌≡◌, ◌==◌, ◌++◌, ◌∷◌, [], ℕ, OnOk, if◌then◌else◌};
ghost use Rattle.pp_core.specs.declared.entry.SharedEntry.{SharedEntry as EntryOf};
ghost use Rattle.pp_records.specs.Fronts.{at_name};
ghost use Rattle.pp_model.specs.Lists.{In};
ghost use Rattle.pp_model.specs.Names.{Name as NameOf};
ghost use Rattle.pp_styles.specs.Publishing.{ids_by, ids_of};

use crate::places::Places;
use indexmap::IndexMap;
use pp_core::{Name, OutOfMemory, Sequence};
use pp_kind::Parted;
use pp_log_shared::Shared;
use std::alloc::Global;

/// For each transaction the ids that it pushed on an object, in order.
pub(crate) type Owners = IndexMap<Name, Sequence<u32>>;

/// The same for each object.
pub(crate) type Lists = IndexMap<u16, Owners>;

/// Adds an id to the list of its owner.
fn add_to(
    alloc: Global,
    owners: &mut Owners,
    places: &mut Places,
    owner: &Name,
    id: u32,
) -> Result<(), OutOfMemory>
    ensures { OnOk result ((v : NameOf) → ids_of v owners.new.entries
        ≡ at_name owner.now (ids_of owner.now owners.old.entries ++ id ∷ [])
        (λ u. ids_of u owners.old.entries) v) }
{
    let mut ids = match owners.swap_remove(owner) {
        Some(ids) => ids,
        None => Sequence::new(alloc),
    };
    places.insert(id, ids.len())?;
    ids.push(id)?;
    owners.insert(*owner, ids)?;
    Ok(())
}

/// Adds an id to the list of its owner and its object.
pub(crate) fn add_on(
    alloc: Global,
    lists: &mut Lists,
    places: &mut Places,
    owner: &Name,
    object: u16,
    id: u32,
) -> Result<(), OutOfMemory>
    ensures { OnOk result ((v : NameOf) (o : ℕ) → ids_by v o lists.new.entries ≡ (if o == object
        then at_name owner.now (ids_by owner.now object lists.old.entries ++ id ∷ [])
        (λ u. ids_by u object lists.old.entries) v else ids_by v o lists.old.entries)) }
{
    let mut owners = match lists.swap_remove(&object) {
        Some(owners) => owners,
        None => IndexMap::new(alloc),
    };
    add_to(alloc, &mut owners, places, owner, id)?;
    lists.insert(object, owners)?;
    Ok(())
}

/// The ids that an owner pushed, by the lists at an object.
pub(crate) fn listed<'a>(owners: &'a Owners, owner: &Name) -> &'a [u32]
    ensures { result.now ≡ ids_of owner.now owners.now.entries }
{
    match owners.get(owner) {
        Some(ids) => ids.as_slice(),
        None => &[],
    }
}

/// Adds the id of each entry of the shared log to the list of its owner and its object.
pub(crate) fn list_all<S: Parted>(
    alloc: Global,
    lists: &mut Lists,
    places: &mut Places,
    shared: &Shared<S>,
) -> Result<(), OutOfMemory>
    ensures { OnOk result ((e : EntryOf S.Op) → In e shared.now.1 →
        In e.id (ids_by e.owner (S.place_of e.op) lists.new.entries)) }
{
    for entry in shared.entries() {
        add_on(
            alloc,
            lists,
            places,
            &entry.owner,
            S::place(&entry.op),
            entry.id,
        )?;
    }
    Ok(())
}
