//! The own lists of the transactions, while the steps of a run are read.
ghost use Rattle.std.specs.Prelude.{◌≡◌, ◌++◌, ◌∷◌, ◌-◌, [], cond, OnOk, length, take};
ghost use Rattle.pp_model.specs.Names.{Name as NameOf, ◌=ⁿ◌};
ghost use Rattle.pp_attempts.specs.Lists.{list_of};

use indexmap::IndexMap;
use pp_core::{Item, Name, OutOfMemory};
use std::alloc::Global;

/// The own list of each name that has applied something.
pub(crate) type Lists<O> = IndexMap<Name, Vec<Item<O>>>;

/// Adds an item to the list of the name.
pub(crate) fn apply<O: Copy>(
    alloc: Global,
    lists: &mut Lists<O>,
    tx: &Name,
    item: Item<O>,
) -> Result<(), OutOfMemory>
    ensures { OnOk result ((t : NameOf) → list_of t lists.new.entries
        ≡ cond (tx.now =ⁿ t) (list_of t lists.old.entries ++ item ∷ [])
        (list_of t lists.old.entries)) }
{
    if let Some(list) = lists.get_mut(tx) {
        list.push(item)?;
        return Ok(());
    }
    let mut list = Vec::new(alloc);
    list.push(item)?;
    lists.insert(*tx, list)?;
    Ok(())
}

/// The list of the name, which is empty if nothing is kept of it.
pub(crate) fn own<'a, O: Copy>(lists: &'a Lists<O>, tx: &Name) -> &'a [Item<O>]
    ensures { result.now ≡ list_of tx.now lists.now.entries }
{
    match lists.get(tx) {
        Some(list) => list,
        None => &[],
    }
}

/// Takes the last item from the list of the name, if it has one.
pub(crate) fn unapply<O: Copy>(lists: &mut Lists<O>, tx: &Name)
    ensures { (t : NameOf) → list_of t lists.new.entries ≡ cond (tx.now =ⁿ t)
        (take (length (list_of t lists.old.entries) - 1) (list_of t lists.old.entries))
        (list_of t lists.old.entries) }
{
    if let Some(list) = lists.get_mut(tx) {
        list.pop();
    }
}
