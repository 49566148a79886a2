//! The entries of the shared log, and its target.
ghost use Rattle.std.specs.Prelude.{◌≡◌, ◌++◌, map, OnOk, IfOk};
ghost use Rattle.pp_model.specs.Config.{shared_item, uncommitted};
ghost use Rattle.pp_model.specs.Sound.{serial_items};

use pp_core::{CommittedTx, Item, Items, OutOfMemory, SharedEntry};
use std::alloc::Global;

/// The entries of a shared log.
pub(crate) fn log_items<O: Copy>(
    alloc: Global,
    entries: &[SharedEntry<O>],
) -> Result<Items<O>, OutOfMemory>
    ensures { IfOk result (λ list. list ≡ map shared_item entries.now) }
{
    let mut list = Items::new(alloc);
    for entry in entries {
        list.push(Item {
            id: entry.id,
            op: entry.op,
        })?;
    }
    Ok(list)
}

/// Adds the entries of one transaction.
fn add_items<O: Copy>(list: &mut Items<O>, entries: &[Item<O>]) -> Result<(), OutOfMemory>
    ensures { OnOk result (list.new ≡ list.old ++ entries.now) }
{
    for entry in entries {
        list.push(*entry)?;
    }
    Ok(())
}

/// The entries of committed transactions, one transaction after another.
pub(crate) fn committed_items<O: Copy>(
    alloc: Global,
    committed: &[CommittedTx<O>],
) -> Result<Items<O>, OutOfMemory>
    ensures { IfOk result (λ list. list ≡ serial_items committed.now) }
{
    let mut list = Items::new(alloc);
    for transaction in committed {
        add_items(&mut list, transaction.entries.as_slice())?;
    }
    Ok(list)
}

/// Adds the uncommitted entries of a shared log, in its order.
pub(crate) fn add_uncommitted<O: Copy>(
    list: &mut Items<O>,
    entries: &[SharedEntry<O>],
) -> Result<(), OutOfMemory>
    ensures { OnOk result (list.new ≡ list.old ++ map shared_item (uncommitted entries.now)) }
{
    for entry in entries {
        if !entry.committed {
            list.push(Item {
                id: entry.id,
                op: entry.op,
            })?;
        }
    }
    Ok(())
}
