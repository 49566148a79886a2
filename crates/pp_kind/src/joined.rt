//! The operations of all committed transactions.
ghost use Rattle.std.specs.Prelude.{◌≡◌, ◌++◌, IfOk, OnOk};
ghost use Rattle.pp_model.specs.Object.{ops};
ghost use Rattle.pp_model.specs.Sound.{serial_ops};

use pp_core::{Committed, Item, Ops, OutOfMemory};
use std::alloc::Global;

/// Adds the operations of one transaction.
fn add_operations<O: Copy>(list: &mut Ops<O>, entries: &[Item<O>]) -> Result<(), OutOfMemory>
    ensures { OnOk result (list.new ≡ list.old ++ ops entries.now) }
{
    for entry in entries {
        list.push(entry.op)?;
    }
    Ok(())
}

/// The operations of all transactions, in commit order.
pub(crate) fn joined_operations<O: Copy>(
    alloc: Global,
    committed: &Committed<O>,
) -> Result<Ops<O>, OutOfMemory>
    ensures { IfOk result (λ list. list ≡ serial_ops committed.now) }
{
    let mut list = Ops::new(alloc);
    for transaction in committed.as_slice() {
        add_operations(&mut list, transaction.entries.as_slice())?;
    }
    Ok(list)
}
