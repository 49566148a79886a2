//! The slots of the transactions.
ghost use Rattle.std.specs.Prelude.{◌≡◌, ◌++◌, ◌∷◌, [], IfNone, IfSome, IsSome, None, Some, OnOk};
ghost use Rattle.std.specs.Prelude.{option_copied};
ghost use Rattle.std.specs.Map.{lookup, set_value};
ghost use Rattle.std.specs.Str.{bytes_eq};
ghost use Rattle.pp_summary.specs.Shown.{open_in};

use indexmap::IndexMap;
use pp_core::{Name, OutOfMemory};

/// Each name that has begun, with its transaction while that is open.
pub type Slots<T> = IndexMap<Name, Option<T>>;

/// The open transaction of a name.
pub fn find_open<'a, T>(slots: &'a Slots<T>, tx: &Name) -> Option<&'a T>
    ensures { option_copied result ≡ open_in tx.now slots.now.entries }
{
    let slot = slots.get(tx)?;
    slot.as_ref()
}

/// Empties the slot of an open name, and returns what was in it. It changes nothing if the name is
/// not open.
pub fn take_out<T>(slots: &mut Slots<T>, tx: &Name) -> Option<T>
    ensures found { result ≡ open_in tx.now slots.old.entries }
    ensures emptied { IfSome result (λ x. slots.new.entries
        ≡ set_value (bytes_eq tx.now) slots.old.entries None) }
    ensures same { IfNone result (slots.new ≡ slots.old) }
{
    let slot = slots.get_mut(tx)?;
    slot.take()
}

/// Fills the slot of a name that has a slot.
pub fn put_back<T: Drop>(slots: &mut Slots<T>, tx: &Name, it: T)
    requires { IsSome (lookup (bytes_eq tx.now) slots.old.entries) }
    ensures { slots.new.entries ≡ set_value (bytes_eq tx.now) slots.old.entries (Some it) }
{
    let Some(slot) = slots.get_mut(tx) else {
        unreachable!()
    };
    *slot = Some(it);
}

/// Adds a slot for a name that has none. The only error is out of memory.
pub fn put_new<T: Drop>(slots: &mut Slots<T>, tx: &Name, slot: Option<T>) -> Result<(), OutOfMemory>
    requires { lookup (bytes_eq tx.now) slots.old.entries ≡ None }
    ensures { OnOk result (slots.new.entries ≡ slots.old.entries ++ (tx.now, slot) ∷ []) }
{
    slots.insert(*tx, slot)?;
    Ok(())
}
