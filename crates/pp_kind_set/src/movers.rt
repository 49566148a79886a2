//! Which pairs of operations swap, by a table.
ghost use Rattle.std.specs.Prelude.{◌≡◌};
ghost use Rattle.pp_kind.specs.Object.{Swaps};
ghost use Rattle.pp_kind.specs.Gates.{IsGateBefore};
ghost use Rattle.pp_kind_set.specs.Sets.{key_set};
ghost use Rattle.pp_kind_set.specs.Movers.{no_figures, form_of, set_table, may_swap, number_of};

use crate::op::SetOp;
use pp_kind::Condition::{Always, Never};
use pp_kind::{Figures, Gate, MoverTable, Reading};

/// The row and the column of an operation's form, which is its call with its result.
#[inline(always)]
pub fn form(op: &SetOp) -> usize
    ensures { result ≡ form_of op.now }
{
    match *op {
        SetOp::Add { key: _, changed } => if changed { 0 } else { 1 },
        SetOp::Remove { key: _, changed } => if changed { 2 } else { 3 },
        SetOp::Contains { key: _, present } => if present { 4 } else { 5 },
    }
}

/// No condition of the table reads a number.
#[inline(always)]
fn no_figures() -> Figures
    ensures { result ≡ no_figures }
{
    Figures {
        from: 0,
        to: 0,
        shift: 0,
    }
}

/// A condition for each pair of forms: a row for the first operation, a column for the second.
#[inline(always)]
fn mover_table() -> MoverTable<6>
    ensures { result.rows ≡ set_table }
{
    let add_new = [Always, Never, Never, Always, Never, Always];
    let add_old = [Always, Always, Never, Always, Always, Always];
    let remove_old = [Never, Always, Always, Never, Always, Never];
    let remove_none = [Never, Always, Always, Always, Always, Always];
    let contains = [Always, Always, Never, Always, Always, Always];
    let lacks = [Never, Always, Always, Always, Always, Always];
    MoverTable::new([add_new, add_old, remove_old, remove_none, contains, lacks])
}

/// Whether two operations swap: always at different keys, and by the table at one.
#[inline(always)]
pub fn may_swap(a: &SetOp, b: &SetOp) -> bool
    ensures { result ≡ may_swap a.now b.now }
{
    if a.key() == b.key() {
        mover_table().holds(form(a), &no_figures(), form(b), &no_figures())
    } else {
        true
    }
}

/// The operations of a form that are known to swap with this one after them, by their numbers.
#[inline(always)]
pub fn gate(first: usize, op: &SetOp) -> Gate
    ensures { IsGateBefore form_of number_of (Swaps key_set) first op.now result }
{
    mover_table().gate(first, Reading::To, form(op), &no_figures())
}
