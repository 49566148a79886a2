//! Which pairs of operations swap, by a table.
ghost use Rattle.std.specs.Prelude.{◌≡◌};
ghost use Rattle.pp_kind.specs.Object.{Swaps};
ghost use Rattle.pp_kind.specs.Gates.{IsGateBefore};
ghost use Rattle.pp_kind_stack.specs.Stacks.{stack};
ghost use Rattle.pp_kind_stack.specs.Movers.{figures_of, form_of, stack_table, may_swap, number_of};

use crate::op::StackOp;
use pp_kind::Condition::{Always, Equal, Never, Unequal};
use pp_kind::{Figures, Gate, MoverTable, Reading};

/// The row and the column of an operation's form.
#[inline(always)]
pub fn form(op: &StackOp) -> usize
    ensures { result ≡ form_of op.now }
{
    match *op {
        StackOp::Push { value: _ } => 0,
        StackOp::Pop { value: Some(_) } => 1,
        StackOp::Pop { value: None } => 2,
    }
}

/// The numbers of an operation that a condition reads.
#[inline(always)]
fn figures(op: &StackOp) -> Figures
    ensures { result ≡ figures_of op.now }
{
    let item = match *op {
        StackOp::Push { value } => value,
        StackOp::Pop { value: Some(item) } => item,
        StackOp::Pop { value: None } => 0,
    };
    Figures {
        from: i128::from(item),
        to: i128::from(item),
        shift: 0,
    }
}

/// The number that it leads to.
#[inline(always)]
pub fn number(op: &StackOp) -> i128
    ensures { result ≡ number_of op.now }
{
    figures(op).to
}

/// A condition for each pair of forms: a row for the first operation, a column for the second.
#[inline(always)]
fn mover_table() -> MoverTable<3>
    ensures { result.rows ≡ stack_table }
{
    let push = [Equal, Unequal, Always];
    let pop = [Equal, Equal, Never];
    let empty = [Never, Always, Always];
    MoverTable::new([push, pop, empty])
}

/// Whether two operations swap, by the table.
#[inline(always)]
pub fn may_swap(a: &StackOp, b: &StackOp) -> bool
    ensures { result ≡ may_swap a.now b.now }
{
    mover_table().holds(form(a), &figures(a), form(b), &figures(b))
}

/// The operations of a form that are known to swap with this one after them, by their numbers.
#[inline(always)]
pub fn gate(first: usize, op: &StackOp) -> Gate
    ensures { IsGateBefore form_of number_of (Swaps stack) first op.now result }
{
    mover_table().gate(first, Reading::To, form(op), &figures(op))
}
