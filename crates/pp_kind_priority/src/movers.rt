//! Which pairs of operations swap, by a table.
ghost use Rattle.std.specs.Prelude.{◌≡◌};
ghost use Rattle.pp_kind.specs.Object.{Swaps};
ghost use Rattle.pp_kind.specs.Gates.{IsGateBefore};
ghost use Rattle.pp_kind_priority.specs.Prios.{prio};
ghost use Rattle.pp_kind_priority.specs.Movers.{figures_of, form_of, may_swap, number_of, prio_table};
ghost use Rattle.pp_kind_priority.specs.Movers.{value_of};

use crate::op::PrioOp;
use pp_kind::Condition::{Always, Falling, Never, Rising, Unequal};
use pp_kind::{Figures, Gate, MoverTable, Reading};

/// The row and the column of an operation's form.
#[inline(always)]
pub fn form(op: &PrioOp) -> usize
    ensures { result ≡ form_of op.now }
{
    match *op {
        PrioOp::Insert { value: _ } => 0,
        PrioOp::Take { value: Some(_) } => 1,
        PrioOp::Least { value: Some(_) } => 2,
        PrioOp::Take { value: None } => 3,
        PrioOp::Least { value: None } => 3,
    }
}

/// The value that an operation adds or finds, and else 0.
#[inline(always)]
fn value_of(op: &PrioOp) -> i64
    ensures { result ≡ value_of op.now }
{
    match *op {
        PrioOp::Insert { value } => value,
        PrioOp::Take { value } => value.unwrap_or(0),
        PrioOp::Least { value } => value.unwrap_or(0),
    }
}

/// The numbers of an operation that a condition reads.
#[inline(always)]
fn figures(op: &PrioOp) -> Figures
    ensures { result ≡ figures_of op.now }
{
    let value = value_of(op);
    Figures {
        from: i128::from(value),
        to: i128::from(value),
        shift: 0,
    }
}

/// The number that it leads to.
#[inline(always)]
pub fn number(op: &PrioOp) -> i128
    ensures { result ≡ number_of op.now }
{
    figures(op).to
}

/// A condition for each pair of forms: a row for the first operation, a column for the second.
#[inline(always)]
fn mover_table() -> MoverTable<4>
    ensures { result.rows ≡ prio_table }
{
    let insert = [Always, Unequal, Unequal, Always];
    let take = [Rising, Falling, Falling, Never];
    let least = [Rising, Unequal, Always, Always];
    let empty = [Never, Always, Always, Always];
    MoverTable::new([insert, take, least, empty])
}

/// Whether two operations swap, by the table.
#[inline(always)]
pub fn may_swap(a: &PrioOp, b: &PrioOp) -> bool
    ensures { result ≡ may_swap a.now b.now }
{
    mover_table().holds(form(a), &figures(a), form(b), &figures(b))
}

/// The operations of a form that are known to swap with this one after them, by their numbers.
#[inline(always)]
pub fn gate(first: usize, op: &PrioOp) -> Gate
    ensures { IsGateBefore form_of number_of (Swaps prio) first op.now result }
{
    mover_table().gate(first, Reading::To, form(op), &figures(op))
}
