//! Which pairs of operations swap, by a table.
ghost use Rattle.std.specs.Prelude.{◌≡◌};
ghost use Rattle.pp_kind.specs.Object.{Swaps};
ghost use Rattle.pp_kind.specs.Gates.{IsGateBefore};
ghost use Rattle.pp_kind_queue.specs.Fifo.{fifo};
ghost use Rattle.pp_kind_queue.specs.Movers.{figures_of, form_of, queue_table, may_swap, number_of};

use crate::op::QueueOp;
use pp_kind::Condition::{Always, Equal, Never, Unequal};
use pp_kind::{Figures, Gate, MoverTable, Reading};

/// The row and the column of an operation's form.
#[inline(always)]
pub fn form(op: &QueueOp) -> usize
    ensures { result ≡ form_of op.now }
{
    match *op {
        QueueOp::Enq { value: _ } => 0,
        QueueOp::Deq { value: Some(_) } => 1,
        QueueOp::Deq { value: None } => 2,
    }
}

/// The numbers of an operation that a condition reads.
#[inline(always)]
fn figures(op: &QueueOp) -> Figures
    ensures { result ≡ figures_of op.now }
{
    let item = match *op {
        QueueOp::Enq { value } => value,
        QueueOp::Deq { value: Some(item) } => item,
        QueueOp::Deq { value: None } => 0,
    };
    Figures {
        from: i128::from(item),
        to: i128::from(item),
        shift: 0,
    }
}

/// The number that it leads to.
#[inline(always)]
pub fn number(op: &QueueOp) -> i128
    ensures { result ≡ number_of op.now }
{
    figures(op).to
}

/// A condition for each pair of forms: a row for the first operation, a column for the second.
#[inline(always)]
fn mover_table() -> MoverTable<3>
    ensures { result.rows ≡ queue_table }
{
    let enq = [Equal, Unequal, Always];
    let deq = [Always, Equal, Never];
    let empty = [Never, Always, Always];
    MoverTable::new([enq, deq, empty])
}

/// Whether two operations swap, by the table.
#[inline(always)]
pub fn may_swap(a: &QueueOp, b: &QueueOp) -> bool
    ensures { result ≡ may_swap a.now b.now }
{
    mover_table().holds(form(a), &figures(a), form(b), &figures(b))
}

/// The operations of a form that are known to swap with this one after them, by their numbers.
#[inline(always)]
pub fn gate(first: usize, op: &QueueOp) -> Gate
    ensures { IsGateBefore form_of number_of (Swaps fifo) first op.now result }
{
    mover_table().gate(first, Reading::To, form(op), &figures(op))
}
