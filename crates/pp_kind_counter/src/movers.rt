//! Which pairs of operations swap, by a table.
ghost use Rattle.std.specs.Prelude.{◌≡◌};
ghost use Rattle.pp_kind.specs.Object.{Swaps};
ghost use Rattle.pp_kind.specs.Gates.{IsGateBefore};
ghost use Rattle.pp_kind_counter.specs.Count.{counter};
ghost use Rattle.pp_kind_counter.specs.Movers.{counter_table, figures_of, form_of, gate_form_of};
ghost use Rattle.pp_kind_counter.specs.Movers.{may_swap};
ghost use Rattle.pp_kind_counter.specs.Movers.{number_of};

use crate::op::CounterOp;
use pp_kind::Condition::{Always, Chain, FirstStill, SecondStill};
use pp_kind::{Figures, Gate, MoverTable, Reading};

/// The row and the column of an operation's form.
#[inline(always)]
fn form(op: &CounterOp) -> usize
    ensures { result ≡ form_of op.now }
{
    match op {
        CounterOp::Add { by: _ } => 0,
        CounterOp::Get { value: _ } => 1,
        CounterOp::FetchAdd { by: _, was: _ } => 2,
    }
}

/// The numbers of an operation that a condition reads.
#[inline(always)]
fn figures(op: &CounterOp) -> Figures
    ensures { result ≡ figures_of op.now }
{
    match *op {
        CounterOp::Add { by } => Figures {
            from: 0,
            to: 0,
            shift: i128::from(by),
        },
        CounterOp::Get { value } => Figures {
            from: i128::from(value),
            to: i128::from(value),
            shift: 0,
        },
        CounterOp::FetchAdd { by, was } => Figures {
            from: i128::from(was),
            to: i128::from(was) + i128::from(by),
            shift: i128::from(by),
        },
    }
}

/// The form in its gates: its row, or another one if it leaves the number that it finds.
#[inline(always)]
pub fn gate_form(op: &CounterOp) -> usize
    ensures { result ≡ gate_form_of op.now }
{
    match *op {
        CounterOp::Add { by } => if by == 0 { 3 } else { 0 },
        CounterOp::Get { value: _ } => 4,
        CounterOp::FetchAdd { by, was: _ } => if by == 0 { 5 } else { 2 },
    }
}

/// The number that it leads to.
#[inline(always)]
pub fn number(op: &CounterOp) -> i128
    ensures { result ≡ number_of op.now }
{
    figures(op).to
}

/// A condition for each pair of forms: a row for the first operation, a column for the second.
#[inline(always)]
fn mover_table() -> MoverTable<3>
    ensures { result.rows ≡ counter_table }
{
    let add = [Always, FirstStill, FirstStill];
    let get = [SecondStill, Chain, Chain];
    let fetch_add = [SecondStill, Chain, Chain];
    MoverTable::new([add, get, fetch_add])
}

/// Whether two operations swap, by the table.
#[inline(always)]
pub fn may_swap(a: &CounterOp, b: &CounterOp) -> bool
    ensures { result ≡ may_swap a.now b.now }
{
    mover_table().holds(form(a), &figures(a), form(b), &figures(b))
}

/// The operations of a form that are known to swap with this one after them, by their numbers.
#[inline(always)]
pub fn gate(first: usize, op: &CounterOp) -> Gate
    ensures { IsGateBefore gate_form_of number_of (Swaps counter) first op.now result }
{
    let table = mover_table();
    if first < 3 {
        table.gate(first, Reading::To, form(op), &figures(op))
    } else {
        table.gate(first - 3, Reading::Still, form(op), &figures(op))
    }
}
