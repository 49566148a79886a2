//! Which pairs of operations swap, by a table.
ghost use Rattle.std.specs.Prelude.{◌≡◌};
ghost use Rattle.pp_kind.specs.Object.{Swaps};
ghost use Rattle.pp_kind.specs.Gates.{IsGateBefore};
ghost use Rattle.pp_kind_memory.specs.Memories.{memory};
ghost use Rattle.pp_kind_memory.specs.Movers.{figures_of, form_of, gate_form_of, may_swap, memory_table};
ghost use Rattle.pp_kind_memory.specs.Movers.{number_of};

use crate::op::MemOp;
use pp_kind::Condition::{Always, Apart, Chain, Equal, FromApart, IntoApart, Settled, Unequal};
use pp_kind::{Figures, Gate, MoverTable, Reading};

/// The row and the column of an operation's form.
#[inline(always)]
fn form(op: &MemOp) -> usize
    ensures { result ≡ form_of op.now }
{
    match op {
        MemOp::Read { at: _, value: _ } => 0,
        MemOp::Write { at: _, value: _ } => 1,
        MemOp::Cas { done: true, .. } => 2,
        MemOp::Cas { done: false, .. } => 3,
    }
}

/// The numbers of an operation that a condition reads.
#[inline(always)]
fn figures(op: &MemOp) -> Figures
    ensures { result ≡ figures_of op.now }
{
    match *op {
        MemOp::Read { at: _, value } => Figures {
            from: i128::from(value),
            to: i128::from(value),
            shift: 0,
        },
        MemOp::Write { at: _, value } => Figures {
            from: 0,
            to: i128::from(value),
            shift: 0,
        },
        MemOp::Cas {
            expected,
            new,
            done: true,
            ..
        } => Figures {
            from: i128::from(expected),
            to: i128::from(new),
            shift: i128::from(new) - i128::from(expected),
        },
        MemOp::Cas {
            expected,
            done: false,
            ..
        } => Figures {
            from: i128::from(expected),
            to: i128::from(expected),
            shift: 0,
        },
    }
}

/// The form in its gates: its row, or another one if it leaves the number that it finds.
#[inline(always)]
pub fn gate_form(op: &MemOp) -> usize
    ensures { result ≡ gate_form_of op.now }
{
    match *op {
        MemOp::Read { at: _, value: _ } => 4,
        MemOp::Write { at: _, value: _ } => 1,
        MemOp::Cas {
            expected,
            new,
            done: true,
            ..
        } => if expected == new { 6 } else { 2 },
        MemOp::Cas { done: false, .. } => 7,
    }
}

/// The number that its gates read: the one that it leads to, and of a compare-and-swap that was
/// done the one that it expected.
#[inline(always)]
pub fn number(op: &MemOp) -> i128
    ensures { result ≡ number_of op.now }
{
    match *op {
        MemOp::Read { at: _, value } => i128::from(value),
        MemOp::Write { at: _, value } => i128::from(value),
        MemOp::Cas { expected, .. } => i128::from(expected),
    }
}

/// A condition for each pair of forms: a row for the first operation, a column for the second.
#[inline(always)]
fn mover_table() -> MoverTable<4>
    ensures { result.rows ≡ memory_table }
{
    let read = [Always, Equal, Chain, Always];
    let write = [Unequal, Equal, Unequal, Equal];
    let cas_done = [Chain, Settled, Chain, FromApart];
    let cas_failed = [Always, Apart, IntoApart, Always];
    MoverTable::new([read, write, cas_done, cas_failed])
}

/// Whether two operations swap: always at different addresses, and by the table at one.
#[inline(always)]
pub fn may_swap(a: &MemOp, b: &MemOp) -> bool
    ensures { result ≡ may_swap a.now b.now }
{
    if a.address() == b.address() {
        mover_table().holds(form(a), &figures(a), form(b), &figures(b))
    } else {
        true
    }
}

/// The operations of a form that are known to swap with this one after them, by their numbers.
#[inline(always)]
pub fn gate(first: usize, op: &MemOp) -> Gate
    ensures { IsGateBefore gate_form_of number_of (Swaps memory) first op.now result }
{
    let table = mover_table();
    if first == 2 {
        table.gate(2, Reading::From, form(op), &figures(op))
    } else if first < 4 {
        table.gate(first, Reading::To, form(op), &figures(op))
    } else {
        table.gate(first - 4, Reading::Still, form(op), &figures(op))
    }
}
