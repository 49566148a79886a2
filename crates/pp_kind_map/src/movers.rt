//! Which pairs of operations swap, by a table.
ghost use Rattle.std.specs.Prelude.{◌≡◌};
ghost use Rattle.pp_kind.specs.Object.{Swaps};
ghost use Rattle.pp_kind.specs.Gates.{IsGateBefore};
ghost use Rattle.pp_kind_map.specs.KeyMap.{key_map};
ghost use Rattle.pp_kind_map.specs.Movers.{figure_of, figures_of, form_by, form_of, map_table, may_swap};
ghost use Rattle.pp_kind_map.specs.Movers.{number_of};

use crate::op::MapOp;
use pp_kind::Condition::{Always, Chain, Never, Unequal};
use pp_kind::{Figures, Gate, MoverTable, Reading};

/// One of two forms, by whether there was a value.
#[inline(always)]
fn form_by(found: Option<i64>, absent: usize, present: usize) -> usize
    ensures { result ≡ form_by found absent present }
{
    match found {
        None => absent,
        Some(_) => present,
    }
}

/// The row and the column of an operation's form.
#[inline(always)]
pub fn form(op: &MapOp) -> usize
    ensures { result ≡ form_of op.now }
{
    match *op {
        MapOp::Put {
            key: _,
            value: _,
            was,
        } => form_by(was, 0, 1),
        MapOp::Get { key: _, found } => form_by(found, 2, 3),
        MapOp::Remove { key: _, was } => form_by(was, 4, 5),
    }
}

/// A value as a number that a condition reads.
#[inline(always)]
fn figure(found: Option<i64>) -> i128
    ensures { result ≡ figure_of found }
{
    match found {
        None => 0,
        Some(value) => i128::from(value),
    }
}

/// The numbers of an operation that a condition reads.
#[inline(always)]
fn figures(op: &MapOp) -> Figures
    ensures { result ≡ figures_of op.now }
{
    let to = match *op {
        MapOp::Put {
            key: _,
            value,
            was: _,
        } => i128::from(value),
        MapOp::Get { key: _, found } => figure(found),
        MapOp::Remove { key: _, was: _ } => 0,
    };
    Figures {
        from: figure(op.found()),
        to,
        shift: 0,
    }
}

/// The number that it leads to.
#[inline(always)]
pub fn number(op: &MapOp) -> i128
    ensures { result ≡ number_of op.now }
{
    figures(op).to
}

/// A condition for each pair of forms: a row for the first operation, a column for the second.
/// Each call has two, by whether it found no value or one.
#[inline(always)]
fn mover_table() -> MoverTable<6>
    ensures { result.rows ≡ map_table }
{
    let put_new = [Always, Unequal, Always, Unequal, Always, Unequal];
    let put_over = [Always, Chain, Always, Chain, Always, Unequal];
    let get_none = [Never, Always, Always, Always, Always, Always];
    let get_one = [Always, Chain, Always, Chain, Always, Unequal];
    let remove_none = [Never, Always, Always, Always, Always, Always];
    let remove_one = [Never, Always, Never, Always, Never, Always];
    MoverTable::new([
        put_new,
        put_over,
        get_none,
        get_one,
        remove_none,
        remove_one,
    ])
}

/// Whether two operations swap: those on different keys always, and others by the table.
#[inline(always)]
pub fn may_swap(a: &MapOp, b: &MapOp) -> bool
    ensures { result ≡ may_swap a.now b.now }
{
    if a.key() == b.key() {
        mover_table().holds(form(a), &figures(a), form(b), &figures(b))
    } else {
        true
    }
}

/// The operations of a form that are known to swap with this one after them, by their numbers.
#[inline(always)]
pub fn gate(first: usize, op: &MapOp) -> Gate
    ensures { IsGateBefore form_of number_of (Swaps key_map) first op.now result }
{
    mover_table().gate(first, Reading::To, form(op), &figures(op))
}
