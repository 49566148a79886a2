//! The operations that show that a pair does not swap.
ghost use Rattle.std.specs.Prelude.{◌≡◌, IfOk};
ghost use Rattle.pp_kind_memory.specs.Contexts.{number_after, number_before, other_than, read_of, write_of};
ghost use Rattle.pp_kind_memory.specs.Contexts.{lists_round};

use crate::op::MemOp;
use pp_core::{Ops, OutOfMemory};
use pp_kind::Context;
use std::alloc::Global;

/// Another number.
fn other_than(value: i64) -> i64
    ensures { result ≡ other_than value }
{
    if value == 0 { 1 } else { 0 }
}

/// The number that is written before a pair on one address that does not swap.
fn number_before(a: &MemOp, b: &MemOp) -> Option<i64>
    ensures { result ≡ number_before a.now b.now }
{
    match *a {
        MemOp::Read { at: _, value } => Some(value),
        MemOp::Write { at: _, value } => match *b {
            MemOp::Write { at: _, value: _ } => None,
            MemOp::Cas {
                expected,
                done: false,
                ..
            } => Some(expected),
            _ => Some(other_than(value)),
        },
        MemOp::Cas {
            expected,
            done: true,
            ..
        } => Some(expected),
        MemOp::Cas {
            expected,
            done: false,
            ..
        } => match *b {
            MemOp::Cas { expected: also, .. } => Some(also),
            _ => Some(other_than(expected)),
        },
    }
}

/// The number that is read after it.
fn number_after(a: &MemOp, b: &MemOp) -> Option<i64>
    ensures { result ≡ number_after a.now b.now }
{
    match *a {
        MemOp::Read { at: _, value: _ } => None,
        MemOp::Cas { done: false, .. } => None,
        _ => match *b {
            MemOp::Write { at: _, value } => Some(value),
            _ => None,
        },
    }
}

/// A write of a number, if there is one.
fn write_of(alloc: Global, at: i64, number: Option<i64>) -> Result<Ops<MemOp>, OutOfMemory>
    ensures { IfOk result (λ ops. ops ≡ write_of at number) }
{
    let mut ops = Ops::new(alloc);
    if let Some(value) = number {
        ops.push(MemOp::Write { at, value })?;
    }
    Ok(ops)
}

/// A read of a number, if there is one.
fn read_of(alloc: Global, at: i64, number: Option<i64>) -> Result<Ops<MemOp>, OutOfMemory>
    ensures { IfOk result (λ ops. ops ≡ read_of at number) }
{
    let mut ops = Ops::new(alloc);
    if let Some(value) = number {
        ops.push(MemOp::Read { at, value })?;
    }
    Ok(ops)
}

/// The operations round a pair that does not swap. The only error is out of memory.
pub fn lists_round(alloc: Global, a: &MemOp, b: &MemOp) -> Result<Context<MemOp>, OutOfMemory>
    ensures { IfOk result (λ c. (c.before, c.after) ≡ lists_round a.now b.now) }
{
    let before = write_of(alloc, a.address(), number_before(a, b))?;
    let after = read_of(alloc, a.address(), number_after(a, b))?;
    Ok(Context { before, after })
}
