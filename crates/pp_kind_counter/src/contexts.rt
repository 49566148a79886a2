//! The operations that show that a pair does not swap.
ghost use Rattle.std.specs.Prelude.{pos, negsuc, ◌≤ℤ◌, ◌≡◌, IfOk, ◌++◌, [], ◌∷◌};
ghost use Rattle.pp_kind_counter.specs.Contexts.{reach, pair_begins};

use crate::op::CounterOp;
use pp_core::{Ops, OutOfMemory};
use pp_kind::GREATEST_NUMBER;
use std::alloc::Global;

/// The operations, with one addition more.
fn with_addition(mut ops: Ops<CounterOp>, by: i64) -> Result<Ops<CounterOp>, OutOfMemory>
    ensures { IfOk result (λ longer. longer ≡ ops ++ CounterOp.Add by ∷ []) }
{
    ops.push(CounterOp::Add { by })?;
    Ok(ops)
}

/// Additions that lead from zero to a number. The only error is out of memory.
pub fn reach(alloc: Global, number: i128) -> Result<Ops<CounterOp>, OutOfMemory>
    requires low { negsuc 1_999_999_999_999_999_999 ≤ℤ number }
    requires high { number ≤ℤ pos 2_000_000_000_000_000_000 }
    ensures { IfOk result (λ ops. ops ≡ reach number) }
{
    let none = Ops::new(alloc);
    let greatest = i128::from(GREATEST_NUMBER);
    if number == 0 {
        Ok(none)
    } else if -greatest <= number && number <= greatest {
        with_addition(none, number as i64)
    } else if 0 < number {
        let first = with_addition(none, GREATEST_NUMBER)?;
        with_addition(first, (number - greatest) as i64)
    } else {
        let first = with_addition(none, -GREATEST_NUMBER)?;
        with_addition(first, (number + greatest) as i64)
    }
}

/// The number at which a pair that does not swap is legal.
pub fn pair_begins(a: &CounterOp, b: &CounterOp) -> i128
    ensures { result ≡ pair_begins a.now b.now }
{
    match *a {
        CounterOp::Get { value } => i128::from(value),
        CounterOp::FetchAdd { by: _, was } => i128::from(was),
        CounterOp::Add { by } => match *b {
            CounterOp::Add { by: _ } => 0,
            CounterOp::Get { value } => i128::from(value) - i128::from(by),
            CounterOp::FetchAdd { by: _, was } => i128::from(was) - i128::from(by),
        },
    }
}
