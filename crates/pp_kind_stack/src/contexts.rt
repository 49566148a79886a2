//! The operations that show that a pair does not swap.
ghost use Rattle.std.specs.Prelude.{◌≡◌, IfOk};
ghost use Rattle.pp_kind_stack.specs.Contexts.{before_pair, after_pair};

use crate::op::StackOp;
use pp_core::{Ops, OutOfMemory};
use std::alloc::Global;

/// What is before a pair that does not swap. The only error is out of memory.
pub fn before_pair(alloc: Global, a: &StackOp, b: &StackOp) -> Result<Ops<StackOp>, OutOfMemory>
    ensures { IfOk result (λ ops. ops ≡ before_pair a.now b.now) }
{
    let mut ops = Ops::new(alloc);
    if let StackOp::Pop { value: Some(first) } = *a {
        if let StackOp::Pop { value: Some(below) } = *b {
            ops.push(StackOp::Push { value: below })?;
        }
        ops.push(StackOp::Push { value: first })?;
    }
    Ok(ops)
}

/// What is after it. The only error is out of memory.
pub fn after_pair(alloc: Global, a: &StackOp, b: &StackOp) -> Result<Ops<StackOp>, OutOfMemory>
    ensures { IfOk result (λ ops. ops ≡ after_pair a.now b.now) }
{
    let mut ops = Ops::new(alloc);
    if let (StackOp::Push { value: _ }, StackOp::Push { value }) = (*a, *b) {
        ops.push(StackOp::Pop { value: Some(value) })?;
    }
    Ok(ops)
}
