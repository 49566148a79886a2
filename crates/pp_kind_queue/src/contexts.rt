//! The operations that show that a pair does not swap.
ghost use Rattle.std.specs.Prelude.{◌≡◌, IfOk};
ghost use Rattle.pp_kind_queue.specs.Contexts.{before_pair, after_pair};

use crate::op::QueueOp;
use pp_core::{Ops, OutOfMemory};
use std::alloc::Global;

/// What is before a pair that does not swap. The only error is out of memory.
pub fn before_pair(alloc: Global, a: &QueueOp, b: &QueueOp) -> Result<Ops<QueueOp>, OutOfMemory>
    ensures { IfOk result (λ ops. ops ≡ before_pair a.now b.now) }
{
    let mut ops = Ops::new(alloc);
    if let QueueOp::Deq { value: Some(value) } = *a {
        ops.push(QueueOp::Enq { value })?;
        if let QueueOp::Deq { value: Some(value) } = *b {
            ops.push(QueueOp::Enq { value })?;
        }
    }
    Ok(ops)
}

/// What is after it. The only error is out of memory.
pub fn after_pair(alloc: Global, a: &QueueOp, b: &QueueOp) -> Result<Ops<QueueOp>, OutOfMemory>
    ensures { IfOk result (λ ops. ops ≡ after_pair a.now b.now) }
{
    let mut ops = Ops::new(alloc);
    if let (QueueOp::Enq { value }, QueueOp::Enq { value: _ }) = (*a, *b) {
        ops.push(QueueOp::Deq { value: Some(value) })?;
    }
    Ok(ops)
}
