//! The operations that show that a pair does not swap.
ghost use Rattle.std.specs.Prelude.{◌≡◌, ◌++◌, IfOk, OnOk};
ghost use Rattle.pp_kind_priority.specs.Contexts.{insertion_of, before_pair};

use crate::op::PrioOp;
use pp_core::{Ops, OutOfMemory};
use std::alloc::Global;

/// Inserts what was found, if anything was, after other operations. The only error is out of
/// memory.
fn push_insertion(ops: &mut Ops<PrioOp>, found: Option<i64>) -> Result<(), OutOfMemory>
    ensures { OnOk result (ops.new ≡ ops.old ++ insertion_of found) }
{
    if let Some(value) = found {
        ops.push(PrioOp::Insert { value })?;
    }
    Ok(())
}

/// What is before a pair that does not swap; nothing is after it. The only error is out of memory.
pub fn before_pair(alloc: Global, a: &PrioOp, b: &PrioOp) -> Result<Ops<PrioOp>, OutOfMemory>
    ensures { IfOk result (λ ops. ops ≡ before_pair a.now b.now) }
{
    let mut ops = Ops::new(alloc);
    push_insertion(&mut ops, a.found())?;
    if let PrioOp::Take { value: Some(_) } = *a {
        push_insertion(&mut ops, b.found())?;
    }
    Ok(ops)
}
