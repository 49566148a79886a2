//! The operations that show that a pair does not swap.
ghost use Rattle.std.specs.Prelude.{◌≡◌, IfOk};
ghost use Rattle.pp_kind_set.specs.Contexts.{reach};

use crate::op::SetOp;
use pp_core::{Ops, OutOfMemory};
use std::alloc::Global;

/// Operations that lead a key from the empty set to being in or not. The only error is out of
/// memory.
pub fn reach(alloc: Global, key: i64, present: bool) -> Result<Ops<SetOp>, OutOfMemory>
    ensures { IfOk result (λ ops. ops ≡ reach key present) }
{
    let mut ops = Ops::new(alloc);
    if present {
        ops.push(SetOp::Add { key, changed: true })?;
    }
    Ok(ops)
}
