//! The operations that show that a pair does not swap.
ghost use Rattle.std.specs.Prelude.{◌≡◌, IfOk};
ghost use Rattle.pp_kind_map.specs.Contexts.{before_pair};

use crate::op::MapOp;
use pp_core::{Ops, OutOfMemory};
use std::alloc::Global;

/// What is before a pair that does not swap: the value that its first operation found is put there.
/// The only error is out of memory.
pub fn before_pair(alloc: Global, a: &MapOp) -> Result<Ops<MapOp>, OutOfMemory>
    ensures { IfOk result (λ ops. ops ≡ before_pair a.now) }
{
    let mut ops = Ops::new(alloc);
    if let Some(value) = a.found() {
        let key = a.key();
        ops.push(MapOp::Put {
            key,
            value,
            was: None,
        })?;
    }
    Ok(ops)
}
