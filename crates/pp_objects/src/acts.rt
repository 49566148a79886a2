//! The operations of a kind as acts, and acts as operations of an object.
ghost use Rattle.std.specs.Prelude.{◌≡◌, map, IfOk};
ghost use Rattle.pp_kind.specs.Calls.{lists_of};
ghost use Rattle.pp_objects.specs.One.{both_as};
ghost use Rattle.pp_objects.specs.Objects.{act_at};

use crate::act::{Act, Op};
use pp_core::{Ops, OutOfMemory};
use pp_kind::Context;
use pp_kind_counter::CounterOp;
use pp_kind_map::MapOp;
use pp_kind_memory::MemOp;
use pp_kind_priority::PrioOp;
use pp_kind_queue::QueueOp;
use pp_kind_set::SetOp;
use pp_kind_stack::StackOp;
use std::alloc::Global;

/// A kind's operation, which is an act.
pub trait KindOp: Copy {
    ghost use Rattle.pp_objects.specs.declared.act.Act.{Act};

    /// It, among all acts.
    ghost act: { Self → Act };

    /// It, as an act.
    fn act(&self) -> Act
        ensures { result ≡ act self.now };
}

impl KindOp for MemOp {
    ghost use Rattle.pp_objects.specs.declared.act.Act.TheVariants.{Memory};

    ghost act = { Memory };

    fn act(&self) -> Act {
        Act::Memory(*self)
    }
}

impl KindOp for SetOp {
    ghost use Rattle.pp_objects.specs.declared.act.Act.TheVariants.{KeySet};

    ghost act = { KeySet };

    fn act(&self) -> Act {
        Act::KeySet(*self)
    }
}

impl KindOp for MapOp {
    ghost use Rattle.pp_objects.specs.declared.act.Act.TheVariants.{KeyMap};

    ghost act = { KeyMap };

    fn act(&self) -> Act {
        Act::KeyMap(*self)
    }
}

impl KindOp for CounterOp {
    ghost use Rattle.pp_objects.specs.declared.act.Act.TheVariants.{Counter};

    ghost act = { Counter };

    fn act(&self) -> Act {
        Act::Counter(*self)
    }
}

impl KindOp for QueueOp {
    ghost use Rattle.pp_objects.specs.declared.act.Act.TheVariants.{Queue};

    ghost act = { Queue };

    fn act(&self) -> Act {
        Act::Queue(*self)
    }
}

impl KindOp for StackOp {
    ghost use Rattle.pp_objects.specs.declared.act.Act.TheVariants.{Stack};

    ghost act = { Stack };

    fn act(&self) -> Act {
        Act::Stack(*self)
    }
}

impl KindOp for PrioOp {
    ghost use Rattle.pp_objects.specs.declared.act.Act.TheVariants.{PriorityQueue};

    ghost act = { PriorityQueue };

    fn act(&self) -> Act {
        Act::PriorityQueue(*self)
    }
}

/// A kind's operations, as acts.
fn acts_of<O: KindOp>(alloc: Global, ops: &Ops<O>) -> Result<Ops<Act>, OutOfMemory>
    ensures { IfOk result (λ acts. acts ≡ map O.act ops.now) }
{
    let mut acts = Ops::new(alloc);
    for op in ops.as_slice() {
        acts.push(op.act())?;
    }
    Ok(acts)
}

/// The operations round a pair of a kind, as acts.
pub fn context_of<O: KindOp>(
    alloc: Global,
    found: Option<Context<O>>,
) -> Result<Option<Context<Act>>, OutOfMemory>
    ensures { IfOk result (λ acts. lists_of acts ≡ both_as O.act (lists_of found)) }
{
    match found {
        None => Ok(None),
        Some(context) => {
            let before = acts_of(alloc, &context.before)?;
            let after = acts_of(alloc, &context.after)?;
            Ok(Some(Context { before, after }))
        }
    }
}

/// Acts, at the object of a place.
fn ops_at(alloc: Global, object: u16, acts: &Ops<Act>) -> Result<Ops<Op>, OutOfMemory>
    ensures { IfOk result (λ ops. ops ≡ map (act_at object) acts.now) }
{
    let mut ops = Ops::new(alloc);
    for act in acts.as_slice() {
        ops.push(Op { object, act: *act })?;
    }
    Ok(ops)
}

/// The acts round a pair, at the object of a place.
pub fn context_at(
    alloc: Global,
    object: u16,
    found: Option<Context<Act>>,
) -> Result<Option<Context<Op>>, OutOfMemory>
    ensures { IfOk result (λ ops. lists_of ops ≡ both_as (act_at object) (lists_of found)) }
{
    match found {
        None => Ok(None),
        Some(context) => {
            let before = ops_at(alloc, object, &context.before)?;
            let after = ops_at(alloc, object, &context.after)?;
            Ok(Some(Context { before, after }))
        }
    }
}
