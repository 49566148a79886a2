//! The calls of a stack.
ghost use Rattle.pp_kind_stack.specs.Stacks.{stack};
ghost use Rattle.pp_kind_stack.specs.laws.Lawful.{stack_lawful};

use crate::contexts::{after_pair, before_pair};
use crate::movers::may_swap;
use crate::op::StackOp;
use crate::pile::Pile;
use pp_core::{Answer, OutOfMemory, Ticks};
use pp_kind::{Applied, Context, Spec, answer_of};
use std::alloc::Global;
use std::sync::ledger::Ledger;

/// Stacks. An operation carries what it takes to undo it: the item that it took.
#[derive(Drop)]
pub struct Stack;

impl Spec for Stack {
    type Shape = ();

    type State = Pile;

    type Op = StackOp;

    type Undo = ();

    ghost object = { stack };

    fn empty(alloc: Global, _shape: &()) -> Result<Pile, OutOfMemory> {
        Ok(Pile::new(alloc))
    }

    fn fits(_shape: &(), _op: &StackOp) -> bool {
        true
    }

    fn ranged(op: &StackOp) -> bool {
        op.ranged()
    }

    fn recorded(op: &StackOp) -> Answer {
        op.recorded()
    }

    fn gives(state: &Pile, op: &StackOp) -> Answer {
        match op {
            StackOp::Push { value: _ } => Answer::None,
            StackOp::Pop { value: _ } => answer_of(state.top()),
        }
    }

    fn legal(state: &Pile, op: &StackOp) -> bool {
        match *op {
            StackOp::Push { value: _ } => true,
            StackOp::Pop { value } => state.top() == value,
        }
    }

    fn apply<L: Ledger>(
        state: &mut Pile,
        op: &StackOp,
        ticks: &mut Ticks<L>,
    ) -> Result<Applied<()>, OutOfMemory> {
        ticks.tick();
        if !Self::legal(state, op) {
            return Ok(Applied::Differs);
        }
        match *op {
            StackOp::Push { value } => state.push(value)?,
            StackOp::Pop { value: _ } => state.pop(),
        }
        Ok(Applied::Done(()))
    }

    fn undo<L: Ledger>(
        state: &mut Pile,
        op: &StackOp,
        _undo: (),
        ticks: &mut Ticks<L>,
    ) -> Result<(), OutOfMemory> {
        ticks.tick();
        match *op {
            StackOp::Push { value: _ } => {
                state.pop();
                Ok(())
            }
            StackOp::Pop { value: Some(item) } => state.push(item),
            StackOp::Pop { value: None } => Ok(()),
        }
    }

    #[inline(always)]
    fn swaps(a: &StackOp, b: &StackOp) -> bool {
        may_swap(a, b)
    }

    fn context(
        alloc: Global,
        a: &StackOp,
        b: &StackOp,
    ) -> Result<Option<Context<StackOp>>, OutOfMemory> {
        if may_swap(a, b) {
            return Ok(None);
        }
        let before = before_pair(alloc, a, b)?;
        let after = after_pair(alloc, a, b)?;
        Ok(Some(Context { before, after }))
    }

    ghost lawful = { stack_lawful };
}
