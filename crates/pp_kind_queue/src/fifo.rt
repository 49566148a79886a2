//! The calls of a queue.
ghost use Rattle.pp_kind_queue.specs.Fifo.{fifo};
ghost use Rattle.pp_kind_queue.specs.laws.Lawful.{fifo_lawful};

use crate::contexts::{after_pair, before_pair};
use crate::movers::may_swap;
use crate::op::QueueOp;
use crate::queue::Queue;
use pp_core::{Answer, OutOfMemory, Ticks};
use pp_kind::{Applied, Context, Spec, answer_of};
use std::alloc::Global;
use std::sync::ledger::Ledger;

/// Queues. An operation carries what it takes to undo it: the item that it took.
#[derive(Drop)]
pub struct Fifo;

impl Spec for Fifo {
    type Shape = ();

    type State = Queue;

    type Op = QueueOp;

    type Undo = ();

    ghost object = { fifo };

    fn empty(alloc: Global, _shape: &()) -> Result<Queue, OutOfMemory> {
        Ok(Queue::new(alloc))
    }

    fn fits(_shape: &(), _op: &QueueOp) -> bool {
        true
    }

    fn ranged(op: &QueueOp) -> bool {
        op.ranged()
    }

    fn recorded(op: &QueueOp) -> Answer {
        op.recorded()
    }

    fn gives(state: &Queue, op: &QueueOp) -> Answer {
        match op {
            QueueOp::Enq { value: _ } => Answer::None,
            QueueOp::Deq { value: _ } => answer_of(state.front()),
        }
    }

    fn legal(state: &Queue, op: &QueueOp) -> bool {
        match *op {
            QueueOp::Enq { value: _ } => true,
            QueueOp::Deq { value } => state.front() == value,
        }
    }

    fn apply<L: Ledger>(
        state: &mut Queue,
        op: &QueueOp,
        ticks: &mut Ticks<L>,
    ) -> Result<Applied<()>, OutOfMemory> {
        ticks.tick();
        if !Self::legal(state, op) {
            return Ok(Applied::Differs);
        }
        match *op {
            QueueOp::Enq { value } => state.add_back(value)?,
            QueueOp::Deq { value: _ } => state.remove_front(),
        }
        Ok(Applied::Done(()))
    }

    fn undo<L: Ledger>(
        state: &mut Queue,
        op: &QueueOp,
        _undo: (),
        ticks: &mut Ticks<L>,
    ) -> Result<(), OutOfMemory> {
        ticks.tick();
        match *op {
            QueueOp::Enq { value: _ } => {
                state.remove_back();
                Ok(())
            }
            QueueOp::Deq { value: Some(item) } => state.add_front(item),
            QueueOp::Deq { value: None } => Ok(()),
        }
    }

    #[inline(always)]
    fn swaps(a: &QueueOp, b: &QueueOp) -> bool {
        may_swap(a, b)
    }

    fn context(
        alloc: Global,
        a: &QueueOp,
        b: &QueueOp,
    ) -> Result<Option<Context<QueueOp>>, OutOfMemory> {
        if may_swap(a, b) {
            return Ok(None);
        }
        let before = before_pair(alloc, a, b)?;
        let after = after_pair(alloc, a, b)?;
        Ok(Some(Context { before, after }))
    }

    ghost lawful = { fifo_lawful };
}
