//! The calls of a priority queue.
ghost use Rattle.pp_kind_priority.specs.Prios.{prio};
ghost use Rattle.pp_kind_priority.specs.laws.Lawful.{prio_lawful};

use crate::bag::Bag;
use crate::contexts::before_pair;
use crate::movers::may_swap;
use crate::op::PrioOp;
use pp_core::{Answer, Ops, OutOfMemory, Ticks};
use pp_kind::{Applied, Context, Spec, answer_of};
use std::alloc::Global;
use std::sync::ledger::Ledger;

/// Priority queues. An operation carries what it takes to undo it: the value that it took.
#[derive(Drop)]
pub struct Prio;

impl Spec for Prio {
    type Shape = ();

    type State = Bag;

    type Op = PrioOp;

    type Undo = ();

    ghost object = { prio };

    fn empty(alloc: Global, _shape: &()) -> Result<Bag, OutOfMemory> {
        Ok(Bag::new(alloc))
    }

    fn fits(_shape: &(), _op: &PrioOp) -> bool {
        true
    }

    fn ranged(op: &PrioOp) -> bool {
        op.ranged()
    }

    fn recorded(op: &PrioOp) -> Answer {
        op.recorded()
    }

    fn gives(state: &Bag, op: &PrioOp) -> Answer {
        match op {
            PrioOp::Insert { value: _ } => Answer::None,
            PrioOp::Take { value: _ } => answer_of(state.least()),
            PrioOp::Least { value: _ } => answer_of(state.least()),
        }
    }

    fn legal(state: &Bag, op: &PrioOp) -> bool {
        match *op {
            PrioOp::Insert { value: _ } => true,
            PrioOp::Take { value } => state.least() == value,
            PrioOp::Least { value } => state.least() == value,
        }
    }

    fn apply<L: Ledger>(
        state: &mut Bag,
        op: &PrioOp,
        ticks: &mut Ticks<L>,
    ) -> Result<Applied<()>, OutOfMemory> {
        ticks.tick();
        if !Self::legal(state, op) {
            return Ok(Applied::Differs);
        }
        match *op {
            PrioOp::Insert { value } => state.add(value)?,
            PrioOp::Take { value: _ } => state.remove_least()?,
            PrioOp::Least { value: _ } => (),
        }
        Ok(Applied::Done(()))
    }

    fn undo<L: Ledger>(
        state: &mut Bag,
        op: &PrioOp,
        _undo: (),
        ticks: &mut Ticks<L>,
    ) -> Result<(), OutOfMemory> {
        ticks.tick();
        match *op {
            PrioOp::Insert { value } => state.remove(value),
            PrioOp::Take { value: Some(value) } => state.add(value),
            PrioOp::Take { value: None } => Ok(()),
            PrioOp::Least { value: _ } => Ok(()),
        }
    }

    #[inline(always)]
    fn swaps(a: &PrioOp, b: &PrioOp) -> bool {
        may_swap(a, b)
    }

    fn context(
        alloc: Global,
        a: &PrioOp,
        b: &PrioOp,
    ) -> Result<Option<Context<PrioOp>>, OutOfMemory> {
        if may_swap(a, b) {
            return Ok(None);
        }
        let before = before_pair(alloc, a, b)?;
        let after = Ops::new(alloc);
        Ok(Some(Context { before, after }))
    }

    ghost lawful = { prio_lawful };
}
