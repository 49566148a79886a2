//! The calls of a counter.
ghost use Rattle.pp_kind_counter.specs.Operations.{place_of};
ghost use Rattle.pp_kind_counter.specs.Count.{counter, SameAt};
ghost use Rattle.pp_kind_counter.specs.laws.Lawful.{counter_lawful, counter_placed};

use crate::contexts::{pair_begins, reach};
use crate::movers::may_swap;
use crate::op::CounterOp;
use pp_core::{Answer, Call, Ops, OutOfMemory, Ticks};
use pp_kind::{Applied, Context, Placed, Spec};
use std::alloc::Global;
use std::sync::ledger::Ledger;

/// Counters. The state is the number, which no run within the limits brings near the ends of
/// `i128`.
#[derive(Drop)]
pub struct Count;

impl Spec for Count {
    type Shape = ();

    type State = i128;

    type Op = CounterOp;

    type Undo = ();

    ghost object = { counter };

    fn empty(_alloc: Global, _shape: &()) -> Result<i128, OutOfMemory> {
        Ok(0)
    }

    fn fits(_shape: &(), _op: &CounterOp) -> bool {
        true
    }

    fn ranged(op: &CounterOp) -> bool {
        op.ranged()
    }

    fn recorded(op: &CounterOp) -> Answer {
        op.recorded()
    }

    fn gives(state: &i128, op: &CounterOp) -> Answer {
        match op {
            CounterOp::Add { by: _ } => Answer::None,
            CounterOp::Get { value: _ } => Answer::Number(*state),
            CounterOp::FetchAdd { by: _, was: _ } => Answer::Number(*state),
        }
    }

    fn legal(state: &i128, op: &CounterOp) -> bool {
        match *op {
            CounterOp::Add { by: _ } => true,
            CounterOp::Get { value } => *state == i128::from(value),
            CounterOp::FetchAdd { by: _, was } => *state == i128::from(was),
        }
    }

    fn apply<L: Ledger>(
        state: &mut i128,
        op: &CounterOp,
        ticks: &mut Ticks<L>,
    ) -> Result<Applied<()>, OutOfMemory> {
        ticks.tick();
        if !Self::legal(state, op) {
            return Ok(Applied::Differs);
        }
        *state += i128::from(op.shift());
        Ok(Applied::Done(()))
    }

    fn undo<L: Ledger>(
        state: &mut i128,
        op: &CounterOp,
        _undo: (),
        ticks: &mut Ticks<L>,
    ) -> Result<(), OutOfMemory> {
        ticks.tick();
        *state -= i128::from(op.shift());
        Ok(())
    }

    #[inline(always)]
    fn swaps(a: &CounterOp, b: &CounterOp) -> bool {
        may_swap(a, b)
    }

    fn context(
        alloc: Global,
        a: &CounterOp,
        b: &CounterOp,
    ) -> Result<Option<Context<CounterOp>>, OutOfMemory> {
        if may_swap(a, b) {
            return Ok(None);
        }
        let before = reach(alloc, pair_begins(a, b))?;
        let after = Ops::new(alloc);
        Ok(Some(Context { before, after }))
    }

    ghost lawful = { counter_lawful };
}

impl Placed for Count {
    ghost place_of = { place_of };

    ghost SameAt = { SameAt };

    fn place(_op: &CounterOp) -> u16 {
        0
    }

    fn call(op: &CounterOp) -> Call {
        op.call()
    }

    ghost placed = { counter_placed };
}
