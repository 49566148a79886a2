//! The calls of a set.
ghost use Rattle.pp_kind_set.specs.Sets.{key_set};
ghost use Rattle.pp_kind_set.specs.laws.Lawful.{set_lawful};

use crate::contexts::reach;
use crate::members::Members;
use crate::movers::may_swap;
use crate::op::SetOp;
use pp_core::{Answer, Ops, OutOfMemory, Ticks};
use pp_kind::{Applied, Context, Spec};
use std::alloc::Global;
use std::sync::ledger::Ledger;

/// Sets of keys. The recorded result is all that is needed to take an operation back.
#[derive(Drop)]
pub struct KeySet;

impl Spec for KeySet {
    type Shape = ();

    type State = Members;

    type Op = SetOp;

    type Undo = ();

    ghost object = { key_set };

    fn empty(alloc: Global, _shape: &()) -> Result<Members, OutOfMemory> {
        Ok(Members::new(alloc))
    }

    fn fits(_shape: &(), _op: &SetOp) -> bool {
        true
    }

    fn ranged(op: &SetOp) -> bool {
        op.ranged()
    }

    fn recorded(op: &SetOp) -> Answer {
        op.recorded()
    }

    fn gives(state: &Members, op: &SetOp) -> Answer {
        match *op {
            SetOp::Add { key, changed: _ } => Answer::Truth(!state.contains(key)),
            SetOp::Remove { key, changed: _ } => Answer::Truth(state.contains(key)),
            SetOp::Contains { key, present: _ } => Answer::Truth(state.contains(key)),
        }
    }

    fn legal(state: &Members, op: &SetOp) -> bool {
        state.contains(op.key()) == op.was_present()
    }

    fn apply<L: Ledger>(
        state: &mut Members,
        op: &SetOp,
        ticks: &mut Ticks<L>,
    ) -> Result<Applied<()>, OutOfMemory> {
        ticks.tick();
        if !Self::legal(state, op) {
            return Ok(Applied::Differs);
        }
        match *op {
            SetOp::Add { key, changed: _ } => state.insert(key)?,
            SetOp::Remove { key, changed: _ } => state.remove(key),
            SetOp::Contains { key: _, present: _ } => {}
        }
        Ok(Applied::Done(()))
    }

    fn undo<L: Ledger>(
        state: &mut Members,
        op: &SetOp,
        _undo: (),
        ticks: &mut Ticks<L>,
    ) -> Result<(), OutOfMemory> {
        ticks.tick();
        match *op {
            SetOp::Add { key, changed: true } => state.remove(key),
            SetOp::Remove { key, changed: true } => state.insert(key)?,
            _ => {}
        }
        Ok(())
    }

    #[inline(always)]
    fn swaps(a: &SetOp, b: &SetOp) -> bool {
        may_swap(a, b)
    }

    fn context(alloc: Global, a: &SetOp, b: &SetOp) -> Result<Option<Context<SetOp>>, OutOfMemory> {
        if may_swap(a, b) {
            return Ok(None);
        }
        let before = reach(alloc, a.key(), a.was_present())?;
        let after = Ops::new(alloc);
        Ok(Some(Context { before, after }))
    }

    ghost lawful = { set_lawful };
}
