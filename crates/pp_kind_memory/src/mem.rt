//! The calls of a memory.
ghost use Rattle.std.specs.Prelude.{false, IsTrue};
ghost use Rattle.pp_kind.specs.Object.{KeptAs, MayKeep, Swaps};
ghost use Rattle.pp_kind_memory.specs.Memories.{memory};
ghost use Rattle.pp_kind_memory.specs.laws.Lawful.{memory_lawful};

use crate::contexts::lists_round;
use crate::memory::Memory;
use crate::movers::may_swap;
use crate::op::MemOp;
use crate::undo::Undo;
use pp_core::{Answer, OutOfMemory, Ticks};
use pp_kind::{Applied, Context, Spec};
use std::alloc::Global;
use std::sync::ledger::Ledger;

/// Memories. What a write keeps is the number that it covers, with its address.
#[derive(Drop)]
pub struct Mem;

impl Mem {
    /// Whether an operation, and one that may move past it, exchange their undo values in the other
    /// order. Two writes at one address do; all others keep the same in both orders. The undo value
    /// of the other one decides this.
    #[inline(always)]
    pub fn keep_in_turn(a: &MemOp, kept: &Undo) -> bool
        ensures { (b : MemOp) → MayKeep memory b kept.now → Swaps memory a.now b
            → KeptAs memory result a.now b }
    {
        match *kept {
            Undo::Covered { at, number: _ } => a.writes_at(at),
            Undo::Nothing => false,
        }
    }

    /// Whether the operation keeps in turn with none: so does each that does not write.
    #[inline(always)]
    pub fn keeps_alone(a: &MemOp) -> bool
        ensures { IsTrue result →
            (b : MemOp) → Swaps memory a.now b → KeptAs memory false a.now b }
    {
        !a.is_write()
    }
}

impl Spec for Mem {
    type Shape = ();

    type State = Memory;

    type Op = MemOp;

    type Undo = Undo;

    ghost object = { memory };

    fn empty(alloc: Global, _shape: &()) -> Result<Memory, OutOfMemory> {
        Ok(Memory::new(alloc))
    }

    fn fits(_shape: &(), _op: &MemOp) -> bool {
        true
    }

    fn ranged(op: &MemOp) -> bool {
        op.ranged()
    }

    fn recorded(op: &MemOp) -> Answer {
        op.recorded()
    }

    fn gives(state: &Memory, op: &MemOp) -> Answer {
        match *op {
            MemOp::Read { at, value: _ } => Answer::Number(i128::from(state.value_at(at))),
            MemOp::Write { at: _, value: _ } => Answer::None,
            MemOp::Cas { at, expected, .. } => { Answer::Truth(state.value_at(at) == expected) }
        }
    }

    #[inline(always)]
    fn legal(state: &Memory, op: &MemOp) -> bool {
        match *op {
            MemOp::Read { at, value } => state.value_at(at) == value,
            MemOp::Write { at: _, value: _ } => true,
            MemOp::Cas {
                at,
                expected,
                done,
                ..
            } => (state.value_at(at) == expected) == done,
        }
    }

    #[inline(always)]
    fn apply<L: Ledger>(
        state: &mut Memory,
        op: &MemOp,
        ticks: &mut Ticks<L>,
    ) -> Result<Applied<Undo>, OutOfMemory> {
        ticks.tick();
        if !Self::legal(state, op) {
            return Ok(Applied::Differs);
        }
        match *op {
            MemOp::Read { at: _, value: _ } => Ok(Applied::Done(Undo::Nothing)),
            MemOp::Write { at, value } => {
                let number = state.write(at, value)?;
                Ok(Applied::Done(Undo::Covered { at, number }))
            }
            MemOp::Cas {
                at,
                new,
                done: true,
                ..
            } => {
                state.write(at, new)?;
                Ok(Applied::Done(Undo::Nothing))
            }
            MemOp::Cas { done: false, .. } => Ok(Applied::Done(Undo::Nothing)),
        }
    }

    #[inline(always)]
    fn undo<L: Ledger>(
        state: &mut Memory,
        op: &MemOp,
        undo: Undo,
        ticks: &mut Ticks<L>,
    ) -> Result<(), OutOfMemory> {
        ticks.tick();
        match *op {
            MemOp::Read { at: _, value: _ } => {}
            MemOp::Write { at, value: _ } => {
                state.write(at, undo.number())?;
            }
            MemOp::Cas {
                at,
                expected,
                done: true,
                ..
            } => {
                state.write(at, expected)?;
            }
            MemOp::Cas { done: false, .. } => {}
        }
        Ok(())
    }

    #[inline(always)]
    fn swaps(a: &MemOp, b: &MemOp) -> bool {
        may_swap(a, b)
    }

    fn context(alloc: Global, a: &MemOp, b: &MemOp) -> Result<Option<Context<MemOp>>, OutOfMemory> {
        if may_swap(a, b) {
            return Ok(None);
        }
        let lists = lists_round(alloc, a, b)?;
        Ok(Some(lists))
    }

    ghost lawful = { memory_lawful };
}
