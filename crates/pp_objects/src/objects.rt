//! The objects of a run, side by side.
ghost use Rattle.std.specs.Prelude.{◌≡◌, ◌↔◌, IsTrue, IfOk, map};
ghost use Rattle.pp_kind.specs.Object.{Swaps};
ghost use Rattle.pp_objects.specs.One.{one};
ghost use Rattle.pp_objects.specs.Objects.{objects, place_of, SameAt};
ghost use Rattle.pp_objects.specs.laws.Objects.{objects_lawful, objects_placed};

use crate::act::{Act, Op};
use crate::acts::context_at;
use crate::one::OneObject;
use crate::states::{ObjectState, ObjectStates};
use pp_core::{Answer, Call, Kinds, OutOfMemory, Ticks};
use pp_kind::{Applied, Context, Placed, Spec, TakesBack};
use pp_kind_counter::Count;
use pp_kind_map::KeyMap;
use pp_kind_memory::{Mem, Undo};
use pp_kind_priority::Prio;
use pp_kind_queue::Fifo;
use pp_kind_set::KeySet;
use pp_kind_stack::Stack;
use std::alloc::Global;
use std::sync::ledger::Ledger;

/// The objects of a run, of any kinds. An operation costs what it costs on its object alone.
#[derive(Drop)]
pub struct Objects;

/// An object of each kind in its order, before any operation.
fn empty_states(alloc: Global, kinds: &Kinds) -> Result<Vec<ObjectState>, OutOfMemory>
    ensures { IfOk result (λ states. states.items ≡ map one.start kinds.now) }
{
    let mut states = Vec::new(alloc);
    for kind in kinds.as_slice() {
        states.push(OneObject::empty(alloc, kind)?)?;
    }
    Ok(states)
}

/// Whether two operations swap. Those of different objects always do.
#[inline(always)]
fn may_swap(a: &Op, b: &Op) -> bool
    ensures { IsTrue result ↔ Swaps objects a.now b.now }
{
    a.object != b.object || OneObject::swaps(&a.act, &b.act)
}

impl Spec for Objects {
    type Shape = Kinds;

    type State = ObjectStates;

    type Op = Op;

    type Undo = Undo;

    ghost object = { objects };

    fn empty(alloc: Global, shape: &Kinds) -> Result<ObjectStates, OutOfMemory> {
        let states = empty_states(alloc, shape)?;
        Ok(ObjectStates { states })
    }

    fn fits(shape: &Kinds, op: &Op) -> bool {
        match shape.get(usize::from(op.object)) {
            Some(kind) => OneObject::fits(kind, &op.act),
            None => false,
        }
    }

    fn ranged(op: &Op) -> bool {
        op.act.ranged()
    }

    fn recorded(op: &Op) -> Answer {
        op.act.recorded()
    }

    fn gives(state: &ObjectStates, op: &Op) -> Answer {
        let Some(object) = state.get(op.object) else {
            return Answer::None;
        };
        match (object, &op.act) {
            (ObjectState::Memory(state), Act::Memory(op)) => Mem::gives(state, op),
            (ObjectState::KeySet(state), Act::KeySet(op)) => KeySet::gives(state, op),
            (ObjectState::KeyMap(state), Act::KeyMap(op)) => KeyMap::gives(state, op),
            (ObjectState::Counter(state), Act::Counter(op)) => Count::gives(state, op),
            (ObjectState::Queue(state), Act::Queue(op)) => Fifo::gives(state, op),
            (ObjectState::Stack(state), Act::Stack(op)) => Stack::gives(state, op),
            (ObjectState::PriorityQueue(state), Act::PriorityQueue(op)) => Prio::gives(state, op),
            _ => Answer::None,
        }
    }

    fn legal(state: &ObjectStates, op: &Op) -> bool {
        let Some(object) = state.get(op.object) else {
            return false;
        };
        match (object, &op.act) {
            (ObjectState::Memory(state), Act::Memory(op)) => Mem::legal(state, op),
            (ObjectState::KeySet(state), Act::KeySet(op)) => KeySet::legal(state, op),
            (ObjectState::KeyMap(state), Act::KeyMap(op)) => KeyMap::legal(state, op),
            (ObjectState::Counter(state), Act::Counter(op)) => Count::legal(state, op),
            (ObjectState::Queue(state), Act::Queue(op)) => Fifo::legal(state, op),
            (ObjectState::Stack(state), Act::Stack(op)) => Stack::legal(state, op),
            (ObjectState::PriorityQueue(state), Act::PriorityQueue(op)) => Prio::legal(state, op),
            _ => false,
        }
    }

    #[inline(always)]
    fn apply<L: Ledger>(
        state: &mut ObjectStates,
        op: &Op,
        ticks: &mut Ticks<L>,
    ) -> Result<Applied<Undo>, OutOfMemory> {
        OneObject::apply(&mut state.states[usize::from(op.object)], &op.act, ticks)
    }

    #[inline(always)]
    fn undo<L: Ledger>(
        state: &mut ObjectStates,
        op: &Op,
        undo: Undo,
        ticks: &mut Ticks<L>,
    ) -> Result<(), OutOfMemory> {
        OneObject::undo(
            &mut state.states[usize::from(op.object)],
            &op.act,
            undo,
            ticks,
        )
    }

    #[inline(always)]
    fn swaps(a: &Op, b: &Op) -> bool {
        may_swap(a, b)
    }

    fn context(alloc: Global, a: &Op, b: &Op) -> Result<Option<Context<Op>>, OutOfMemory> {
        if a.object == b.object {
            context_at(alloc, a.object, OneObject::context(alloc, &a.act, &b.act)?)
        } else {
            Ok(None)
        }
    }

    ghost lawful = { objects_lawful };
}

impl Placed for Objects {
    ghost place_of = { place_of };

    ghost SameAt = { SameAt };

    fn place(op: &Op) -> u16 {
        op.object
    }

    fn call(op: &Op) -> Call {
        Call {
            object: op.object,
            ..op.act.call()
        }
    }

    ghost placed = { objects_placed };
}

impl TakesBack for Objects {
    #[inline(always)]
    fn keep_in_turn(a: &Op, kept: &Undo) -> bool {
        OneObject::keep_in_turn(&a.act, kept)
    }

    #[inline(always)]
    fn keeps_alone(a: &Op) -> bool {
        OneObject::keeps_alone(&a.act)
    }
}
