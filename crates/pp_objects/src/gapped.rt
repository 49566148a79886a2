//! The gaps of an object of any kind, by a match on its kind, and of the objects of a run.
ghost use Rattle.std.specs.Prelude.{◌≡◌, ◌+◌, IsTrue, OnOk, OnErr};
ghost use Rattle.pp_kind.specs.Gaps.{ClosesTo, Crosses, Leaves, MayClose};
ghost use Rattle.pp_objects.specs.Gaps.{Bears, Differ, OneBears, OneDiffer};
ghost use Rattle.pp_objects.specs.One.{one};

use crate::act::{Act, Op};
use crate::gap::{ActGap, Gap, crossed_as, left_as, memory_crossed};
use crate::objects::Objects;
use crate::one::OneObject;
use crate::states::{ObjectState, ObjectStates};
use pp_core::{OutOfMemory, Ticks};
use pp_kind::{Crossed, Gapped, Left};
use pp_kind_counter::Count;
use pp_kind_map::KeyMap;
use pp_kind_memory::{Mem, Undo};
use pp_kind_priority::Prio;
use pp_kind_queue::Fifo;
use pp_kind_set::KeySet;
use pp_kind_stack::Stack;
use std::sync::ledger::Ledger;

impl OneObject {
    /// The gap that an act leaves which kept this.
    #[inline(always)]
    pub fn gap_of(op: &Act, undo: &Undo) -> Left<ActGap>
        ensures { Leaves one OneBears OneDiffer op.now undo.now result }
    {
        match op {
            Act::Memory(op) => left_as(Mem::gap_of(op, undo)),
            Act::KeySet(op) => left_as(KeySet::gap_of(op, &())),
            Act::KeyMap(op) => left_as(KeyMap::gap_of(op, &())),
            Act::Counter(op) => left_as(Count::gap_of(op, &())),
            Act::Queue(op) => left_as(Fifo::gap_of(op, &())),
            Act::Stack(op) => left_as(Stack::gap_of(op, &())),
            Act::PriorityQueue(op) => left_as(Prio::gap_of(op, &())),
        }
    }

    /// The gap after a further act.
    #[inline(always)]
    pub fn cross(gap: &ActGap, op: &Act) -> Crossed<ActGap, Undo>
        ensures { Crosses one OneBears OneDiffer gap.now op.now result }
    {
        match (gap, op) {
            (ActGap::Memory(gap), Act::Memory(op)) => memory_crossed(Mem::cross(gap, op)),
            (ActGap::KeySet(gap), Act::KeySet(op)) => crossed_as(KeySet::cross(gap, op)),
            (ActGap::KeyMap(gap), Act::KeyMap(op)) => crossed_as(KeyMap::cross(gap, op)),
            (ActGap::Counter(gap), Act::Counter(op)) => crossed_as(Count::cross(gap, op)),
            (ActGap::Queue(gap), Act::Queue(op)) => crossed_as(Fifo::cross(gap, op)),
            (ActGap::Stack(gap), Act::Stack(op)) => crossed_as(Stack::cross(gap, op)),
            (ActGap::PriorityQueue(gap), Act::PriorityQueue(op)) => {
                crossed_as(Prio::cross(gap, op))
            }
            _ => Crossed::Unknown,
        }
    }

    /// Whether the state meets what was required of the other one. False says nothing.
    pub fn bears(gap: &ActGap, state: &ObjectState) -> bool
        ensures { IsTrue result → OneBears gap.now state.now }
    {
        match (gap, state) {
            (ActGap::Memory(gap), ObjectState::Memory(state)) => Mem::bears(gap, state),
            (ActGap::KeySet(gap), ObjectState::KeySet(state)) => KeySet::bears(gap, state),
            (ActGap::KeyMap(gap), ObjectState::KeyMap(state)) => KeyMap::bears(gap, state),
            (ActGap::Counter(gap), ObjectState::Counter(state)) => Count::bears(gap, state),
            (ActGap::Queue(gap), ObjectState::Queue(state)) => Fifo::bears(gap, state),
            (ActGap::Stack(gap), ObjectState::Stack(state)) => Stack::bears(gap, state),
            (ActGap::PriorityQueue(gap), ObjectState::PriorityQueue(state)) => {
                Prio::bears(gap, state)
            }
            _ => false,
        }
    }

    /// Makes the first state the second. The only error is out of memory.
    pub fn close<L: Ledger>(
        state: &mut ObjectState,
        gap: &ActGap,
        ticks: &mut Ticks<L>,
    ) -> Result<(), OutOfMemory>
        requires { MayClose one OneDiffer gap.now state.old }
        ensures ok { OnOk result (ClosesTo one OneDiffer gap.now state.old state.new) }
        ensures err { OnErr result (state.new ≡ state.old) }
        ensures cost { ticks.new ≡ ticks.old + 1 }
    {
        match (state, gap) {
            (ObjectState::Memory(state), ActGap::Memory(gap)) => Mem::close(state, gap, ticks),
            (ObjectState::KeySet(state), ActGap::KeySet(gap)) => KeySet::close(state, gap, ticks),
            (ObjectState::KeyMap(state), ActGap::KeyMap(gap)) => KeyMap::close(state, gap, ticks),
            (ObjectState::Counter(state), ActGap::Counter(gap)) => Count::close(state, gap, ticks),
            (ObjectState::Queue(state), ActGap::Queue(gap)) => Fifo::close(state, gap, ticks),
            (ObjectState::Stack(state), ActGap::Stack(gap)) => Stack::close(state, gap, ticks),
            (ObjectState::PriorityQueue(state), ActGap::PriorityQueue(gap)) => {
                Prio::close(state, gap, ticks)
            }
            _ => {
                ticks.tick();
                Ok(())
            }
        }
    }
}

impl Gapped for Objects {
    type Gap = Gap;

    ghost Bears = { Bears };

    ghost Differ = { Differ };

    #[inline(always)]
    fn gap_of(op: &Op, undo: &Undo) -> Left<Gap> {
        let object = op.object;
        match OneObject::gap_of(&op.act, undo) {
            Left::Same => Left::Same,
            Left::Apart(act) => Left::Apart(Gap { object, act }),
        }
    }

    #[inline(always)]
    fn cross(gap: &Gap, op: &Op) -> Crossed<Gap, Undo> {
        let object = gap.object;
        if op.object != object {
            return Crossed::Unknown;
        }
        match OneObject::cross(&gap.act, &op.act) {
            Crossed::Same(undo) => Crossed::Same(undo),
            Crossed::Apart(act) => Crossed::Apart(Gap { object, act }),
            Crossed::Unknown => Crossed::Unknown,
        }
    }

    fn bears(gap: &Gap, state: &ObjectStates) -> bool {
        match state.get(gap.object) {
            Some(object) => OneObject::bears(&gap.act, object),
            None => false,
        }
    }

    fn close<L: Ledger>(
        state: &mut ObjectStates,
        gap: &Gap,
        ticks: &mut Ticks<L>,
    ) -> Result<(), OutOfMemory> {
        OneObject::close(&mut state.states[usize::from(gap.object)], &gap.act, ticks)
    }
}
