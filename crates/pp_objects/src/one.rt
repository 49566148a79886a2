//! One object of any kind, by a match on its kind.
ghost use Rattle.std.specs.Prelude.{◌≡◌, ◌+◌, ◌↔◌, IsTrue, false, IfOk, OnOk, OnErr};
ghost use Rattle.pp_kind.specs.Calls.{Applies, WasApplied, lists_of};
ghost use Rattle.pp_kind.specs.Object.{IsReached, KeptAs, MayKeep, Swaps};
ghost use Rattle.pp_objects.specs.One.{one, keeping_nothing};

use crate::act::Act;
use crate::acts::context_of;
use crate::states::ObjectState;
use pp_core::{Kind, OutOfMemory, Ticks};
use pp_kind::{Applied, Context, Spec};
use pp_kind_counter::Count;
use pp_kind_map::KeyMap;
use pp_kind_memory::{Mem, Undo};
use pp_kind_priority::Prio;
use pp_kind_queue::Fifo;
use pp_kind_set::KeySet;
use pp_kind_stack::Stack;
use std::alloc::Global;
use std::sync::ledger::Ledger;

/// One object of any kind: what `Objects` does with the object of an operation.
#[derive(Drop)]
pub struct OneObject;

/// The outcome of `apply` of a kind that keeps nothing.
fn keeping_nothing(applied: Result<Applied<()>, OutOfMemory>) -> Result<Applied<Undo>, OutOfMemory>
    ensures { result ≡ keeping_nothing applied }
{
    match applied {
        Ok(Applied::Done(())) => Ok(Applied::Done(Undo::Nothing)),
        Ok(Applied::Differs) => Ok(Applied::Differs),
        Err(refused) => Err(refused),
    }
}

impl OneObject {
    /// The object of a kind before any act. The only error is out of memory.
    pub fn empty(alloc: Global, kind: &Kind) -> Result<ObjectState, OutOfMemory>
        ensures { IfOk result (λ s. s ≡ one.start kind.now) }
    {
        match kind {
            Kind::Memory => Ok(ObjectState::Memory(Mem::empty(alloc, &())?)),
            Kind::KeySet => Ok(ObjectState::KeySet(KeySet::empty(alloc, &())?)),
            Kind::KeyMap => Ok(ObjectState::KeyMap(KeyMap::empty(alloc, &())?)),
            Kind::Counter => Ok(ObjectState::Counter(Count::empty(alloc, &())?)),
            Kind::Queue => Ok(ObjectState::Queue(Fifo::empty(alloc, &())?)),
            Kind::Stack => Ok(ObjectState::Stack(Stack::empty(alloc, &())?)),
            Kind::PriorityQueue => Ok(ObjectState::PriorityQueue(Prio::empty(alloc, &())?)),
        }
    }

    /// Whether it is an act on objects of this kind.
    pub fn fits(kind: &Kind, op: &Act) -> bool
        ensures { result ≡ one.fits kind.now op.now }
    {
        match kind {
            Kind::Memory => matches!(op, Act::Memory(_)),
            Kind::KeySet => matches!(op, Act::KeySet(_)),
            Kind::KeyMap => matches!(op, Act::KeyMap(_)),
            Kind::Counter => matches!(op, Act::Counter(_)),
            Kind::Queue => matches!(op, Act::Queue(_)),
            Kind::Stack => matches!(op, Act::Stack(_)),
            Kind::PriorityQueue => matches!(op, Act::PriorityQueue(_)),
        }
    }

    /// Applies an act if it is legal. The only error is out of memory.
    #[inline(always)]
    pub fn apply<L: Ledger>(
        state: &mut ObjectState,
        op: &Act,
        ticks: &mut Ticks<L>,
    ) -> Result<Applied<Undo>, OutOfMemory>
        requires fits { IsTrue (one.fits (one.shape state.old) op.now) }
        requires ranged { IsTrue (one.ranged op.now) }
        requires reached { IsReached one state.old }
        ensures applied { Applies one state.old op.now result state.new }
        ensures cost { ticks.new ≡ ticks.old + 1 }
    {
        match (state, op) {
            (ObjectState::Memory(state), Act::Memory(op)) => Mem::apply(state, op, ticks),
            (ObjectState::KeySet(state), Act::KeySet(op)) => {
                keeping_nothing(KeySet::apply(state, op, ticks))
            }
            (ObjectState::KeyMap(state), Act::KeyMap(op)) => {
                keeping_nothing(KeyMap::apply(state, op, ticks))
            }
            (ObjectState::Counter(state), Act::Counter(op)) => {
                keeping_nothing(Count::apply(state, op, ticks))
            }
            (ObjectState::Queue(state), Act::Queue(op)) => keeping_nothing(Fifo::apply(
                state, op, ticks,
            )),
            (ObjectState::Stack(state), Act::Stack(op)) => keeping_nothing(Stack::apply(
                state, op, ticks,
            )),
            (ObjectState::PriorityQueue(state), Act::PriorityQueue(op)) => keeping_nothing(
                Prio::apply(state, op, ticks),
            ),
            _ => {
                ticks.tick();
                Ok(Applied::Differs)
            }
        }
    }

    /// Takes the act back that left this state. The only error is out of memory.
    #[inline(always)]
    pub fn undo<L: Ledger>(
        state: &mut ObjectState,
        op: &Act,
        undo: Undo,
        ticks: &mut Ticks<L>,
    ) -> Result<(), OutOfMemory>
        requires { WasApplied one op.now undo state.old }
        ensures ok { OnOk result (state.new ≡ one.upkeep.back state.old op.now undo) }
        ensures err { OnErr result (state.new ≡ state.old) }
        ensures cost { ticks.new ≡ ticks.old + 1 }
    {
        match (state, op) {
            (ObjectState::Memory(state), Act::Memory(op)) => Mem::undo(state, op, undo, ticks),
            (ObjectState::KeySet(state), Act::KeySet(op)) => KeySet::undo(state, op, (), ticks),
            (ObjectState::KeyMap(state), Act::KeyMap(op)) => KeyMap::undo(state, op, (), ticks),
            (ObjectState::Counter(state), Act::Counter(op)) => Count::undo(state, op, (), ticks),
            (ObjectState::Queue(state), Act::Queue(op)) => Fifo::undo(state, op, (), ticks),
            (ObjectState::Stack(state), Act::Stack(op)) => Stack::undo(state, op, (), ticks),
            (ObjectState::PriorityQueue(state), Act::PriorityQueue(op)) => Prio::undo(
                state,
                op,
                (),
                ticks,
            ),
            _ => {
                ticks.tick();
                Ok(())
            }
        }
    }

    /// Whether two acts swap. Those that no object has together always do.
    #[inline(always)]
    pub fn swaps(a: &Act, b: &Act) -> bool
        ensures { IsTrue result ↔ Swaps one a.now b.now }
    {
        match (a, b) {
            (Act::Memory(a), Act::Memory(b)) => Mem::swaps(a, b),
            (Act::KeySet(a), Act::KeySet(b)) => KeySet::swaps(a, b),
            (Act::KeyMap(a), Act::KeyMap(b)) => KeyMap::swaps(a, b),
            (Act::Counter(a), Act::Counter(b)) => Count::swaps(a, b),
            (Act::Queue(a), Act::Queue(b)) => Fifo::swaps(a, b),
            (Act::Stack(a), Act::Stack(b)) => Stack::swaps(a, b),
            (Act::PriorityQueue(a), Act::PriorityQueue(b)) => Prio::swaps(a, b),
            _ => true,
        }
    }

    /// Whether an act, and one that may move past it, exchange their undo values in the other
    /// order. The undo value of the other one decides this. Only acts on a memory keep one.
    #[inline(always)]
    pub fn keep_in_turn(a: &Act, kept: &Undo) -> bool
        ensures { (b : Act) → MayKeep one b kept.now → Swaps one a.now b
            → KeptAs one result a.now b }
    {
        match a {
            Act::Memory(a) => Mem::keep_in_turn(a, kept),
            _ => false,
        }
    }

    /// Whether an act keeps in turn with none, as each act does that is not on a memory.
    #[inline(always)]
    pub fn keeps_alone(a: &Act) -> bool
        ensures { IsTrue result → (b : Act) → Swaps one a.now b → KeptAs one false a.now b }
    {
        match a {
            Act::Memory(a) => Mem::keeps_alone(a),
            _ => true,
        }
    }

    /// Acts that show that the pair does not swap, or `None` if it does. The only error is
    /// out of memory.
    pub fn context(alloc: Global, a: &Act, b: &Act) -> Result<Option<Context<Act>>, OutOfMemory>
        requires first { IsTrue (one.ranged a.now) }
        requires second { IsTrue (one.ranged b.now) }
        ensures lists { IfOk result (λ found. lists_of found ≡ one.refuting a.now b.now) }
    {
        match (a, b) {
            (Act::Memory(a), Act::Memory(b)) => context_of(alloc, Mem::context(alloc, a, b)?),
            (Act::KeySet(a), Act::KeySet(b)) => context_of(alloc, KeySet::context(alloc, a, b)?),
            (Act::KeyMap(a), Act::KeyMap(b)) => context_of(alloc, KeyMap::context(alloc, a, b)?),
            (Act::Counter(a), Act::Counter(b)) => context_of(alloc, Count::context(alloc, a, b)?),
            (Act::Queue(a), Act::Queue(b)) => context_of(alloc, Fifo::context(alloc, a, b)?),
            (Act::Stack(a), Act::Stack(b)) => context_of(alloc, Stack::context(alloc, a, b)?),
            (Act::PriorityQueue(a), Act::PriorityQueue(b)) => context_of(
                alloc,
                Prio::context(alloc, a, b)?,
            ),
            _ => Ok(None),
        }
    }
}
