//! Acts: the operations of any kind.
ghost use Rattle.std.specs.Prelude.{◌≡◌};
ghost use Rattle.pp_objects.specs.Calls.{arity_of};
ghost use Rattle.pp_objects.specs.One.{is_ranged, kind_for, recorded_by, call_of};
ghost use Rattle.pp_objects.specs.Parts.{key_of};

use crate::calls::arity;
use pp_core::{Answer, Call, Kind};
use pp_kind_counter::CounterOp;
use pp_kind_map::MapOp;
use pp_kind_memory::MemOp;
use pp_kind_priority::PrioOp;
use pp_kind_queue::QueueOp;
use pp_kind_set::SetOp;
use pp_kind_stack::StackOp;

/// A call on an object of some kind, with its recorded result.
#[derive(Clone, Copy, Debug, PartialEq, Eq)]
pub enum Act {
    Memory(MemOp),
    KeySet(SetOp),
    KeyMap(MapOp),
    Counter(CounterOp),
    Queue(QueueOp),
    Stack(StackOp),
    PriorityQueue(PrioOp),
}

/// An operation of a run: the place of its object, and what is done there.
#[derive(Clone, Copy, Debug, PartialEq, Eq)]
pub struct Op {
    /// The place of the object in the catalog.
    pub object: u16,
    pub act: Act,
}

impl Act {
    /// The kind of the objects of the act.
    pub fn kind(&self) -> Kind
        ensures { result ≡ kind_for self.now }
    {
        match self {
            Act::Memory(_) => Kind::Memory,
            Act::KeySet(_) => Kind::KeySet,
            Act::KeyMap(_) => Kind::KeyMap,
            Act::Counter(_) => Kind::Counter,
            Act::Queue(_) => Kind::Queue,
            Act::Stack(_) => Kind::Stack,
            Act::PriorityQueue(_) => Kind::PriorityQueue,
        }
    }

    /// The key that it is on, or 0 if its kind has none.
    #[inline]
    pub fn key(&self) -> i64
        ensures { result ≡ key_of self.now }
    {
        match self {
            Act::Memory(op) => op.address(),
            Act::KeySet(op) => op.key(),
            Act::KeyMap(op) => op.key(),
            Act::Counter(_) => 0,
            Act::Queue(_) => 0,
            Act::Stack(_) => 0,
            Act::PriorityQueue(_) => 0,
        }
    }

    /// How many arguments its call has.
    #[tactic(auto, using(crate::proofs::Made::has_method))]
    pub fn arity(&self) -> usize
        ensures { result ≡ arity_of (kind_for self.now) (call_of self.now).method }
    {
        arity(self.kind(), self.call().method)
    }

    /// Whether a record may have all its numbers.
    pub fn ranged(&self) -> bool
        ensures { result ≡ is_ranged self.now }
    {
        match self {
            Act::Memory(op) => op.ranged(),
            Act::KeySet(op) => op.ranged(),
            Act::KeyMap(op) => op.ranged(),
            Act::Counter(op) => op.ranged(),
            Act::Queue(op) => op.ranged(),
            Act::Stack(op) => op.ranged(),
            Act::PriorityQueue(op) => op.ranged(),
        }
    }

    /// The result that it records.
    pub fn recorded(&self) -> Answer
        ensures { result ≡ recorded_by self.now }
    {
        match self {
            Act::Memory(op) => op.recorded(),
            Act::KeySet(op) => op.recorded(),
            Act::KeyMap(op) => op.recorded(),
            Act::Counter(op) => op.recorded(),
            Act::Queue(op) => op.recorded(),
            Act::Stack(op) => op.recorded(),
            Act::PriorityQueue(op) => op.recorded(),
        }
    }

    /// Its call, at the object 0.
    pub fn call(&self) -> Call
        ensures { result ≡ call_of self.now }
    {
        match self {
            Act::Memory(op) => op.call(),
            Act::KeySet(op) => op.call(),
            Act::KeyMap(op) => op.call(),
            Act::Counter(op) => op.call(),
            Act::Queue(op) => op.call(),
            Act::Stack(op) => op.call(),
            Act::PriorityQueue(op) => op.call(),
        }
    }
}
