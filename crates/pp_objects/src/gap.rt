//! The difference between the objects of a run and those without one of its operations.
ghost use Rattle.std.specs.Prelude.{◌≡◌};
ghost use Rattle.pp_objects.specs.Wraps.{crossed_as, itself, left_as, nothing_for};
ghost use Rattle.pp_objects.specs.declared.gap.ActGap.TheVariants.{Memory};

use pp_kind::{Crossed, Left};
use pp_kind_counter::CounterGap;
use pp_kind_map::MapGap;
use pp_kind_memory::{MemGap, Undo};
use pp_kind_priority::PrioGap;
use pp_kind_queue::QueueGap;
use pp_kind_set::SetGap;
use pp_kind_stack::StackGap;

/// How an object differs from what it would be without an act on it.
#[derive(Clone, Copy)]
pub enum ActGap {
    Memory(MemGap),
    KeySet(SetGap),
    KeyMap(MapGap),
    Counter(CounterGap),
    Queue(QueueGap),
    Stack(StackGap),
    PriorityQueue(PrioGap),
}

/// How the objects differ: that at one place does.
#[derive(Clone, Copy)]
pub struct Gap {
    /// The place of the object.
    pub object: u16,
    /// How it differs.
    pub act: ActGap,
}

/// The gap of a kind, as one of acts.
pub trait KindGap: Copy {
    ghost use Rattle.pp_objects.specs.declared.gap.ActGap.{ActGap as ActGapOf};

    ghost as_act: { Self → ActGapOf };

    fn as_act(self) -> ActGap
        ensures { result ≡ as_act self };
}

impl KindGap for MemGap {
    ghost use Rattle.pp_objects.specs.declared.gap.ActGap.TheVariants.{Memory};

    ghost as_act = { Memory };

    #[inline(always)]
    fn as_act(self) -> ActGap {
        ActGap::Memory(self)
    }
}

impl KindGap for SetGap {
    ghost use Rattle.pp_objects.specs.declared.gap.ActGap.TheVariants.{KeySet};

    ghost as_act = { KeySet };

    #[inline(always)]
    fn as_act(self) -> ActGap {
        ActGap::KeySet(self)
    }
}

impl KindGap for MapGap {
    ghost use Rattle.pp_objects.specs.declared.gap.ActGap.TheVariants.{KeyMap};

    ghost as_act = { KeyMap };

    #[inline(always)]
    fn as_act(self) -> ActGap {
        ActGap::KeyMap(self)
    }
}

impl KindGap for CounterGap {
    ghost use Rattle.pp_objects.specs.declared.gap.ActGap.TheVariants.{Counter};

    ghost as_act = { Counter };

    #[inline(always)]
    fn as_act(self) -> ActGap {
        ActGap::Counter(self)
    }
}

impl KindGap for QueueGap {
    ghost use Rattle.pp_objects.specs.declared.gap.ActGap.TheVariants.{Queue};

    ghost as_act = { Queue };

    #[inline(always)]
    fn as_act(self) -> ActGap {
        ActGap::Queue(self)
    }
}

impl KindGap for StackGap {
    ghost use Rattle.pp_objects.specs.declared.gap.ActGap.TheVariants.{Stack};

    ghost as_act = { Stack };

    #[inline(always)]
    fn as_act(self) -> ActGap {
        ActGap::Stack(self)
    }
}

impl KindGap for PrioGap {
    ghost use Rattle.pp_objects.specs.declared.gap.ActGap.TheVariants.{PriorityQueue};

    ghost as_act = { PriorityQueue };

    #[inline(always)]
    fn as_act(self) -> ActGap {
        ActGap::PriorityQueue(self)
    }
}

/// The gap of an operation of a kind, as the gap of an act.
#[inline(always)]
pub fn left_as<G: KindGap>(left: Left<G>) -> Left<ActGap>
    ensures { result ≡ left_as G.as_act left }
{
    match left {
        Left::Same => Left::Same,
        Left::Apart(gap) => Left::Apart(gap.as_act()),
    }
}

/// A gap after an operation of a kind, as the gap after an act, if the kind keeps nothing.
#[inline(always)]
pub fn crossed_as<G: KindGap>(crossed: Crossed<G, ()>) -> Crossed<ActGap, Undo>
    ensures { result ≡ crossed_as G.as_act nothing_for crossed }
{
    match crossed {
        Crossed::Same(()) => Crossed::Same(Undo::Nothing),
        Crossed::Apart(gap) => Crossed::Apart(gap.as_act()),
        Crossed::Unknown => Crossed::Unknown,
    }
}

/// The same of a memory, which keeps what an act does.
#[inline(always)]
pub fn memory_crossed(crossed: Crossed<MemGap, Undo>) -> Crossed<ActGap, Undo>
    ensures { result ≡ crossed_as Memory itself crossed }
{
    match crossed {
        Crossed::Same(undo) => Crossed::Same(undo),
        Crossed::Apart(gap) => Crossed::Apart(gap.as_act()),
        Crossed::Unknown => Crossed::Unknown,
    }
}
