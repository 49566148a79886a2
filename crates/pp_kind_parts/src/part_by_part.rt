//! The trait of kinds whose parts do not depend on one another, and the objects of a run.
ghost use Rattle.std.specs.Prelude.{◌≡◌};
ghost use Rattle.pp_kind_parts.specs.Alone.{PartsStandAlone};
ghost use Rattle.pp_kind_parts.specs.Silent.{is_silent, silent_of};
ghost use Rattle.pp_kind_parts.specs.laws.Objects.{objects_alone};
ghost use Rattle.pp_kind_parts.specs.laws.Silent.{silent_legal};

use pp_kind::Parted;
use pp_kind_counter::CounterOp;
use pp_kind_memory::MemOp;
use pp_kind_priority::PrioOp;
use pp_kind_queue::QueueOp;
use pp_kind_stack::StackOp;
use pp_objects::{Act, Objects, Op};

/// A kind of several objects whose parts do not depend on one another. So a list of operations is
/// allowed if those of each part are. Calls without a result are legal in each state.
pub trait PartByPart: Parted {
    ghost use Rattle.std.specs.Prelude.{◌≡◌, Bool};
    ghost use Rattle.pp_kind_parts.specs.Alone.{AreAlwaysLegal, PartsStandAlone};

    /// Whether the call of an operation has no result.
    ghost silent_of: { Self.Op → Bool };

    /// Whether its call has no result. False says nothing.
    fn is_silent(op: &Self::Op) -> bool
        ensures { result ≡ silent_of op.now };

    /// A legal operation is still legal after one of another part.
    ghost alone: { PartsStandAlone Self.object Self.place_of Self.part_of };

    /// An operation whose call has no result is legal in each state that it fits.
    ghost always_legal: { AreAlwaysLegal Self.object silent_of };
}

/// Whether the call of an act has no result.
#[inline]
fn is_silent(act: &Act) -> bool
    ensures { result ≡ is_silent act.now }
{
    match act {
        Act::Memory(MemOp::Write { at: _, value: _ }) => true,
        Act::Counter(CounterOp::Add { by: _ }) => true,
        Act::Queue(QueueOp::Enq { value: _ }) => true,
        Act::Stack(StackOp::Push { value: _ }) => true,
        Act::PriorityQueue(PrioOp::Insert { value: _ }) => true,
        _ => false,
    }
}

impl PartByPart for Objects {
    ghost silent_of = { silent_of };

    #[inline]
    fn is_silent(op: &Op) -> bool {
        is_silent(&op.act)
    }

    ghost alone = { objects_alone };

    ghost always_legal = { silent_legal };
}

/// A legal operation is still legal after one of another part.
pub fn parts_stand_alone<S: PartByPart>()
    ensures { PartsStandAlone S.object S.place_of S.part_of }
{}
