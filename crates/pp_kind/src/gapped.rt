//! How a state differs from the one that would be there without one of its operations.
ghost use Rattle.std.specs.Prelude.{◌≡◌, ◌+◌, IsTrue, OnOk, OnErr};
ghost use Rattle.pp_kind.specs.Gaps.{ClosesTo, Crosses, Leaves, MayClose};

use crate::spec::Spec;
use pp_core::{OutOfMemory, Ticks};
use std::sync::ledger::Ledger;

/// How the state right after an operation differs from the one before it.
#[derive(Drop)]
pub enum Left<G> {
    /// Not at all: the operation changes nothing.
    Same,
    /// By this gap.
    Apart(G),
}

/// How two states that differ by a gap differ after a further operation, legal in the first.
#[derive(Drop)]
pub enum Crossed<G, U> {
    /// Not at all. It is legal in the second too, and keeps this there.
    Same(U),
    /// By this gap. If the first state bears it, the operation is legal in the second too, and
    /// keeps the same there.
    Apart(G),
    /// It is not known: the operation may not be legal in the second state.
    Unknown,
}

/// A kind that can describe how a state differs from the one that would be there without one of its
/// operations: by a gap between the two, which each later operation crosses. A log requires it to
/// remove one entry from its middle without applying all later ones again.
pub trait Gapped: Spec {
    /// How the two differ.
    type Gap: Copy;

    /// Whether the state meets what the crossed operations required of the other state, as far as
    /// the gap does not show it.
    ghost Bears: { Self.Gap → Self.State → Type 0 };

    /// The second state differs from the first as the gap says.
    ghost Differ: { Self.Gap → Self.State → Self.State → Type 0 };

    /// The gap that an operation leaves which kept this.
    fn gap_of(op: &Self::Op, undo: &Self::Undo) -> Left<Self::Gap>
        ensures { Leaves Self.object Bears Differ op.now undo.now result };

    /// The gap after a further operation. A kind may always return that it is not known. This is
    /// slow, but correct: then all later operations are taken back and applied again.
    fn cross(gap: &Self::Gap, op: &Self::Op) -> Crossed<Self::Gap, Self::Undo>
        ensures { Crosses Self.object Bears Differ gap.now op.now result };

    /// Whether the state meets what was required of the other one. False says nothing.
    fn bears(gap: &Self::Gap, state: &Self::State) -> bool
        ensures { IsTrue result → Bears gap.now state.now };

    /// Makes the first state the second. The only error is out of memory.
    fn close<L: Ledger>(
        state: &mut Self::State,
        gap: &Self::Gap,
        ticks: &mut Ticks<L>,
    ) -> Result<(), OutOfMemory>
        requires { MayClose Self.object Differ gap.now state.old }
        ensures ok { OnOk result (ClosesTo Self.object Differ gap.now state.old state.new) }
        ensures err { OnErr result (state.new ≡ state.old) }
        ensures cost { ticks.new ≡ ticks.old + 1 };
}
