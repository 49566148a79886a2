//! The requirements on a kind so that operations in the middle of a log can be taken back alone.
ghost use Rattle.std.specs.Prelude.{◌≡◌, false, IsTrue};
ghost use Rattle.pp_kind.specs.Object.{KeptAs, MayKeep, Swaps};

use crate::spec::Placed;

/// A kind of several objects in which an operation can be taken back alone if all later ones may
/// move left over it. Only `quick` requires it: it takes the own entries of an abort or a retry out
/// of the shared log. The two methods describe the undo values when two operations change places.
pub trait TakesBack: Placed {
    /// How an operation and a later one on its object keep their undo values, if the later one may
    /// move left over it. The undo value of the later one decides. True: in turn. The one that
    /// comes first keeps the same value, whichever it is, and so does the other. False: each keeps
    /// the same value in both orders. If both are so, as when nothing is kept, either is returned.
    fn keep_in_turn(a: &Self::Op, kept: &Self::Undo) -> bool
        ensures { (b : Self.Op) → Self.place_of a.now ≡ Self.place_of b
            → MayKeep Self.object b kept.now → Swaps Self.object a.now b
            → KeptAs Self.object result a.now b };

    /// Whether the operation keeps in turn with none: each later operation that may move left over
    /// it, and it, keep the same undo values in both orders. False says nothing.
    fn keeps_alone(a: &Self::Op) -> bool
        ensures { IsTrue result →
            (b : Self.Op) → Swaps Self.object a.now b → KeptAs Self.object false a.now b };
}
