//! The trait of kinds whose operations are about parts of objects.
ghost use Rattle.std.specs.Prelude.{◌≡◌, ◌≢◌, IsTrue};
ghost use Rattle.pp_kind.specs.Object.{CliqueSwaps, Swaps};
ghost use Rattle.pp_kind.specs.Parts.{PartsSwap, StandsFor};

use crate::gapped::Gapped;
use crate::gate::Gate;
use crate::label::Label;
use crate::part::Part;
use crate::spec::Placed;

/// A kind of several objects. Each operation has one object, and one part of it. Operations of
/// different parts swap. The two logs and the machine require it: whether an operation swaps with
/// all entries is then mostly decided by a few entries of its own part.
pub trait Parted: Placed + Gapped {
    ghost use Rattle.std.specs.Prelude.{◌≡◌, IsTrue};
    ghost use Rattle.pp_kind.specs.declared.label.Label.{Label as LabelOf};
    ghost use Rattle.pp_kind.specs.declared.part.Part.{Part as PartOf};
    ghost use Rattle.pp_kind.specs.Parts.{IsGate, PartsSwap, StandsFor};
    ghost use Rattle.pp_kind.specs.Object.{CliqueSwaps};

    /// The part that an operation is about.
    ghost part_of: { Self.Op → PartOf };

    /// The form of an operation that gates know, and the number of it that they read.
    ghost label_of: { Self.Op → LabelOf };

    /// The part that it is about.
    fn part(op: &Self::Op) -> Part
        ensures { result ≡ part_of op.now };

    /// Its form that gates know, and its number that they read.
    fn label(op: &Self::Op) -> Label
        ensures { result ≡ label_of op.now };

    /// The operations of a form that are known to swap with this one after them, by their numbers.
    fn gate(form: usize, op: &Self::Op) -> Gate
        ensures { IsGate Self.object label_of form op.now result };

    /// Whether the first may represent the second: wherever it swaps, the second is known to swap.
    fn stands_for(a: &Self::Op, b: &Self::Op) -> bool
        ensures { IsTrue result → StandsFor Self.object a.now b.now };

    /// Whether it is in the clique: any two operations there swap, whatever numbers they have, and
    /// whatever objects they are on.
    fn in_clique(op: &Self::Op) -> bool
        ensures { result ≡ Self.object.upkeep.in_clique op.now };

    /// Operations of different parts swap.
    ghost parted: { PartsSwap Self.object part_of };

    /// Any two operations in the clique swap.
    ghost clique: { CliqueSwaps Self.object };
}

/// Operations of different parts swap.
pub fn other_parts_swap<S: Parted>()
    ensures { (a b : S.Op) → S.part_of a ≢ S.part_of b → Swaps S.object a b }
{}
