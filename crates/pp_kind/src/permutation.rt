//! The permutation law, of every kind.
ghost use Rattle.pp_model.specs.Object.{PermutationLaw};
ghost use Rattle.pp_kind.specs.Object.{rules_of};

use crate::spec::Spec;

/// A list may be replaced by a permutation of it if each pair whose order is turned swaps.
pub fn permutation_law<S: Spec>()
    ensures { (shape : S.Shape) → PermutationLaw (rules_of S.object shape) }
{}
