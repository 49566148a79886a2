//! Laws of peaks and views. Each is a fact of the definitions, and does nothing.
ghost use Rattle.pp_kind.specs.Object.{rules_of};
ghost use Rattle.pp_attempts.specs.Laws.{AppliedLaw, KeptPeakLaw, OneViewLaw, OrderlyLaw};

use pp_kind::Spec;

/// The operations of each peak were applied by its transaction.
pub fn applied_law<S: Spec>()
    ensures { AppliedLaw S.Op }
{}

/// The steps of an accepted run are orderly, as `peaks_of` requires. That they are at most 200,000
/// is the limit of a run.
pub fn orderly_law<S: Spec>()
    ensures { (shape : S.Shape) → OrderlyLaw (rules_of S.object shape) }
{}

/// If a committed transaction undid nothing after its last peak, this has a number, which is at
/// most the place of the transaction in commit order, from 0.
pub fn kept_peak_law<S: Spec>()
    ensures { (shape : S.Shape) → KeptPeakLaw (rules_of S.object shape) }
{}

/// A peak has one view at most.
pub fn one_view_law<S: Spec>()
    ensures { (shape : S.Shape) → OneViewLaw (rules_of S.object shape) }
{}
