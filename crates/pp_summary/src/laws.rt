//! The laws of boosted runs, each for every kind of objects. A law about places is true for every
//! choice of places for which operations at different places swap.
ghost use Rattle.pp_summary.specs.Boosted.{PlacesSwap};
ghost use Rattle.pp_summary.specs.Laws.{BoostedLaw, BriefLaw, DecidedLaw, FrontLaw, LeaveLaw};
ghost use Rattle.pp_summary.specs.Reading.{BoostedFailureLaw, ReaderLaw};
ghost use Rattle.pp_summary.specs.Sums.{SumsLaw};
ghost use Rattle.pp_kind.specs.Object.{rules_of};

use pp_kind::{Placed, Spec};

/// A local log of a boosted configuration may be put before the rest of the shared log.
pub fn front_law<S: Spec>()
    ensures { (shape : S.Shape) → FrontLaw (rules_of S.object shape) }
{}

/// A boosted record is good exactly if every step that it means meets its criteria. The next
/// configuration is then boosted too.
pub fn boosted_law<S: Spec>()
    ensures { (shape : S.Shape) → BoostedLaw (rules_of S.object shape) }
{}

/// The brief of a boosted configuration decides whether a record is good, and to which brief it
/// leads.
pub fn brief_law<S: Spec>()
    ensures { (shape : S.Shape) → BriefLaw (rules_of S.object shape) }
{}

/// Briefs decide a boosted run: whether it is accepted, and which record has the first step that
/// fails.
pub fn decided_law<S: Spec>()
    ensures { (shape : S.Shape) → DecidedLaw (rules_of S.object shape) }
{}

/// The last own entries of an open transaction may leave the shared log.
pub fn leave_law<S: Spec>()
    ensures { (shape : S.Shape) → LeaveLaw (rules_of S.object shape) }
{}

/// Operations at different places of a `Placed` kind swap.
pub fn placed_law<S: Placed>()
    ensures { (shape : S.Shape) → PlacesSwap (rules_of S.object shape) S.place_of }
{}

/// At most one record of a boosted run fails. None fails if each step meets its criteria, and one
/// fails if the start meets its criteria and a step does not. Each verdict of the steps then
/// rejects a step on the line of the failing record, or the start if the start fails.
pub fn failure_law<S: Spec>()
    ensures { (shape : S.Shape) → BoostedFailureLaw (rules_of S.object shape) }
{}

/// A `Quick` that takes the records of a run one by one decides the run: whether it is accepted,
/// what was committed, which record fails, and which records are tried.
pub fn reader_law<S: Placed>()
    ensures { ReaderLaw S.object S.place_of }
{}

/// An upper bound for the cost of the records of a run that are tried one by one. A good op record
/// costs at least one tick.
pub fn sum_law<S: Spec>()
    ensures { (shape : S.Shape) → SumsLaw (rules_of S.object shape) }
{}
