//! The laws of optimistic runs, each over every kind.
ghost use Rattle.pp_kind.specs.Object.{rules_of};
ghost use Rattle.pp_snapshots.specs.Runs.{TakenLaw};
ghost use Rattle.pp_snapshots.specs.Sums.{TriedCostsLaw};

use pp_kind::{Placed, Spec};

/// What `Snapshots` that take the records of a run, one after another, say of the run: whether a
/// record is good, which one has the first step that violates a criterion, whether the run is
/// accepted, and what was committed.
pub fn taken_law<S: Placed>()
    ensures { TakenLaw S.object S.place_of }
{}

/// What the records cost at most that are tried of a run, one after another.
pub fn tried_costs_law<S: Spec>()
    ensures { (shape : S.Shape) → TriedCostsLaw (rules_of S.object shape) }
{}
