//! Laws of locality: a boosted, an optimistic or a hardware run is right exactly if its bookkeeping
//! is right and it is right on each object. The bookkeeping is names, threads, ids and bodies. Each
//! law is the contract of an empty function, over every kind of objects.
#![tactic(auto)]

ghost use Rattle.pp_core.specs.declared.call.Style.{Style};
ghost use Rattle.pp_kind.specs.Object.{rules_of};
ghost use Rattle.pp_laws_locality.specs.Locality.{IsLocal, LocalityLaw};
ghost use Rattle.pp_laws_summary.specs.LocalLogs.{HasSummary};

use pp_kind::{Placed, Spec};

/// A run is accepted exactly if its bookkeeping is right and its restriction to each object is
/// accepted. It is enough to test the objects that the run is on. A start meets its criteria
/// exactly if its ids are distinct and its restriction to each object does. If a step is rejected
/// by a criterion that is not of the bookkeeping, the restriction to some object is rejected on the
/// same line, at the same step, by the same criterion. No restriction is rejected at an earlier
/// record.
pub fn runs_are_local<S: Spec>()
    ensures { (shape : S.Shape) → LocalityLaw (rules_of S.object shape) }
{}

/// Over every `Placed` kind, these runs are local without a premise.
pub fn placed_runs_are_local<S: Placed>()
    ensures { (shape : S.Shape) (style : Style) → HasSummary style
        → IsLocal style (rules_of S.object shape) S.place_of }
{}
