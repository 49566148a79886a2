//! Laws of summaries: a run is decided without the local logs of its transactions. A law about
//! places is true of every choice of places of which the object is made. Each law is the contract
//! of an empty function, over every kind of objects.
#![tactic(auto)]

ghost use Rattle.pp_core.specs.declared.call.Style.{Style};
ghost use Rattle.pp_laws_summary.specs.Counts.{CountsLaw, CountsSteps};
ghost use Rattle.pp_laws_summary.specs.Dependent.{DependentLaw};
ghost use Rattle.pp_laws_summary.specs.Failures.{FailuresLaw, FindsFailures};
ghost use Rattle.pp_laws_summary.specs.Laws.{LocalLogsLaw, SummariesDecide, SummariesLaw};
ghost use Rattle.pp_laws_summary.specs.LocalLogs.{HasSummary};
ghost use Rattle.pp_laws_summary.specs.Places.{PartsSwapLaw, PlacesPart};
ghost use Rattle.pp_laws_summary.specs.Premises.{SummariesDoNotSuffice, SwapsDoNotSuffice};
ghost use Rattle.pp_laws_summary.specs.Replays.{ReplaysLaw};
ghost use Rattle.pp_laws_summary.specs.States.{StatesLaw};
ghost use Rattle.pp_laws_summary.specs.Untouched.{UntouchedLaw};
ghost use Rattle.pp_kind.specs.Object.{rules_of};

use pp_kind::{Placed, Spec};

/// Operations at different places swap, if the object is made of objects at places.
pub fn parts_swap<S: Spec>()
    ensures { (shape : S.Shape) → PartsSwapLaw (rules_of S.object shape) }
{}

/// A `Placed` kind is made of objects at places.
pub fn placed_kinds_part<S: Placed>()
    ensures { (shape : S.Shape) → PlacesPart (rules_of S.object shape) S.place_of }
{}

/// The local logs decide a record of a boosted, an optimistic or a hardware run at its object: it is
/// good exactly if each of its steps meets its criteria. After good records, what a transaction
/// pulled of an object is what was committed first.
pub fn local_logs_decide<S: Spec>()
    ensures { (shape : S.Shape) → LocalLogsLaw (rules_of S.object shape) }
{}

/// Summaries, which have no local logs, decide boosted, optimistic and hardware runs: each record,
/// whether the run is accepted, and which record has the first step that violates a criterion.
pub fn summaries_decide<S: Spec>()
    ensures { (shape : S.Shape) → SummariesLaw (rules_of S.object shape) }
{}

/// A summary finds the first step of a record, and of a run, that violates a criterion, with the
/// number of the step, and the number of the criterion.
pub fn summaries_find_failures<S: Spec>()
    ensures { (shape : S.Shape) → FailuresLaw (rules_of S.object shape) }
{}

/// Over every `Placed` kind, summaries decide these runs, count their steps and find their failures,
/// without a premise.
pub fn summaries_decide_placed<S: Placed>()
    ensures decide { (shape : S.Shape) (style : Style) → HasSummary style
        → SummariesDecide style (rules_of S.object shape) S.place_of }
    ensures count { (shape : S.Shape) (style : Style) → HasSummary style
        → CountsSteps style (rules_of S.object shape) S.place_of }
    ensures find { (shape : S.Shape) (style : Style) → HasSummary style
        → FindsFailures style (rules_of S.object shape) S.place_of }
{}

/// A summary counts the steps of each record, good or not, and so those of a run of good records.
pub fn summaries_count_steps<S: Spec>()
    ensures { (shape : S.Shape) → CountsLaw (rules_of S.object shape) }
{}

/// The local logs decide a record of a dependent run at its object.
pub fn local_logs_decide_dependent<S: Spec>()
    ensures { (shape : S.Shape) → DependentLaw (rules_of S.object shape) }
{}

/// The states of single objects decide which operations may follow what a transaction has of an
/// object, and which may follow the shared log.
pub fn states_tell_what_follows<S: Spec>()
    ensures { (shape : S.Shape) → StatesLaw (rules_of S.object shape) }
{}

/// Pulled entries of an object on which a transaction has no own entry meet each criterion. They
/// lead to the state of the serial run. So the first touch of an object needs nothing of its
/// history.
pub fn untouched_objects_are_safe<S: Spec>()
    ensures { (shape : S.Shape) → UntouchedLaw (rules_of S.object shape) }
{}

/// If the own entries on an object swap both ways with what is missed there, a refresh is good
/// exactly if the own operations are allowed in the state of the serial run.
pub fn swapping_entries_are_replayed<S: Spec>()
    ensures { (shape : S.Shape) → ReplaysLaw (rules_of S.object shape) }
{}

/// It does not suffice that operations at different places swap: then a record that is good at its
/// object may have a step that violates a criterion.
pub fn swaps_do_not_suffice()
    ensures { SwapsDoNotSuffice }
{}

/// Summaries do not suffice if what may follow does not determine the state.
pub fn summaries_do_not_suffice()
    ensures { SummariesDoNotSuffice }
{}
