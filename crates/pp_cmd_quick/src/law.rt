//! A law of the decision.
ghost use Rattle.pp_cmd_quick.specs.Laws.{DecisionLaw};

/// An input is decided in at most one way. The decision is the verdict of all its steps, reported
/// by the line. It is also what `certify` reports, unless that is TooManySteps. This is a law of
/// the definitions: the body is empty.
pub fn decision_law()
    ensures { DecisionLaw }
{}
