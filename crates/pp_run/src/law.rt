//! A law of the arguments. It is a fact about the definitions: the body is empty.
ghost use Rattle.pp_run.specs.Words.{DrillNumberLaw};

/// An argument states a number exactly if it is one from 1 to 20,000, written in digits.
pub fn words_law()
    ensures { DrillNumberLaw }
{}
