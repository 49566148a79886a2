//! Laws of what is reported.
ghost use Rattle.pp_cmd_judge.specs.Laws.{JudgementLaw};

/// An input has one report at most. It is the report of `certify`, unless that is TooManySteps,
/// TooManyTransactions, TooManyLines or TooLong. An input never has too many bytes or transactions.
/// It has too many steps exactly if it is of style hardware or dependent, and has more than
/// 4,294,967,295. It is a law of the definitions, and does nothing.
pub fn judgement_law()
    ensures { JudgementLaw }
{}
