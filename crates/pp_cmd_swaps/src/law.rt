//! Laws of shared logs, and of what the command prints. Each law is a fact about the definitions:
//! its body is empty.
ghost use Rattle.pp_cmd_swaps.specs.Logs.{LogLaw};
ghost use Rattle.pp_cmd_swaps.specs.Prints.{CertifiedLaw, OneAnswerLaw};
ghost use Rattle.pp_kind.specs.Object.{rules_of};

use pp_kind::Spec;

/// The shared log of a run: its entries, and its greatest length.
pub fn log_law<S: Spec>()
    ensures { (shape : S.Shape) → LogLaw (rules_of S.object shape) }
{}

/// An input has at most one status and one text.
pub fn one_answer_law()
    ensures { OneAnswerLaw }
{}

/// If the command accepts an input, its text is a certificate that `recheck` accepts. The
/// certificate shows the operations and the states that the report of the input has.
pub fn certified_law()
    ensures { CertifiedLaw }
{}
