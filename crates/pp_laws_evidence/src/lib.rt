//! The law of evidence: a summary has the evidence of a rejection, without local logs.
#![tactic(auto)]

ghost use Rattle.pp_core.specs.declared.call.Style.{Style};
ghost use Rattle.pp_laws_evidence.specs.Details.{HasEvidence};
ghost use Rattle.pp_laws_summary.specs.LocalLogs.{HasSummary};

use pp_kind::Placed;

/// A summary has the evidence of the first step that violates a criterion, of each boosted,
/// optimistic and hardware run over a `Placed` kind.
pub fn summaries_have_evidence<S: Placed>()
    ensures { (shape : S.Shape) (style : Style) → HasSummary style
        → HasEvidence S.object shape S.place_of style }
{}
