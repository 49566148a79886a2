//! Laws of the texts that `focus` prints. A boosted, an optimistic or a hardware input is right
//! exactly if its bookkeeping is right and the text for each of its objects is right. If it is
//! rejected, the criterion is one of bookkeeping, or some text is rejected alike. Each law is the
//! contract of an empty function.
#![tactic(auto)]

ghost use Rattle.pp_laws_focus.specs.TextsLocal.{TextsAreLocal};
ghost use Rattle.pp_laws_focus.specs.TextsRejected.{TextsReject};

/// The start and each step of an input meet their criteria exactly if its bookkeeping is right, and
/// so do those of the text of `focus` for each of its objects.
pub fn texts_are_local()
    ensures { TextsAreLocal }
{}

/// If an input is rejected at a step, the criterion is one of bookkeeping, or the text for some
/// object is rejected on the same line, at the same step and by the same criterion. No text is
/// rejected at an earlier record.
pub fn texts_reject()
    ensures { TextsReject }
{}
