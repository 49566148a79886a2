//! Joined lines as an input. It is a fact of the definitions, and does nothing.
ghost use Rattle.std.specs.Prelude.{◌≡◌, ℕ, List, None};
ghost use Rattle.pp_input.specs.Joined.{joined_lines, AreLines, AreAllowed};
ghost use Rattle.pp_input.specs.Lines.{numbered_lines, numbered_from};
ghost use Rattle.pp_input.specs.Overruns.{overrun, scanned_lines};
ghost use Rattle.pp_input.specs.declared.limits.Limits.{Limits};

/// Lines without a byte 10, and without a byte 13 at their end, joined with a byte 10 after each,
/// are split into these lines again, numbered from 1. If they keep the limits, they exceed none, so
/// these are the lines that are examined.
#[tactic(auto, using(crate::proofs::Joined::split, crate::proofs::Joined::allowed, crate::proofs::Joined::scanned))]
pub fn joined_law()
    ensures split { (lines : List (List ℕ)) → AreLines lines
        → numbered_lines (joined_lines lines) ≡ numbered_from 1 lines }
    ensures limits { (limits : Limits) (lines : List (List ℕ)) → AreLines lines
        → AreAllowed limits lines → overrun limits (joined_lines lines) ≡ None }
    ensures scanned { (limits : Limits) (lines : List (List ℕ)) → AreLines lines
        → AreAllowed limits lines
        → scanned_lines limits (joined_lines lines) ≡ numbered_from 1 lines }
{}
