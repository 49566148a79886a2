//! Laws of what `recheck` prints. Each law is a fact about the definitions: its body is empty.
ghost use Rattle.pp_cmd_recheck.specs.Laws.{RecheckLaw};

/// Each input has exactly one status and one text. What an accepted certificate shows is sound.
pub fn recheck_law()
    ensures { RecheckLaw }
{}
