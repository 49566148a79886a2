//! The criteria of an abort and of a retry.
ghost use Rattle.std.specs.Prelude.{◌≡◌};
ghost use Rattle.pp_records.specs.Records.{Abort, Retry};
ghost use Rattle.pp_snapshots.specs.Shown.{Keeps};
ghost use Rattle.pp_conflicts.specs.Searches.{SearchesShown};

use pp_core::{Name, Rule};
use pp_kind::Placed;
use pp_snapshots::Parts;
use pp_summary::find_open;
use pp_violations::{Violation, alone};

/// The first step of an abort that violates a criterion: only that of a transaction that is not
/// open does.
pub(crate) fn search_abort<S: Placed>(
    parts: &Parts<S::Shape, S::State, S::Op, S::Undo>,
    tx: &Name,
) -> Option<Violation<S::Op>>
    requires keeps { Keeps S.object S.place_of parts.now }
    ensures { SearchesShown S.object S.place_of parts.now (Abort tx.now) result }
{
    match find_open(&parts.slots, tx) {
        None => Some(alone(Rule::Quit)),
        Some(_it) => None,
    }
}

/// The first step of a retry that violates a criterion: only that of a transaction that is not open
/// does.
pub(crate) fn search_retry<S: Placed>(
    parts: &Parts<S::Shape, S::State, S::Op, S::Undo>,
    tx: &Name,
) -> Option<Violation<S::Op>>
    requires keeps { Keeps S.object S.place_of parts.now }
    ensures { SearchesShown S.object S.place_of parts.now (Retry tx.now) result }
{
    match find_open(&parts.slots, tx) {
        None => Some(alone(Rule::Note)),
        Some(_it) => None,
    }
}
