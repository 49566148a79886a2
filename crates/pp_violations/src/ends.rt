//! The criteria of the end of a transaction.
ghost use Rattle.std.specs.Prelude.{◌≡◌};
ghost use Rattle.pp_records.specs.Records.{Abort, Commit, Retry};
ghost use Rattle.pp_summary.specs.Shown.{KeepsQuick};
ghost use Rattle.pp_violations.specs.Searches.{SearchesRecord};

use crate::violation::{Violation, alone, at_step, bare};
use pp_core::{Name, Rule};
use pp_kind::Parted;
use pp_log_shared::Shared;
use pp_summary::{Own, Parts, find_open};

/// The step of a commit record, if it violates a criterion. All operations of the transaction are
/// pushed, so the only criterion that it can violate is that its calls are a word of its body.
pub(crate) fn search_commit<S: Parted>(
    parts: &Parts<S::Shape, S::Op, Shared<S>, Own<S>>,
    tx: &Name,
) -> Option<Violation<S::Op>>
    requires keeps { KeepsQuick S.object S.place_of parts.now }
    ensures { SearchesRecord S.object S.place_of parts.now.shape parts.now (Commit tx.now) result }
{
    let Some(it) = find_open(&parts.slots, tx) else {
        return Some(alone(Rule::Cmt));
    };
    if !it.walk.complete() {
        return Some(at_step(0, Rule::Cmt, bare(2)));
    }
    None
}

/// The first step of an abort record that violates a criterion. There is one only if the
/// transaction is not open.
pub(crate) fn search_abort<S: Parted>(
    parts: &Parts<S::Shape, S::Op, Shared<S>, Own<S>>,
    tx: &Name,
) -> Option<Violation<S::Op>>
    requires keeps { KeepsQuick S.object S.place_of parts.now }
    ensures { SearchesRecord S.object S.place_of parts.now.shape parts.now (Abort tx.now) result }
{
    match find_open(&parts.slots, tx) {
        None => Some(alone(Rule::Quit)),
        Some(_it) => None,
    }
}

/// The first step of a retry record that violates a criterion. There is one only if the
/// transaction is not open.
pub(crate) fn search_retry<S: Parted>(
    parts: &Parts<S::Shape, S::Op, Shared<S>, Own<S>>,
    tx: &Name,
) -> Option<Violation<S::Op>>
    requires keeps { KeepsQuick S.object S.place_of parts.now }
    ensures { SearchesRecord S.object S.place_of parts.now.shape parts.now (Retry tx.now) result }
{
    match find_open(&parts.slots, tx) {
        None => Some(alone(Rule::Note)),
        Some(_it) => None,
    }
}
