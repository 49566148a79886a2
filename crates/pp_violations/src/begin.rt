//! The criteria of a begin.
ghost use Rattle.std.specs.Prelude.{◌∷◌, [], ℕ};
ghost use Rattle.pp_core.specs.Steps.{meaning};
ghost use Rattle.pp_records.specs.Expansions.{IsBegin};
ghost use Rattle.pp_records.specs.Records.{Plain};
ghost use Rattle.pp_machine.specs.declared.detail.Detail.TheVariants.{Nothing};
ghost use Rattle.pp_summary.specs.Shown.{KeepsQuick};
ghost use Rattle.pp_violations.specs.Asks.{Judges};
ghost use Rattle.pp_violations.specs.Summarised.{kept_summary};
ghost use Rattle.pp_violations.specs.Searches.{SearchesRecord, begin_facts};

use crate::violation::{Broken, Violation, at_step_if, bare};
use pp_core::{Name, Rule, Step};
use pp_kind::Parted;
use pp_log_shared::Shared;
use pp_summary::{Own, Parts};

/// The first violated criterion of BEGIN.
fn judge_begin<S: Parted>(
    parts: &Parts<S::Shape, S::Op, Shared<S>, Own<S>>,
    tx: &Name,
    thread: &Name,
) -> Option<Broken<S::Op>>
    requires keeps { KeepsQuick S.object S.place_of parts.now }
    ensures { Judges (begin_facts (kept_summary parts.now) tx.now thread.now)
        (Nothing ∷ Nothing ∷ []) result }
{
    if parts.slots.contains_key(tx) {
        return Some(bare(1));
    }
    if parts.threads.contains(thread) {
        return Some(bare(2));
    }
    None
}

/// The violated criterion of a begin record, as a step.
pub(crate) fn search_begin<S: Parted>(
    parts: &Parts<S::Shape, S::Op, Shared<S>, Own<S>>,
    step: &Step<S::Op>,
) -> Option<Violation<S::Op>>
    requires keeps { KeepsQuick S.object S.place_of parts.now }
    requires begin { IsBegin (meaning step.now) }
    ensures { SearchesRecord S.object S.place_of parts.now.shape parts.now
        (Plain (meaning step.now)) result }
{
    let Step::Begin { tx, thread, .. } = step else {
        unreachable!()
    };
    at_step_if(0, Rule::Begin, judge_begin::<S>(parts, tx, thread))
}
