//! The criteria of a begin.
ghost use Rattle.std.specs.Prelude.{◌∷◌, [], ℕ};
ghost use Rattle.pp_core.specs.Steps.{meaning};
ghost use Rattle.pp_records.specs.Expansions.{IsBegin};
ghost use Rattle.pp_records.specs.Records.{Plain};
ghost use Rattle.pp_machine.specs.declared.detail.Detail.TheVariants.{Nothing};
ghost use Rattle.pp_snapshots.specs.Shown.{Keeps, shown};
ghost use Rattle.pp_violations.specs.Asks.{Judges};
ghost use Rattle.pp_violations.specs.Searches.{begin_facts};
ghost use Rattle.pp_conflicts.specs.Searches.{SearchesShown};

use pp_core::{Name, Rule, Step};
use pp_kind::Placed;
use pp_snapshots::Parts;
use pp_violations::{Broken, Violation, at_step_if, bare};

/// The first violated criterion of BEGIN.
fn judge_begin<S: Placed>(
    parts: &Parts<S::Shape, S::State, S::Op, S::Undo>,
    tx: &Name,
    thread: &Name,
) -> Option<Broken<S::Op>>
    requires keeps { Keeps S.object S.place_of parts.now }
    ensures { Judges (begin_facts (shown [] parts.now) tx.now thread.now)
        (Nothing ∷ Nothing ∷ []) result }
{
    if parts.slots.contains_key(tx) {
        return Some(bare(1));
    }
    if parts.threads.contains(thread) {
        return Some(bare(2));
    }
    None
}

/// The step of a begin, if it violates a criterion.
pub(crate) fn search_begin<S: Placed>(
    parts: &Parts<S::Shape, S::State, S::Op, S::Undo>,
    step: &Step<S::Op>,
) -> Option<Violation<S::Op>>
    requires keeps { Keeps S.object S.place_of parts.now }
    requires begin { IsBegin (meaning step.now) }
    ensures { SearchesShown S.object S.place_of parts.now (Plain (meaning step.now)) result }
{
    let Step::Begin { tx, thread, .. } = step else {
        unreachable!()
    };
    at_step_if(0, Rule::Begin, judge_begin::<S>(parts, tx, thread))
}
