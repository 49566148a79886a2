//! The criteria of a refresh: those of its NOTE and of its PULLs.
ghost use Rattle.std.specs.Prelude.{◌≡◌, ◌≤◌, ◌<◌, ◌+◌, IfOk};
ghost use Rattle.pp_records.specs.Records.{Refresh};
ghost use Rattle.pp_snapshots.specs.Shown.{Keeps};
ghost use Rattle.pp_conflicts.specs.Searches.{SearchesShown};

use crate::pull::search_missing;
use crate::view::find_missing;
use pp_core::{Name, OutOfMemory, Rule, Ticks};
use pp_kind::Parted;
use pp_snapshots::Parts;
use pp_summary::find_open;
use pp_violations::{Violation, alone};
use std::alloc::Global;
use std::sync::ledger::Ledger;

/// The first step of a refresh that violates a criterion.
pub(crate) fn search_refresh<S: Parted, L: Ledger>(
    alloc: Global,
    parts: &Parts<S::Shape, S::State, S::Op, S::Undo>,
    tx: &Name,
    place: u16,
    ticks: &mut Ticks<L>,
) -> Result<Option<Violation<S::Op>>, OutOfMemory>
    requires keeps { Keeps S.object S.place_of parts.now }
    requires few { parts.now.count < 4_294_967_295 }
    ensures searches { IfOk result (SearchesShown S.object S.place_of parts.now
        (Refresh tx.now place)) }
    ensures rises { ticks.old ≤ ticks.new }
    ensures bound { ticks.new ≤ ticks.old + (parts.now.count + 256) }
{
    let Some(it) = find_open(&parts.slots, tx) else {
        return Ok(Some(alone(Rule::Note)));
    };
    let missing = find_missing::<S>(parts, it, place)?;
    match search_missing::<S, L>(alloc, parts, it, place, &missing, ticks)? {
        Ok(_state) => Ok(None),
        // The NOTE is the first step.
        Err(violation) => Ok(Some(Violation {
            offset: violation.offset + 1,
            rule: violation.rule,
            criterion: violation.criterion,
            detail: violation.detail,
        })),
    }
}
