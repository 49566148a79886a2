//! The search for the first step of a record that violates a criterion.
ghost use Rattle.std.specs.Prelude.{◌≤◌, ◌<◌, ◌+◌, IfOk};
ghost use Rattle.pp_core.specs.declared.call.Style.TheVariants.{Optimistic};
ghost use Rattle.pp_records.specs.Expansions.{IsOfStyle};
ghost use Rattle.pp_records.specs.Records.{record_meaning};
ghost use Rattle.pp_snapshots.specs.Shown.{Keeps};
ghost use Rattle.pp_summary.specs.Held.{IsRecordAsked};
ghost use Rattle.pp_conflicts.specs.Conflicts.{IsConflict, IsRefused};
ghost use Rattle.pp_conflicts.specs.Searches.{SearchesShown};

use crate::begin::search_begin;
use crate::commit::search_commit;
use crate::op::search_op;
use crate::quit::{search_abort, search_retry};
use crate::refresh::search_refresh;
use pp_core::{OutOfMemory, Ticks};
use pp_kind::Parted;
use pp_records::RunRecord;
use pp_snapshots::{Parts, Snapshots};
use pp_violations::Violation;
use std::alloc::Global;
use std::sync::ledger::Ledger;

/// The first step of a record that violates a criterion.
fn search_record<S: Parted, L: Ledger>(
    alloc: Global,
    parts: &Parts<S::Shape, S::State, S::Op, S::Undo>,
    recorded: &RunRecord<S::Op>,
    ticks: &mut Ticks<L>,
) -> Result<Option<Violation<S::Op>>, OutOfMemory>
    requires keeps { Keeps S.object S.place_of parts.now }
    requires style { IsOfStyle Optimistic (record_meaning recorded.now) }
    requires asked { IsRecordAsked S.object parts.now.shape (record_meaning recorded.now) }
    requires few { parts.now.count < 4_294_967_295 }
    ensures searches { IfOk result (SearchesShown S.object S.place_of parts.now
        (record_meaning recorded.now)) }
    ensures rises { ticks.old ≤ ticks.new }
    ensures bound { ticks.new ≤ ticks.old + (parts.now.count + 256) }
{
    match recorded {
        RunRecord::Plain(step) => Ok(search_begin::<S>(parts, step)),
        RunRecord::Op { tx, id, op } => search_op::<S, L>(alloc, parts, tx, *id, op, ticks),
        RunRecord::Commit { tx } => search_commit::<S, L>(alloc, parts, tx, ticks),
        RunRecord::Abort { tx } => Ok(search_abort::<S>(parts, tx)),
        RunRecord::Retry { tx } => Ok(search_retry::<S>(parts, tx)),
        RunRecord::Refresh { tx, object } => {
            search_refresh::<S, L>(alloc, parts, tx, *object, ticks)
        }
        RunRecord::XBegin { .. }
        | RunRecord::XEnd { .. }
        | RunRecord::XAbort { .. }
        | RunRecord::Depend { .. }
        | RunRecord::Publish { .. }
        | RunRecord::DropSource { .. } => unreachable!(),
    }
}

/// The first step that violates a criterion, of the record that a `Snapshots` refused, with its
/// first violated criterion and the evidence. The ticks are those of the operations that are
/// applied again. The only error is out of memory.
pub fn find_conflict<S: Parted, L: Ledger>(
    alloc: Global,
    snapshots: &Snapshots<S>,
    recorded: &RunRecord<S::Op>,
    ticks: &mut Ticks<L>,
) -> Result<Violation<S::Op>, OutOfMemory>
    requires style { IsOfStyle Optimistic (record_meaning recorded.now) }
    requires asked { IsRecordAsked S.object snapshots.now.shape (record_meaning recorded.now) }
    requires few { snapshots.now.count < 4_294_967_295 }
    requires refused { IsRefused S.object S.place_of snapshots.now (record_meaning recorded.now) }
    ensures found { IfOk result
        (IsConflict S.object S.place_of snapshots.now (record_meaning recorded.now)) }
    ensures rises { ticks.old ≤ ticks.new }
    ensures bound { ticks.new ≤ ticks.old + (snapshots.now.count + 256) }
{
    match search_record::<S, L>(alloc, snapshots.parts(), recorded, ticks)? {
        Some(violation) => Ok(violation),
        None => unreachable!(),
    }
}
