//! The search for the first step of a record that violates a criterion.
ghost use Rattle.std.specs.Prelude.{◌≤◌, ◌<◌, ◌+◌, IfOk};
ghost use Rattle.pp_records.specs.Records.{record_meaning};
ghost use Rattle.pp_summary.specs.Held.{IsRecordAsked};
ghost use Rattle.pp_summary.specs.Runs.{IsBoosted};
ghost use Rattle.pp_summary.specs.Shown.{KeepsQuick};
ghost use Rattle.pp_violations.specs.Searches.{SearchesRecord};
ghost use Rattle.pp_violations.specs.Violations.{IsRefused, IsViolation};

use crate::begin::search_begin;
use crate::ends::{search_abort, search_commit, search_retry};
use crate::op::search_op;
use crate::violation::Violation;
use pp_core::{OutOfMemory, Ticks};
use pp_kind::Parted;
use pp_log_shared::Shared;
use pp_records::RunRecord;
use pp_summary::{Own, Parts, Quick};
use std::alloc::Global;
use std::sync::ledger::Ledger;

/// The first step of a record that violates a criterion.
fn search_record<S: Parted, L: Ledger>(
    alloc: Global,
    parts: &Parts<S::Shape, S::Op, Shared<S>, Own<S>>,
    recorded: &RunRecord<S::Op>,
    ticks: &mut Ticks<L>,
) -> Result<Option<Violation<S::Op>>, OutOfMemory>
    requires keeps { KeepsQuick S.object S.place_of parts.now }
    requires style { IsBoosted (record_meaning recorded.now) }
    requires asked { IsRecordAsked S.object parts.now.shape (record_meaning recorded.now) }
    requires few { parts.now.count < 4_294_967_295 }
    ensures searches { IfOk result (SearchesRecord S.object S.place_of parts.now.shape parts.now
        (record_meaning recorded.now)) }
    ensures rises { ticks.old ≤ ticks.new }
    ensures bound { ticks.new ≤ ticks.old + (parts.now.count + 256) }
{
    match recorded {
        RunRecord::Plain(step) => Ok(search_begin::<S>(parts, step)),
        RunRecord::Op { tx, id, op } => search_op(alloc, parts, tx, *id, op, ticks),
        RunRecord::Commit { tx } => Ok(search_commit::<S>(parts, tx)),
        RunRecord::Abort { tx } => Ok(search_abort::<S>(parts, tx)),
        RunRecord::Retry { tx } => Ok(search_retry::<S>(parts, tx)),
        RunRecord::Refresh { .. }
        | RunRecord::XBegin { .. }
        | RunRecord::XEnd { .. }
        | RunRecord::XAbort { .. }
        | RunRecord::Depend { .. }
        | RunRecord::Publish { .. }
        | RunRecord::DropSource { .. } => unreachable!(),
    }
}

/// The first step that violates a criterion, in a record that a `Quick` refused, with its first
/// violated criterion and the evidence. A tick counts each operation that is applied again. The
/// only error is out of memory.
pub fn find_violation<S: Parted, L: Ledger>(
    alloc: Global,
    quick: &Quick<S>,
    recorded: &RunRecord<S::Op>,
    ticks: &mut Ticks<L>,
) -> Result<Violation<S::Op>, OutOfMemory>
    requires style { IsBoosted (record_meaning recorded.now) }
    requires asked { IsRecordAsked S.object quick.now.shape (record_meaning recorded.now) }
    requires few { quick.now.count < 4_294_967_295 }
    requires refused { IsRefused S.object S.place_of quick.now (record_meaning recorded.now) }
    ensures found { IfOk result
        (IsViolation S.object S.place_of quick.now (record_meaning recorded.now)) }
    ensures rises { ticks.old ≤ ticks.new }
    ensures bound { ticks.new ≤ ticks.old + (quick.now.count + 256) }
{
    match search_record(alloc, quick.parts(), recorded, ticks)? {
        Some(violation) => Ok(violation),
        None => unreachable!(),
    }
}
