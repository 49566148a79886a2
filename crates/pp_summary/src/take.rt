//! Taking a record.
ghost use Rattle.std.specs.Prelude.{◌+◌, ◌≤◌, ◌<◌, IfOk};
ghost use Rattle.pp_core.specs.Steps.{meaning};
ghost use Rattle.pp_records.specs.Records.{Plain, record_meaning};
ghost use Rattle.pp_summary.specs.Held.{IsRecordAsked, IsStepAsked};
ghost use Rattle.pp_summary.specs.Held.{TakeCosts, take_most};
ghost use Rattle.pp_summary.specs.Moving.{Answers};
ghost use Rattle.pp_summary.specs.Shown.{KeepsQuick, shown};

use crate::begin::begin;
use crate::commit::commit;
use crate::op::do_op;
use crate::own::Own;
use crate::parts::Parts;
use crate::undo::{Undoing, undo};
use pp_core::{OutOfMemory, Step, Ticks};
use pp_kind::{Parted, TakesBack};
use pp_log_shared::Shared;
use pp_records::RunRecord;
use std::sync::ledger::Ledger;

/// Takes a step if it is a good begin. Other steps are not records of a boosted run. The only
/// error is out of memory.
fn take_step<S: Parted>(
    parts: &mut Parts<S::Shape, S::Op, Shared<S>, Own<S>>,
    step: &Step<S::Op>,
) -> Result<bool, OutOfMemory>
    requires keeps { KeepsQuick S.object S.place_of parts.old }
    requires asked { IsStepAsked (meaning step.now) }
    requires few { parts.old.count < 4_294_967_295 }
    ensures { IfOk result (λ good. Answers S.object S.place_of parts.old
        (Plain (meaning step.now)) good parts.new) }
{
    match step {
        Step::Begin { tx, thread, body } => begin(parts, tx, thread, body),
        Step::App { .. }
        | Step::Unapp { .. }
        | Step::Push { .. }
        | Step::Unpush { .. }
        | Step::Pull { .. }
        | Step::Unpull { .. }
        | Step::Cmt { .. }
        | Step::Quit { .. }
        | Step::Note { .. } => Ok(false),
    }
}

/// Takes a record if it is good. Otherwise it returns false, and nothing has changed. Records of
/// other styles are not good. The only error is out of memory.
pub fn take<S: Parted + TakesBack, L: Ledger>(
    parts: Box<Parts<S::Shape, S::Op, Shared<S>, Own<S>>>,
    recorded: &RunRecord<S::Op>,
    ticks: &mut Ticks<L>,
) -> Result<(Box<Parts<S::Shape, S::Op, Shared<S>, Own<S>>>, bool), OutOfMemory>
    requires keeps { KeepsQuick S.object S.place_of parts.value }
    requires asked { IsRecordAsked S.object parts.value.shape (record_meaning recorded.now) }
    requires few { parts.value.count < 4_294_967_295 }
    ensures answers { IfOk result (λ r.
        Answers S.object S.place_of parts.value (record_meaning recorded.now) r.1 r.0.value) }
    ensures cost { IfOk result (λ r. TakeCosts (shown S.place_of parts.value)
        (record_meaning recorded.now) r.1 ticks.old ticks.new) }
    ensures rises { ticks.old ≤ ticks.new }
    ensures bound { ticks.new ≤ ticks.old
        + take_most (shown S.place_of parts.value) (record_meaning recorded.now) }
{
    let mut parts = parts;
    match recorded {
        RunRecord::Plain(step) => {
            let good = take_step(&mut *parts, step)?;
            Ok((parts, good))
        }
        RunRecord::Op { tx, id, op } => {
            let good = do_op(&mut *parts, tx, *id, op, ticks)?;
            Ok((parts, good))
        }
        RunRecord::Commit { tx } => {
            let good = commit(&mut *parts, tx)?;
            Ok((parts, good))
        }
        RunRecord::Abort { tx } => undo(parts, Undoing::Abort, tx, ticks),
        RunRecord::Retry { tx } => undo(parts, Undoing::Retry, tx, ticks),
        RunRecord::Refresh { .. }
        | RunRecord::XBegin { .. }
        | RunRecord::XEnd { .. }
        | RunRecord::XAbort { .. }
        | RunRecord::Depend { .. }
        | RunRecord::Publish { .. }
        | RunRecord::DropSource { .. } => Ok((parts, false)),
    }
}
