//! Taking a record.
ghost use Rattle.std.specs.Prelude.{◌+◌, ◌≤◌, ◌<◌, ◌∷◌, [], IfOk, IsTrue, OnOk, ◌≡◌};
ghost use Rattle.pp_core.specs.Steps.{meaning};
ghost use Rattle.pp_core.specs.declared.call.Style.TheVariants.{Optimistic};
ghost use Rattle.pp_records.specs.Expansions.{IsOfStyle};
ghost use Rattle.pp_records.specs.Records.{Plain, record_meaning};
ghost use Rattle.pp_summary.specs.Held.{IsRecordAsked, IsStepAsked};
ghost use Rattle.pp_summary.specs.Sums.{count_ops};
ghost use Rattle.pp_snapshots.specs.ByPart.{IsListed, ops_in};
ghost use Rattle.pp_snapshots.specs.Moving.{Answers};
ghost use Rattle.pp_snapshots.specs.Ops.{kept_most};
ghost use Rattle.pp_snapshots.specs.Shown.{Keeps};

use crate::begin::begin;
use crate::commit::commit;
use crate::op::do_op;
use crate::parts::Parts;
use crate::refresh::refresh;
use crate::undo::{abort, retry};
use pp_core::{OutOfMemory, Step, Ticks};
use pp_kind::Placed;
use pp_kind_parts::PartByPart;
use pp_records::RunRecord;
use std::sync::ledger::Ledger;

/// Takes a step if it is a begin that is good. Other steps are no records of an optimistic run. The
/// only error is out of memory.
fn take_step<S: Placed>(
    parts: &mut Parts<S::Shape, S::State, S::Op, S::Undo>,
    step: &Step<S::Op>,
) -> Result<bool, OutOfMemory>
    requires keeps { Keeps S.object S.place_of parts.old }
    requires asked { IsStepAsked (meaning step.now) }
    requires few { parts.old.count < 4_294_967_295 }
    ensures answers { IfOk result (λ good. Answers S.object S.place_of parts.old
        (Plain (meaning step.now)) good parts.new) }
    ensures index { OnOk result (parts.new.by_part ≡ parts.old.by_part) }
{
    match step {
        Step::Begin { tx, thread, body } => begin::<S>(parts, tx, thread, body),
        Step::App { .. }
        | Step::Unapp { .. }
        | Step::Push { .. }
        | Step::Unpush { .. }
        | Step::Pull { .. }
        | Step::Unpull { .. }
        | Step::Cmt { .. }
        | Step::Quit { .. }
        | Step::Note { .. } => Ok(false),
    }
}

/// Takes a record of an optimistic run if it is good, and else says false, and nothing has changed
/// that is shown. The only error is out of memory.
pub fn take<S: PartByPart, L: Ledger>(
    parts: &mut Parts<S::Shape, S::State, S::Op, S::Undo>,
    recorded: &RunRecord<S::Op>,
    ticks: &mut Ticks<L>,
) -> Result<bool, OutOfMemory>
    requires keeps { Keeps S.object S.place_of parts.old }
    requires listed { IsListed S.place_of S.part_of parts.old.by_part (ops_in parts.old.past) }
    requires style { IsOfStyle Optimistic (record_meaning recorded.now) }
    requires asked { IsRecordAsked S.object parts.old.shape (record_meaning recorded.now) }
    requires few { parts.old.count < 4_294_967_295 }
    ensures answers { IfOk result (λ good.
        Answers S.object S.place_of parts.old (record_meaning recorded.now) good parts.new) }
    ensures listed { OnOk result
        (IsListed S.place_of S.part_of parts.new.by_part (ops_in parts.old.past)) }
    ensures rises { ticks.old ≤ ticks.new }
    ensures bound { ticks.new ≤ ticks.old
        + kept_most S.place_of S.part_of S.silent_of parts.old (record_meaning recorded.now) }
    ensures least { IfOk result (λ good. IsTrue good →
        ticks.old + count_ops (record_meaning recorded.now ∷ []) ≤ ticks.new) }
{
    match recorded {
        RunRecord::Plain(step) => take_step::<S>(parts, step),
        RunRecord::Op { tx, id, op } => do_op::<S, L>(parts, tx, *id, op, ticks),
        RunRecord::Commit { tx } => commit::<S, L>(parts, tx, ticks),
        RunRecord::Abort { tx } => Ok(abort::<S>(parts, tx)),
        RunRecord::Retry { tx } => Ok(retry::<S>(parts, tx)),
        RunRecord::Refresh { tx, object } => refresh::<S, L>(parts, tx, *object, ticks),
        RunRecord::XBegin { .. }
        | RunRecord::XEnd { .. }
        | RunRecord::XAbort { .. }
        | RunRecord::Depend { .. }
        | RunRecord::Publish { .. }
        | RunRecord::DropSource { .. } => unreachable!(),
    }
}
