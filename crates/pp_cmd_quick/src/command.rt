//! The command: decides an input, and reports the decision.
ghost use Rattle.std.specs.Prelude.{◌≡◌, ◌≤◌, ◌+◌, ◌⊎◌, length, IfOk, OnOk, IsErrOf};
ghost use Rattle.std.specs.Io.KnownBytes.{IsAtEnd};
ghost use Rattle.pp_core.specs.declared.status.Status.TheVariants as statuses;
ghost use Rattle.pp_input.specs.Faults.{HasRisen};
ghost use Rattle.pp_model.specs.Sound.{serial_ops};
ghost use Rattle.pp_input_reader.specs.declared.stop.Failure.TheVariants.{ReadFault};
ghost use Rattle.pp_input_reader.specs.Sources.{WhereTold};
ghost use Rattle.pp_judge.specs.Certified.{IsDecided};
ghost use Rattle.pp_judge.specs.Inputs.{scan};
ghost use Rattle.pp_judge.specs.Scans.{InputScan};
ghost use Rattle.pp_cmd_quick.specs.Conclusions.{IsAcceptedText};
ghost use Rattle.pp_cmd_quick.specs.Costs.{QuickCostsAtLeast, QuickCostsAtMost};
ghost use Rattle.pp_cmd_quick.specs.Decisions.{IsQuick, QuickReadsNoFault};
ghost use Rattle.pp_cmd_quick.specs.Taking.{AreGood};

use crate::decider::Decider;
use crate::report::{quick_accepted, quick_rejected};
use pp_core::{OutOfMemory, Status, Text, Ticks};
use pp_input::Source;
use pp_input_reader::{Failure, fault};
use pp_judge::{Finding, Tally, examine};
use pp_kind::serial_state;
use pp_objects::Objects;
use pp_summary::Quick;
use std::alloc::Global;
use std::sync::ledger::Ledger;

/// The text of a run whose start and records are all good. The only error is out of memory.
fn report_accepted<L: Ledger>(
    alloc: Global,
    tally: &Tally,
    quick: &Quick<Objects>,
    ticks: &mut Ticks<L>,
) -> Result<Text, OutOfMemory>
    requires { (sc : InputScan) × AreGood sc tally.now quick.now }
    ensures report { IfOk result (IsAcceptedText tally.now quick.now) }
    ensures cost { OnOk result
        (ticks.new ≡ ticks.old + length (serial_ops quick.now.brief.done)) }
    ensures bound { ticks.new ≤ ticks.old + length (serial_ops quick.now.brief.done) }
{
    let kinds = tally.header.catalog.kinds(alloc)?;
    let records = quick.count();
    let committed = quick.committed();
    let states = serial_state::<Objects, L>(alloc, &kinds, committed, ticks)?;
    quick_accepted(alloc, &tally.header.catalog, records, committed, &states)
}

/// The status and the text for the input of a source. Only the records are judged, and no steps
/// are made. The number of records is limited only by the number of lines.
pub fn quick<S: Source, L: Ledger>(
    alloc: Global,
    source: &mut S,
    ticks: &mut Ticks<L>,
) -> Result<(Status, Text), Failure>
    ensures output { IfOk result (λ r. WhereTold (S.left source.old) λ bytes.
        IsQuick bytes r.0 r.1) }
    ensures status { IfOk result (λ r. IsDecided r.0 ⊎ (r.0 ≡ statuses.InputFault)) }
    ensures end { IfOk result (λ r. IsDecided r.0 → IsAtEnd (S.left source.new)) }
    ensures read_fault { IsErrOf result ReadFault →
        HasRisen (S.faults source.old) (S.faults source.new)
        × QuickReadsNoFault (S.left source.old) (S.left source.new) }
    ensures count { S.faults source.old ≤ S.faults source.new }
    ensures faultless { ¬ IsErrOf result ReadFault → S.faults source.new ≡ S.faults source.old }
    ensures most { WhereTold (S.left source.old) λ bytes.
        QuickCostsAtMost (scan bytes) ticks.old ticks.new }
    ensures least { IfOk result (λ r. IsDecided r.0 → WhereTold (S.left source.old) λ bytes.
        QuickCostsAtLeast r.0 (scan bytes) ticks.old ticks.new) }
{
    match examine::<S, Decider, L>(alloc, source, ticks)? {
        Finding::Fault(line, cause) => {
            let text = fault(alloc, line, &cause)?;
            Ok((Status::InputFault, text))
        }
        Finding::Rejected(_tally, failed) => {
            let text = quick_rejected(alloc, failed.line)?;
            Ok((Status::Rejected, text))
        }
        Finding::Accepted(tally, judge) => {
            let text = report_accepted(alloc, &tally, &judge.quick, ticks)?;
            Ok((Status::Accepted, text))
        }
    }
}
