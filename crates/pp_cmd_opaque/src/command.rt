//! The command: the status and the text of an input.
ghost use Rattle.std.specs.Prelude.{◌≡◌, ◌≢◌, ◌≤◌, ◌⊎◌, IfOk, IsErrOf};
ghost use Rattle.std.specs.Io.KnownBytes.{IsAtEnd};
ghost use Rattle.pp_core.specs.declared.status.Status.TheVariants as statuses;
ghost use Rattle.pp_input.specs.Faults.{HasRisen};
ghost use Rattle.pp_input_reader.specs.declared.stop.Failure.TheVariants.{ReadFault};
ghost use Rattle.pp_input_reader.specs.Sources.{WhereTold};
ghost use Rattle.pp_judge.specs.Certified.{IsDecided};
ghost use Rattle.pp_judge.specs.Costs.{StepsCostAtLeast};
ghost use Rattle.pp_judge.specs.Inputs.{ReadsNoFault, scan};
ghost use Rattle.pp_judge.specs.Rejected.{IsEvident};
ghost use Rattle.pp_cmd_opaque.specs.Bounds.{OpaqueCostsAtMost};
ghost use Rattle.pp_cmd_opaque.specs.Meanings.{MeetsAll};
ghost use Rattle.pp_cmd_opaque.specs.Outputs.{IsOpaqueOutput};

use crate::kept_run::KeptRun;
use crate::report::report_opacity;
use pp_core::{Status, Text, Ticks};
use pp_input::Source;
use pp_input_reader::{Failure, fault};
use pp_judge::{Driven, Finding, examine, report_rejected};
use std::alloc::Global;
use std::sync::ledger::Ledger;

/// The status and the text of `opaque` for the input of a source. An accepted run that is not
/// opaque has the status of a rejection. The input is read to its end, unless it has a fault.
pub fn opaque<S: Source, L: Ledger>(
    alloc: Global,
    source: &mut S,
    ticks: &mut Ticks<L>,
) -> Result<(Status, Text), Failure>
    ensures output { IfOk result (λ r. WhereTold (S.left source.old) λ bytes.
        IsOpaqueOutput bytes r.0 r.1) }
    ensures status { IfOk result (λ r. IsDecided r.0 ⊎ (r.0 ≡ statuses.InputFault)) }
    ensures end { IfOk result (λ r. IsDecided r.0 → IsAtEnd (S.left source.new)) }
    ensures shown { IfOk result (λ r. r.0 ≡ statuses.Rejected →
        WhereTold (S.left source.old) λ bytes.
        IsEvident (scan bytes) ⊎ MeetsAll bytes) }
    ensures read_fault { IsErrOf result ReadFault →
        HasRisen (S.faults source.old) (S.faults source.new)
        × ReadsNoFault (S.left source.old) (S.left source.new) }
    ensures count { S.faults source.old ≤ S.faults source.new }
    ensures faultless { ¬ IsErrOf result ReadFault → S.faults source.new ≡ S.faults source.old }
    ensures most { WhereTold (S.left source.old) λ bytes.
        OpaqueCostsAtMost (scan bytes) ticks.old ticks.new }
    ensures least { IfOk result (λ r. IsDecided r.0 → WhereTold (S.left source.old) λ bytes.
        StepsCostAtLeast r.0 (scan bytes) ticks.old ticks.new) }
{
    match examine::<S, Driven<KeptRun>, L>(alloc, source, ticks)? {
        Finding::Fault(line, cause) => {
            let text = fault(alloc, line, &cause)?;
            Ok((Status::InputFault, text))
        }
        Finding::Rejected(tally, refused) => {
            let text = report_rejected(alloc, &tally, &refused.rejection)?;
            Ok((Status::Rejected, text))
        }
        Finding::Accepted(tally, judge) => {
            let machine = judge.machine.into_machine();
            let report = report_opacity(alloc, &tally, &machine, &judge.observer, ticks)?;
            Ok(report)
        }
    }
}
