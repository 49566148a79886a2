//! The command: the status and the report of an input.
ghost use Rattle.std.specs.Prelude.{◌≡◌, ◌≤◌, ◌+◌, ◌⊎◌, ℕ, List, length, Some, IfOk, OnOk, IsErrOf};
ghost use Rattle.std.specs.Io.KnownBytes.{IsAtEnd};
ghost use Rattle.pp_core.specs.declared.status.Status.TheVariants as statuses;
ghost use Rattle.pp_input.specs.Faults.{HasRisen};
ghost use Rattle.pp_model.specs.Sound.{serial_ops};
ghost use Rattle.pp_input_reader.specs.declared.stop.Failure.TheVariants.{ReadFault};
ghost use Rattle.pp_input_reader.specs.Sources.{WhereTold};
ghost use Rattle.pp_judge.specs.Certified.{IsDecided};
ghost use Rattle.pp_judge.specs.Costs.{CostsAtLeast, CostsAtMost};
ghost use Rattle.pp_judge.specs.Inputs.{ReadsNoFault, scan};
ghost use Rattle.pp_judge.specs.Rejected.{IsEvident};
ghost use Rattle.pp_judge.specs.Reports.{IsCertified, IsRunTold};
ghost use Rattle.pp_judge.specs.Running.{IsRunning};
ghost use Rattle.pp_judge.specs.Scans.{InputScan};

use pp_core::{OutOfMemory, Status, Text, Ticks};
use pp_input::Source;
use pp_input_reader::{Failure, fault};
use pp_judge::{Blind, Driven, Finding, Tally, compute_states, examine, report_rejected};
use pp_machine::Machine;
use pp_objects::Objects;
use pp_report::accepted;
use std::alloc::Global;
use std::sync::ledger::Ledger;

/// The report of a run whose steps all meet their criteria.
fn report_accepted<L: Ledger>(
    alloc: Global,
    tally: &Tally,
    machine: &Machine<Objects>,
    ticks: &mut Ticks<L>,
) -> Result<Text, OutOfMemory>
    requires { (sc : InputScan) × IsRunning sc tally.now machine.now }
    ensures report { IfOk result (λ text. (sc : InputScan) → IsRunning sc tally.now machine.now →
        IsRunTold sc statuses.Accepted text) }
    ensures cost { OnOk result
        (ticks.new ≡ ticks.old + length (serial_ops machine.now.config.done)) }
    ensures bound { ticks.new ≤ ticks.old + length (serial_ops machine.now.config.done) }
{
    let (count, states) = compute_states(alloc, tally, machine, ticks)?;
    let committed = machine.committed();
    accepted(alloc, &tally.header.catalog, count, committed, &states)
}

/// The status and the report that certify the input of a source.
pub fn certify<S: Source, L: Ledger>(
    alloc: Global,
    source: &mut S,
    ticks: &mut Ticks<L>,
) -> Result<(Status, Text), Failure>
    ensures report { IfOk result (λ r. (bytes : List ℕ) → S.left source.old ≡ Some bytes →
        IsCertified bytes r.0 r.1) }
    ensures status { IfOk result (λ r. IsDecided r.0 ⊎ (r.0 ≡ statuses.InputFault)) }
    ensures end { IfOk result (λ r. IsDecided r.0 → IsAtEnd (S.left source.new)) }
    ensures shown { IfOk result (λ r. r.0 ≡ statuses.Rejected →
        WhereTold (S.left source.old) λ bytes. IsEvident (scan bytes)) }
    ensures read_fault { IsErrOf result ReadFault →
        HasRisen (S.faults source.old) (S.faults source.new)
        × ReadsNoFault (S.left source.old) (S.left source.new) }
    ensures count { S.faults source.old ≤ S.faults source.new }
    ensures faultless { ¬ IsErrOf result ReadFault → S.faults source.new ≡ S.faults source.old }
    ensures most { WhereTold (S.left source.old) λ bytes.
        CostsAtMost (scan bytes) ticks.old ticks.new }
    ensures least { IfOk result (λ r. IsDecided r.0 → WhereTold (S.left source.old) λ bytes.
        CostsAtLeast r.0 (scan bytes) ticks.old ticks.new) }
{
    match examine::<S, Driven<Blind>, L>(alloc, source, ticks)? {
        Finding::Fault(line, cause) => {
            let text = fault(alloc, line, &cause)?;
            Ok((Status::InputFault, text))
        }
        Finding::Rejected(tally, refused) => {
            let text = report_rejected(alloc, &tally, &refused.rejection)?;
            Ok((Status::Rejected, text))
        }
        Finding::Accepted(tally, judge) => {
            let machine = judge.machine.into_machine();
            let text = report_accepted(alloc, &tally, &machine, ticks)?;
            Ok((Status::Accepted, text))
        }
    }
}
