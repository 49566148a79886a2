//! The command: an input is judged, and reported.
ghost use Rattle.std.specs.Prelude.{◌≡◌, ◌≤◌, ◌+◌, ◌⊎◌, length, IfOk, OnOk, IsErrOf};
ghost use Rattle.std.specs.Io.KnownBytes.{IsAtEnd};
ghost use Rattle.pp_core.specs.declared.status.Status.TheVariants as statuses;
ghost use Rattle.pp_input.specs.Faults.{HasRisen};
ghost use Rattle.pp_model.specs.Sound.{serial_ops};
ghost use Rattle.pp_input_reader.specs.declared.stop.Failure.TheVariants.{ReadFault};
ghost use Rattle.pp_input_reader.specs.Sources.{WhereTold};
ghost use Rattle.pp_report.specs.Reports.{IsDetailNamed, rejected_text};
ghost use Rattle.pp_judge.specs.Certified.{IsDecided};
ghost use Rattle.pp_judge.specs.Findings.{AreGood};
ghost use Rattle.pp_judge.specs.Reports.{IsRunTold};
ghost use Rattle.pp_judge.specs.Scans.{InputScan};
ghost use Rattle.pp_cmd_judge.specs.Costs.{JudgeCostsAtLeast, JudgeCostsAtMost};
ghost use Rattle.pp_cmd_judge.specs.Inputs.{judge_scan};
ghost use Rattle.pp_cmd_judge.specs.Judgements.{IsJudgeOutput, IsJudgedEvident, JudgeReadsNoFault};
ghost use Rattle.pp_cmd_judge.specs.StyleJudging.{done_of, style_judging};

use crate::style_judge::StyleJudge;
use pp_core::{OutOfMemory, Status, Text, Ticks};
use pp_input::Source;
use pp_input_reader::{Failure, fault};
use pp_judge::{Finding, Rejection, Tally, examine};
use pp_kind::serial_state;
use pp_objects::Objects;
use pp_report::{accepted, rejected};
use std::alloc::Global;
use std::sync::ledger::Ledger;

/// The report of a run whose steps all meet their criteria.
fn report_accepted<L: Ledger>(
    alloc: Global,
    tally: &Tally,
    judge: &StyleJudge,
    ticks: &mut Ticks<L>,
) -> Result<Text, OutOfMemory>
    requires { (sc : InputScan) × AreGood style_judging sc tally.now judge.now }
    ensures report { IfOk result (λ text. (sc : InputScan) →
        AreGood style_judging sc tally.now judge.now → IsRunTold sc statuses.Accepted text) }
    ensures cost { OnOk result (ticks.new ≡ ticks.old + length (serial_ops (done_of judge.now))) }
    ensures bound { ticks.new ≤ ticks.old + length (serial_ops (done_of judge.now)) }
{
    let kinds = tally.header.catalog.kinds(alloc)?;
    let steps = judge.steps();
    let committed = judge.committed();
    let states = serial_state::<Objects, L>(alloc, &kinds, committed, ticks)?;
    accepted(alloc, &tally.header.catalog, steps, committed, &states)
}

/// The report of a run of which the start or a step is rejected.
fn report_rejected(alloc: Global, tally: &Tally, rejection: &Rejection) -> Result<Text, OutOfMemory>
    requires { IsDetailNamed tally.now.header.catalog rejection.now.detail }
    ensures { IfOk result (λ text. text ≡ rejected_text tally.now.header.catalog
        rejection.now.step rejection.now.line rejection.now.rule rejection.now.criterion
        rejection.now.detail) }
{
    rejected(
        alloc,
        &tally.header.catalog,
        rejection.step,
        rejection.line,
        rejection.rule,
        rejection.criterion,
        &rejection.detail,
    )
}

/// The status and the report of the input of a source, for a run of any number of steps. In styles
/// hardware and dependent it has at most 4,294,967,295.
pub fn judge<S: Source, L: Ledger>(
    alloc: Global,
    source: &mut S,
    ticks: &mut Ticks<L>,
) -> Result<(Status, Text), Failure>
    ensures output { IfOk result (λ r. WhereTold (S.left source.old) λ bytes.
        IsJudgeOutput bytes r.0 r.1) }
    ensures status { IfOk result (λ r. IsDecided r.0 ⊎ (r.0 ≡ statuses.InputFault)) }
    ensures end { IfOk result (λ r. IsDecided r.0 → IsAtEnd (S.left source.new)) }
    ensures shown { IfOk result (λ r. r.0 ≡ statuses.Rejected →
        WhereTold (S.left source.old) λ bytes. IsJudgedEvident (judge_scan bytes)) }
    ensures read_fault { IsErrOf result ReadFault →
        HasRisen (S.faults source.old) (S.faults source.new)
        × JudgeReadsNoFault (S.left source.old) (S.left source.new) }
    ensures count { S.faults source.old ≤ S.faults source.new }
    ensures faultless { ¬ IsErrOf result ReadFault → S.faults source.new ≡ S.faults source.old }
    ensures most { WhereTold (S.left source.old) λ bytes.
        JudgeCostsAtMost (judge_scan bytes) ticks.old ticks.new }
    ensures least { IfOk result (λ r. IsDecided r.0 → WhereTold (S.left source.old) λ bytes.
        JudgeCostsAtLeast r.0 (judge_scan bytes) ticks.old ticks.new) }
{
    match examine::<S, StyleJudge, L>(alloc, source, ticks)? {
        Finding::Fault(line, cause) => {
            let text = fault(alloc, line, &cause)?;
            Ok((Status::InputFault, text))
        }
        Finding::Rejected(tally, rejection) => {
            let text = report_rejected(alloc, &tally, &rejection)?;
            Ok((Status::Rejected, text))
        }
        Finding::Accepted(tally, judge) => {
            let text = report_accepted(alloc, &tally, &judge, ticks)?;
            Ok((Status::Accepted, text))
        }
    }
}
