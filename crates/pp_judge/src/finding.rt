//! Examining an input: its fault, or how its run is judged.
ghost use Rattle.std.specs.Prelude.{◌≡◌, ◌≤◌, IfOk, IsErrOf};
ghost use Rattle.pp_input.specs.Faults.{HasRisen};
ghost use Rattle.pp_input.specs.Limits.{HasNext};
ghost use Rattle.pp_input_reader.specs.declared.stop.Failure.TheVariants.{ReadFault};
ghost use Rattle.pp_input_reader.specs.Sources.{WhereTold};
ghost use Rattle.pp_judge.specs.Findings.{Finds, ReadsSound, RisesAtLeast, finding_of};
ghost use Rattle.pp_judge.specs.Inputs.{scan_within};
ghost use Rattle.pp_judge.specs.Progresses.{lines_of};

use crate::judge::Judge;
use crate::progress::{Progress, Tally};
use pp_core::Ticks;
use pp_input::Source;
use pp_input_reader::{Cause, Failure, Stop, read_lines};
use std::alloc::Global;
use std::sync::ledger::Ledger;

/// What an input is found to be by a judge `J`, which rejects a run by an `R`.
#[derive(Drop)]
pub enum Finding<J, R> {
    /// It has a fault on this line.
    Fault(u32, Cause),
    /// Its start, or a record of its run, is rejected.
    Rejected(Tally, R),
    /// Its start and its records are good, and the judge took them all.
    Accepted(Tally, J),
}

/// What an input is found to be, of which all lines were taken.
fn conclude<J, R>(progress: Progress<J, R>) -> Finding<J, R>
    requires { HasNext (lines_of progress) }
    ensures { result ≡ finding_of progress }
{
    match progress {
        Progress::Waiting(lines) => Finding::Fault(lines + 1, Cause::NoHeader),
        Progress::Running(tally, judge) => Finding::Accepted(tally, judge),
        Progress::Rejected(tally, rejection) => Finding::Rejected(tally, rejection),
    }
}

/// Examines the input that a source gives, within the limits of the judge. A verdict is found on
/// the whole of it.
pub fn examine<S: Source, J: Judge, L: Ledger>(
    alloc: Global,
    source: &mut S,
    ticks: &mut Ticks<L>,
) -> Result<Finding<J, J::Rejection>, Failure>
    ensures found { IfOk result (Finds J.judging (S.left source.old) (S.left source.new)) }
    ensures read_fault { IsErrOf result ReadFault →
        HasRisen (S.faults source.old) (S.faults source.new)
        × ReadsSound J.judging (S.left source.old) (S.left source.new) }
    ensures count { S.faults source.old ≤ S.faults source.new }
    ensures faultless { ¬ IsErrOf result ReadFault → S.faults source.new ≡ S.faults source.old }
    ensures most { WhereTold (S.left source.old) λ bytes.
        J.judging.AtMost (scan_within J.judging.limits bytes) ticks.old ticks.new }
    ensures least { IfOk result (λ finding. WhereTold (S.left source.old) λ bytes.
        RisesAtLeast J.judging (scan_within J.judging.limits bytes) finding
        ticks.old ticks.new) }
{
    let first: Progress<J, J::Rejection> = Progress::Waiting(0);
    match read_lines(alloc, source, first, ticks) {
        Ok(progress) => Ok(conclude(progress)),
        Err(Stop::Fault(line, cause)) => Ok(Finding::Fault(line, cause)),
        Err(Stop::Failure(failure)) => Err(failure),
    }
}
