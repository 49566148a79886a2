//! Taking the lines of a run, one after another, for any judge.
ghost use Rattle.std.specs.Prelude.{◌≡◌, ◌<◌, ℕ, false, ◌&&◌, ◌==◌, IfOk, IfErr, OnErr, Some, Ok};
ghost use Rattle.pp_records.specs.Expansions.{IsOfStyle};
ghost use Rattle.pp_records.specs.Records.{record_meaning};
ghost use Rattle.pp_input.specs.Lines.{blank};
ghost use Rattle.pp_format_read.specs.Records.{IsReadable, record_of};
ghost use Rattle.pp_format_read.specs.declared.fault.RecordFault.TheVariants as faults;
ghost use Rattle.pp_input_reader.specs.Takers.{IfFault};
ghost use Rattle.pp_input_reader.specs.declared.stop.Failure.TheVariants as failures;
ghost use Rattle.pp_input_reader.specs.declared.stop.Stop.TheVariants as stops;
ghost use Rattle.pp_judge.specs.Causes.{cause_of};
ghost use Rattle.pp_judge.specs.Progresses.{CostsOn, Covers, HasFaultOn, IsNextLine, LeadsTo};
ghost use Rattle.pp_judge.specs.Progresses.{lines_of};
ghost use Rattle.pp_judge.specs.Scans.{nothing, scan_line};
ghost use Rattle.pp_judge.specs.Tallies.{IsRecordFault, is_too_many};
ghost use Rattle.pp_judge.specs.declared.progress.Progress.TheVariants.{Rejected, Running};

use crate::cause::cause_of;
use crate::judge::Judge;
use crate::progress::{Progress, Tally, is_begin_record, progress_of, with_blank, with_record};
use pp_core::{OutOfMemory, Ticks};
use pp_format_read::{RecordFault, read_header, read_record};
use pp_input::{Limits, Line, is_blank};
use pp_input_reader::{Cause, Failure, Stop, TakesLines};
use pp_objects::Op;
use pp_records::RunRecord;
use std::alloc::Global;
use std::sync::ledger::Ledger;

/// The stop at a line that can not be read.
#[tactic(auto, using(crate::proofs::Refusals::refused_alone))]
fn stop_at(line: u32, fault: RecordFault) -> Stop<Cause>
    ensures fault { IfFault result (λ at cause. (at ≡ line) × (cause_of fault ≡ Ok cause)) }
    ensures memory { result ≡ stops.Failure failures.OutOfMemory → fault ≡ faults.OutOfMemory }
{
    match cause_of(fault) {
        Ok(cause) => Stop::Fault(line, cause),
        Err(OutOfMemory) => Stop::Failure(Failure::OutOfMemory),
    }
}

/// The line that is the header.
fn take_header<J: Judge, L: Ledger>(
    alloc: Global,
    line: &Line,
    ticks: &mut Ticks<L>,
) -> Result<Progress<J, J::Rejection>, Stop<Cause>>
    requires positive { 0 < line.now.number }
    requires other { blank line.now.text ≡ false }
    ensures ok { IfOk result (λ next. Covers J.judging
        (scan_line J.judging.limits.transactions nothing (line.now.number, line.now.text)) next
        ticks.old ticks.new) }
    ensures lines { IfOk result (λ next. lines_of next ≡ line.now.number) }
    ensures stop { IfErr result (λ stop. IfFault stop (λ at cause. (at ≡ line.now.number)
        × J.judging.IsFault
        (scan_line J.judging.limits.transactions nothing (line.now.number, line.now.text))
        (Some (line.now.number, cause)))) }
    ensures most { J.judging.AtMost
        (scan_line J.judging.limits.transactions nothing (line.now.number, line.now.text))
        ticks.old ticks.new }
{
    let header = match read_header(alloc, line.text.bytes()) {
        Ok(header) => header,
        Err(fault) => return Err(stop_at(line.number, fault)),
    };
    let judged = J::begin(alloc, &header, line.number, ticks)?;
    let tally = Tally {
        header,
        lines: line.number,
        begins: 0,
    };
    Ok(progress_of(tally, judged))
}

/// The record of a line after the header, if at most so many may begin a transaction.
fn read_next(
    alloc: Global,
    tally: &Tally,
    line: &Line,
    most: u32,
) -> Result<RunRecord<Op>, Stop<Cause>>
    ensures read { IfOk result
        (λ r. record_of tally.now.header line.now.text ≡ Ok (record_meaning r)) }
    ensures readable { IfOk result
        (λ r. IsReadable tally.now.header.catalog (record_meaning r)) }
    ensures styled { IfOk result (λ r. IsOfStyle tally.now.header.style (record_meaning r)) }
    ensures few { IfOk result (λ r. is_too_many most tally.now (record_meaning r) ≡ false) }
    ensures err { IfErr result (λ stop. IfFault stop (λ at cause. (at ≡ line.now.number)
        × IsRecordFault most tally.now (record_of tally.now.header line.now.text) cause)) }
{
    let recorded = match read_record(alloc, &tally.header, line.text.bytes()) {
        Ok(recorded) => recorded,
        Err(fault) => return Err(stop_at(line.number, fault)),
    };
    if is_begin_record(&recorded) && tally.begins == most {
        return Err(Stop::Fault(line.number, Cause::TooManyTransactions));
    }
    Ok(recorded)
}

/// A record of a run that is not rejected so far.
fn take_record<J: Judge, L: Ledger>(
    alloc: Global,
    tally: Tally,
    judge: J,
    line: &Line,
    ticks: &mut Ticks<L>,
) -> Result<Progress<J, J::Rejection>, Stop<Cause>>
    requires next { IsNextLine J.judging (Running tally judge)
        (line.now.number, line.now.text) ticks.old }
    requires other { blank line.now.text ≡ false }
    ensures ok { IfOk result (λ next. LeadsTo J.judging (Running tally judge)
        (line.now.number, line.now.text) ticks.old next ticks.new) }
    ensures stop { IfErr result (λ stop. IfFault stop (λ at cause. (at ≡ line.now.number)
        × HasFaultOn J.judging (Running tally judge)
        (line.now.number, line.now.text) ticks.old cause)) }
    ensures most { CostsOn J.judging (Running tally judge)
        (line.now.number, line.now.text) ticks.old ticks.new }
{
    let most = J::limits().transactions;
    let recorded = read_next(alloc, &tally, line, most)?;
    let judged = judge.judge(alloc, &tally.header, &recorded, line.number, ticks)?;
    Ok(progress_of(with_record(tally, &recorded), judged))
}

/// A record of a run that is rejected: it is only read.
fn pass_record<J: Judge>(
    alloc: Global,
    tally: Tally,
    rejection: J::Rejection,
    line: &Line,
) -> Result<Progress<J, J::Rejection>, Stop<Cause>>
    requires next { (now : ℕ) × IsNextLine J.judging (Rejected tally rejection)
        (line.now.number, line.now.text) now }
    requires other { blank line.now.text ≡ false }
    ensures ok { IfOk result (λ next. (now : ℕ) → LeadsTo J.judging (Rejected tally rejection)
        (line.now.number, line.now.text) now next now) }
    ensures stop { IfErr result (λ stop. IfFault stop (λ at cause. (at ≡ line.now.number)
        × ((now : ℕ) → HasFaultOn J.judging (Rejected tally rejection)
        (line.now.number, line.now.text) now cause))) }
{
    let most = J::limits().transactions;
    let recorded = read_next(alloc, &tally, line, most)?;
    Ok(Progress::Rejected(with_record(tally, &recorded), rejection))
}

impl<J: Judge> TakesLines for Progress<J, J::Rejection> {
    ghost use Rattle.pp_judge.specs.Progresses.{judged_reading};

    type Fault = Cause;

    ghost reading = { judged_reading J.judging };

    fn limits() -> Limits {
        J::limits()
    }

    fn at_limit(cause: Cause) -> Cause {
        cause
    }

    fn take<L: Ledger>(
        self,
        alloc: Global,
        line: &Line,
        ticks: &mut Ticks<L>,
    ) -> Result<Progress<J, J::Rejection>, Stop<Cause>> {
        if is_blank(line.text.bytes()) {
            return Ok(with_blank(self));
        }
        match self {
            Progress::Waiting(_lines) => take_header::<J, L>(alloc, line, ticks),
            Progress::Running(tally, judge) => take_record(alloc, tally, judge, line, ticks),
            Progress::Rejected(tally, rejection) => pass_record::<J>(alloc, tally, rejection, line),
        }
    }
}
