//! Where the judging of a run is after some of its lines.
ghost use Rattle.std.specs.Prelude.{◌≡◌, ◌<◌};
ghost use Rattle.pp_records.specs.Records.{record_meaning};
ghost use Rattle.pp_core.specs.Steps.{meaning};
ghost use Rattle.pp_input.specs.Limits.{HasNext};
ghost use Rattle.pp_format_write.specs.Statable.{is_begin};
ghost use Rattle.pp_judge.specs.Progresses.{lines_of, progress_of, with_blank};
ghost use Rattle.pp_judge.specs.Scans.{is_begin_record};
ghost use Rattle.pp_judge.specs.Tallies.{with_line, with_record};

use crate::judge::Judged;
use pp_core::Step;
use pp_format_read::Header;
use pp_objects::Op;
use pp_records::RunRecord;

/// The header of a run, and how many of its lines, and of its begin records, were taken.
#[derive(Drop)]
pub struct Tally {
    pub header: Header,
    pub lines: u32,
    pub begins: u32,
}

/// What the lines so far lead to, for a judge `J` that rejects a run by an `R`.
#[derive(Drop)]
pub enum Progress<J, R> {
    /// Only blank lines, so many.
    Waiting(u32),
    /// A header and records that the judge took.
    Running(Tally, J),
    /// A header and records of which the start or one is rejected: later records are only read.
    Rejected(Tally, R),
}

/// Whether a step begins a transaction.
fn is_begin(step: &Step<Op>) -> bool
    ensures { result ≡ is_begin (meaning step.now) }
{
    match step {
        Step::Begin { .. } => true,
        Step::App { .. }
        | Step::Unapp { .. }
        | Step::Push { .. }
        | Step::Unpush { .. }
        | Step::Pull { .. }
        | Step::Unpull { .. }
        | Step::Cmt { .. }
        | Step::Quit { .. }
        | Step::Note { .. } => false,
    }
}

/// Whether a record begins a transaction.
pub(crate) fn is_begin_record(recorded: &RunRecord<Op>) -> bool
    ensures { result ≡ is_begin_record (record_meaning recorded.now) }
{
    match recorded {
        RunRecord::Plain(step) => is_begin(step),
        RunRecord::Op { .. }
        | RunRecord::Commit { .. }
        | RunRecord::Abort { .. }
        | RunRecord::Retry { .. }
        | RunRecord::Refresh { .. }
        | RunRecord::XBegin { .. }
        | RunRecord::XEnd { .. }
        | RunRecord::XAbort { .. }
        | RunRecord::Depend { .. }
        | RunRecord::Publish { .. }
        | RunRecord::DropSource { .. } => false,
    }
}

/// One line more.
fn with_line(mut tally: Tally) -> Tally
    requires { HasNext tally.lines }
    ensures { result ≡ with_line tally }
{
    tally.lines += 1;
    tally
}

/// One record more.
pub(crate) fn with_record(mut tally: Tally, recorded: &RunRecord<Op>) -> Tally
    requires lines { HasNext tally.lines }
    requires begins { tally.begins < tally.lines }
    ensures { result ≡ with_record tally (record_meaning recorded.now) }
{
    tally.lines += 1;
    if is_begin_record(recorded) {
        tally.begins += 1;
    }
    tally
}

/// One blank line more.
pub(crate) fn with_blank<J, R>(progress: Progress<J, R>) -> Progress<J, R>
    requires { HasNext (lines_of progress) }
    ensures { result ≡ with_blank progress }
{
    match progress {
        Progress::Waiting(lines) => Progress::Waiting(lines + 1),
        Progress::Running(tally, judge) => Progress::Running(with_line(tally), judge),
        Progress::Rejected(tally, rejection) => Progress::Rejected(with_line(tally), rejection),
    }
}

/// A run that is judged so.
pub(crate) fn progress_of<J, R>(tally: Tally, judged: Judged<J, R>) -> Progress<J, R>
    ensures { result ≡ progress_of tally judged }
{
    match judged {
        Judged::Good(judge) => Progress::Running(tally, judge),
        Judged::Rejected(rejection) => Progress::Rejected(tally, rejection),
    }
}
