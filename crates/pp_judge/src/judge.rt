//! What judges the records of a run.
ghost use Rattle.std.specs.Prelude.{◌≡◌, [], Some, IfOk, IfErr};
ghost use Rattle.pp_records.specs.Expansions.{IsOfStyle};
ghost use Rattle.pp_records.specs.Records.{record_meaning};
ghost use Rattle.pp_format_read.specs.Records.{IsReadable};
ghost use Rattle.pp_format_read.specs.Starts.{IsReadableStart};
ghost use Rattle.pp_format_write.specs.Statable.{IsStatableRecord, IsWritableStart};
ghost use Rattle.pp_input.specs.Limits.{CanCount};
ghost use Rattle.pp_input_reader.specs.Takers.{IfFault};
ghost use Rattle.pp_judge.specs.Judging.{CostsAtMostThere, HasFaultThere, IsJudged, JudgedAtLeast};
ghost use Rattle.pp_judge.specs.Judging.{Judges, Judging, JudgingLaws, MayTake};
ghost use Rattle.pp_judge.specs.Tallies.{headed, scan_of};

use pp_core::Ticks;
use pp_format_read::Header;
use pp_input::Limits;
use pp_input_reader::{Cause, Stop};
use pp_objects::Op;
use pp_records::RunRecord;
use std::alloc::Global;
use std::sync::ledger::Ledger;

/// How a run is judged so far.
#[derive(Drop)]
pub enum Judged<J, R> {
    /// Its start and its records are good, and the judge can take more.
    Good(J),
    /// Its start or a record is rejected.
    Rejected(R),
}

/// What judges the records of a run, one after another.
pub trait Judge: Drop {
    /// What a run is rejected by.
    type Rejection: Drop;

    /// The limits of an input, and what the judge says of a header and the records after it.
    ghost judging: { Judging Self Self.Rejection };

    /// The limits of an input.
    fn limits() -> Limits
        ensures limits { result ≡ judging.limits }
        ensures count { CanCount result };

    /// Judges the start of the header on this line. A judge may have a fault of its own for a header.
    fn begin<L: Ledger>(
        alloc: Global,
        header: &Header,
        line: u32,
        ticks: &mut Ticks<L>,
    ) -> Result<Judged<Self, Self::Rejection>, Stop<Cause>>
        requires readable { IsReadableStart header.now.catalog header.now.start }
        requires writable { IsWritableStart header.now.catalog header.now.start }
        ensures judged { IfOk result (IsJudged judging (headed line header.now) []) }
        ensures stop { IfErr result (λ stop. IfFault stop (λ at cause. (at ≡ line)
            × judging.IsFault (scan_of (headed line header.now) []) (Some (line, cause)))) }
        ensures most { judging.AtMost (scan_of (headed line header.now) []) ticks.old ticks.new }
        ensures least { IfOk result (λ judged.
            JudgedAtLeast judging (scan_of (headed line header.now) []) judged
            ticks.old ticks.new) };

    /// Judges one record more, which is on this line.
    fn judge<L: Ledger>(
        self,
        alloc: Global,
        header: &Header,
        recorded: &RunRecord<Op>,
        line: u32,
        ticks: &mut Ticks<L>,
    ) -> Result<Judged<Self, Self::Rejection>, Stop<Cause>>
        requires good { MayTake judging header.now self }
        requires readable { IsReadable header.now.catalog (record_meaning recorded.now) }
        requires styled { IsOfStyle header.now.style (record_meaning recorded.now) }
        requires statable { IsStatableRecord header.now.catalog (record_meaning recorded.now) }
        ensures judged { IfOk result (λ judged. Judges judging header.now self
            (record_meaning recorded.now) line judged ticks.old ticks.new) }
        ensures stop { IfErr result (λ stop. IfFault stop (λ at cause. (at ≡ line)
            × HasFaultThere judging header.now self (record_meaning recorded.now) line cause)) }
        ensures most { CostsAtMostThere judging header.now self (record_meaning recorded.now)
            line ticks.old ticks.new };

    /// What holds of every judge.
    ghost laws: { JudgingLaws judging };
}
