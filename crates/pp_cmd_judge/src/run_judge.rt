//! An engine with the number of steps of the records that it took, as a judge of runs.
ghost use Rattle.std.specs.Prelude.{◌≡◌, [], IfOk};
ghost use Rattle.pp_records.specs.Expansions.{IsOfStyle};
ghost use Rattle.pp_records.specs.Records.{record_meaning};
ghost use Rattle.pp_format_read.specs.Records.{IsReadable};
ghost use Rattle.pp_format_read.specs.Starts.{IsReadableStart};
ghost use Rattle.pp_judge.specs.Judging.{CostsAtMostThere, IsJudged, JudgedAtLeast, Judges};
ghost use Rattle.pp_judge.specs.Judging.{MayTake};
ghost use Rattle.pp_judge.specs.Tallies.{headed, scan_of};
ghost use Rattle.pp_cmd_judge.specs.Costs.{JudgedCostAtMost};
ghost use Rattle.pp_cmd_judge.specs.StyleJudging.{style_judging};

use crate::engine::Engine;
use crate::rejection::reject_start;
use crate::style_judge::StyleJudge;
use pp_core::{OutOfMemory, Ticks};
use pp_format_read::Header;
use pp_judge::{Judged, Rejection};
use pp_objects::Op;
use pp_records::RunRecord;
use std::alloc::Global;
use std::sync::ledger::Ledger;

/// An engine, and how many steps the records mean that it took.
#[derive(Drop)]
pub(crate) struct RunJudge<E> {
    pub(crate) engine: E,
    pub(crate) steps: u64,
}

impl<E: Engine> RunJudge<E> {
    /// Judges the start of the header on this line, which is of the engine's style.
    pub(crate) fn begin<L: Ledger>(
        alloc: Global,
        header: &Header,
        line: u32,
        ticks: &mut Ticks<L>,
    ) -> Result<Judged<StyleJudge, Rejection>, OutOfMemory>
        requires style { header.now.style ≡ E.engine.style }
        requires readable { IsReadableStart header.now.catalog header.now.start }
        ensures judged { IfOk result (IsJudged style_judging (headed line header.now) []) }
        ensures most { JudgedCostAtMost (scan_of (headed line header.now) [])
            ticks.old ticks.new }
        ensures least { IfOk result (λ judged. JudgedAtLeast style_judging
            (scan_of (headed line header.now) []) judged ticks.old ticks.new) }
    {
        let (engine, good) = E::start(alloc, header, ticks)?;
        if good {
            Ok(Judged::Good(engine.wrap(0)))
        } else {
            let rejection = reject_start(alloc, header, line, ticks)?;
            Ok(Judged::Rejected(rejection))
        }
    }

    /// Judges one record more, which is on this line.
    pub(crate) fn judge<L: Ledger>(
        self,
        alloc: Global,
        _header: &Header,
        recorded: &RunRecord<Op>,
        line: u32,
        ticks: &mut Ticks<L>,
    ) -> Result<Judged<StyleJudge, Rejection>, OutOfMemory>
        requires good { MayTake style_judging _header.now (E.engine.wrap self) }
        requires readable { IsReadable _header.now.catalog (record_meaning recorded.now) }
        requires styled { IsOfStyle _header.now.style (record_meaning recorded.now) }
        ensures judged { IfOk result (λ judged. Judges style_judging _header.now
            (E.engine.wrap self) (record_meaning recorded.now) line judged ticks.old ticks.new) }
        ensures most { CostsAtMostThere style_judging _header.now (E.engine.wrap self)
            (record_meaning recorded.now) line ticks.old ticks.new }
    {
        let RunJudge { engine, steps } = self;
        let more = engine.count_steps(recorded);
        let (engine, good) = engine.take_record(recorded, ticks)?;
        if good {
            Ok(Judged::Good(engine.wrap(steps + more)))
        } else {
            let violation = engine.find_step(alloc, recorded, ticks)?;
            Ok(Judged::Rejected(Rejection {
                step: steps + violation.offset + 1,
                line,
                rule: violation.rule,
                criterion: violation.criterion,
                detail: violation.detail,
            }))
        }
    }
}
