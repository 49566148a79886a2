//! The judges of all styles, as one judge.
ghost use Rattle.std.specs.Prelude.{◌≡◌, ◌<◌, length};
ghost use Rattle.pp_kind.specs.Object.{AllRanged, IsAllowed};
ghost use Rattle.pp_kind.specs.declared.range.TheConstants.{MOST_OPERATIONS};
ghost use Rattle.pp_model.specs.Sound.{serial_ops};
ghost use Rattle.pp_objects.specs.Objects.{objects};
ghost use Rattle.pp_cmd_judge.specs.StyleJudging.{HasTaken, done_of, shape_of, step_count};

use crate::driven::DrivenMachine;
use crate::engine::Engine;
use crate::limits::judge_limits;
use crate::rules::RuleMachine;
use crate::run_judge::RunJudge;
use pp_core::{Committed, Style, Ticks};
use pp_format_read::Header;
use pp_input::Limits;
use pp_input_reader::{Cause, Stop};
use pp_judge::{Judge, Judged, Rejection};
use pp_objects::{Objects, Op};
use pp_records::RunRecord;
use pp_snapshots::Snapshots;
use pp_summary::Quick;
use std::alloc::Global;
use std::sync::ledger::Ledger;

/// The judge of a run, by its style.
#[derive(Drop)]
pub(crate) enum StyleJudge {
    Rules(RunJudge<RuleMachine>),
    Boosted(RunJudge<Quick<Objects>>),
    Optimistic(RunJudge<Snapshots<Objects>>),
    Driven(DrivenMachine),
}

impl StyleJudge {
    /// How many steps the records mean that it took.
    pub(crate) fn steps(&self) -> u64
        ensures { result ≡ step_count self.now }
    {
        match self {
            StyleJudge::Rules(judge) => judge.steps,
            StyleJudge::Boosted(judge) => judge.steps,
            StyleJudge::Optimistic(judge) => judge.steps,
            StyleJudge::Driven(judge) => u64::from(judge.machine.count()),
        }
    }

    /// The committed transactions, in commit order. Their operations, joined, are allowed, in the
    /// range of records, and few enough to be applied one after another.
    pub(crate) fn committed(&self) -> &Committed<Op>
        requires { HasTaken self.now }
        ensures done { result.now ≡ done_of self.now }
        ensures allowed { IsAllowed objects (shape_of self.now) (serial_ops (done_of self.now)) }
        ensures ranged { AllRanged objects (serial_ops (done_of self.now)) }
        ensures few { length (serial_ops (done_of self.now)) < MOST_OPERATIONS }
    {
        match self {
            StyleJudge::Rules(judge) => judge.engine.commits(),
            StyleJudge::Boosted(judge) => judge.engine.commits(),
            StyleJudge::Optimistic(judge) => judge.engine.commits(),
            StyleJudge::Driven(judge) => judge.committed(),
        }
    }
}

impl Judge for StyleJudge {
    ghost use Rattle.pp_cmd_judge.specs.StyleJudging.{style_judging};
    ghost use Rattle.pp_cmd_judge.specs.StyleLaws.{style_laws};

    type Rejection = Rejection;

    ghost judging = { style_judging };

    fn limits() -> Limits {
        judge_limits()
    }

    fn begin<L: Ledger>(
        alloc: Global,
        header: &Header,
        line: u32,
        ticks: &mut Ticks<L>,
    ) -> Result<Judged<StyleJudge, Rejection>, Stop<Cause>> {
        match header.style {
            Style::Rules => Ok(RunJudge::<RuleMachine>::begin(alloc, header, line, ticks)?),
            Style::Boosted => Ok(RunJudge::<Quick<Objects>>::begin(alloc, header, line, ticks)?),
            Style::Optimistic => {
                Ok(RunJudge::<Snapshots<Objects>>::begin(alloc, header, line, ticks)?)
            }
            Style::Hardware | Style::Dependent => {
                Ok(DrivenMachine::begin(alloc, header, line, ticks)?)
            }
        }
    }

    fn judge<L: Ledger>(
        self,
        alloc: Global,
        header: &Header,
        recorded: &RunRecord<Op>,
        line: u32,
        ticks: &mut Ticks<L>,
    ) -> Result<Judged<StyleJudge, Rejection>, Stop<Cause>> {
        match self {
            StyleJudge::Rules(judge) => Ok(judge.judge(alloc, header, recorded, line, ticks)?),
            StyleJudge::Boosted(judge) => Ok(judge.judge(alloc, header, recorded, line, ticks)?),
            StyleJudge::Optimistic(judge) => Ok(judge.judge(alloc, header, recorded, line, ticks)?),
            StyleJudge::Driven(judge) => judge.judge(header, recorded, line, ticks),
        }
    }

    ghost laws = { style_laws };
}
