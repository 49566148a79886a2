//! The machine, driven through the steps of each record, as the judge of the styles that have no
//! summary.
ghost use Rattle.std.specs.Prelude.{◌≡◌, ◌<◌, [], length, true, IfErr, IfOk};
ghost use Rattle.pp_records.specs.Expansions.{IsOfStyle};
ghost use Rattle.pp_records.specs.Records.{record_meaning};
ghost use Rattle.pp_format_read.specs.Records.{IsReadable};
ghost use Rattle.pp_format_read.specs.Starts.{IsReadableStart};
ghost use Rattle.pp_input_reader.specs.Takers.{IfFault};
ghost use Rattle.pp_kind.specs.Object.{AllRanged, IsAllowed};
ghost use Rattle.pp_kind.specs.declared.range.TheConstants.{MOST_OPERATIONS};
ghost use Rattle.pp_model.specs.Sound.{serial_ops};
ghost use Rattle.pp_objects.specs.Objects.{objects};
ghost use Rattle.pp_judge.specs.Judging.{CostsAtMostThere, HasFaultThere, IsJudged};
ghost use Rattle.pp_judge.specs.Judging.{JudgedAtLeast, Judges, MayTake};
ghost use Rattle.pp_judge.specs.Tallies.{headed, scan_of};
ghost use Rattle.pp_cmd_judge.specs.Costs.{JudgedCostAtMost};
ghost use Rattle.pp_cmd_judge.specs.Driven.{judged_of};
ghost use Rattle.pp_cmd_judge.specs.Judgements.{is_driven};
ghost use Rattle.pp_cmd_judge.specs.StyleJudging.{style_judging};
ghost use Rattle.pp_cmd_judge.specs.declared.style_judge.StyleJudge.TheVariants.{Driven};

use crate::style_judge::StyleJudge;
use pp_core::{Committed, OutOfMemory, Rule, Ticks};
use pp_format_read::Header;
use pp_input_reader::{Cause, Stop};
use pp_judge::{Judged, Rejection, first_front, make_steps, rejection_on, start_machine, steps_of};
use pp_machine::Outcome;
use pp_objects::{Objects, Op};
use pp_records::RunRecord;
use pp_styles::{BoxedFront, Tracked, do_steps};
use std::alloc::Global;
use std::sync::ledger::Ledger;

/// The machine after the steps of some records, and what the style keeps of them.
#[derive(Drop)]
pub(crate) struct DrivenMachine {
    pub(crate) front: BoxedFront,
    pub(crate) machine: Tracked<Objects>,
}

/// The judge that took a record, or the rejection of a step of it.
fn judged_of(judge: DrivenMachine, rejection: Option<Rejection>) -> Judged<StyleJudge, Rejection>
    ensures { result ≡ judged_of judge rejection }
{
    match rejection {
        None => Judged::Good(StyleJudge::Driven(judge)),
        Some(rejection) => Judged::Rejected(rejection),
    }
}

impl DrivenMachine {
    /// Judges the start of the header on this line, which is of style hardware or dependent.
    pub(crate) fn begin<L: Ledger>(
        alloc: Global,
        header: &Header,
        line: u32,
        ticks: &mut Ticks<L>,
    ) -> Result<Judged<StyleJudge, Rejection>, OutOfMemory>
        requires style { is_driven header.now.style ≡ true }
        requires readable { IsReadableStart header.now.catalog header.now.start }
        ensures judged { IfOk result (IsJudged style_judging (headed line header.now) []) }
        ensures most { JudgedCostAtMost (scan_of (headed line header.now) [])
            ticks.old ticks.new }
        ensures least { IfOk result (λ judged. JudgedAtLeast style_judging
            (scan_of (headed line header.now) []) judged ticks.old ticks.new) }
    {
        let front = first_front(alloc, header)?;
        let (machine, outcome) = start_machine(alloc, header, ticks)?;
        match outcome {
            Outcome::Done => {
                let machine = Tracked::new(alloc, machine)?;
                Ok(Judged::Good(StyleJudge::Driven(DrivenMachine { front, machine })))
            }
            Outcome::False { criterion, detail } => Ok(Judged::Rejected(Rejection {
                step: 0,
                line,
                rule: Rule::Start,
                criterion,
                detail,
            })),
        }
    }

    /// Judges one record more, which is on this line. The machine counts no more steps than fit in
    /// 32 bits. One more is a fault of the line.
    pub(crate) fn judge<L: Ledger>(
        self,
        _header: &Header,
        recorded: &RunRecord<Op>,
        line: u32,
        ticks: &mut Ticks<L>,
    ) -> Result<Judged<StyleJudge, Rejection>, Stop<Cause>>
        requires good { MayTake style_judging _header.now (Driven self) }
        requires readable { IsReadable _header.now.catalog (record_meaning recorded.now) }
        requires styled { IsOfStyle _header.now.style (record_meaning recorded.now) }
        ensures judged { IfOk result (λ judged. Judges style_judging _header.now
            (Driven self) (record_meaning recorded.now) line judged ticks.old ticks.new) }
        ensures stop { IfErr result (λ stop. IfFault stop (λ at cause. (at ≡ line)
            × HasFaultThere style_judging _header.now (Driven self)
            (record_meaning recorded.now) line cause)) }
        ensures most { CostsAtMostThere style_judging _header.now (Driven self)
            (record_meaning recorded.now) line ticks.old ticks.new }
    {
        let DrivenMachine {
            mut front,
            mut machine,
        } = self;
        let made = make_steps(&mut front, recorded, &mut machine)?;
        let steps = steps_of(recorded, &made);
        let (machine, halt) = do_steps(machine, steps, u32::MAX, ticks)?;
        let count = machine.count();
        let rejection = rejection_on(line, count, halt)?;
        Ok(judged_of(DrivenMachine { front, machine }, rejection))
    }

    /// The committed transactions, in commit order. Their operations, joined, are allowed, in the
    /// range of records, and few enough to be applied one after another.
    pub(crate) fn committed(&self) -> &Committed<Op>
        ensures done { result.now ≡ self.now.machine.config.done }
        ensures allowed { IsAllowed objects self.now.machine.shape
            (serial_ops self.now.machine.config.done) }
        ensures ranged { AllRanged objects (serial_ops self.now.machine.config.done) }
        ensures few { length (serial_ops self.now.machine.config.done) < MOST_OPERATIONS }
    {
        let machine = self.machine.machine();
        // It is here for what its clauses say of the shared log, which has them all.
        let _count = machine.count();
        machine.committed()
    }
}
