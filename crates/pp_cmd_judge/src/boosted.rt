//! The summary of a boosted run, as the engine of style `boosted`.
use crate::engine::Engine;
use crate::run_judge::RunJudge;
use crate::style_judge::StyleJudge;
use pp_cmd_quick::start_quick;
use pp_core::{Committed, OutOfMemory, Ticks};
use pp_format_read::Header;
use pp_objects::{Objects, Op};
use pp_records::RunRecord;
use pp_summary::Quick;
use pp_violations::{Violation, find_violation};
use std::alloc::Global;
use std::sync::ledger::Ledger;

impl Engine for Quick<Objects> {
    ghost use Rattle.pp_cmd_judge.specs.Boosted.{boosted_engine};
    ghost use Rattle.pp_cmd_judge.specs.BoostedLaws.{boosted_laws};

    ghost engine = { boosted_engine };

    fn start<L: Ledger>(
        alloc: Global,
        header: &Header,
        ticks: &mut Ticks<L>,
    ) -> Result<(Quick<Objects>, bool), OutOfMemory> {
        start_quick(alloc, header, ticks)
    }

    fn count_steps(&self, recorded: &RunRecord<Op>) -> u64 {
        self.steps(recorded)
    }

    fn take_record<L: Ledger>(
        self,
        recorded: &RunRecord<Op>,
        ticks: &mut Ticks<L>,
    ) -> Result<(Quick<Objects>, bool), OutOfMemory> {
        self.take(recorded, ticks)
    }

    fn find_step<L: Ledger>(
        self,
        alloc: Global,
        recorded: &RunRecord<Op>,
        ticks: &mut Ticks<L>,
    ) -> Result<Violation<Op>, OutOfMemory> {
        find_violation(alloc, &self, recorded, ticks)
    }

    fn commits(&self) -> &Committed<Op> {
        self.committed()
    }

    fn wrap(self, steps: u64) -> StyleJudge {
        StyleJudge::Boosted(RunJudge {
            engine: self,
            steps,
        })
    }

    ghost laws = { boosted_laws };
}
