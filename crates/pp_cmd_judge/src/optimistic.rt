//! The snapshots of an optimistic run, as the engine of style `optimistic`.
ghost use Rattle.std.specs.Prelude.{◌≤◌, ◌+◌, IfOk};
ghost use Rattle.pp_format_read.specs.Starts.{IsReadableStart};
ghost use Rattle.pp_judge.specs.Costs.{start_at_most};
ghost use Rattle.pp_judge.specs.Objects.{start_of};
ghost use Rattle.pp_cmd_judge.specs.Optimistic.{StartsSnapshots};

use crate::engine::Engine;
use crate::run_judge::RunJudge;
use crate::style_judge::StyleJudge;
use pp_conflicts::find_conflict;
use pp_core::{Committed, OutOfMemory, Ticks};
use pp_format_read::Header;
use pp_objects::{Objects, Op};
use pp_records::RunRecord;
use pp_snapshots::Snapshots;
use pp_violations::Violation;
use std::alloc::Global;
use std::sync::ledger::Ledger;

/// Snapshots with the start of a header, if it has one; with false the start fails.
fn start_snapshots<L: Ledger>(
    alloc: Global,
    header: &Header,
    ticks: &mut Ticks<L>,
) -> Result<(Snapshots<Objects>, bool), OutOfMemory>
    requires { IsReadableStart header.now.catalog header.now.start }
    ensures starts { IfOk result (λ r. StartsSnapshots header.now r.1 r.0) }
    ensures rises { ticks.old ≤ ticks.new }
    ensures bound { ticks.new ≤ ticks.old + start_at_most (start_of header.now) }
{
    let kinds = header.catalog.kinds(alloc)?;
    let snapshots: Snapshots<Objects> = Snapshots::new(alloc, kinds)?;
    match &header.start {
        None => Ok((snapshots, true)),
        Some(start) => snapshots.start(start.tx, &start.ops, ticks),
    }
}

impl Engine for Snapshots<Objects> {
    ghost use Rattle.pp_cmd_judge.specs.Optimistic.{optimistic_engine};
    ghost use Rattle.pp_cmd_judge.specs.OptimisticLaws.{optimistic_laws};

    ghost engine = { optimistic_engine };

    fn start<L: Ledger>(
        alloc: Global,
        header: &Header,
        ticks: &mut Ticks<L>,
    ) -> Result<(Snapshots<Objects>, bool), OutOfMemory> {
        start_snapshots(alloc, header, ticks)
    }

    fn count_steps(&self, recorded: &RunRecord<Op>) -> u64 {
        self.steps(recorded)
    }

    fn take_record<L: Ledger>(
        self,
        recorded: &RunRecord<Op>,
        ticks: &mut Ticks<L>,
    ) -> Result<(Snapshots<Objects>, bool), OutOfMemory> {
        self.take(recorded, ticks)
    }

    fn find_step<L: Ledger>(
        self,
        alloc: Global,
        recorded: &RunRecord<Op>,
        ticks: &mut Ticks<L>,
    ) -> Result<Violation<Op>, OutOfMemory> {
        find_conflict(alloc, &self, recorded, ticks)
    }

    fn commits(&self) -> &Committed<Op> {
        self.committed()
    }

    fn wrap(self, steps: u64) -> StyleJudge {
        StyleJudge::Optimistic(RunJudge {
            engine: self,
            steps,
        })
    }

    ghost laws = { optimistic_laws };
}
