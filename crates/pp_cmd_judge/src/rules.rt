//! The machine, as the engine of style `rules`, each record of which is one step of it.
ghost use Rattle.std.specs.Prelude.{◌≡◌};
ghost use Rattle.pp_core.specs.Steps.{meaning};
ghost use Rattle.pp_core.specs.declared.call.Style.TheVariants as styles;
ghost use Rattle.pp_records.specs.Expansions.{IsOfStyle};
ghost use Rattle.pp_records.specs.Records.{Plain, record_meaning};
ghost use Rattle.pp_cmd_judge.specs.Rules.{engine_after};

use crate::engine::Engine;
use crate::run_judge::RunJudge;
use crate::style_judge::StyleJudge;
use pp_core::{Committed, OutOfMemory, Step, Ticks, rule_of};
use pp_format_read::Header;
use pp_judge::start_machine;
use pp_machine::{Machine, Outcome};
use pp_objects::{Objects, Op};
use pp_records::RunRecord;
use pp_violations::{Broken, Violation, at_step};
use std::alloc::Global;
use std::sync::ledger::Ledger;

/// The machine after the start and the steps of a run of style `rules`, and what criterion the last
/// step violates, if it does.
#[derive(Drop)]
pub(crate) struct RuleMachine {
    pub(crate) machine: Machine<Objects>,
    pub(crate) broken: Option<Broken<Op>>,
}

/// The step that a record of style `rules` is.
fn step_of(recorded: &RunRecord<Op>) -> &Step<Op>
    requires { IsOfStyle styles.Rules (record_meaning recorded.now) }
    ensures { record_meaning recorded.now ≡ Plain (meaning result.now) }
{
    let RunRecord::Plain(step) = recorded else {
        unreachable!()
    };
    step
}

/// The machine after a step with this outcome, and whether the step meets its criteria.
fn engine_after(machine: Machine<Objects>, outcome: Outcome<Op>) -> (RuleMachine, bool)
    ensures { result ≡ engine_after machine outcome }
{
    match outcome {
        Outcome::Done => {
            let broken = None;
            (RuleMachine { machine, broken }, true)
        }
        Outcome::False { criterion, detail } => {
            let broken = Some(Broken { criterion, detail });
            (RuleMachine { machine, broken }, false)
        }
    }
}

impl Engine for RuleMachine {
    ghost use Rattle.pp_cmd_judge.specs.Rules.{rules_engine};
    ghost use Rattle.pp_cmd_judge.specs.RulesLaws.{rules_laws};

    ghost engine = { rules_engine };

    fn start<L: Ledger>(
        alloc: Global,
        header: &Header,
        ticks: &mut Ticks<L>,
    ) -> Result<(RuleMachine, bool), OutOfMemory> {
        let (machine, outcome) = start_machine(alloc, header, ticks)?;
        Ok(engine_after(machine, outcome))
    }

    fn count_steps(&self, _recorded: &RunRecord<Op>) -> u64 {
        1
    }

    fn take_record<L: Ledger>(
        self,
        recorded: &RunRecord<Op>,
        ticks: &mut Ticks<L>,
    ) -> Result<(RuleMachine, bool), OutOfMemory> {
        let step = step_of(recorded);
        let RuleMachine { machine, .. } = self;
        let (machine, outcome) = machine.step(step, ticks)?;
        Ok(engine_after(machine, outcome))
    }

    fn find_step<L: Ledger>(
        self,
        _alloc: Global,
        recorded: &RunRecord<Op>,
        _ticks: &mut Ticks<L>,
    ) -> Result<Violation<Op>, OutOfMemory> {
        let RuleMachine { broken, .. } = self;
        let Some(broken) = broken else { unreachable!() };
        let rule = rule_of(step_of(recorded));
        Ok(at_step(0, rule, broken))
    }

    fn commits(&self) -> &Committed<Op> {
        // It is here for what its clauses say of the shared log, which has them all.
        let _count = self.machine.count();
        self.machine.committed()
    }

    fn wrap(self, steps: u64) -> StyleJudge {
        StyleJudge::Rules(RunJudge {
            engine: self,
            steps,
        })
    }

    ghost laws = { rules_laws };
}
