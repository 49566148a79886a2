//! Driving a machine through the steps of a record.
ghost use Rattle.std.specs.Prelude.{◌≡◌, ◌≤◌, IfOk};
ghost use Rattle.pp_core.specs.Steps.{Step as StepOf, meaning};
ghost use Rattle.pp_model.specs.Lists.{In};
ghost use Rattle.pp_machine.specs.Stepping.{IsAsked};
ghost use Rattle.pp_styles.specs.Driving.{CostAtMost, Drives, halt_of};
ghost use Rattle.pp_styles.specs.Meanings.{meanings};

use crate::tracked::Tracked;
use pp_core::{OutOfMemory, Rule, Step, Ticks, rule_of};
use pp_kind::Parted;
use pp_machine::{Detail, Outcome};
use std::sync::ledger::Ledger;

/// Why not all steps of a record were done.
#[derive(Drop)]
pub enum Halt<O> {
    /// A step of this rule fails: its first false criterion, from 1, and what shows that.
    Failed {
        rule: Rule,
        criterion: u8,
        detail: Detail<O>,
    },
    /// There is one step more than a run may have.
    TooMany,
}

/// Why a machine halts at a step with this outcome, if it does.
fn halt_of<O>(step: &Step<O>, outcome: Outcome<O>) -> Option<Halt<O>>
    ensures { result ≡ halt_of (meaning step.now) outcome }
{
    match outcome {
        Outcome::Done => None,
        Outcome::False { criterion, detail } => Some(Halt::Failed {
            rule: rule_of(step),
            criterion,
            detail,
        }),
    }
}

/// Does the steps up to the first that fails, and no more than a run may have, by this limit. The
/// only error is that memory was refused, and the machine is then lost.
pub fn do_steps<S: Parted, L: Ledger>(
    machine: Tracked<S>,
    list: &[Step<S::Op>],
    limit: u32,
    ticks: &mut Ticks<L>,
) -> Result<(Tracked<S>, Option<Halt<S::Op>>), OutOfMemory>
    requires asked { (step : StepOf S.Op) → In step (meanings list.now) →
        IsAsked S.object machine.shape step }
    requires few { machine.count ≤ limit }
    ensures drives { IfOk result (λ r.
        Drives limit S.object machine (meanings list.now) ticks.old r.1 r.0 ticks.new) }
    ensures most { CostAtMost limit S.object S.place_of machine (meanings list.now)
        ticks.old ticks.new }
{
    let mut machine = machine;
    for step in list {
        if machine.count() == limit {
            return Ok((machine, Some(Halt::TooMany)));
        }
        let (next, outcome) = machine.step(step, ticks)?;
        machine = next;
        if let Some(halt) = halt_of(step, outcome) {
            return Ok((machine, Some(halt)));
        }
    }
    Ok((machine, None))
}
