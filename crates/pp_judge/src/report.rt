//! The report of a rejected run, and the states of an accepted one.
ghost use Rattle.std.specs.Prelude.{◌≡◌, ◌≤◌, ◌+◌, length, IfOk, OnOk};
ghost use Rattle.pp_core.specs.declared.status.Status.TheVariants as statuses;
ghost use Rattle.pp_model.specs.Sound.{serial_ops};
ghost use Rattle.pp_objects.specs.Objects.{kinds_of, objects};
ghost use Rattle.pp_kind.specs.Object.{state_after};
ghost use Rattle.pp_text.specs.Texts.{AreStatesOf};
ghost use Rattle.pp_judge.specs.Reports.{IsRunTold};
ghost use Rattle.pp_judge.specs.Running.{IsRejected, IsRunning};
ghost use Rattle.pp_judge.specs.Scans.{InputScan};

use crate::driven::Rejection;
use crate::progress::Tally;
use pp_core::{OutOfMemory, Text, Ticks};
use pp_kind::serial_state;
use pp_machine::Machine;
use pp_objects::{ObjectStates, Objects};
use pp_report::rejected;
use std::alloc::Global;
use std::sync::ledger::Ledger;

/// How many steps an accepted run has, and the states that its committed transactions lead to, one
/// after another.
pub fn compute_states<L: Ledger>(
    alloc: Global,
    tally: &Tally,
    machine: &Machine<Objects>,
    ticks: &mut Ticks<L>,
) -> Result<(u64, ObjectStates), OutOfMemory>
    requires { (sc : InputScan) × IsRunning sc tally.now machine.now }
    ensures count { IfOk result (λ r. r.0 ≡ machine.now.count) }
    ensures states { IfOk result (λ r. r.1 ≡ state_after objects
        (kinds_of tally.now.header.catalog) (serial_ops machine.now.config.done)) }
    ensures named { IfOk result (λ r. AreStatesOf tally.now.header.catalog r.1) }
    ensures cost { OnOk result
        (ticks.new ≡ ticks.old + length (serial_ops machine.now.config.done)) }
    ensures bound { ticks.new ≤ ticks.old + length (serial_ops machine.now.config.done) }
{
    let kinds = tally.header.catalog.kinds(alloc)?;
    let count = machine.count();
    let committed = machine.committed();
    let states = serial_state::<Objects, L>(alloc, &kinds, committed, ticks)?;
    Ok((u64::from(count), states))
}

/// The report of a run of which the start or a step is rejected. The only error is that memory was
/// refused.
pub fn report_rejected(
    alloc: Global,
    tally: &Tally,
    rejection: &Rejection,
) -> Result<Text, OutOfMemory>
    requires { (sc : InputScan) × IsRejected sc tally.now rejection.now }
    ensures { IfOk result (λ text. (sc : InputScan) → IsRejected sc tally.now rejection.now →
        IsRunTold sc statuses.Rejected text) }
{
    rejected(
        alloc,
        &tally.header.catalog,
        rejection.step,
        rejection.line,
        rejection.rule,
        rejection.criterion,
        &rejection.detail,
    )
}
