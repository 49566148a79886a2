//! The views of an accepted run.
ghost use Rattle.std.specs.Prelude.{◌≡◌, ◌⊎◌, ◌≤◌, ◌+◌, ◌*◌, List, IfOk, length};
ghost use Rattle.pp_core.specs.Steps.{Step as StepOf};
ghost use Rattle.pp_core.specs.declared.limits.TheConstants.{MOST_VIEWED};
ghost use Rattle.pp_core.specs.declared.status.Status.TheVariants as statuses;
ghost use Rattle.pp_model.specs.Sound.{serial_ops};
ghost use Rattle.pp_styles.specs.Meanings.{meanings};
ghost use Rattle.pp_attempts.specs.Peaks.{operations, peaks};
ghost use Rattle.pp_attempts.specs.Views.{AreViews};
ghost use Rattle.pp_judge.specs.Objects.{object_of};
ghost use Rattle.pp_judge.specs.Scans.{InputScan};
ghost use Rattle.pp_cmd_views.specs.Costs.{viewing_at_most};
ghost use Rattle.pp_cmd_views.specs.Outputs.{IsRunTold};
ghost use Rattle.pp_cmd_views.specs.Taken.{HasSteps};

use crate::text::{too_large_text, views_text};
use pp_attempts::{PeakFault, Peaks, Views, explain, peaks_of};
use pp_core::{MOST_VIEWED, OutOfMemory, Status, Text, Ticks};
use pp_judge::Tally;
use pp_machine::Machine;
use pp_objects::{Objects, Op};
use pp_styles::StepList;
use std::alloc::Global;
use std::sync::ledger::Ledger;

/// The views of the peaks of an accepted run.
fn run_views<L: Ledger>(
    alloc: Global,
    tally: &Tally,
    machine: &Machine<Objects>,
    found: &Peaks<Op>,
    ticks: &mut Ticks<L>,
) -> Result<Views, OutOfMemory>
    requires { (sc : InputScan) × (steps : List (StepOf Op))
        × HasSteps sc tally.now machine.now steps × (found.now ≡ peaks steps) }
    ensures views { IfOk result
        (AreViews (object_of tally.now.header) machine.now.config.done found.now) }
    ensures rises { ticks.old ≤ ticks.new }
    ensures bound { ticks.new ≤ ticks.old + length (serial_ops machine.now.config.done)
        + 2 * ((length machine.now.config.done + 1) * operations found.now) }
{
    let kinds = tally.header.catalog.kinds(alloc)?;
    // `count` is called for its clauses, which are true of each machine.
    let _count = machine.count();
    explain::<Objects, L>(alloc, &kinds, machine.committed(), found, ticks)
}

/// The text of an accepted run with these peaks.
fn views_told<L: Ledger>(
    alloc: Global,
    tally: &Tally,
    machine: &Machine<Objects>,
    found: &Peaks<Op>,
    ticks: &mut Ticks<L>,
) -> Result<Text, OutOfMemory>
    requires { (sc : InputScan) × (steps : List (StepOf Op))
        × HasSteps sc tally.now machine.now steps × (found.now ≡ peaks steps) }
    ensures told { IfOk result (λ text. (sc : InputScan) (steps : List (StepOf Op)) →
        HasSteps sc tally.now machine.now steps → found.now ≡ peaks steps →
        operations (peaks steps) ≤ MOST_VIEWED → IsRunTold sc statuses.Accepted text) }
    ensures rises { ticks.old ≤ ticks.new }
    ensures bound { ticks.new ≤ ticks.old + length (serial_ops machine.now.config.done)
        + 2 * ((length machine.now.config.done + 1) * operations found.now) }
{
    let views = run_views(alloc, tally, machine, found, ticks)?;
    let committed = machine.committed();
    views_text(alloc, machine.count(), committed.len(), &views)
}

/// The status and the text of an accepted run with these steps. The only error is out of memory.
pub(crate) fn report_views<L: Ledger>(
    alloc: Global,
    tally: &Tally,
    machine: &Machine<Objects>,
    steps: &StepList<Op>,
    ticks: &mut Ticks<L>,
) -> Result<(Status, Text), OutOfMemory>
    requires { (sc : InputScan) × HasSteps sc tally.now machine.now (meanings steps.now) }
    ensures told { IfOk result (λ r. (sc : InputScan) →
        HasSteps sc tally.now machine.now (meanings steps.now) → IsRunTold sc r.0 r.1) }
    ensures status { IfOk result (λ r.
        (r.0 ≡ statuses.Accepted) ⊎ (r.0 ≡ statuses.TooLarge)) }
    ensures rises { ticks.old ≤ ticks.new }
    ensures bound { ticks.new
        ≤ ticks.old + viewing_at_most machine.now.config.done (meanings steps.now) }
{
    match peaks_of(alloc, steps, u64::from(MOST_VIEWED)) {
        Ok(peaks) => {
            let text = views_told(alloc, tally, machine, &peaks, ticks)?;
            Ok((Status::Accepted, text))
        }
        Err(PeakFault::TooMany { count }) => {
            let text = too_large_text(alloc, count)?;
            Ok((Status::TooLarge, text))
        }
        Err(PeakFault::OutOfMemory) => Err(OutOfMemory),
    }
}
