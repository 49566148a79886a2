//! The report of an accepted run.
ghost use Rattle.std.specs.Prelude.{◌≡◌, ◌≤◌, ◌<◌, ◌+◌, ◌-◌, IfOk, List, Some, length, slice_get};
ghost use Rattle.pp_core.specs.Steps.{Step as StepOf};
ghost use Rattle.pp_model.specs.Serial.{start_attempts};
ghost use Rattle.pp_opacity.specs.Costs.{searching_at_most};
ghost use Rattle.pp_opacity.specs.Results.{IsFound};
ghost use Rattle.pp_styles.specs.Meanings.{meanings};
ghost use Rattle.pp_judge.specs.Certified.{IsDecided};
ghost use Rattle.pp_judge.specs.Objects.{object_of, start_of};
ghost use Rattle.pp_judge.specs.Scans.{InputScan};
ghost use Rattle.pp_cmd_views.specs.Taken.{HasSteps};
ghost use Rattle.pp_cmd_opaque.specs.Kept.{AreOfStyle, HasKeptRun};
ghost use Rattle.pp_cmd_opaque.specs.Outputs.{IsScanOutput};

use crate::kept_run::KeptRun;
use crate::text::{opaque_text, zombie_text};
use pp_core::{OutOfMemory, Status, Style, Text, Ticks};
use pp_format_read::Header;
use pp_judge::Tally;
use pp_machine::Machine;
use pp_objects::{Objects, Op};
use pp_opacity::{Zombie, first_zombie};
use pp_styles::StepList;
use std::alloc::Global;
use std::sync::ledger::Ledger;

/// How many transactions the start of a header commits.
fn count_started(header: &Header) -> usize
    ensures { result ≡ length (start_attempts (start_of header.now)) }
{
    match &header.start {
        None => 0,
        Some(_start) => 1,
    }
}

/// The first zombie of an accepted run with these steps, if the run is not opaque.
fn find_zombie<L: Ledger>(
    alloc: Global,
    tally: &Tally,
    machine: &Machine<Objects>,
    steps: &StepList<Op>,
    ticks: &mut Ticks<L>,
) -> Result<Option<Zombie<Op>>, OutOfMemory>
    requires { (sc : InputScan) × HasSteps sc tally.now machine.now (meanings steps.now)
        × AreOfStyle sc }
    ensures found { IfOk result (IsFound (object_of tally.now.header) (start_of tally.now.header)
        (meanings steps.now)) }
    ensures rises { ticks.old ≤ ticks.new }
    ensures bound { ticks.new ≤ ticks.old + searching_at_most (start_of tally.now.header)
        (meanings steps.now) machine.now.config.done }
{
    // Each accepted run of style boosted is opaque.
    if let Style::Boosted = tally.header.style {
        return Ok(None);
    }
    let kinds = tally.header.catalog.kinds(alloc)?;
    // It is here for what its clauses say of the machine.
    let _count = machine.count();
    let given = count_started(&tally.header);
    let committed = machine.committed().as_slice();
    first_zombie::<Objects, L>(alloc, &kinds, given, steps.as_slice(), committed, ticks)
}

/// The line of the step of this number, counted from 1.
fn line_of(lines: &[u32], number: usize) -> u32
    requires some { 0 < number }
    requires within { number ≤ length lines.now }
    ensures { slice_get lines.now (number - 1) ≡ Some result }
{
    lines[number - 1]
}

/// The status and the text of an accepted run whose steps are kept. The only error is out of
/// memory.
pub(crate) fn report_opacity<L: Ledger>(
    alloc: Global,
    tally: &Tally,
    machine: &Machine<Objects>,
    kept: &KeptRun,
    ticks: &mut Ticks<L>,
) -> Result<(Status, Text), OutOfMemory>
    requires { (sc : InputScan) × HasKeptRun sc tally.now machine.now kept.now }
    ensures output { IfOk result (λ r. (sc : InputScan) →
        HasKeptRun sc tally.now machine.now kept.now → IsScanOutput sc r.0 r.1) }
    ensures status { IfOk result (λ r. IsDecided r.0) }
    ensures rises { ticks.old ≤ ticks.new }
    ensures bound { ticks.new ≤ ticks.old + searching_at_most (start_of tally.now.header)
        (meanings kept.now.steps) machine.now.config.done }
{
    let Some(zombie) = find_zombie(alloc, tally, machine, &kept.steps, ticks)? else {
        let committed = machine.committed();
        let text = opaque_text(alloc, kept.steps.len(), committed.len())?;
        return Ok((Status::Accepted, text));
    };
    let line = line_of(kept.lines.as_slice(), zombie.step);
    let text = zombie_text(alloc, &tally.header.catalog, line, &zombie)?;
    Ok((Status::Rejected, text))
}
