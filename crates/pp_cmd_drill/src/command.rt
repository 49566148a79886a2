//! The command: makes the run of a number of transactions, certifies it and prints a summary.
ghost use Rattle.std.specs.Prelude.{◌≡◌, ◌≤◌, ◌+◌, length, None, IfOk, OnOk};
ghost use Rattle.pp_core.specs.declared.status.Status.TheVariants as statuses;
ghost use Rattle.pp_model.specs.Config.{first};
ghost use Rattle.pp_model.specs.Sound.{serial_ops};
ghost use Rattle.pp_judge.specs.Costs.{CostsAtLeast, CostsAtMost, StepsCostAtLeast};
ghost use Rattle.pp_judge.specs.Costs.{StepsCostAtMost};
ghost use Rattle.pp_judge.specs.Running.{IsRunning};
ghost use Rattle.pp_cmd_drill.specs.Drill.{drill_catalog, drill_kinds};
ghost use Rattle.pp_cmd_drill.specs.Reports.{IsDrilled, drill_scan};

use crate::objects::drill_catalog;
use crate::pairs::drill_steps;
use crate::report::drill_report;
use pp_core::{Catalog, MOST_STEPS, OutOfMemory, Status, Style, Text, Ticks};
use pp_format_read::Header;
use pp_judge::{Tally, compute_states};
use pp_machine::Machine;
use pp_objects::Objects;
use pp_styles::{Tracked, do_steps};
use std::alloc::Global;
use std::sync::ledger::Ledger;

/// The machine over the objects of the run, before its first step.
fn first_machine(alloc: Global, catalog: &Catalog) -> Result<Tracked<Objects>, OutOfMemory>
    requires { catalog.now ≡ drill_catalog }
    ensures { IfOk result (λ machine. machine ≡ record {
      shape = drill_kinds;
      config = first None;
      count = 0;
    }) }
{
    let kinds = catalog.kinds(alloc)?;
    let machine = Machine::new(alloc, kinds)?;
    Tracked::new(alloc, machine)
}

/// The machine after the steps of the run, and what reading its lines would count. The steps are
/// made directly, without the lines.
fn machine_behind<L: Ledger>(
    alloc: Global,
    n: u32,
    ticks: &mut Ticks<L>,
) -> Result<(Tally, Machine<Objects>), OutOfMemory>
    requires some { 1 ≤ n }
    requires few { n ≤ 20_000 }
    ensures running { IfOk result (λ r. IsRunning (drill_scan n) r.0 r.1) }
    ensures most { StepsCostAtMost (drill_scan n) ticks.old ticks.new }
    ensures least { IfOk result (λ _.
        StepsCostAtLeast statuses.Accepted (drill_scan n) ticks.old ticks.new) }
{
    let catalog = drill_catalog(alloc)?;
    let steps = drill_steps(alloc, n)?;
    let machine = first_machine(alloc, &catalog)?;
    // Each of these steps meets its criteria, so the machine takes all of them.
    let (machine, _halt) = do_steps(machine, &steps, MOST_STEPS, ticks)?;
    let count = machine.count();
    let header = Header {
        style: Style::Rules,
        catalog,
        start: None,
    };
    let tally = Tally {
        header,
        lines: count + 1,
        begins: n,
    };
    Ok((tally, machine.into_machine()))
}

/// The text of the command, from the machine after the run.
fn text_of_run<L: Ledger>(
    alloc: Global,
    n: u32,
    tally: &Tally,
    machine: &Machine<Objects>,
    ticks: &mut Ticks<L>,
) -> Result<Text, OutOfMemory>
    requires some { 1 ≤ n }
    requires few { n ≤ 20_000 }
    requires running { IsRunning (drill_scan n) tally.now machine.now }
    ensures output { IfOk result (IsDrilled n statuses.Accepted) }
    ensures cost { OnOk result
        (ticks.new ≡ ticks.old + length (serial_ops machine.now.config.done)) }
    ensures bound { ticks.new ≤ ticks.old + length (serial_ops machine.now.config.done) }
{
    let (steps, states) = compute_states(alloc, tally, machine, ticks)?;
    let committed = machine.committed();
    drill_report(
        alloc,
        n,
        &tally.header.catalog,
        steps,
        committed.len(),
        &states,
    )
}

/// The status and the output of `drill` for n transactions. Their run is certified as if it were
/// read from its text, but the text is not made. The only error is out of memory.
pub fn drill<L: Ledger>(
    alloc: Global,
    n: u32,
    ticks: &mut Ticks<L>,
) -> Result<(Status, Text), OutOfMemory>
    requires some { 1 ≤ n }
    requires few { n ≤ 20_000 }
    ensures output { IfOk result (λ r. IsDrilled n r.0 r.1) }
    ensures most { CostsAtMost (drill_scan n) ticks.old ticks.new }
    ensures least { OnOk result
        (CostsAtLeast statuses.Accepted (drill_scan n) ticks.old ticks.new) }
{
    let (tally, machine) = machine_behind(alloc, n, ticks)?;
    let text = text_of_run(alloc, n, &tally, &machine, ticks)?;
    Ok((Status::Accepted, text))
}
