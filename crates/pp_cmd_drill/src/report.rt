//! The text of the command: a line of its own, and from the report of the run the first line and
//! the states.
ghost use Rattle.std.specs.Prelude.{◌≡◌, IfOk};
ghost use Rattle.pp_text.specs.Texts.{AreStatesOf};
ghost use Rattle.pp_cmd_drill.specs.Drill.{drill_catalog};
ghost use Rattle.pp_cmd_drill.specs.Reports.{drill_report};

use pp_core::{Catalog, OutOfMemory, Text};
use pp_objects::ObjectStates;
use pp_report::write_first_line;
use pp_text::{write_number, write_state_lines};
use std::alloc::Global;

/// The text of the command for n transactions. The only error is out of memory.
pub(crate) fn drill_report(
    alloc: Global,
    n: u32,
    catalog: &Catalog,
    steps: u64,
    committed: usize,
    states: &ObjectStates,
) -> Result<Text, OutOfMemory>
    requires over { catalog.now ≡ drill_catalog }
    requires states { AreStatesOf catalog.now states.now }
    ensures { IfOk result (λ text. text ≡ drill_report n steps committed states.now) }
{
    let mut text = Text::new(alloc);
    text.append(b"drill ")?;
    write_number(&mut text, u64::from(n))?;
    text.append(b"\n")?;
    write_first_line(&mut text, steps, committed)?;
    write_state_lines(alloc, &mut text, catalog, states)?;
    Ok(text)
}
