//! The texts of a decision.
ghost use Rattle.std.specs.Prelude.{◌≡◌, ◌++◌, IfOk, OnOk};
ghost use Rattle.pp_report.specs.Reports.{AreNamed};
ghost use Rattle.pp_text.specs.Texts.{AreStatesOf};
ghost use Rattle.pp_cmd_quick.specs.Reports.{quick_accepted_line, quick_accepted_text};
ghost use Rattle.pp_cmd_quick.specs.Reports.{quick_rejected_text};

use pp_core::{Catalog, Committed, OutOfMemory, Text};
use pp_objects::{ObjectStates, Op};
use pp_report::write_transactions;
use pp_text::{write_number, write_state_lines};
use std::alloc::Global;

/// Adds the first line of an accepted run.
fn write_quick_line(text: &mut Text, records: u32, committed: usize) -> Result<(), OutOfMemory>
    ensures { OnOk result (text.new ≡ text.old ++ quick_accepted_line records committed) }
{
    text.append(b"quick accepted records ")?;
    write_number(text, u64::from(records))?;
    text.append(b" committed ")?;
    write_number(text, committed as u64)?;
    text.append(b"\n")
}

/// The text of an accepted run of this many records, with the states of the objects after its
/// committed operations. The only error is out of memory.
pub(crate) fn quick_accepted(
    alloc: Global,
    catalog: &Catalog,
    records: u32,
    committed: &Committed<Op>,
    states: &ObjectStates,
) -> Result<Text, OutOfMemory>
    requires named { AreNamed catalog.now committed.now }
    requires states { AreStatesOf catalog.now states.now }
    ensures { IfOk result (λ text.
        text ≡ quick_accepted_text catalog.now records committed.now states.now) }
{
    let mut text = Text::new(alloc);
    write_quick_line(&mut text, records, committed.len())?;
    write_transactions(&mut text, catalog, committed.as_slice())?;
    write_state_lines(alloc, &mut text, catalog, states)?;
    Ok(text)
}

/// The text of a run that is rejected on this line. The only error is out of memory.
pub(crate) fn quick_rejected(alloc: Global, line: u32) -> Result<Text, OutOfMemory>
    ensures { IfOk result (λ text. text ≡ quick_rejected_text line) }
{
    let mut text = Text::new(alloc);
    text.append(b"quick rejected line ")?;
    write_number(&mut text, u64::from(line))?;
    text.append(b"\n")?;
    Ok(text)
}
