//! The text of a run.
ghost use Rattle.std.specs.Prelude.{◌≡◌, [], ◌∷◌, ◌++◌, map, OnOk, IfOk};
ghost use Rattle.pp_core.specs.Steps.{meaning};
ghost use Rattle.pp_input.specs.Joined.{joined_lines};
ghost use Rattle.pp_format_write.specs.RunTexts.{printed_header, run_text};
ghost use Rattle.pp_format_write.specs.Statable.{IsWritable, IsWritableStart};
ghost use Rattle.pp_format_write.specs.Steps.{step_bytes};
ghost use Rattle.pp_model.specs.Lists.{Each};

use crate::header::{header_line, header_line_2};
use crate::step::step_line;
use pp_core::{Catalog, OutOfMemory, Step, Text};
use pp_format_read::Start;
use pp_objects::Op;
use std::alloc::Global;

/// The line of the header: of version 1 of the format without a start, of version 2 with one.
fn printed_header(
    alloc: Global,
    catalog: &Catalog,
    start: &Option<Start>,
) -> Result<Text, OutOfMemory>
    requires { IsWritableStart catalog.now start.now }
    ensures { IfOk result (λ text. text ≡ printed_header catalog.now start.now) }
{
    match start {
        None => header_line(alloc, catalog),
        Some(start) => header_line_2(alloc, catalog, &start.tx, &start.ops),
    }
}

/// Adds the line of a step with its end.
fn add_step(
    alloc: Global,
    catalog: &Catalog,
    step: &Step<Op>,
    text: &mut Text,
) -> Result<(), OutOfMemory>
    requires { IsWritable catalog.now (meaning step.now) }
    ensures { OnOk result
        (text.new ≡ text.old ++ step_bytes catalog.now (meaning step.now) ++ 10 ∷ []) }
{
    let line = step_line(alloc, catalog, step)?;
    text.append(line.bytes())?;
    text.push(b'\n')
}

/// The text of a run of style rules over these objects without any step yet, with this start if
/// there is one: the line of its header with a byte 10 after it. The only error is out of memory.
pub fn header_text(
    alloc: Global,
    catalog: &Catalog,
    start: &Option<Start>,
) -> Result<Text, OutOfMemory>
    requires { IsWritableStart catalog.now start.now }
    ensures { IfOk result (λ text. text ≡ run_text catalog.now start.now []) }
{
    let mut text = printed_header(alloc, catalog, start)?;
    text.push(b'\n')?;
    Ok(text)
}

/// Writes further steps after the text of a run: a line for each, with a byte 10 after it. The only
/// error is out of memory, and the text is then of no more use.
pub fn add_steps(
    alloc: Global,
    catalog: &Catalog,
    steps: &[Step<Op>],
    text: &mut Text,
) -> Result<(), OutOfMemory>
    requires { Each (IsWritable catalog.now) (map meaning steps.now) }
    ensures { OnOk result (text.new
        ≡ text.old ++ joined_lines (map (step_bytes catalog.now) (map meaning steps.now))) }
{
    for step in steps {
        add_step(alloc, catalog, step, text)?;
    }
    Ok(())
}
