//! The report of a certificate that is accepted.
ghost use Rattle.std.specs.Prelude.{◌≡◌, ◌++◌, IfOk, OnOk};
ghost use Rattle.std.specs.Fmt.{decimal};
ghost use Rattle.pp_certificate_lines.specs.Checkings.{IsShownOf};
ghost use Rattle.pp_certificate_lines.specs.Rechecked.{holds_line, holds_text};

use pp_certificate_checker::Shown;
use pp_core::{Catalog, Kinds, OutOfMemory, Text};
use pp_objects::{ObjectStates, Op};
use pp_text::{write_number, write_op_lines, write_state_lines};
use std::alloc::Global;

/// Adds a word and a number.
fn write_count(text: &mut Text, word: &[u8], count: u64) -> Result<(), OutOfMemory>
    ensures { OnOk result (text.new ≡ text.old ++ word.now ++ decimal count) }
{
    text.append(word)?;
    write_number(text, count)
}

/// The first line of the report of a certificate that is accepted.
fn first_line(
    alloc: Global,
    operations: u32,
    swaps: u32,
    serial: usize,
) -> Result<Text, OutOfMemory>
    ensures { IfOk result (λ text. text ≡ holds_line operations swaps serial) }
{
    let mut text = Text::new(alloc);
    write_count(&mut text, b"holds operations ", u64::from(operations))?;
    write_count(&mut text, b" swaps ", u64::from(swaps))?;
    write_count(&mut text, b" serial ", serial as u64)?;
    text.append(b"\n")?;
    Ok(text)
}

/// The report of a certificate that is accepted. The only error is out of memory.
pub(crate) fn holds(
    alloc: Global,
    catalog: &Catalog,
    shown: &Shown<Kinds, ObjectStates, Op>,
) -> Result<Text, OutOfMemory>
    requires { IsShownOf catalog.now shown.now }
    ensures { IfOk result (λ text. text ≡ holds_text catalog.now shown.now) }
{
    let serial = shown.serial.as_slice();
    let mut text = first_line(alloc, shown.operations, shown.swaps, serial.len())?;
    write_op_lines(&mut text, catalog, serial)?;
    write_state_lines(alloc, &mut text, catalog, &shown.state)?;
    Ok(text)
}
