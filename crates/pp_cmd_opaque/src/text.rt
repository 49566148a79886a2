//! The texts of the command.
ghost use Rattle.std.specs.Prelude.{◌≡◌, ◌++◌, IfOk, OnOk};
ghost use Rattle.std.specs.Fmt.{decimal};
ghost use Rattle.pp_text.specs.Texts.{EachNamed};
ghost use Rattle.pp_cmd_opaque.specs.Texts.{opaque_text, place_line, view_line, zombie_text};

use pp_core::{Catalog, OutOfMemory, Text};
use pp_objects::Op;
use pp_opacity::Zombie;
use pp_text::{write_number, write_op_lines};
use std::alloc::Global;

/// Adds a word, and a number after it.
fn write_counted(text: &mut Text, word: &[u8], number: usize) -> Result<(), OutOfMemory>
    ensures { OnOk result (text.new ≡ text.old ++ word.now ++ decimal number) }
{
    text.append(word)?;
    write_number(text, number as u64)
}

/// The text of an opaque run of so many steps and committed transactions. The only error is out of
/// memory.
pub(crate) fn opaque_text(
    alloc: Global,
    steps: usize,
    committed: usize,
) -> Result<Text, OutOfMemory>
    ensures { IfOk result (λ text. text ≡ opaque_text steps committed) }
{
    let mut text = Text::new(alloc);
    write_counted(&mut text, b"opaque steps ", steps)?;
    write_counted(&mut text, b" committed ", committed)?;
    text.append(b"\n")?;
    Ok(text)
}

/// The line of where a zombie is.
fn place_text(alloc: Global, step: usize, line: u32) -> Result<Text, OutOfMemory>
    ensures { IfOk result (λ text. text ≡ place_line step line) }
{
    let mut text = Text::new(alloc);
    write_counted(&mut text, b"zombie step ", step)?;
    text.append(b" line ")?;
    write_number(&mut text, u64::from(line))?;
    text.append(b"\n")?;
    Ok(text)
}

/// The line of what a zombie is.
fn view_text(alloc: Global, zombie: &Zombie<Op>) -> Result<Text, OutOfMemory>
    ensures { IfOk result (λ text. text ≡ view_line zombie.now) }
{
    let mut text = Text::new(alloc);
    text.append(b"view ")?;
    text.append(zombie.tx.text())?;
    write_counted(&mut text, b" ops ", zombie.items.len())?;
    write_counted(&mut text, b" from ", zombie.least)?;
    write_counted(&mut text, b" to ", zombie.most)?;
    text.append(b"\n")?;
    Ok(text)
}

/// The text of a run with this first zombie, which is there after a step of the record on this
/// line. The only error is out of memory.
pub(crate) fn zombie_text(
    alloc: Global,
    catalog: &Catalog,
    line: u32,
    zombie: &Zombie<Op>,
) -> Result<Text, OutOfMemory>
    requires { EachNamed catalog.now zombie.now.items }
    ensures { IfOk result (λ text. text ≡ zombie_text catalog.now line zombie.now) }
{
    let mut text = place_text(alloc, zombie.step, line)?;
    let view = view_text(alloc, zombie)?;
    text.append(view.bytes())?;
    write_op_lines(&mut text, catalog, zombie.items.as_slice())?;
    Ok(text)
}
