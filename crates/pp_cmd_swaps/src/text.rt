//! The text of a certificate, and the text that replaces one that would be too large.
ghost use Rattle.std.specs.Prelude.{◌≡◌, [], ◌∷◌, ◌++◌, map, OnOk, IfOk};
ghost use Rattle.std.specs.List.{flat_map};
ghost use Rattle.pp_input.specs.Joined.{joined_lines};
ghost use Rattle.pp_format_write.specs.Statable.{AreWritable, IsOpOn};
ghost use Rattle.pp_objects.specs.Objects.{kinds_of};
ghost use Rattle.pp_certificate_checker.specs.Laws.{certificate, rows};
ghost use Rattle.pp_certificate_lines.specs.Lines.{line_bytes, row_bytes};
ghost use Rattle.pp_cmd_swaps.specs.Swaps.{too_large_text};
ghost use Rattle.pp_cmd_swaps.specs.Texts.{entry_line};

use pp_certificate_lines::{entry_line, head_line, row_line, serial_line};
use pp_core::{Catalog, Item, OutOfMemory, Text};
use pp_objects::Op;
use pp_text::write_number;
use std::alloc::Global;

/// How many positions each row but the last has.
const ROW: usize = 1000;

/// Adds a line with its end.
fn add_line(text: &mut Text, line: &Text) -> Result<(), OutOfMemory>
    ensures { OnOk result (text.new ≡ text.old ++ joined_lines (line.now ∷ [])) }
{
    text.append(line.bytes())?;
    text.push(b'\n')
}

/// Adds the line of an entry with its end.
fn add_entry(
    alloc: Global,
    catalog: &Catalog,
    item: &Item<Op>,
    text: &mut Text,
) -> Result<(), OutOfMemory>
    requires { IsOpOn catalog.now item.now.op }
    ensures { OnOk result (text.new ≡ text.old ++ entry_line catalog.now item.now) }
{
    let line = entry_line(alloc, catalog, item)?;
    add_line(text, &line)
}

/// Adds the lines of entries.
#[tactic(auto, using(pp_format_write::proofs::Headers::writable_at))]
fn add_entries(
    alloc: Global,
    catalog: &Catalog,
    log: &[Item<Op>],
    text: &mut Text,
) -> Result<(), OutOfMemory>
    requires { AreWritable catalog.now log.now }
    ensures { OnOk result (text.new ≡ text.old ++ flat_map (entry_line catalog.now) log.now) }
{
    for item in log {
        add_entry(alloc, catalog, item, text)?;
    }
    Ok(())
}

/// Adds the line of a row of positions with its end.
fn add_row(alloc: Global, positions: &[u32], text: &mut Text) -> Result<(), OutOfMemory>
    ensures { OnOk result (text.new ≡ text.old ++ joined_lines (row_bytes positions.now ∷ [])) }
{
    let line = row_line(alloc, positions)?;
    add_line(text, &line)
}

/// Adds the lines of positions, in rows.
fn add_rows(alloc: Global, positions: &[u32], text: &mut Text) -> Result<(), OutOfMemory>
    ensures { OnOk result (text.new
        ≡ text.old ++ joined_lines (map row_bytes (rows positions.now))) }
{
    let mut at = 0;
    'rows: while positions.len() - at > ROW {
        add_row(alloc, &positions[at..at + ROW], text)?;
        at += ROW;
    }
    if at == positions.len() {
        return Ok(());
    }
    add_row(alloc, &positions[at..], text)?;
    Ok(())
}

/// The text of a certificate: the objects of the catalog, the entries of a log, the positions of
/// the exchanges, and how many of the entries are then the serial run. The only error is out of
/// memory.
pub(crate) fn certificate_text(
    alloc: Global,
    catalog: &Catalog,
    log: &[Item<Op>],
    positions: &[u32],
    serial: u32,
) -> Result<Text, OutOfMemory>
    requires { AreWritable catalog.now log.now }
    ensures { IfOk result (λ text. text ≡ joined_lines
        (certificate (line_bytes catalog.now) (kinds_of catalog.now) log.now positions.now
        serial)) }
{
    let mut text = Text::new(alloc);
    let head = head_line(alloc, catalog)?;
    add_line(&mut text, &head)?;
    add_entries(alloc, catalog, log, &mut text)?;
    add_rows(alloc, positions, &mut text)?;
    let last = serial_line(alloc, serial)?;
    add_line(&mut text, &last)?;
    Ok(text)
}

/// The text that replaces a certificate with this many exchanges. The only error is out of memory.
pub(crate) fn too_large_text(alloc: Global, count: u64) -> Result<Text, OutOfMemory>
    ensures { IfOk result (λ text. text ≡ too_large_text count) }
{
    let mut text = Text::new(alloc);
    text.append(b"toolarge swaps ")?;
    write_number(&mut text, count)?;
    text.append(b"\n")?;
    Ok(text)
}
