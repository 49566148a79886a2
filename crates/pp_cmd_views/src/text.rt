//! The text of the command.
ghost use Rattle.std.specs.Prelude.{◌≡◌, ◌++◌, IfOk, OnOk};
ghost use Rattle.std.specs.List.{flat_map};
ghost use Rattle.pp_cmd_views.specs.Texts.{number_bytes, peak_bytes, too_large_text, view_line};
ghost use Rattle.pp_cmd_views.specs.Texts.{views_text};

use pp_attempts::{View, Views};
use pp_core::{OutOfMemory, Text};
use pp_report::write_first_line;
use pp_text::write_number;
use std::alloc::Global;

/// Adds a number of committed transactions, if there is one.
fn write_after(text: &mut Text, after: Option<u32>) -> Result<(), OutOfMemory>
    ensures { OnOk result (text.new ≡ text.old ++ number_bytes after) }
{
    match after {
        Some(number) => write_number(text, u64::from(number)),
        None => text.append(b"none"),
    }
}

/// Adds the transaction of a view, and how many operations its peak has.
fn write_peak(text: &mut Text, view: &View) -> Result<(), OutOfMemory>
    ensures { OnOk result (text.new ≡ text.old ++ peak_bytes view.now) }
{
    text.append(b"view ")?;
    text.append(view.tx.text())?;
    text.append(b" ops ")?;
    write_number(text, u64::from(view.ops))
}

/// Adds the line of a view.
fn write_view(text: &mut Text, view: &View) -> Result<(), OutOfMemory>
    ensures { OnOk result (text.new ≡ text.old ++ view_line view.now) }
{
    write_peak(text, view)?;
    text.append(b" after ")?;
    write_after(text, view.after)?;
    text.append(b"\n")
}

/// Adds the lines of views.
fn write_views(text: &mut Text, views: &[View]) -> Result<(), OutOfMemory>
    ensures { OnOk result (text.new ≡ text.old ++ flat_map view_line views.now) }
{
    for view in views {
        write_view(text, view)?;
    }
    Ok(())
}

/// The text of an accepted run with this many steps and committed transactions, and with these
/// views. The only error is out of memory.
pub(crate) fn views_text(
    alloc: Global,
    steps: u32,
    committed: usize,
    views: &Views,
) -> Result<Text, OutOfMemory>
    ensures { IfOk result (λ text. text ≡ views_text steps committed views.now) }
{
    let mut text = Text::new(alloc);
    write_first_line(&mut text, u64::from(steps), committed)?;
    write_views(&mut text, views.as_slice())?;
    Ok(text)
}

/// The text of an accepted run whose attempts have too many operations to look for their views.
/// The only error is out of memory.
pub(crate) fn too_large_text(alloc: Global, count: u64) -> Result<Text, OutOfMemory>
    ensures { IfOk result (λ text. text ≡ too_large_text count) }
{
    let mut text = Text::new(alloc);
    text.append(b"toolarge views ")?;
    write_number(&mut text, count)?;
    text.append(b"\n")?;
    Ok(text)
}
