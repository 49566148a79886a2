//! The evidence of a rejected run.
ghost use Rattle.std.specs.Prelude.{◌≡◌, ◌++◌, OnOk};
ghost use Rattle.pp_model.specs.Lists.{Each};
ghost use Rattle.pp_text.specs.Texts.{IsNamed};
ghost use Rattle.pp_text.specs.Lines.{line};
ghost use Rattle.pp_report.specs.Reports.{IsDetailNamed, detail_text, entry_bytes, ops_bytes};
ghost use Rattle.pp_report.specs.Reports.{ops_line, spaced_bytes};

use pp_core::{Catalog, OutOfMemory, Text};
use pp_machine::Detail;
use pp_objects::Op;
use pp_text::{write_answer, write_number, write_op};

/// Adds an operation after a space.
fn write_spaced(text: &mut Text, catalog: &Catalog, op: &Op) -> Result<(), OutOfMemory>
    requires { IsNamed catalog.now op.now }
    ensures { OnOk result (text.new ≡ text.old ++ spaced_bytes catalog.now op.now) }
{
    text.append(b" ")?;
    write_op(text, catalog, op)
}

/// Adds operations, each after a space.
fn write_ops(text: &mut Text, catalog: &Catalog, ops: &[Op]) -> Result<(), OutOfMemory>
    requires { Each (IsNamed catalog.now) ops.now }
    ensures { OnOk result (text.new ≡ text.old ++ ops_bytes catalog.now ops.now) }
{
    for op in ops {
        write_spaced(text, catalog, op)?;
    }
    Ok(())
}

/// Adds a line of operations after a word.
fn write_ops_line(
    text: &mut Text,
    catalog: &Catalog,
    word: &[u8],
    ops: &[Op],
) -> Result<(), OutOfMemory>
    requires { Each (IsNamed catalog.now) ops.now }
    ensures { OnOk result (text.new ≡ text.old ++ ops_line catalog.now word.now ops.now) }
{
    text.append(word)?;
    write_ops(text, catalog, ops)?;
    text.append(b"\n")
}

/// Adds the entry that the evidence is of.
fn write_entry(text: &mut Text, id: u32) -> Result<(), OutOfMemory>
    ensures { OnOk result (text.new ≡ text.old ++ entry_bytes id) }
{
    text.append(b"entry ")?;
    write_number(text, u64::from(id))
}

/// Adds the line of the entry that the evidence is of.
fn write_entry_line(text: &mut Text, id: u32) -> Result<(), OutOfMemory>
    ensures { OnOk result (text.new ≡ text.old ++ line (entry_bytes id)) }
{
    write_entry(text, id)?;
    text.append(b"\n")
}

/// Adds the lines of the evidence. After a refusal the text may end with a part of them.
pub(crate) fn write_detail(
    text: &mut Text,
    catalog: &Catalog,
    detail: &Detail<Op>,
) -> Result<(), OutOfMemory>
    requires { IsDetailNamed catalog.now detail.now }
    ensures { OnOk result (text.new ≡ text.old ++ detail_text catalog.now detail.now) }
{
    match detail {
        Detail::Nothing => Ok(()),
        Detail::Entry { id } => write_entry_line(text, *id),
        Detail::Gives { id, answer } => {
            write_entry(text, *id)?;
            text.append(b" gives ")?;
            write_answer(text, answer)?;
            text.append(b"\n")
        }
        Detail::Swap { id, context } => {
            let context = context.get();
            write_entry_line(text, *id)?;
            write_ops_line(text, catalog, b"before", context.before.as_slice())?;
            write_ops_line(text, catalog, b"after", context.after.as_slice())
        }
    }
}
