//! The report of an accepted run, and the writers of its parts.
ghost use Rattle.std.specs.Prelude.{◌≡◌, ◌++◌, IfOk, OnOk};
ghost use Rattle.pp_text.specs.Texts.{AreStatesOf, EachNamed};
ghost use Rattle.pp_report.specs.Reports.{accepted_line, accepted_text, tx_lines};
ghost use Rattle.pp_report.specs.Reports.{all_tx_lines, AreNamed};

use pp_core::{Catalog, Committed, CommittedTx, OutOfMemory, Text};
use pp_objects::{ObjectStates, Op};
use pp_text::{write_number, write_op_lines, write_state_lines};
use std::alloc::Global;

/// Adds the first line of an accepted run. After a refusal the text may end with a part of it.
pub fn write_first_line(text: &mut Text, steps: u64, committed: usize) -> Result<(), OutOfMemory>
    ensures { OnOk result (text.new ≡ text.old ++ accepted_line steps committed) }
{
    text.append(b"accepted steps ")?;
    write_number(text, steps)?;
    text.append(b" committed ")?;
    write_number(text, committed as u64)?;
    text.append(b"\n")
}

/// Adds the lines of a committed transaction.
fn write_transaction(
    text: &mut Text,
    catalog: &Catalog,
    transaction: &CommittedTx<Op>,
) -> Result<(), OutOfMemory>
    requires { EachNamed catalog.now transaction.now.entries }
    ensures { OnOk result (text.new ≡ text.old ++ tx_lines catalog.now transaction.now) }
{
    text.append(b"tx ")?;
    text.append(transaction.name.text())?;
    text.append(b"\n")?;
    write_op_lines(text, catalog, transaction.entries.as_slice())
}

/// Adds the `tx` and `op` lines of committed transactions. After a refusal the text may end with a
/// part of them.
pub fn write_transactions(
    text: &mut Text,
    catalog: &Catalog,
    committed: &[CommittedTx<Op>],
) -> Result<(), OutOfMemory>
    requires { AreNamed catalog.now committed.now }
    ensures { OnOk result (text.new ≡ text.old ++ all_tx_lines catalog.now committed.now) }
{
    for transaction in committed {
        write_transaction(text, catalog, transaction)?;
    }
    Ok(())
}

/// The report of an accepted run of this many steps, with the states of the objects after its
/// committed operations. The only error is out of memory.
pub fn accepted(
    alloc: Global,
    catalog: &Catalog,
    count: u64,
    committed: &Committed<Op>,
    states: &ObjectStates,
) -> Result<Text, OutOfMemory>
    requires named { AreNamed catalog.now committed.now }
    requires states { AreStatesOf catalog.now states.now }
    ensures { IfOk result (λ text.
        text ≡ accepted_text catalog.now count committed.now states.now) }
{
    let mut text = Text::new(alloc);
    write_first_line(&mut text, count, committed.len())?;
    write_transactions(&mut text, catalog, committed.as_slice())?;
    write_state_lines(alloc, &mut text, catalog, states)?;
    Ok(text)
}
