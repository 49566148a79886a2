//! The lines of operations and of states in a report.
ghost use Rattle.std.specs.Prelude.{◌≡◌, ◌++◌, OnOk};
ghost use Rattle.std.specs.List.{flat_map};
ghost use Rattle.pp_text.specs.Lines.{op_line, state_line, state_lines};
ghost use Rattle.pp_text.specs.Texts.{IsNamed, IsObjectOf, AreStatesOf, EachNamed};

use crate::number::write_number;
use crate::op::write_op;
use crate::state::write_state;
use pp_core::{Catalog, Item, OutOfMemory, Text};
use pp_objects::{ObjectStates, Op};
use std::alloc::Global;

/// Adds the line of an operation.
fn write_op_line(text: &mut Text, catalog: &Catalog, entry: &Item<Op>) -> Result<(), OutOfMemory>
    requires { IsNamed catalog.now entry.now.op }
    ensures { OnOk result (text.new ≡ text.old ++ op_line catalog.now entry.now) }
{
    text.append(b"op ")?;
    write_number(text, u64::from(entry.id))?;
    text.append(b" ")?;
    write_op(text, catalog, &entry.op)?;
    text.append(b"\n")
}

/// Adds the `op` lines of these operations. After a refusal the text may end with a part of them.
pub fn write_op_lines(
    text: &mut Text,
    catalog: &Catalog,
    entries: &[Item<Op>],
) -> Result<(), OutOfMemory>
    requires { EachNamed catalog.now entries.now }
    ensures { OnOk result (text.new ≡ text.old ++ flat_map (op_line catalog.now) entries.now) }
{
    for entry in entries {
        write_op_line(text, catalog, entry)?;
    }
    Ok(())
}

/// Adds the line of the state of an object.
fn write_state_line(
    alloc: Global,
    text: &mut Text,
    catalog: &Catalog,
    states: &ObjectStates,
    object: u16,
) -> Result<(), OutOfMemory>
    requires { IsObjectOf catalog.now states.now object }
    ensures { OnOk result (text.new ≡ text.old ++ state_line catalog.now states.now object) }
{
    write_state(alloc, text, catalog, states, object)?;
    text.append(b"\n")
}

/// Adds the `state` lines of all objects. After a refusal the text may end with a part of them.
#[tactic(auto, using(crate::proofs::Objects::is_object))]
pub fn write_state_lines(
    alloc: Global,
    text: &mut Text,
    catalog: &Catalog,
    states: &ObjectStates,
) -> Result<(), OutOfMemory>
    requires { AreStatesOf catalog.now states.now }
    ensures { OnOk result (text.new ≡ text.old ++ state_lines catalog.now states.now) }
{
    let count = catalog.len() as u16;
    for object in 0..count {
        write_state_line(alloc, text, catalog, states, object)?;
    }
    Ok(())
}
