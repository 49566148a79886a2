//! Operations as text.
ghost use Rattle.std.specs.Prelude.{◌≡◌, ◌<◌, ◌++◌, codes, length, IfOk, OnOk};
ghost use Rattle.std.specs.Fmt.{signed_decimal};
ghost use Rattle.pp_text.specs.Texts.{IsNamed, name_at, more_bytes, arguments_bytes, call_bytes};
ghost use Rattle.pp_text.specs.Texts.{op_bytes};

use crate::answer::write_answer;
use crate::number::write_signed_number;
use pp_core::{Catalog, Name, OutOfMemory, Text};
use pp_objects::{Act, Op};
use std::alloc::Global;

/// The name of an object of the catalog.
pub(crate) fn name_at(catalog: &Catalog, object: u16) -> Name
    requires { object < length catalog.now }
    ensures { result ≡ name_at catalog.now object }
{
    match catalog.at(object) {
        Some((name, _)) => name,
        None => unreachable!(),
    }
}

/// Adds numbers, each after a comma.
fn write_more(text: &mut Text, numbers: &[i64]) -> Result<(), OutOfMemory>
    ensures { OnOk result (text.new ≡ text.old ++ more_bytes numbers.now) }
{
    for number in numbers {
        write_next(text, *number)?;
    }
    Ok(())
}

/// Adds a number after a comma.
fn write_next(text: &mut Text, number: i64) -> Result<(), OutOfMemory>
    ensures { OnOk result (text.new ≡ text.old ++ codes "," ++ signed_decimal number) }
{
    text.append(b",")?;
    write_signed_number(text, number)
}

/// Adds numbers, separated by commas.
fn write_arguments(text: &mut Text, numbers: &[i64]) -> Result<(), OutOfMemory>
    ensures { OnOk result (text.new ≡ text.old ++ arguments_bytes numbers.now) }
{
    match numbers {
        [] => Ok(()),
        [first, others @ ..] => {
            write_signed_number(text, *first)?;
            write_more(text, others)
        }
    }
}

/// Adds the call of an operation with its arguments.
#[tactic(auto, using(crate::proofs::Arguments::few))]
fn write_call(text: &mut Text, act: &Act) -> Result<(), OutOfMemory>
    ensures { OnOk result (text.new ≡ text.old ++ call_bytes act.now) }
{
    let call = act.call();
    text.append(call.method.word().as_bytes())?;
    text.append(b"(")?;
    write_arguments(text, &call.arguments()[..act.arity()])?;
    text.append(b")")
}

/// Adds an operation. After a refusal the text may end with a part of it.
pub fn write_op(text: &mut Text, catalog: &Catalog, op: &Op) -> Result<(), OutOfMemory>
    requires { IsNamed catalog.now op.now }
    ensures { OnOk result (text.new ≡ text.old ++ op_bytes catalog.now op.now) }
{
    let name = name_at(catalog, op.object);
    text.append(name.text())?;
    text.append(b".")?;
    write_call(text, &op.act)?;
    text.append(b"=")?;
    write_answer(text, &op.act.recorded())
}

/// An operation with its result, as `c.fetch_add(2)=5`. The only error is out of memory.
pub fn op_text(alloc: Global, catalog: &Catalog, op: &Op) -> Result<Text, OutOfMemory>
    requires { IsNamed catalog.now op.now }
    ensures { IfOk result (λ text. text ≡ op_bytes catalog.now op.now) }
{
    let mut text = Text::new(alloc);
    write_op(&mut text, catalog, op)?;
    Ok(text)
}
