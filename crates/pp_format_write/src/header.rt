//! The line of a header.
ghost use Rattle.std.specs.Prelude.{◌≡◌, ◌<◌, map, length, slice_get, option_map, None, Some, Ok};
ghost use Rattle.std.specs.Prelude.{IfOk};
ghost use Rattle.serde_json.specs.View.{view};
ghost use Rattle.pp_core.specs.Catalogs.{HasNames};
ghost use Rattle.pp_core.specs.Names.{IsName};
ghost use Rattle.pp_format_write.specs.Headers.{object_value, header_value, header_bytes, item_value};
ghost use Rattle.pp_format_read.specs.Headers.{header_of};
ghost use Rattle.pp_format_write.specs.Headers.{start_value, header_value_2, header_bytes_2};
ghost use Rattle.pp_format_write.specs.Headers.{rules_header};
ghost use Rattle.pp_format_write.specs.Lines.{IsOneLine};
ghost use Rattle.pp_format_write.specs.Statable.{AreWritable, IsCatalog, IsOpOn, IsStatableStart};

use crate::call::{answer_value, call_value};
use crate::line::line_of;
use crate::name::{name_at, name_text};
use pp_core::{Catalog, Item, Items, Name, OutOfMemory, Text};
use pp_objects::Op;
use serde_json::{Value, json};
use std::alloc::Global;

fn object_value(alloc: Global, catalog: &Catalog, object: u16) -> Result<Value, OutOfMemory>
    requires { object < length catalog.now }
    ensures { IfOk result
        (λ value. option_map object_value (slice_get catalog.now object) ≡ Some (view value)) }
{
    let Some((name, kind)) = catalog.at(object) else {
        unreachable!()
    };
    Ok(json!(in alloc; {"kind": kind.word(), "name": name_text(&name)})?)
}

/// The objects of a catalog, each with its kind and its name.
#[tactic(auto, using(crate::proofs::Headers::goes_on))]
pub fn object_values(alloc: Global, catalog: &Catalog) -> Result<Vec<Value>, OutOfMemory>
    ensures values { IfOk result
        (λ values. map view values.items ≡ map object_value catalog.now) }
    ensures names { HasNames catalog.now }
    ensures over { IfOk result (λ _. IsCatalog catalog.now) }
{
    let mut values = Vec::new(alloc);
    for object in 0..catalog.len() {
        values.push(object_value(alloc, catalog, object as u16)?)?;
    }
    Ok(values)
}

fn header_value(alloc: Global, catalog: &Catalog) -> Result<Value, OutOfMemory>
    ensures value { IfOk result (λ value. view value ≡ header_value catalog.now) }
    ensures names { HasNames catalog.now }
    ensures over { IfOk result (λ _. IsCatalog catalog.now) }
{
    let objects = Value::Array(object_values(alloc, catalog)?);
    Ok(json!(in alloc; {"objects": objects, "run": 1, "style": "rules"})?)
}

/// An operation with its id, as an element of a start has it.
#[tactic(auto, using(crate::proofs::Operations::few, crate::proofs::Operations::there, crate::proofs::Operations::answer_ranged))]
pub fn item_value(alloc: Global, catalog: &Catalog, item: &Item<Op>) -> Result<Value, OutOfMemory>
    requires { IsOpOn catalog.now item.now.op }
    ensures { IfOk result (λ value. view value ≡ item_value catalog.now item.now) }
{
    let call = item.op.act.call();
    let args = call_value(alloc, item.op.act.arity(), &call)?;
    let on = name_at(catalog, item.op.object);
    Ok(json!(in alloc; {
        "args": args,
        "call": call.method.word(),
        "id": item.id,
        "on": name_text(&on),
        "result": answer_value(&item.op.act.recorded()),
    })?)
}

#[tactic(auto, using(crate::proofs::Headers::writable_at))]
fn item_values(
    alloc: Global,
    catalog: &Catalog,
    ops: &[Item<Op>],
) -> Result<Vec<Value>, OutOfMemory>
    requires { AreWritable catalog.now ops.now }
    ensures { IfOk result
        (λ values. map view values.items ≡ map (item_value catalog.now) ops.now) }
{
    let mut values = Vec::new(alloc);
    for item in ops {
        values.push(item_value(alloc, catalog, item)?)?;
    }
    Ok(values)
}

fn start_value(
    alloc: Global,
    catalog: &Catalog,
    tx: &Name,
    ops: &Items<Op>,
) -> Result<Value, OutOfMemory>
    requires { AreWritable catalog.now ops.now }
    ensures value { IfOk result (λ value. view value ≡ start_value catalog.now tx.now ops.now) }
    ensures named { IfOk result (λ _. IsName tx.now) }
{
    let items = Value::Array(item_values(alloc, catalog, ops.as_slice())?);
    Ok(json!(in alloc; {"ops": items, "tx": name_text(tx)})?)
}

fn header_value_2(
    alloc: Global,
    catalog: &Catalog,
    tx: &Name,
    ops: &Items<Op>,
) -> Result<Value, OutOfMemory>
    requires { AreWritable catalog.now ops.now }
    ensures value { IfOk result (λ value. view value ≡ header_value_2 catalog.now tx.now ops.now) }
    ensures names { HasNames catalog.now }
    ensures over { IfOk result (λ _. IsCatalog catalog.now) }
    ensures named { IfOk result (λ _. IsName tx.now) }
{
    let objects = Value::Array(object_values(alloc, catalog)?);
    let start = start_value(alloc, catalog, tx, ops)?;
    Ok(json!(in alloc; {"objects": objects, "run": 2, "start": start, "style": "rules"})?)
}

/// The line of the header of a run of style rules over these objects, in version 1 of the format,
/// without a line end. It reads back as that header. The only error is out of memory.
#[tactic(auto, using(crate::proofs::Headers::no_float, crate::proofs::Headers::one_line))]
pub fn header_line(alloc: Global, catalog: &Catalog) -> Result<Text, OutOfMemory>
    ensures text { IfOk result (λ text. text ≡ header_bytes catalog.now) }
    ensures back { IfOk result
        (λ text. header_of text ≡ Ok (rules_header catalog.now None)) }
    ensures one_line { IfOk result IsOneLine }
{
    let value = header_value(alloc, catalog)?;
    line_of(alloc, &value)
}

/// The line of the header of a run of style rules over these objects that begins with these
/// operations of this transaction, in version 2 of the format, without a line end. It reads back as
/// that header if a header may have this start. The only error is out of memory.
#[tactic(auto, using(crate::proofs::Headers::no_float_2, crate::proofs::Headers::one_line_2))]
pub fn header_line_2(
    alloc: Global,
    catalog: &Catalog,
    tx: &Name,
    ops: &Items<Op>,
) -> Result<Text, OutOfMemory>
    requires { AreWritable catalog.now ops.now }
    ensures text { IfOk result (λ text. text ≡ header_bytes_2 catalog.now tx.now ops.now) }
    ensures back { IfOk result (λ text.
        IsStatableStart catalog.now (record { tx = tx.now; ops = ops.now }) → header_of text
        ≡ Ok (rules_header catalog.now (Some (record { tx = tx.now; ops = ops.now })))) }
    ensures one_line { IfOk result IsOneLine }
{
    let value = header_value_2(alloc, catalog, tx, ops)?;
    line_of(alloc, &value)
}
