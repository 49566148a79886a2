//! The line of a header that keeps one object.
ghost use Rattle.std.specs.Prelude.{◌≡◌, ◌<◌, map, length, Some, IfOk};
ghost use Rattle.serde_json.specs.View.{view};
ghost use Rattle.pp_core.specs.Catalogs.{HasNames};
ghost use Rattle.pp_core.specs.Names.{IsName};
ghost use Rattle.pp_format_write.specs.Headers.{item_value, objects_value, start_value};
ghost use Rattle.pp_format_write.specs.Statable.{AreWritable, IsWritableStart};
ghost use Rattle.pp_cmd_focus.specs.Headers.{HasNamedStart, header_bytes, header_value, items_on};
ghost use Rattle.pp_cmd_focus.specs.Headers.{object_at, plain_value, started_value};

use pp_core::{Catalog, Item, Name, OutOfMemory, Style, Text};
use pp_format_read::{Header, Start};
use pp_format_write::{item_value, line_of, object_values};
use pp_objects::Op;
use serde_json::{Value, json};
use std::alloc::Global;

/// The object at a place, alone.
fn object_at(alloc: Global, catalog: &Catalog, place: u16) -> Result<Catalog, OutOfMemory>
    ensures { IfOk result (λ alone. alone ≡ object_at place catalog.now) }
{
    let mut alone = Catalog::new(alloc);
    if let Some((name, kind)) = catalog.at(place) {
        let _added = alone.add(name, kind)?;
    }
    Ok(alone)
}

/// The operations of a start that are on an object.
#[tactic(auto, using(pp_format_write::proofs::Headers::writable_at))]
fn item_values(
    alloc: Global,
    catalog: &Catalog,
    place: u16,
    ops: &[Item<Op>],
) -> Result<Vec<Value>, OutOfMemory>
    requires { AreWritable catalog.now ops.now }
    ensures { IfOk result
        (λ values. map view values.items ≡ map (item_value catalog.now) (items_on place ops.now)) }
{
    let mut values = Vec::new(alloc);
    for item in ops {
        if item.op.object == place {
            values.push(item_value(alloc, catalog, item)?)?;
        }
    }
    Ok(values)
}

/// The text of a name, which is ASCII.
#[tactic(auto, using(pp_format_write::proofs::Words::name_utf8))]
fn name_text(name: &Name) -> &str
    ensures text { result.now ≡ name.now }
    ensures named { IsName name.now }
{
    match std::str::from_utf8(name.text()) {
        Ok(text) => text,
        Err(_) => unreachable!(),
    }
}

/// A start with the operations on an object alone.
fn start_value(
    alloc: Global,
    catalog: &Catalog,
    place: u16,
    start: &Start,
) -> Result<Value, OutOfMemory>
    requires { AreWritable catalog.now start.now.ops }
    ensures value { IfOk result (λ value.
        view value ≡ start_value catalog.now start.now.tx (items_on place start.now.ops)) }
    ensures named { IfOk result (λ _. IsName start.now.tx) }
{
    let items = item_values(alloc, catalog, place, start.ops.as_slice())?;
    let items = Value::Array(items);
    Ok(json!(in alloc; {"ops": items, "tx": name_text(&start.tx)})?)
}

/// The object at a place alone, as the line of a header has it.
fn objects_alone(alloc: Global, catalog: &Catalog, place: u16) -> Result<Value, OutOfMemory>
    ensures value { IfOk result (λ value.
        view value ≡ objects_value (object_at place catalog.now)) }
    ensures named { IfOk result (λ _. HasNames (object_at place catalog.now)) }
{
    let alone = object_at(alloc, catalog, place)?;
    Ok(Value::Array(object_values(alloc, &alone)?))
}

/// The value of the line of a header without a start.
fn plain_value(alloc: Global, objects: Value, style: Style) -> Result<Value, OutOfMemory>
    ensures { IfOk result (λ value. view value ≡ plain_value (view objects) style) }
{
    Ok(json!(in alloc; {"objects": objects, "run": 1, "style": style.word()})?)
}

/// The value of the line of a header with a start.
fn started_value(
    alloc: Global,
    objects: Value,
    start: Value,
    style: Style,
) -> Result<Value, OutOfMemory>
    ensures { IfOk result
        (λ value. view value ≡ started_value (view objects) (view start) style) }
{
    Ok(json!(in alloc; {
        "objects": objects,
        "run": 2,
        "start": start,
        "style": style.word(),
    })?)
}

/// The value of the line of a header.
fn header_value(alloc: Global, header: &Header, place: u16) -> Result<Value, OutOfMemory>
    requires { IsWritableStart header.now.catalog header.now.start }
    ensures value { IfOk result (λ value.
        view value ≡ header_value place header.now header.now.start) }
    ensures alone { IfOk result (λ _. HasNames (object_at place header.now.catalog)) }
    ensures named { IfOk result (λ _. HasNamedStart header.now.start) }
{
    let objects = objects_alone(alloc, &header.catalog, place)?;
    match &header.start {
        None => plain_value(alloc, objects, header.style),
        Some(start) => {
            let start = start_value(alloc, &header.catalog, place, start)?;
            started_value(alloc, objects, start, header.style)
        }
    }
}

/// The line of a header that keeps the object at a place alone, and of the start the operations on
/// it, without a line end. The only error is out of memory.
#[tactic(auto, using(crate::proofs::Tidy::no_float))]
pub(crate) fn header_line(alloc: Global, header: &Header, place: u16) -> Result<Text, OutOfMemory>
    requires { IsWritableStart header.now.catalog header.now.start }
    ensures { IfOk result (λ text. text ≡ header_bytes place header.now) }
{
    // (its objects have names)
    let _ = header.catalog.len();
    let value = header_value(alloc, header, place)?;
    line_of(alloc, &value)
}
