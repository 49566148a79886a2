//! Reading the lines of a certificate.
ghost use Rattle.std.specs.Prelude.{◌≡◌, ◌<◌, ◌≤◌, IfOk, IfSome, option_map, length};
ghost use Rattle.serde_json.specs.View.{view, items_view};
ghost use Rattle.pp_objects.specs.Objects.{objects};
ghost use Rattle.pp_format_read.specs.Headers.{catalog_of};
ghost use Rattle.pp_format_read.specs.Items.{IsReadableItem, item_of};
ghost use Rattle.pp_format_read.specs.Members.{object_of};
ghost use Rattle.pp_certificate_checker.specs.declared.line.Line.TheVariants.{Entry, Exchanges, Serial};
ghost use Rattle.pp_certificate_checker.specs.Checking.{IsReadable};
ghost use Rattle.pp_certificate_lines.specs.Found.{Finds};
ghost use Rattle.pp_certificate_lines.specs.Reading.{found, number_of, numbers_of, row_of, objects_on};
ghost use Rattle.pp_certificate_lines.specs.Reading.{line_of, later_line};

use pp_certificate_checker::Line;
use pp_certificate_exchanges::Positions;
use pp_core::{Catalog, Item, Kinds, OutOfMemory};
use pp_format_read::{RecordFault, catalog_in, id_that_is, item_in, object_on};
use pp_objects::Op;
use serde_json::Value;
use std::alloc::Global;

/// A line has at most this many positions.
const MOST_POSITIONS: usize = 1000;

/// The value that was read, or nothing if there was a fault. The only error is out of memory.
fn found<X: Drop>(read: Result<X, RecordFault>) -> Result<Option<X>, OutOfMemory>
    ensures { Finds read result }
{
    match read {
        Ok(value) => Ok(Some(value)),
        Err(RecordFault::OutOfMemory) => Err(OutOfMemory),
        Err(
            RecordFault::NotJson
            | RecordFault::NotObject
            | RecordFault::Missing(_)
            | RecordFault::WrongType(_)
            | RecordFault::OutOfRange(_)
            | RecordFault::BadName(_)
            | RecordFault::UnknownStyle
            | RecordFault::UnknownKind
            | RecordFault::RepeatedObject
            | RecordFault::TooManyObjects
            | RecordFault::TooManyStart
            | RecordFault::UnknownObject
            | RecordFault::UnknownCall
            | RecordFault::UnknownStep
            | RecordFault::BodyBad
            | RecordFault::BodyTooLarge,
        ) => Ok(None),
    }
}

/// The JSON object that the line is, or nothing if it is none.
#[tactic(auto, using(crate::proofs::Parsed::found_is))]
fn object_found(alloc: Global, line: &[u8]) -> Result<Option<Value>, OutOfMemory>
    ensures { IfOk result (λ value. option_map view value ≡ found (object_of line.now)) }
{
    found(object_on(alloc, line))
}

/// The objects that the value names, or nothing if it has another form.
#[tactic(auto, using(crate::proofs::Parsed::same_found))]
fn objects_found(alloc: Global, value: &Value) -> Result<Option<Catalog>, OutOfMemory>
    ensures { IfOk result (λ catalog. catalog ≡ found (catalog_of (view value.now))) }
{
    found(catalog_in(alloc, value))
}

/// The operation that the value is, with its id, or nothing if it is none.
#[tactic(auto, using(crate::proofs::Parsed::same_found))]
fn item_found(catalog: &Catalog, value: &Value) -> Result<Option<Item<Op>>, OutOfMemory>
    ensures item { IfOk result (λ item. item ≡ found (item_of catalog.now (view value.now))) }
    ensures readable { IfOk result (λ item. IfSome item (IsReadableItem catalog.now)) }
{
    found(item_in(catalog, value))
}

/// A whole number from 0 to 999,999,999.
#[tactic(auto, unfolding(crate::specs::Reading::number_of))]
fn number_in(value: &Value) -> Option<u32>
    ensures { result ≡ number_of (view value.now) }
{
    let n = value.as_number().and_then(|number| number.as_i128())?;
    id_that_is(n)
}

/// The objects that the first line of a certificate names, or nothing if the line has another
/// form. The only error is out of memory.
#[tactic(auto, unfolding(crate::specs::Reading::objects_on))]
pub fn read_objects(alloc: Global, line: &[u8]) -> Result<Option<Catalog>, OutOfMemory>
    ensures { IfOk result (λ catalog. catalog ≡ objects_on line.now) }
{
    let Some(value) = object_found(alloc, line)? else {
        return Ok(None);
    };
    let Some(version) = value.get("certificate") else {
        return Ok(None);
    };
    match number_in(version) {
        Some(1) => objects_found(alloc, &value),
        _ => Ok(None),
    }
}

/// These values as whole numbers from 0 to 999,999,999, or nothing if one of them is no such
/// number.
#[tactic(auto, using(crate::proofs::Parsed::walk))]
fn numbers_among(alloc: Global, values: &[Value]) -> Result<Option<Positions>, OutOfMemory>
    ensures numbers { IfOk result (λ list. list ≡ numbers_of (items_view values.now)) }
    ensures all { IfOk result (λ list. IfSome list (λ some. length some ≡ length values.now)) }
{
    let mut list = Positions::new(alloc);
    for value in values {
        match number_in(value) {
            Some(number) => list.push(number)?,
            None => return Ok(None),
        }
    }
    Ok(Some(list))
}

/// The row of 1 to 1000 positions that the value is, or nothing if it is none.
#[tactic(auto, unfolding(crate::specs::Reading::row_of), using(pp_format_read::proofs::Objects::count_view))]
fn row_in(alloc: Global, value: &Value) -> Result<Option<Positions>, OutOfMemory>
    ensures row { IfOk result (λ row. row ≡ row_of (view value.now)) }
    ensures some { IfOk result (λ row. IfSome row (λ some. 0 < length some)) }
    ensures few { IfOk result (λ row. IfSome row (λ some. length some ≤ 1000)) }
{
    match value.as_array() {
        Some(values) if 1 <= values.len() && values.len() <= MOST_POSITIONS => {
            numbers_among(alloc, values)
        }
        _ => Ok(None),
    }
}

/// What a line with this row says.
fn row_said(alloc: Global, row: &Value) -> Result<Line<Kinds, Op>, OutOfMemory>
    ensures line { IfOk result (λ line. line ≡ line_of Exchanges (row_of (view row.now))) }
    ensures readable { IfOk result (IsReadable objects) }
{
    match row_in(alloc, row)? {
        Some(positions) => Ok(Line::Exchanges(positions)),
        None => Ok(Line::Other),
    }
}

/// What a line with this serial number says.
fn serial_said(serial: &Value) -> Line<Kinds, Op>
    ensures line { result ≡ line_of Serial (number_of (view serial.now)) }
    ensures readable { IsReadable objects result }
{
    match number_in(serial) {
        Some(number) => Line::Serial(number),
        None => Line::Other,
    }
}

/// What a line says that has neither a row nor a serial number: an entry.
fn item_said(catalog: &Catalog, value: &Value) -> Result<Line<Kinds, Op>, OutOfMemory>
    ensures line { IfOk result (λ line.
        line ≡ line_of Entry (found (item_of catalog.now (view value.now)))) }
    ensures readable { IfOk result (IsReadable objects) }
{
    match item_found(catalog, value)? {
        Some(item) => Ok(Line::Entry(item)),
        None => Ok(Line::Other),
    }
}

/// Reads a line after the first one. The line is not blank, and its objects are those that the
/// first line names. The only error is out of memory.
pub fn read_line(
    alloc: Global,
    catalog: &Catalog,
    line: &[u8],
) -> Result<Line<Kinds, Op>, OutOfMemory>
    ensures line { IfOk result (λ read. read ≡ later_line catalog.now line.now) }
    ensures readable { IfOk result (IsReadable objects) }
{
    let Some(value) = object_found(alloc, line)? else {
        return Ok(Line::Other);
    };
    if let Some(row) = value.get("swaps") {
        return row_said(alloc, row);
    }
    if let Some(serial) = value.get("serial") {
        return Ok(serial_said(serial));
    }
    item_said(catalog, &value)
}
