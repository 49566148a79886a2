//! The lines of a certificate, without a line end. The only error of each function is out of
//! memory.
ghost use Rattle.std.specs.Prelude.{◌≡◌, IfOk};
ghost use Rattle.serde_json.specs.View.{view};
ghost use Rattle.pp_core.specs.Catalogs.{HasNames};
ghost use Rattle.pp_format_write.specs.Lines.{IsOneLine};
ghost use Rattle.pp_format_write.specs.Statable.{IsOpOn};
ghost use Rattle.pp_certificate_lines.specs.Lines.{head_value, row_value, serial_value};
ghost use Rattle.pp_certificate_lines.specs.Lines.{head_bytes, entry_bytes, row_bytes, serial_bytes};

use crate::value::position_values;
use pp_core::{Catalog, Item, OutOfMemory, Text};
use pp_format_write::{item_value, line_of, object_values};
use pp_objects::Op;
use serde_json::{Value, json};
use std::alloc::Global;

fn head_value(alloc: Global, catalog: &Catalog) -> Result<Value, OutOfMemory>
    ensures value { IfOk result (λ value. view value ≡ head_value catalog.now) }
    ensures names { HasNames catalog.now }
{
    let objects = Value::Array(object_values(alloc, catalog)?);
    Ok(json!(in alloc; {"certificate": 1, "objects": objects})?)
}

fn row_value(alloc: Global, positions: &[u32]) -> Result<Value, OutOfMemory>
    ensures { IfOk result (λ value. view value ≡ row_value positions.now) }
{
    let positions = Value::Array(position_values(alloc, positions)?);
    Ok(json!(in alloc; {"swaps": positions})?)
}

fn serial_value(alloc: Global, serial: u32) -> Result<Value, OutOfMemory>
    ensures { IfOk result (λ value. view value ≡ serial_value serial) }
{
    Ok(json!(in alloc; {"serial": serial})?)
}

/// The first line, which names the objects.
#[tactic(auto, using(crate::proofs::Tidy::head_no_float, crate::proofs::Tidy::head_one_line))]
pub fn head_line(alloc: Global, catalog: &Catalog) -> Result<Text, OutOfMemory>
    ensures text { IfOk result (λ text. text ≡ head_bytes catalog.now) }
    ensures one_line { IfOk result IsOneLine }
{
    let value = head_value(alloc, catalog)?;
    line_of(alloc, &value)
}

/// The line of an entry.
#[tactic(auto, using(crate::proofs::Tidy::entry_no_float, crate::proofs::Tidy::entry_one_line))]
pub fn entry_line(alloc: Global, catalog: &Catalog, item: &Item<Op>) -> Result<Text, OutOfMemory>
    requires { IsOpOn catalog.now item.now.op }
    ensures text { IfOk result (λ text. text ≡ entry_bytes catalog.now item.now) }
    ensures one_line { IfOk result IsOneLine }
{
    // `len` is called for its clauses, which are true of each catalog.
    let _named = catalog.len();
    let value = item_value(alloc, catalog, item)?;
    line_of(alloc, &value)
}

/// The line of a row of exchanges.
#[tactic(auto, using(crate::proofs::Tidy::row_no_float, crate::proofs::Tidy::row_one_line))]
pub fn row_line(alloc: Global, positions: &[u32]) -> Result<Text, OutOfMemory>
    ensures text { IfOk result (λ text. text ≡ row_bytes positions.now) }
    ensures one_line { IfOk result IsOneLine }
{
    let value = row_value(alloc, positions)?;
    line_of(alloc, &value)
}

/// The line of the serial number.
#[tactic(auto, using(crate::proofs::Tidy::serial_no_float, crate::proofs::Tidy::serial_one_line))]
pub fn serial_line(alloc: Global, serial: u32) -> Result<Text, OutOfMemory>
    ensures text { IfOk result (λ text. text ≡ serial_bytes serial) }
    ensures one_line { IfOk result IsOneLine }
{
    let value = serial_value(alloc, serial)?;
    line_of(alloc, &value)
}
