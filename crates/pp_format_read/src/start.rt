//! The start of a run.
ghost use Rattle.std.specs.Prelude.{[]};
ghost use Rattle.serde_json.specs.View.{view, items_view};
ghost use Rattle.pp_format_read.specs.Reading.{Gives};
ghost use Rattle.pp_format_read.specs.Starts.{element_of, elements_in, ops_of, optional_start, start_from};
ghost use Rattle.pp_format_read.specs.Starts.{with_element};

use crate::fault::RecordFault;
use crate::item::item_in;
use crate::members::{array_in, name_in};
use pp_core::{Catalog, Item, Items, MOST_START, Member, Name};
use pp_objects::Op;
use serde_json::Value;
use std::alloc::Global;

/// The operations that are committed before the first step of a run, and the name of the
/// transaction to which they belong.
#[derive(Drop)]
pub struct Start {
    pub tx: Name,
    pub ops: Items<Op>,
}

#[tactic(auto, unfolding(crate::specs::Starts::element_of))]
fn element_in(catalog: &Catalog, value: &Value) -> Result<Item<Op>, RecordFault>
    ensures { Gives (λ p. p) result (element_of catalog.now (view value.now)) }
{
    if !value.is_object() {
        return Err(RecordFault::WrongType(Member::Ops));
    }
    item_in(catalog, value)
}

#[tactic(auto, unfolding(crate::specs::Starts::with_element))]
fn with_element(
    catalog: &Catalog,
    mut items: Items<Op>,
    value: &Value,
) -> Result<Items<Op>, RecordFault>
    ensures { Gives (λ l. l) result (with_element catalog.now items (view value.now)) }
{
    let item = element_in(catalog, value)?;
    items.push(item)?;
    Ok(items)
}

#[tactic(auto, using(crate::proofs::Starts::walk))]
fn elements_among(
    alloc: Global,
    catalog: &Catalog,
    values: &[Value],
) -> Result<Items<Op>, RecordFault>
    ensures { Gives (λ l. l) result (elements_in catalog.now [] (items_view values.now)) }
{
    let mut items = Items::new(alloc);
    for value in values {
        items = with_element(catalog, items, value)?;
    }
    Ok(items)
}

#[tactic(auto, unfolding(crate::specs::Starts::ops_of), using(crate::proofs::Objects::count_view))]
fn ops_in(alloc: Global, catalog: &Catalog, value: &Value) -> Result<Items<Op>, RecordFault>
    ensures { Gives (λ l. l) result (ops_of catalog.now (view value.now)) }
{
    let values = array_in(value, Member::Ops)?;
    if values.len() > MOST_START {
        return Err(RecordFault::TooManyStart);
    }
    elements_among(alloc, catalog, values)
}

#[tactic(auto, unfolding(crate::specs::Starts::start_from))]
fn start_from(alloc: Global, catalog: &Catalog, value: &Value) -> Result<Start, RecordFault>
    ensures { Gives (λ s. s) result (start_from catalog.now (view value.now)) }
{
    if !value.is_object() {
        return Err(RecordFault::WrongType(Member::Start));
    }
    let tx = name_in(value, Member::Tx)?;
    let ops = ops_in(alloc, catalog, value)?;
    Ok(Start { tx, ops })
}

/// The start of a header of version 2, if it has one.
#[tactic(auto, unfolding(crate::specs::Starts::optional_start))]
pub(crate) fn optional_start(
    alloc: Global,
    catalog: &Catalog,
    value: &Value,
) -> Result<Option<Start>, RecordFault>
    ensures { Gives (λ s. s) result (optional_start catalog.now (view value.now)) }
{
    match value.get(Member::Start.word()) {
        None => Ok(None),
        Some(start) => {
            if start.is_null() {
                Ok(None)
            } else {
                Ok(Some(start_from(alloc, catalog, start)?))
            }
        }
    }
}
