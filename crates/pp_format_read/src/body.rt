//! Bodies of transactions.
ghost use Rattle.std.specs.Prelude.{◌≡◌, map, option_map, IfOk};
ghost use Rattle.serde_json.specs.View.{view};
ghost use Rattle.pp_core.specs.Trees.{IsWithin, IsWithinLimits, tree};
ghost use Rattle.pp_format_read.specs.Reading.{Gives};
ghost use Rattle.pp_format_read.specs.Bodies.{forms, present, leaf_of, as_seq, as_alt, as_star, body_of};
ghost use Rattle.pp_format_read.specs.Bodies.{bodies_of, small_body_of, body_of_begin};

use crate::fault::RecordFault;
use crate::pattern::pattern_in;
use pp_core::{Body, Catalog, Parts};
use serde_json::Value;
use std::alloc::Global;

fn count_member(value: &Value, key: &str) -> usize
    ensures { result ≡ present key.now (view value.now) }
{
    if value.get(key).is_some() { 1 } else { 0 }
}

#[tactic(auto, unfolding(crate::specs::Bodies::forms))]
fn count_forms(value: &Value) -> usize
    ensures { result ≡ forms (view value.now) }
{
    count_member(value, "seq")
        + count_member(value, "alt")
        + count_member(value, "star")
        + count_member(value, "skip")
        + count_member(value, "on")
}

#[tactic(auto, unfolding(crate::specs::Bodies::leaf_of))]
fn leaf_in(catalog: &Catalog, value: &Value) -> Result<Body, RecordFault>
    ensures { Gives tree result (leaf_of catalog.now (view value.now)) }
{
    match value.get("skip") {
        Some(skip) => match skip.as_bool() {
            Some(true) => Ok(Body::Skip),
            _ => Err(RecordFault::BodyBad),
        },
        None => Ok(Body::Step(pattern_in(catalog, value)?)),
    }
}

#[cycle(body)]
#[tactic(auto, using(crate::proofs::Parts::body_is, crate::proofs::Parts::get_falls))]
fn body_in(alloc: Global, catalog: &Catalog, value: &Value) -> Result<Body, RecordFault>
    ensures { Gives tree result (body_of catalog.now (view value.now)) }
{
    if count_forms(value) != 1 {
        return Err(RecordFault::BodyBad);
    }
    if let Some(parts) = value.get("seq") {
        return seq_in(alloc, catalog, parts);
    }
    if let Some(parts) = value.get("alt") {
        return alt_in(alloc, catalog, parts);
    }
    if let Some(inner) = value.get("star") {
        return star_in(alloc, catalog, inner);
    }
    leaf_in(catalog, value)
}

#[cycle(body)]
fn seq_in(alloc: Global, catalog: &Catalog, value: &Value) -> Result<Body, RecordFault>
    ensures { Gives tree result (as_seq (bodies_of catalog.now (view value.now))) }
{
    let parts = parts_in(alloc, catalog, value)?;
    Ok(Body::Seq(parts))
}

#[cycle(body)]
fn alt_in(alloc: Global, catalog: &Catalog, value: &Value) -> Result<Body, RecordFault>
    ensures { Gives tree result (as_alt (bodies_of catalog.now (view value.now))) }
{
    let parts = parts_in(alloc, catalog, value)?;
    if parts.len() == 0 {
        return Err(RecordFault::BodyBad);
    }
    Ok(Body::Alt(parts))
}

#[cycle(body)]
fn star_in(alloc: Global, catalog: &Catalog, value: &Value) -> Result<Body, RecordFault>
    ensures { Gives tree result (as_star (body_of catalog.now (view value.now))) }
{
    let inner = body_in(alloc, catalog, value)?;
    Ok(Body::Star(Box::new(alloc, inner)?))
}

#[cycle(body)]
#[tactic(auto, using(crate::proofs::Parts::not_array, crate::proofs::Parts::item_falls, crate::proofs::Parts::begins, crate::proofs::Parts::goes_on, crate::proofs::Parts::stops, crate::proofs::Parts::ends))]
fn parts_in(alloc: Global, catalog: &Catalog, value: &Value) -> Result<Parts<Body>, RecordFault>
    ensures { Gives (λ p. map tree p) result
        (bodies_of catalog.now (view value.now)) }
{
    let values = value.as_array().ok_or(RecordFault::BodyBad)?;
    let mut parts = Parts::new(alloc);
    for item in values {
        let part = body_in(alloc, catalog, item)?;
        parts.push(part)?;
    }
    Ok(parts)
}

/// The body that a value is, if it is not too large.
#[tactic(auto, unfolding(crate::specs::Bodies::small_body_of))]
fn small_body_in(alloc: Global, catalog: &Catalog, value: &Value) -> Result<Body, RecordFault>
    ensures reads { Gives tree result (small_body_of catalog.now (view value.now)) }
    ensures within { IfOk result (λ b. IsWithin (tree b)) }
{
    let body = body_in(alloc, catalog, value)?;
    if !body.within() {
        return Err(RecordFault::BodyTooLarge);
    }
    Ok(body)
}

/// The body of a begin record, or None if it has none.
#[tactic(auto, unfolding(crate::specs::Bodies::body_of_begin))]
pub(crate) fn begin_body(
    alloc: Global,
    catalog: &Catalog,
    begin: &Value,
) -> Result<Option<Body>, RecordFault>
    ensures reads { Gives (option_map tree) result (body_of_begin catalog.now (view begin.now)) }
    ensures within { IfOk result (λ b. IsWithinLimits (option_map tree b)) }
{
    match begin.get("body") {
        None => Ok(None),
        Some(value) => {
            if value.is_null() {
                Ok(None)
            } else {
                Ok(Some(small_body_in(alloc, catalog, value)?))
            }
        }
    }
}
