//! Patterns of calls, as they are in a body.
ghost use Rattle.std.specs.Prelude.{◌≡◌, IfOk};
ghost use Rattle.serde_json.specs.View.{view};
ghost use Rattle.pp_objects.specs.Calls.{HasMethod};
ghost use Rattle.pp_format_read.specs.Reading.{Gives};
ghost use Rattle.pp_format_read.specs.Patterns.{wanted, wanted_at, wanted_of, body_text, target_of};
ghost use Rattle.pp_format_read.specs.Patterns.{pattern_of};

use crate::call::{method_named, number_from, object_named};
use crate::fault::RecordFault;
use pp_core::{Catalog, Kind, Method, Pattern};
use pp_objects::arity;
use serde_json::Value;

/// A number, or None for any number.
#[tactic(auto, unfolding(crate::specs::Patterns::wanted))]
fn wanted_number(value: &Value) -> Result<Option<i64>, RecordFault>
    ensures { Gives (λ n. n) result (wanted (view value.now)) }
{
    if value.is_null() {
        return Ok(None);
    }
    let number = value.as_number().and_then(|number| number.as_i128());
    let n = number.ok_or(RecordFault::BodyBad)?;
    let near = number_from(n).ok_or(RecordFault::BodyBad)?;
    Ok(Some(near))
}

#[tactic(auto, unfolding(crate::specs::Patterns::wanted_at))]
fn wanted_among(list: &Value, i: usize) -> Result<Option<i64>, RecordFault>
    ensures { Gives (λ n. n) result (wanted_at i (view list.now)) }
{
    match list.get(i) {
        None => Ok(Some(0)),
        Some(value) => wanted_number(value),
    }
}

#[tactic(auto, unfolding(crate::specs::Patterns::body_text))]
fn body_text_in<'v>(value: &'v Value, key: &str) -> Result<&'v str, RecordFault>
    ensures { Gives (λ t. t.now) result (body_text key.now (view value.now)) }
{
    let found = value.get(key).and_then(Value::as_str);
    found.ok_or(RecordFault::BodyBad)
}

/// The object with its kind, and the call of that kind.
#[tactic(auto, unfolding(crate::specs::Patterns::target_of))]
fn target_in(catalog: &Catalog, value: &Value) -> Result<(u16, Kind, Method), RecordFault>
    ensures reads { Gives (λ target. target) result (target_of catalog.now (view value.now)) }
    ensures found { IfOk result (λ target. HasMethod target.1 target.2) }
{
    let on = body_text_in(value, "on")?;
    let (object, kind) = object_named(catalog, on).ok_or(RecordFault::BodyBad)?;
    let word = body_text_in(value, "call")?;
    let method = method_named(kind, word).ok_or(RecordFault::BodyBad)?;
    Ok((object, kind, method))
}

/// The array of what is wanted of the arguments, which has as many elements as the call has
/// arguments.
#[tactic(auto, unfolding(crate::specs::Patterns::wanted_of), using(crate::proofs::Objects::count_view))]
fn wanted_in<'v>(kind: Kind, method: Method, value: &'v Value) -> Result<&'v Value, RecordFault>
    requires { HasMethod kind method }
    ensures { Gives (λ v. view v.now) result (wanted_of kind method (view value.now)) }
{
    let list = value.get("args").ok_or(RecordFault::BodyBad)?;
    let values = list.as_array().ok_or(RecordFault::BodyBad)?;
    if values.len() != arity(kind, method) {
        return Err(RecordFault::BodyBad);
    }
    Ok(list)
}

/// The pattern that a value is.
#[tactic(auto, unfolding(crate::specs::Patterns::pattern_of))]
pub(crate) fn pattern_in(catalog: &Catalog, value: &Value) -> Result<Pattern, RecordFault>
    ensures { Gives (λ pattern. pattern) result (pattern_of catalog.now (view value.now)) }
{
    let (object, kind, method) = target_in(catalog, value)?;
    let list = wanted_in(kind, method, value)?;
    let first = wanted_among(list, 0)?;
    let second = wanted_among(list, 1)?;
    let third = wanted_among(list, 2)?;
    Ok(Pattern {
        object,
        method,
        first,
        second,
        third,
    })
}
