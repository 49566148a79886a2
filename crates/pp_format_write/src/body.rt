//! Bodies as members of a line.
ghost use Rattle.std.specs.Prelude.{◌≡◌, ◌≤◌, map, IfOk};
ghost use Rattle.serde_json.specs.Data.{object};
ghost use Rattle.serde_json.specs.View.{view};
ghost use Rattle.pp_core.specs.Trees.{tree, trees_of};
ghost use Rattle.pp_format_write.specs.Bodies.{pattern_arity, pattern_members, seq_value, alt_value};
ghost use Rattle.pp_format_write.specs.Bodies.{body_value};
ghost use Rattle.pp_format_write.specs.Statable.{IsKnown, EachCall, EachCallIn};

use crate::call::arguments_value;
use crate::name::{name_at, name_text};
use pp_core::{Body, Catalog, OutOfMemory, Pattern};
use pp_objects::arity;
use serde_json::{Value, json};
use std::alloc::Global;

/// How many arguments the calls of a pattern have.
#[tactic(auto, using(crate::proofs::Parts::arity_is, crate::proofs::Parts::known_there, crate::proofs::Operations::arguments_few))]
fn pattern_arity(catalog: &Catalog, pattern: &Pattern) -> usize
    requires { IsKnown catalog.now pattern.now }
    ensures arity { result ≡ pattern_arity catalog.now pattern.now }
    ensures few { result ≤ 3 }
{
    let Some((_, kind)) = catalog.at(pattern.object) else {
        unreachable!()
    };
    arity(kind, pattern.method)
}

#[tactic(auto, using(crate::proofs::Parts::known_below))]
fn pattern_value(alloc: Global, catalog: &Catalog, pattern: &Pattern) -> Result<Value, OutOfMemory>
    requires { IsKnown catalog.now pattern.now }
    ensures { IfOk result (λ value. view value ≡ object (pattern_members catalog.now pattern.now)) }
{
    let wanted = [pattern.first, pattern.second, pattern.third];
    let args = arguments_value(alloc, pattern_arity(catalog, pattern), wanted)?;
    let on = name_at(catalog, pattern.object);
    Ok(json!(in alloc; {
        "args": args,
        "call": pattern.method.word(),
        "on": name_text(&on),
    })?)
}

fn seq_value(alloc: Global, values: Vec<Value>) -> Result<Value, OutOfMemory>
    ensures { IfOk result (λ value. view value ≡ seq_value (map view values.items)) }
{
    Ok(json!(in alloc; {"seq": Value::Array(values)})?)
}

fn alt_value(alloc: Global, values: Vec<Value>) -> Result<Value, OutOfMemory>
    ensures { IfOk result (λ value. view value ≡ alt_value (map view values.items)) }
{
    Ok(json!(in alloc; {"alt": Value::Array(values)})?)
}

#[cycle(body)]
fn value_of(alloc: Global, catalog: &Catalog, body: &Body) -> Result<Value, OutOfMemory>
    requires { EachCall (IsKnown catalog.now) (tree body.now) }
    ensures { IfOk result (λ value. view value ≡ body_value catalog.now (tree body.now)) }
{
    match body {
        Body::Skip => Ok(json!(in alloc; {"skip": true})?),
        Body::Step(pattern) => pattern_value(alloc, catalog, pattern),
        Body::Seq(parts) => {
            let values = values_of(alloc, catalog, parts.as_slice())?;
            seq_value(alloc, values)
        }
        Body::Alt(parts) => {
            let values = values_of(alloc, catalog, parts.as_slice())?;
            alt_value(alloc, values)
        }
        Body::Star(inner) => {
            let value = value_of(alloc, catalog, inner)?;
            Ok(json!(in alloc; {"star": value})?)
        }
    }
}

#[cycle(body)]
fn values_of(alloc: Global, catalog: &Catalog, parts: &[Body]) -> Result<Vec<Value>, OutOfMemory>
    requires { EachCallIn (IsKnown catalog.now) (trees_of parts.now) }
    ensures { IfOk result
        (λ values. map view values.items ≡ map (λ b. body_value catalog.now (tree b)) parts.now) }
{
    let mut values = Vec::new(alloc);
    for part in parts {
        values.push(value_of(alloc, catalog, part)?)?;
    }
    Ok(values)
}

/// A body, an object with one of its five forms.
pub(crate) fn body_value(
    alloc: Global,
    catalog: &Catalog,
    body: &Body,
) -> Result<Value, OutOfMemory>
    requires { EachCall (IsKnown catalog.now) (tree body.now) }
    ensures { IfOk result (λ value. view value ≡ body_value catalog.now (tree body.now)) }
{
    value_of(alloc, catalog, body)
}
