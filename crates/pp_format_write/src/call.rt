//! Calls and their results, as members of a line.
ghost use Rattle.std.specs.Prelude.{◌≡◌, ◌≤◌, [], ◌∷◌, length, map, take, IsTrue, Some, IfOk};
ghost use Rattle.serde_json.specs.Data.{array};
ghost use Rattle.serde_json.specs.View.{view, items_of};
ghost use Rattle.pp_kind.specs.Numbers.{is_ranged_answer};
ghost use Rattle.pp_format_write.specs.Operations.{number_or_null, arguments_value, call_value};
ghost use Rattle.pp_format_write.specs.Operations.{answer_value};

use pp_core::{Answer, Call, OutOfMemory};
use serde_json::{Number, Value};
use std::alloc::Global;

fn wanted_value(number: Option<i64>) -> Value
    ensures { view result ≡ number_or_null number }
{
    match number {
        None => Value::Null,
        Some(number) => Value::from(number),
    }
}

fn wanted_values(alloc: Global, numbers: &[Option<i64>]) -> Result<Vec<Value>, OutOfMemory>
    ensures { IfOk result
        (λ values. map view values.items ≡ map number_or_null numbers.now) }
{
    let mut values = Vec::new(alloc);
    for number in numbers {
        values.push(wanted_value(*number))?;
    }
    Ok(values)
}

/// The array of the arguments that a call has, out of three.
pub(crate) fn arguments_value(
    alloc: Global,
    arity: usize,
    numbers: [Option<i64>; 3],
) -> Result<Value, OutOfMemory>
    requires { arity ≤ 3 }
    ensures { IfOk result
        (λ value. view value ≡ array (items_of (map number_or_null (take arity numbers)))) }
{
    Ok(Value::Array(wanted_values(alloc, &numbers[..arity])?))
}

/// The array of a call's arguments.
pub(crate) fn call_value(alloc: Global, arity: usize, call: &Call) -> Result<Value, OutOfMemory>
    requires { arity ≤ 3 }
    ensures { IfOk result (λ value. view value ≡ call_value arity call.now) }
{
    arguments_value(
        alloc,
        arity,
        [Some(call.first), Some(call.second), Some(call.third)],
    )
}

/// A result.
pub(crate) fn answer_value(answer: &Answer) -> Value
    requires { IsTrue (is_ranged_answer answer.now) }
    ensures { view result ≡ answer_value answer.now }
{
    match *answer {
        Answer::None => Value::Null,
        Answer::Number(number) => Value::from(number as i64),
        Answer::Truth(truth) => Value::from(truth),
    }
}
