//! The calls of objects, with their arguments and results.
ghost use Rattle.std.specs.Prelude.{◌≡◌, IsTrue, IfOk, IfSome, Some};
ghost use Rattle.serde_json.specs.View.{view};
ghost use Rattle.pp_kind.specs.Numbers.{in_range, has_ranged_arguments, is_ranged_answer};
ghost use Rattle.pp_objects.specs.Objects.{objects, kinds_of};
ghost use Rattle.pp_objects.specs.Calls.{HasMethod, method_named, has_form, op_made, IsCallOf};
ghost use Rattle.pp_objects.specs.Calls.{IsOpOf};
ghost use Rattle.pp_format_read.specs.Reading.{Gives};
ghost use Rattle.pp_format_read.specs.Calls.{number_from, number_of, object_named, object_called, IsThere};
ghost use Rattle.pp_format_read.specs.Calls.{method_of};
ghost use Rattle.pp_format_read.specs.Calls.{argument, arguments_of, call_of, number_answer};
ghost use Rattle.pp_format_read.specs.Calls.{IsRangedNumber, answer_in, op_of};

use crate::fault::RecordFault;
use crate::members::{member_in, name_with, text_in, whole_number};
use pp_core::{Answer, Call, Catalog, Kind, Member, Method};
use pp_kind::in_range;
use pp_objects::{Form, Op, answer_form, arity, make_op, method_of};
use serde_json::Value;

/// The number, if a record may have it.
#[tactic(auto, unfolding(crate::specs::Calls::number_from))]
pub(crate) fn number_from(n: i128) -> Option<i64>
    ensures value { result ≡ number_from n }
    ensures ranged { IfSome result (λ number. IsTrue (in_range number)) }
{
    match i64::try_from(n) {
        Ok(number) if in_range(number) => Some(number),
        _ => None,
    }
}

#[tactic(auto, unfolding(crate::specs::Calls::number_of))]
fn number_that_is(value: &Value, member: Member) -> Result<i64, RecordFault>
    ensures reads { Gives (λ n. n) result (number_of member (view value.now)) }
    ensures ranged { IfOk result (λ n. IsTrue (in_range n)) }
{
    let n = whole_number(value, member)?;
    number_from(n).ok_or(RecordFault::OutOfRange(member))
}

/// The place and the kind of the object that a text names.
#[tactic(auto, unfolding(crate::specs::Calls::object_named))]
pub(crate) fn object_named(catalog: &Catalog, text: &str) -> Option<(u16, Kind)>
    ensures value { result ≡ object_named catalog.now text.now }
    ensures there { IfSome result (IsThere catalog.now) }
{
    let name = name_with(text)?;
    let place = catalog.place(&name)?;
    let (_, kind) = catalog.at(place)?;
    Some((place, kind))
}

/// The place and the kind of the object that a record names.
#[tactic(auto, unfolding(crate::specs::Calls::object_called))]
pub(crate) fn object_in(catalog: &Catalog, value: &Value) -> Result<(u16, Kind), RecordFault>
    ensures reads { Gives (λ object. object) result (object_called catalog.now (view value.now)) }
    ensures there { IfOk result (IsThere catalog.now) }
{
    let on = text_in(value, Member::On)?;
    object_named(catalog, on).ok_or(RecordFault::UnknownObject)
}

/// The method that a kind's objects have under this word.
pub(crate) fn method_named(kind: Kind, word: &str) -> Option<Method>
    ensures value { result ≡ method_named kind word.now }
    ensures found { IfSome result (HasMethod kind) }
{
    method_of(kind, word.as_bytes())
}

#[tactic(auto, unfolding(crate::specs::Calls::method_of))]
fn method_in(kind: Kind, value: &Value) -> Result<Method, RecordFault>
    ensures reads { Gives (λ m. m) result (method_of kind (view value.now)) }
    ensures found { IfOk result (HasMethod kind) }
{
    let word = text_in(value, Member::Call)?;
    method_named(kind, word).ok_or(RecordFault::UnknownCall)
}

#[tactic(auto, unfolding(crate::specs::Calls::argument))]
fn argument_among(list: &Value, i: usize) -> Result<i64, RecordFault>
    ensures reads { Gives (λ n. n) result (argument i (view list.now)) }
    ensures ranged { IfOk result (λ n. IsTrue (in_range n)) }
{
    match list.get(i) {
        None => Ok(0),
        Some(value) => number_that_is(value, Member::Args),
    }
}

/// The array of the arguments, which has as many elements as the call has arguments.
#[tactic(auto, unfolding(crate::specs::Calls::arguments_of), using(crate::proofs::Objects::count_view))]
fn arguments_in<'v>(kind: Kind, method: Method, value: &'v Value) -> Result<&'v Value, RecordFault>
    requires { HasMethod kind method }
    ensures { Gives (λ v. view v.now) result (arguments_of kind method (view value.now)) }
{
    let list = member_in(value, Member::Args)?;
    let values = list.as_array().ok_or(RecordFault::WrongType(Member::Args))?;
    if values.len() != arity(kind, method) {
        return Err(RecordFault::WrongType(Member::Args));
    }
    Ok(list)
}

/// The call on the object of this kind at a place, with its arguments.
#[tactic(auto, unfolding(crate::specs::Calls::call_of), using(crate::proofs::Calls::all_ranged))]
fn call_in(object: u16, kind: Kind, value: &Value) -> Result<Call, RecordFault>
    ensures reads { Gives (λ call. call) result (call_of object kind (view value.now)) }
    ensures place { IfOk result (λ call. call.object ≡ object) }
    ensures method { IfOk result (λ call. HasMethod kind call.method) }
    ensures ranged { IfOk result (λ call. IsTrue (has_ranged_arguments call)) }
{
    let method = method_in(kind, value)?;
    let list = arguments_in(kind, method, value)?;
    let first = argument_among(list, 0)?;
    let second = argument_among(list, 1)?;
    let third = argument_among(list, 2)?;
    Ok(Call {
        object,
        method,
        first,
        second,
        third,
    })
}

#[tactic(auto, unfolding(crate::specs::Calls::number_answer))]
fn number_answer(value: &Value) -> Result<Answer, RecordFault>
    ensures reads { Gives (λ answer. answer) result (number_answer (view value.now)) }
    ensures formed { IfOk result IsRangedNumber }
{
    let n = number_that_is(value, Member::Answer)?;
    Ok(Answer::Number(i128::from(n)))
}

#[tactic(auto, unfolding(crate::specs::Calls::answer_in))]
fn answer_in(form: Form, value: &Value) -> Result<Answer, RecordFault>
    ensures reads { Gives (λ answer. answer) result (answer_in form (view value.now)) }
    ensures formed { IfOk result (λ answer. IsTrue (has_form form answer)) }
    ensures ranged { IfOk result (λ answer. IsTrue (is_ranged_answer answer)) }
{
    let wrong_type = RecordFault::WrongType(Member::Answer);
    match form {
        Form::Nothing if value.is_null() => Ok(Answer::None),
        Form::Nothing => Err(wrong_type),
        Form::Number => number_answer(value),
        Form::Truth => match value.as_bool() {
            Some(truth) => Ok(Answer::Truth(truth)),
            None => Err(wrong_type),
        },
        Form::Found if value.is_null() => Ok(Answer::None),
        Form::Found => number_answer(value),
    }
}

/// The operation of a call, which the kind of its object has, with a result of the form of the
/// call.
fn op_with(kind: Kind, call: &Call, answer: &Answer) -> Op
    requires { IsCallOf kind call.now answer.now }
    ensures made { op_made kind call.now answer.now ≡ Some result }
    ensures call { IsOpOf kind call.now answer.now result }
{
    let Some(op) = make_op(kind, call, answer) else {
        unreachable!()
    };
    op
}

/// The operation of a record, which is a call of an object of the catalog.
#[tactic(auto, unfolding(crate::specs::Calls::op_of), using(crate::proofs::Calls::fits_there, crate::proofs::Calls::is_call))]
pub(crate) fn op_in(catalog: &Catalog, value: &Value) -> Result<Op, RecordFault>
    ensures reads { Gives (λ op. op) result (op_of catalog.now (view value.now)) }
    ensures fits { IfOk result (λ op. IsTrue (objects.fits (kinds_of catalog.now) op)) }
    ensures ranged { IfOk result (λ op. IsTrue (objects.ranged op)) }
{
    let (object, kind) = object_in(catalog, value)?;
    let call = call_in(object, kind, value)?;
    let result = member_in(value, Member::Answer)?;
    let answer = answer_in(answer_form(kind, call.method), result)?;
    Ok(op_with(kind, &call, &answer))
}
