//! A line's value and its members.
ghost use Rattle.std.specs.Prelude.{◌≡◌};
ghost use Rattle.serde_json.specs.View.{view, items_view};
ghost use Rattle.pp_format_read.specs.Reading.{Gives};
ghost use Rattle.pp_format_read.specs.Members.{value_of, object_of, member_of, text_of, name_from};
ghost use Rattle.pp_format_read.specs.Members.{name_of};
ghost use Rattle.pp_format_read.specs.Members.{whole, whole_of, array_of};

use crate::fault::RecordFault;
use pp_core::{Member, Name};
use serde_json::Value;
use std::alloc::Global;

#[tactic(auto, using(crate::proofs::Values::value_is, crate::proofs::Values::no_value))]
fn value_on(alloc: Global, line: &[u8]) -> Result<Value, RecordFault>
    ensures { Gives view result (value_of line.now) }
{
    match Value::from_slice(alloc, line) {
        Ok(value) => Ok(value),
        Err(error) => {
            if error.is_memory() {
                Err(RecordFault::OutOfMemory)
            } else {
                Err(RecordFault::NotJson)
            }
        }
    }
}

/// The value on a line, which is to be an object.
#[tactic(auto, unfolding(crate::specs::Members::object_of))]
pub fn object_on(alloc: Global, line: &[u8]) -> Result<Value, RecordFault>
    ensures { Gives view result (object_of line.now) }
{
    let value = value_on(alloc, line)?;
    if !value.is_object() {
        return Err(RecordFault::NotObject);
    }
    Ok(value)
}

/// A member, of any type.
#[tactic(auto, unfolding(crate::specs::Members::member_of))]
pub fn member_in<'v>(value: &'v Value, member: Member) -> Result<&'v Value, RecordFault>
    ensures { Gives (λ v. view v.now) result (member_of member (view value.now)) }
{
    value.get(member.word()).ok_or(RecordFault::Missing(member))
}

/// A member that is to be a text.
#[tactic(auto, unfolding(crate::specs::Members::text_of))]
pub(crate) fn text_in<'v>(value: &'v Value, member: Member) -> Result<&'v str, RecordFault>
    ensures { Gives (λ t. t.now) result (text_of member (view value.now)) }
{
    let found = member_in(value, member)?;
    found.as_str().ok_or(RecordFault::WrongType(member))
}

/// The name with this text, if it is one.
pub(crate) fn name_with(text: &str) -> Option<Name>
    ensures { result ≡ name_from text.now }
{
    Name::read(text.as_bytes())
}

/// A member that is to be a name.
#[tactic(auto, unfolding(crate::specs::Members::name_of))]
pub(crate) fn name_in(value: &Value, member: Member) -> Result<Name, RecordFault>
    ensures { Gives (λ n. n) result (name_of member (view value.now)) }
{
    let text = text_in(value, member)?;
    name_with(text).ok_or(RecordFault::BadName(member))
}

/// A value that is to be a whole number.
#[tactic(auto, unfolding(crate::specs::Members::whole))]
pub fn whole_number(value: &Value, member: Member) -> Result<i128, RecordFault>
    ensures { Gives (λ n. n) result (whole member (view value.now)) }
{
    let number = value.as_number().and_then(|number| number.as_i128());
    number.ok_or(RecordFault::WrongType(member))
}

/// A member that is to be a whole number.
#[tactic(auto, unfolding(crate::specs::Members::whole_of))]
pub fn whole_in(value: &Value, member: Member) -> Result<i128, RecordFault>
    ensures { Gives (λ n. n) result (whole_of member (view value.now)) }
{
    let found = member_in(value, member)?;
    whole_number(found, member)
}

/// A member that is to be an array.
#[tactic(auto, unfolding(crate::specs::Members::array_of))]
pub fn array_in<'v>(value: &'v Value, member: Member) -> Result<&'v Vec<Value>, RecordFault>
    ensures { Gives (λ v. items_view v.now.items) result (array_of member (view value.now)) }
{
    let found = member_in(value, member)?;
    found.as_array().ok_or(RecordFault::WrongType(member))
}
