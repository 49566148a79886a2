//! An operation with its id.
ghost use Rattle.std.specs.Prelude.{◌≡◌, ◌≤◌, IfOk, IfSome};
ghost use Rattle.serde_json.specs.View.{view};
ghost use Rattle.pp_format_read.specs.Reading.{Gives};
ghost use Rattle.pp_format_read.specs.Items.{id_from, id_of, item_of, IsReadableItem};

use crate::call::op_in;
use crate::fault::RecordFault;
use crate::members::whole_in;
use pp_core::{Catalog, Item, Member};
use pp_objects::Op;
use serde_json::Value;

/// The id that a number is, if it is one.
#[tactic(auto, unfolding(crate::specs::Items::id_from))]
pub fn id_that_is(n: i128) -> Option<u32>
    ensures id { result ≡ id_from n }
    ensures small { IfSome result (λ id. id ≤ 999_999_999) }
{
    if 0 <= n && n <= 999_999_999 {
        Some(n as u32)
    } else {
        None
    }
}

/// The id of a record.
#[tactic(auto, unfolding(crate::specs::Items::id_of))]
pub(crate) fn id_in(value: &Value) -> Result<u32, RecordFault>
    ensures reads { Gives (λ n. n) result (id_of (view value.now)) }
    ensures small { IfOk result (λ id. id ≤ 999_999_999) }
{
    let n = whole_in(value, Member::Id)?;
    id_that_is(n).ok_or(RecordFault::OutOfRange(Member::Id))
}

/// The operation of a record or of an element of a start, with its id.
#[tactic(auto, unfolding(crate::specs::Items::item_of))]
pub fn item_in(catalog: &Catalog, value: &Value) -> Result<Item<Op>, RecordFault>
    ensures reads { Gives (λ p. p) result (item_of catalog.now (view value.now)) }
    ensures readable { IfOk result (IsReadableItem catalog.now) }
{
    let id = id_in(value)?;
    let op = op_in(catalog, value)?;
    Ok(Item { id, op })
}
