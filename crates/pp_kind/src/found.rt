//! The results of calls that find a number or nothing.
ghost use Rattle.std.specs.Prelude.{◌≡◌};
ghost use Rattle.pp_kind.specs.Found.{answer_of, is_ranged_found};

use crate::range::in_range;
use pp_core::Answer;

/// The result of a call that found this.
pub fn answer_of(found: Option<i64>) -> Answer
    ensures { result ≡ answer_of found }
{
    match found {
        None => Answer::None,
        Some(value) => Answer::Number(i128::from(value)),
    }
}

/// Whether what was found, if anything was, may be in a record.
pub fn is_ranged_found(found: Option<i64>) -> bool
    ensures { result ≡ is_ranged_found found }
{
    match found {
        None => true,
        Some(value) => in_range(value),
    }
}
