//! Calls that a pattern matches.
ghost use Rattle.std.specs.Prelude.{◌≡◌};
ghost use Rattle.pp_body.specs.Patterns.{matches, is_allowed};

use pp_core::{Call, Pattern};

fn allows(given: Option<i64>, number: i64) -> bool
    ensures { result ≡ is_allowed given number }
{
    match given {
        None => true,
        Some(wanted) => wanted == number,
    }
}

/// Whether the pattern matches the call.
pub(crate) fn matches(pattern: &Pattern, call: &Call) -> bool
    ensures { result ≡ matches pattern.now call.now }
{
    pattern.object == call.object
        && pattern.method == call.method
        && allows(pattern.first, call.first)
        && allows(pattern.second, call.second)
        && allows(pattern.third, call.third)
}
