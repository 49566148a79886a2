//! A value as a line.
ghost use Rattle.std.specs.Prelude.{◌≡◌, IfOk, false};
ghost use Rattle.serde_json.specs.View.{view};
ghost use Rattle.serde_json.specs.Written.{compact_text, has_float};

use pp_core::{OutOfMemory, Text};
use serde_json::Value;
use std::alloc::Global;

/// The value's compact text.
pub fn line_of(alloc: Global, value: &Value) -> Result<Text, OutOfMemory>
    requires { has_float (view value.now) ≡ false }
    ensures { IfOk result (λ text. text ≡ compact_text (view value.now)) }
{
    Ok(Text::from(value.to_vec(alloc)?))
}
