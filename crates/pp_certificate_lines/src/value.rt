//! Positions of exchanges, as elements of a line.
ghost use Rattle.std.specs.Prelude.{◌≡◌, map, IfOk};
ghost use Rattle.serde_json.specs.View.{view};
ghost use Rattle.pp_certificate_lines.specs.Lines.{position_value};

use pp_core::OutOfMemory;
use serde_json::Value;
use std::alloc::Global;

/// These positions as JSON numbers.
pub(crate) fn position_values(alloc: Global, list: &[u32]) -> Result<Vec<Value>, OutOfMemory>
    ensures { IfOk result (λ values. map view values.items ≡ map position_value list.now) }
{
    let mut values = Vec::new(alloc);
    for position in list {
        values.push(Value::from(*position))?;
    }
    Ok(values)
}
