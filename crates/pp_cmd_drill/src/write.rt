//! The text of the run.
ghost use Rattle.std.specs.Prelude.{◌≡◌, ◌≤◌, IfOk};
ghost use Rattle.pp_cmd_drill.specs.Text.{drill_text};

use crate::objects::drill_catalog;
use crate::pairs::drill_steps;
use pp_core::{OutOfMemory, Text};
use pp_format_write::{add_steps, header_text};
use std::alloc::Global;

/// The text of the run of n transactions, as an input. The only error is out of memory.
#[tactic(auto, using(crate::proofs::Writing::whole))]
pub fn drill_run(alloc: Global, n: u32) -> Result<Text, OutOfMemory>
    requires { n ≤ 20_000 }
    ensures { IfOk result (λ text. text ≡ drill_text n) }
{
    let catalog = drill_catalog(alloc)?;
    let steps = drill_steps(alloc, n)?;
    let mut text = header_text(alloc, &catalog, &None)?;
    add_steps(alloc, &catalog, &steps, &mut text)?;
    Ok(text)
}
