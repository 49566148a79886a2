//! The report of a fault.
ghost use Rattle.std.specs.Prelude.{◌≡◌, IfOk};
ghost use Rattle.pp_input_reader.specs.FaultTexts.{fault_text};

use crate::cause::Cause;
use crate::words::write_cause;
use pp_core::{OutOfMemory, Text};
use pp_text::write_number;
use std::alloc::Global;

/// The report of an input with a fault at a line.
pub fn fault(alloc: Global, line: u32, cause: &Cause) -> Result<Text, OutOfMemory>
    ensures { IfOk result (λ text. text ≡ fault_text line cause.now) }
{
    let mut text = Text::new(alloc);
    text.append(b"fault line ")?;
    write_number(&mut text, u64::from(line))?;
    text.append(b" ")?;
    write_cause(&mut text, *cause)?;
    text.append(b"\n")?;
    Ok(text)
}
