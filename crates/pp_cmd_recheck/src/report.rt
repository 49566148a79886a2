//! The status and the report of a checked input.
ghost use Rattle.std.specs.Prelude.{IfOk};
ghost use Rattle.pp_cmd_recheck.specs.CheckedInputs.{CanReport, IsCheckedInputTold};

use crate::check_input::CheckedInput;
use crate::holds::holds;
use crate::refused::refused;
use pp_certificate_lines::CheckFault;
use pp_core::{OutOfMemory, Status, Text};
use pp_input_reader::fault;
use std::alloc::Global;

/// The status and the report of a checked input. The only error is out of memory.
pub(crate) fn report(alloc: Global, input: &CheckedInput) -> Result<(Status, Text), OutOfMemory>
    requires { CanReport input.now }
    ensures { IfOk result (λ r. IsCheckedInputTold input.now r.0 r.1) }
{
    match input {
        CheckedInput::Fault(line, CheckFault::Cause(cause)) => {
            let text = fault(alloc, *line, cause)?;
            Ok((Status::InputFault, text))
        }
        CheckedInput::Fault(line, CheckFault::Refusal(why)) => {
            let answer = refused(alloc, *line, why)?;
            Ok(answer)
        }
        CheckedInput::Shows(catalog, shown) => {
            let text = holds(alloc, catalog, shown)?;
            Ok((Status::Accepted, text))
        }
    }
}
