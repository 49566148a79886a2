//! `Checking` as a taker of the lines of an input.
use crate::checking::Checking;
use pp_certificate_checker::Refusal;
use pp_core::Ticks;
use pp_input::{Limits, Line};
use pp_input_reader::{Cause, Stop, TakesLines};
use std::alloc::Global;
use std::sync::ledger::Ledger;

/// Why an input is no certificate, or is one that is refused.
#[derive(Clone, Copy, Debug, PartialEq, Eq)]
pub enum CheckFault {
    /// The input exceeds a limit.
    Cause(Cause),
    /// A line is refused.
    Refusal(Refusal),
}

impl TakesLines for Checking {
    ghost use Rattle.pp_certificate_lines.specs.Takers.{check_reading};

    type Fault = CheckFault;

    ghost reading = { check_reading };

    fn limits() -> Limits {
        Limits::usual()
    }

    fn at_limit(cause: Cause) -> CheckFault {
        CheckFault::Cause(cause)
    }

    fn take<L: Ledger>(
        self,
        alloc: Global,
        line: &Line,
        ticks: &mut Ticks<L>,
    ) -> Result<Checking, Stop<CheckFault>> {
        match self.take_text(alloc, line.text.bytes(), ticks)? {
            Ok(checking) => Ok(checking),
            Err(why) => Err(Stop::Fault(line.number, CheckFault::Refusal(why))),
        }
    }
}
