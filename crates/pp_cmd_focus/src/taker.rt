//! Taking the lines of an input, and writing their restriction.
use crate::line::write_line;
use crate::located::{Located, Never, limits};
use pp_core::{Name, Text, Ticks};
use pp_input::{Limits, Line};
use pp_input_reader::{Cause, Stop, TakesLines};
use pp_judge::Progress;
use std::alloc::Global;
use std::sync::ledger::Ledger;

/// The restriction of the lines so far to the object of this name.
#[derive(Drop)]
pub(crate) struct Focus {
    pub(crate) name: Name,
    pub(crate) progress: Progress<Located, Never>,
    pub(crate) text: Text,
}

impl TakesLines for Focus {
    ghost use Rattle.pp_cmd_focus.specs.Taking.{focus_reading};

    type Fault = Cause;

    ghost reading = { focus_reading };

    ghost given = { λ focus. focus.name };

    fn limits() -> Limits {
        limits()
    }

    fn at_limit(cause: Cause) -> Cause {
        cause
    }

    fn take<L: Ledger>(
        self,
        alloc: Global,
        line: &Line,
        ticks: &mut Ticks<L>,
    ) -> Result<Focus, Stop<Cause>> {
        let Focus {
            name,
            progress,
            mut text,
        } = self;
        let progress = progress.take(alloc, line, ticks)?;
        write_line(alloc, &name, &progress, line.text.bytes(), &mut text)?;
        Ok(Focus {
            name,
            progress,
            text,
        })
    }
}
