//! A judge that takes every record, and keeps the objects of ids and what the last record is about.
ghost use Rattle.std.specs.Prelude.{◌≡◌};
ghost use Rattle.pp_cmd_judge.specs.Inputs.{judge_limits};

use crate::objects::{add_record, add_start};
use crate::subject::{Subject, subject_of};
use pp_core::{IdMap, LONGEST_LINE, Ticks};
use pp_format_read::Header;
use pp_input::Limits;
use pp_input_reader::{Cause, Stop};
use pp_judge::{Judge, Judged};
use pp_objects::Op;
use pp_records::RunRecord;
use std::alloc::Global;
use std::sync::ledger::Ledger;

/// What is known of the lines of a run without a fault.
#[derive(Drop)]
pub(crate) struct Located {
    /// The line of the header.
    pub(crate) line: u32,
    /// The object of each id of the start or of an APP.
    pub(crate) objects: IdMap<u16>,
    /// What the last record is about.
    pub(crate) subject: Subject,
}

/// What rejects a run: nothing does.
#[derive(Drop)]
pub(crate) enum Never {}

/// The limits of an input that is judged.
pub(crate) fn limits() -> Limits
    ensures { result ≡ judge_limits }
{
    Limits {
        bytes: u64::MAX,
        lines: 2_147_483_647,
        line_bytes: LONGEST_LINE,
        transactions: u32::MAX,
    }
}

impl Judge for Located {
    ghost use Rattle.pp_cmd_focus.specs.Located.{located_judging};
    ghost use Rattle.pp_cmd_focus.specs.LocatedLaws.{located_laws};

    type Rejection = Never;

    ghost judging = { located_judging };

    fn limits() -> Limits {
        limits()
    }

    fn begin<L: Ledger>(
        alloc: Global,
        header: &Header,
        line: u32,
        _ticks: &mut Ticks<L>,
    ) -> Result<Judged<Located, Never>, Stop<Cause>> {
        let mut objects: IdMap<u16> = IdMap::new(alloc);
        add_start(&mut objects, &header.start)?;
        Ok(Judged::Good(Located {
            line,
            objects,
            subject: Subject::Header,
        }))
    }

    fn judge<L: Ledger>(
        self,
        alloc: Global,
        header: &Header,
        recorded: &RunRecord<Op>,
        _line: u32,
        _ticks: &mut Ticks<L>,
    ) -> Result<Judged<Located, Never>, Stop<Cause>> {
        let Located {
            line,
            mut objects,
            ..
        } = self;
        let subject = subject_of(alloc, &header.catalog, &objects, recorded)?;
        add_record(&mut objects, recorded)?;
        Ok(Judged::Good(Located {
            line,
            objects,
            subject,
        }))
    }

    ghost laws = { located_laws };
}
