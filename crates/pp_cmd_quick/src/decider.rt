//! The summary of a boosted run, as a judge of its records.
ghost use Rattle.std.specs.Prelude.{◌≡◌, ◌≤◌, ◌+◌, IfOk};
ghost use Rattle.pp_format_read.specs.Starts.{IsReadableStart};
ghost use Rattle.pp_judge.specs.Costs.{start_length};
ghost use Rattle.pp_judge.specs.Objects.{start_of};
ghost use Rattle.pp_cmd_quick.specs.Decisions.{is_boosted};
ghost use Rattle.pp_cmd_quick.specs.Taking.{StartsQuick};

use pp_core::{OutOfMemory, Style, Ticks};
use pp_format_read::Header;
use pp_input::Limits;
use pp_input_reader::{Cause, Stop};
use pp_judge::{Judge, Judged};
use pp_objects::{Objects, Op};
use pp_records::RunRecord;
use pp_summary::Quick;
use std::alloc::Global;
use std::sync::ledger::Ledger;

/// A summary that takes the records of a boosted run one by one, without their steps.
#[derive(Drop)]
pub(crate) struct Decider {
    pub(crate) quick: Quick<Objects>,
}

/// The line of the start or the record that is not good.
#[derive(Drop)]
pub(crate) struct RejectedLine {
    pub(crate) line: u32,
}

/// Whether a style is that of boosted runs.
fn is_boosted(style: Style) -> bool
    ensures { result ≡ is_boosted style }
{
    match style {
        Style::Boosted => true,
        Style::Rules | Style::Optimistic | Style::Hardware | Style::Dependent => false,
    }
}

/// Makes a summary with the start of a header, if the header has one. It returns false if the
/// start fails.
pub fn start_quick<L: Ledger>(
    alloc: Global,
    header: &Header,
    ticks: &mut Ticks<L>,
) -> Result<(Quick<Objects>, bool), OutOfMemory>
    requires { IsReadableStart header.now.catalog header.now.start }
    ensures starts { IfOk result (λ r. StartsQuick header.now r.1 r.0) }
    ensures rises { ticks.old ≤ ticks.new }
    ensures bound { ticks.new ≤ ticks.old + start_length (start_of header.now) }
{
    let kinds = header.catalog.kinds(alloc)?;
    let quick: Quick<Objects> = Quick::new(alloc, kinds)?;
    match &header.start {
        None => Ok((quick, true)),
        Some(start) => quick.start(start.tx, &start.ops, ticks),
    }
}

impl Judge for Decider {
    ghost use Rattle.pp_cmd_quick.specs.Taking.{quick_judging};
    ghost use Rattle.pp_cmd_quick.specs.DeciderLaws.{quick_laws};

    type Rejection = RejectedLine;

    ghost judging = { quick_judging };

    fn limits() -> Limits {
        Limits::usual()
    }

    fn begin<L: Ledger>(
        alloc: Global,
        header: &Header,
        line: u32,
        ticks: &mut Ticks<L>,
    ) -> Result<Judged<Decider, RejectedLine>, Stop<Cause>> {
        if !is_boosted(header.style) {
            return Err(Stop::Fault(line, Cause::NotBoosted));
        }
        let (quick, good) = start_quick(alloc, header, ticks)?;
        if good {
            Ok(Judged::Good(Decider { quick }))
        } else {
            Ok(Judged::Rejected(RejectedLine { line }))
        }
    }

    fn judge<L: Ledger>(
        self,
        _alloc: Global,
        _header: &Header,
        recorded: &RunRecord<Op>,
        line: u32,
        ticks: &mut Ticks<L>,
    ) -> Result<Judged<Decider, RejectedLine>, Stop<Cause>> {
        let Decider { quick } = self;
        let (quick, good) = quick.take(recorded, ticks)?;
        if good {
            Ok(Judged::Good(Decider { quick }))
        } else {
            Ok(Judged::Rejected(RejectedLine { line }))
        }
    }

    ghost laws = { quick_laws };
}
