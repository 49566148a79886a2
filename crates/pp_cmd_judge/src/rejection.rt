//! The rejection of a start.
ghost use Rattle.std.specs.Prelude.{◌≡◌, ◌≤◌, ◌+◌, [], IfOk};
ghost use Rattle.pp_format_read.specs.Starts.{IsReadableStart};
ghost use Rattle.pp_model.specs.Rules.{StartMeets};
ghost use Rattle.pp_judge.specs.Costs.{start_length};
ghost use Rattle.pp_judge.specs.Objects.{object_of, start_of};
ghost use Rattle.pp_judge.specs.Tallies.{headed};
ghost use Rattle.pp_cmd_judge.specs.Rejections.{IsRejectedBehind};

use pp_core::{OutOfMemory, Rule, Ticks};
use pp_format_read::Header;
use pp_judge::{Rejection, start_machine};
use pp_machine::Outcome;
use std::alloc::Global;
use std::sync::ledger::Ledger;

/// The rejection of a start that violates a criterion.
pub(crate) fn reject_start<L: Ledger>(
    alloc: Global,
    header: &Header,
    line: u32,
    ticks: &mut Ticks<L>,
) -> Result<Rejection, OutOfMemory>
    requires readable { IsReadableStart header.now.catalog header.now.start }
    requires bad { StartMeets (object_of header.now) (start_of header.now) → ⊥ }
    ensures line { IfOk result (λ r. r.line ≡ line) }
    ensures rejected { IfOk result (IsRejectedBehind (headed line header.now) []) }
    ensures rises { ticks.old ≤ ticks.new }
    ensures bound { ticks.new ≤ ticks.old + start_length (start_of header.now) }
{
    let (_machine, outcome) = start_machine(alloc, header, ticks)?;
    match outcome {
        Outcome::Done => unreachable!(),
        Outcome::False { criterion, detail } => Ok(Rejection {
            step: 0,
            line,
            rule: Rule::Start,
            criterion,
            detail,
        }),
    }
}
