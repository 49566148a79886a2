//! The command: the status of an input, and the run of rule steps that it means.
ghost use Rattle.std.specs.Prelude.{◌≡◌, ◌≤◌, ℕ, List, Some, IfOk, IsErrOf, ◌⊎◌};
ghost use Rattle.std.specs.Io.KnownBytes.{IsAtEnd};
ghost use Rattle.pp_core.specs.declared.status.Status.TheVariants as statuses;
ghost use Rattle.pp_input.specs.Faults.{HasRisen};
ghost use Rattle.pp_input_reader.specs.declared.stop.Failure.TheVariants.{ReadFault};
ghost use Rattle.pp_input_reader.specs.Sources.{WhereTold};
ghost use Rattle.pp_judge.specs.Certified.{IsDecided};
ghost use Rattle.pp_judge.specs.Costs.{StepsCostAtLeast, StepsCostAtMost};
ghost use Rattle.pp_judge.specs.Inputs.{ReadsNoFault, scan};
ghost use Rattle.pp_judge.specs.Rejected.{IsEvident};
ghost use Rattle.pp_judge.specs.Reports.{IsExpanded};

use pp_core::{OutOfMemory, Status, Step, Text, Ticks};
use pp_format_read::Header;
use pp_format_write::{add_steps, header_text};
use pp_input::Source;
use pp_input_reader::{Failure, fault};
use pp_judge::{Driven, Finding, Observer, examine};
use pp_objects::Op;
use std::alloc::Global;
use std::sync::ledger::Ledger;

/// The text of the steps that were seen, as a run of style rules.
#[derive(Drop)]
pub(crate) struct RunText {
    text: Text,
}

impl Observer for RunText {
    ghost use Rattle.pp_cmd_expand.specs.Written.{HasWritten};

    ghost HasSeen = { HasWritten };

    fn begin(alloc: Global, header: &Header) -> Result<RunText, OutOfMemory> {
        let text = header_text(alloc, &header.catalog, &header.start)?;
        Ok(RunText { text })
    }

    fn see(
        self,
        alloc: Global,
        header: &Header,
        _line: u32,
        steps: &[Step<Op>],
    ) -> Result<RunText, OutOfMemory> {
        let RunText { mut text } = self;
        add_steps(alloc, &header.catalog, steps, &mut text)?;
        Ok(RunText { text })
    }
}

/// The status of the input of a source, and its run of rule steps as a run of style rules.
pub fn expand<S: Source, L: Ledger>(
    alloc: Global,
    source: &mut S,
    ticks: &mut Ticks<L>,
) -> Result<(Status, Text), Failure>
    ensures output { IfOk result (λ r. (bytes : List ℕ) → S.left source.old ≡ Some bytes →
        IsExpanded bytes r.0 r.1) }
    ensures status { IfOk result (λ r. IsDecided r.0 ⊎ (r.0 ≡ statuses.InputFault)) }
    ensures end { IfOk result (λ r. IsDecided r.0 → IsAtEnd (S.left source.new)) }
    ensures shown { IfOk result (λ r. r.0 ≡ statuses.Rejected →
        WhereTold (S.left source.old) λ bytes. IsEvident (scan bytes)) }
    ensures read_fault { IsErrOf result ReadFault →
        HasRisen (S.faults source.old) (S.faults source.new)
        × ReadsNoFault (S.left source.old) (S.left source.new) }
    ensures count { S.faults source.old ≤ S.faults source.new }
    ensures faultless { ¬ IsErrOf result ReadFault → S.faults source.new ≡ S.faults source.old }
    ensures most { WhereTold (S.left source.old) λ bytes.
        StepsCostAtMost (scan bytes) ticks.old ticks.new }
    ensures least { IfOk result (λ r. IsDecided r.0 → WhereTold (S.left source.old) λ bytes.
        StepsCostAtLeast r.0 (scan bytes) ticks.old ticks.new) }
{
    match examine::<S, Driven<RunText>, L>(alloc, source, ticks)? {
        Finding::Fault(line, cause) => {
            let text = fault(alloc, line, &cause)?;
            Ok((Status::InputFault, text))
        }
        Finding::Rejected(_tally, refused) => Ok((Status::Rejected, refused.observer.text)),
        Finding::Accepted(_tally, judge) => Ok((Status::Accepted, judge.observer.text)),
    }
}
