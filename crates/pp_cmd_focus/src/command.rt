//! The command: the status of an input, and its restriction to an object.
ghost use Rattle.std.specs.Prelude.{◌≡◌, ◌≤◌, ℕ, List, Option, IfOk, IsErrOf};
ghost use Rattle.std.specs.Io.KnownBytes.{IsAtEnd};
ghost use Rattle.pp_core.specs.declared.status.Status.TheVariants as statuses;
ghost use Rattle.pp_input.specs.Faults.{HasRisen};
ghost use Rattle.pp_input_reader.specs.Sources.{WhereTold};
ghost use Rattle.pp_input_reader.specs.declared.stop.Failure.TheVariants.{ReadFault};
ghost use Rattle.pp_input.specs.Limits.{HasNext};
ghost use Rattle.pp_judge.specs.Progresses.{lines_of};
ghost use Rattle.pp_cmd_focus.specs.Outputs.{FocusReadsNoFault, IsFocusStatus, IsFocused};
ghost use Rattle.pp_cmd_focus.specs.Restrictions.{restriction};
ghost use Rattle.pp_cmd_focus.specs.Taking.{IsRead, IsWhole};

use crate::located::Located;
use crate::taker::Focus;
use pp_core::{Name, Status, Text, Ticks};
use pp_input::Source;
use pp_input_reader::{Cause, Failure, Stop, fault, read_lines};
use pp_judge::{Progress, Tally};
use std::alloc::Global;
use std::sync::ledger::Ledger;

/// The status and the text of an input without a fault, which has this header.
fn report_restriction(
    alloc: Global,
    name: &Name,
    tally: &Tally,
    located: &Located,
    text: Text,
) -> Result<(Status, Text), Failure>
    ensures output { IfOk result (λ r. (bytes : List ℕ) → IsWhole bytes tally.now located.now →
        text ≡ restriction name.now bytes → IsFocused name.now bytes r.0 r.1) }
    ensures status { IfOk result (λ r. IsFocusStatus r.0) }
    ensures memory { ¬ IsErrOf result ReadFault }
{
    if tally.header.catalog.place(name).is_some() {
        return Ok((Status::Accepted, text));
    }
    let text = fault(alloc, located.line, &Cause::UnknownObject)?;
    Ok((Status::InputFault, text))
}

/// The status and the text of an input that was read to its end.
fn conclude(alloc: Global, focus: Focus) -> Result<(Status, Text), Failure>
    requires { HasNext (lines_of focus.progress) }
    ensures output { IfOk result (λ r. (old new : Option (List ℕ)) →
        IsRead old new focus → WhereTold old λ bytes. IsFocused focus.name bytes r.0 r.1) }
    ensures status { IfOk result (λ r. IsFocusStatus r.0) }
    ensures memory { ¬ IsErrOf result ReadFault }
{
    let Focus {
        name,
        progress,
        text,
    } = focus;
    match progress {
        Progress::Waiting(lines) => {
            let text = fault(alloc, lines + 1, &Cause::NoHeader)?;
            Ok((Status::InputFault, text))
        }
        Progress::Running(tally, located) => {
            report_restriction(alloc, &name, &tally, &located, text)
        }
        Progress::Rejected(_, never) => match never {},
    }
}

/// The status of the input of a source, and its restriction to the object of this name, line for
/// line.
pub fn focus<S: Source, L: Ledger>(
    alloc: Global,
    name: Name,
    source: &mut S,
    ticks: &mut Ticks<L>,
) -> Result<(Status, Text), Failure>
    ensures output { IfOk result (λ r. WhereTold (S.left source.old) λ bytes.
        IsFocused name bytes r.0 r.1) }
    ensures status { IfOk result (λ r. IsFocusStatus r.0) }
    ensures end { IfOk result (λ r. r.0 ≡ statuses.Accepted → IsAtEnd (S.left source.new)) }
    ensures read_fault { IsErrOf result ReadFault →
        HasRisen (S.faults source.old) (S.faults source.new)
        × FocusReadsNoFault (S.left source.old) (S.left source.new) }
    ensures count { S.faults source.old ≤ S.faults source.new }
    ensures faultless { ¬ IsErrOf result ReadFault → S.faults source.new ≡ S.faults source.old }
    ensures most { WhereTold (S.left source.old) λ _. ticks.new ≡ ticks.old }
{
    let first = Focus {
        name,
        progress: Progress::Waiting(0),
        text: Text::new(alloc),
    };
    match read_lines(alloc, source, first, ticks) {
        Ok(last) => conclude(alloc, last),
        Err(Stop::Fault(line, cause)) => {
            let text = fault(alloc, line, &cause)?;
            Ok((Status::InputFault, text))
        }
        Err(Stop::Failure(failure)) => Err(failure),
    }
}
