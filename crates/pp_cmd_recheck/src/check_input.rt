//! Checking an input as a certificate.
ghost use Rattle.std.specs.Prelude.{◌≡◌, ◌≤◌, ◌+◌, ℕ, List, IfOk, IsErrOf};
ghost use Rattle.pp_certificate_lines.specs.Checkings.{read_in, Covers};
ghost use Rattle.pp_certificate_lines.specs.Rechecked.{RecheckReadsNoFault};
ghost use Rattle.pp_certificate_lines.specs.Takers.{entries_in};
ghost use Rattle.pp_input.specs.Faults.{HasRisen};
ghost use Rattle.pp_input_reader.specs.Sources.{WhereTold};
ghost use Rattle.pp_input_reader.specs.declared.stop.Failure.TheVariants.{ReadFault};
ghost use Rattle.pp_cmd_recheck.specs.Costs.{CheckCostsAtMost};
ghost use Rattle.pp_cmd_recheck.specs.CheckedInputs.{ChecksInput, ChecksLines, ShownCounted};

use pp_certificate_checker::{Refusal, Shown};
use pp_certificate_lines::{CheckFault, Checking};
use pp_core::{Catalog, Kinds, OutOfMemory, Ticks};
use pp_input::Source;
use pp_input_reader::{Failure, Stop, read_lines};
use pp_objects::{ObjectStates, Op};
use std::alloc::Global;
use std::sync::ledger::Ledger;

/// The result of checking an input as a certificate.
#[derive(Drop)]
pub(crate) enum CheckedInput {
    /// This line has a fault or is refused.
    Fault(u32, CheckFault),
    /// The input is a certificate over these objects, and this is what it shows.
    Shows(Catalog, Shown<Kinds, ObjectStates, Op>),
}

/// Ends the checking of an input after its last line.
fn close_checking<L: Ledger>(
    checking: Checking,
    ticks: &mut Ticks<L>,
) -> Result<CheckedInput, OutOfMemory>
    ensures found { IfOk result (λ input. (lines : List (List ℕ)) →
        Covers lines checking → ChecksLines lines input) }
    ensures bound { ticks.new ≤ ticks.old + (read_in checking).lines }
    ensures least { IfOk result (λ input. (first : ℕ) →
        first + entries_in checking ≤ ticks.old → ShownCounted input first ticks.new) }
{
    let lines = checking.lines();
    let found = checking.close(ticks)?;
    match found {
        Some((catalog, shown)) => Ok(CheckedInput::Shows(catalog, shown)),
        None => Ok(CheckedInput::Fault(lines + 1, CheckFault::Refusal(Refusal::NotCertificate))),
    }
}

/// Checks the input of a source as a certificate. The result is about the whole input.
pub(crate) fn check_input<S: Source, L: Ledger>(
    alloc: Global,
    source: &mut S,
    ticks: &mut Ticks<L>,
) -> Result<CheckedInput, Failure>
    ensures found { IfOk result (ChecksInput (S.left source.old) (S.left source.new)) }
    ensures read_fault { IsErrOf result ReadFault →
        HasRisen (S.faults source.old) (S.faults source.new)
        × RecheckReadsNoFault (S.left source.old) (S.left source.new) }
    ensures count { S.faults source.old ≤ S.faults source.new }
    ensures faultless { ¬ IsErrOf result ReadFault → S.faults source.new ≡ S.faults source.old }
    ensures most { WhereTold (S.left source.old) λ bytes.
        CheckCostsAtMost bytes ticks.old ticks.new }
    ensures least { IfOk result (λ input. ShownCounted input ticks.old ticks.new) }
{
    match read_lines(alloc, source, Checking::new(alloc), ticks) {
        Ok(checking) => {
            let input = close_checking(checking, ticks)?;
            Ok(input)
        }
        Err(Stop::Fault(line, fault)) => Ok(CheckedInput::Fault(line, fault)),
        Err(Stop::Failure(failure)) => Err(failure),
    }
}
