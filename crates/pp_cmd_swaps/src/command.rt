//! The command: certifies an input, and writes a certificate for an accepted run.
ghost use Rattle.std.specs.Prelude.{◌≡◌, ◌≢◌, ◌≤◌, ◌⊎◌, IfOk, IsErrOf};
ghost use Rattle.std.specs.Io.KnownBytes.{IsAtEnd};
ghost use Rattle.pp_core.specs.declared.limits.TheConstants.{MOST_STEPS};
ghost use Rattle.pp_core.specs.declared.status.Status.TheVariants as statuses;
ghost use Rattle.pp_input.specs.Faults.{HasRisen};
ghost use Rattle.pp_objects.specs.Objects.{kinds_of};
ghost use Rattle.pp_input_reader.specs.declared.stop.Failure.TheVariants.{ReadFault};
ghost use Rattle.pp_input_reader.specs.Sources.{WhereTold};
ghost use Rattle.pp_judge.specs.Certified.{IsDecided};
ghost use Rattle.pp_judge.specs.Costs.{StepsCostAtLeast, StepsCostAtMost};
ghost use Rattle.pp_judge.specs.Inputs.{ReadsNoFault, scan};
ghost use Rattle.pp_judge.specs.Rejected.{IsEvident};
ghost use Rattle.pp_cmd_swaps.specs.Swaps.{IsSwaps, IsTold};

use crate::list::{add_uncommitted, committed_items, log_items};
use crate::text::{certificate_text, too_large_text};
use pp_certificate_exchanges::{SwapFault, exchanges};
use pp_core::{Catalog, MOST_SWAPS, OutOfMemory, Status, Text, Ticks};
use pp_input::Source;
use pp_input_reader::{Failure, fault};
use pp_judge::{Blind, Driven, Finding, examine, report_rejected};
use pp_machine::Machine;
use pp_objects::Objects;
use std::alloc::Global;
use std::sync::ledger::Ledger;

/// The text for the configuration of a machine: its certificate, or a message if it would have too
/// many exchanges. The only error is out of memory.
fn told(
    alloc: Global,
    catalog: &Catalog,
    machine: &Machine<Objects>,
) -> Result<(Status, Text), OutOfMemory>
    requires over { machine.now.shape ≡ kinds_of catalog.now }
    requires few { machine.now.count ≤ MOST_STEPS }
    ensures { IfOk result (λ r. IsTold catalog.now machine.now.config r.0 r.1) }
{
    let shared = machine.shared();
    let entries = shared.entries();
    // These are called for their clauses, which are true of each machine and of each shared log.
    let _steps = machine.count();
    let _length = shared.len();
    let committed = machine.committed();
    let log = log_items(alloc, entries)?;
    let transactions = committed.as_slice();
    let mut target = committed_items(alloc, transactions)?;
    let number = target.len();
    let serial = number as u32;
    add_uncommitted(&mut target, entries)?;
    match exchanges::<Objects>(alloc, &log, &target, MOST_SWAPS) {
        Ok(list) => {
            let items = log.as_slice();
            let positions = list.as_slice();
            let text = certificate_text(alloc, catalog, items, positions, serial)?;
            Ok((Status::Accepted, text))
        }
        Err(SwapFault::TooMany { count }) => {
            let text = too_large_text(alloc, count)?;
            Ok((Status::TooLarge, text))
        }
        Err(SwapFault::OutOfMemory) => Err(OutOfMemory),
    }
}

/// The status and the text for the input of a source. For an accepted run, the text is its
/// certificate, or the number of exchanges if there are too many of them. Otherwise it is what
/// `certify` prints. A verdict is about the whole input.
pub fn swaps<S: Source, L: Ledger>(
    alloc: Global,
    source: &mut S,
    ticks: &mut Ticks<L>,
) -> Result<(Status, Text), Failure>
    ensures output { IfOk result (λ r. WhereTold (S.left source.old) λ bytes.
        IsSwaps bytes r.0 r.1) }
    ensures status { IfOk result (λ r.
        IsDecided r.0 ⊎ (r.0 ≡ statuses.InputFault) ⊎ (r.0 ≡ statuses.TooLarge)) }
    ensures end { IfOk result (λ r. r.0 ≢ statuses.InputFault → IsAtEnd (S.left source.new)) }
    ensures shown { IfOk result (λ r. r.0 ≡ statuses.Rejected →
        WhereTold (S.left source.old) λ bytes. IsEvident (scan bytes)) }
    ensures read_fault { IsErrOf result ReadFault →
        HasRisen (S.faults source.old) (S.faults source.new)
        × ReadsNoFault (S.left source.old) (S.left source.new) }
    ensures count { S.faults source.old ≤ S.faults source.new }
    ensures faultless { ¬ IsErrOf result ReadFault → S.faults source.new ≡ S.faults source.old }
    ensures most { WhereTold (S.left source.old) λ bytes.
        StepsCostAtMost (scan bytes) ticks.old ticks.new }
    ensures least { IfOk result (λ r. IsDecided r.0 → WhereTold (S.left source.old) λ bytes.
        StepsCostAtLeast r.0 (scan bytes) ticks.old ticks.new) }
{
    match examine::<S, Driven<Blind>, L>(alloc, source, ticks)? {
        Finding::Fault(line, cause) => {
            let text = fault(alloc, line, &cause)?;
            Ok((Status::InputFault, text))
        }
        Finding::Rejected(tally, refused) => {
            let text = report_rejected(alloc, &tally, &refused.rejection)?;
            Ok((Status::Rejected, text))
        }
        Finding::Accepted(tally, judge) => {
            let machine = judge.machine.into_machine();
            let report = told(alloc, &tally.header.catalog, &machine)?;
            Ok(report)
        }
    }
}
