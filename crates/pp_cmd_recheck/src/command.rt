//! The command `recheck`.
ghost use Rattle.std.specs.Prelude.{◌≡◌, ◌≤◌, ◌⊎◌, IfOk, IsErrOf};
ghost use Rattle.std.specs.Io.KnownBytes.{IsAtEnd};
ghost use Rattle.pp_core.specs.declared.status.Status.TheVariants as statuses;
ghost use Rattle.pp_certificate_lines.specs.Rechecked.{IsCheckedSound, IsRecheck, RecheckReadsNoFault};
ghost use Rattle.pp_input.specs.Faults.{HasRisen};
ghost use Rattle.pp_input_reader.specs.Sources.{WhereTold};
ghost use Rattle.pp_input_reader.specs.declared.stop.Failure.TheVariants.{ReadFault};
ghost use Rattle.pp_cmd_recheck.specs.Costs.{CheckCostsAtLeast, CheckCostsAtMost};

use crate::check_input::check_input;
use crate::report::report;
use pp_core::{Status, Text, Ticks};
use pp_input::Source;
use pp_input_reader::Failure;
use std::alloc::Global;
use std::sync::ledger::Ledger;

/// The status and the report of the input of a source, as a certificate. Only the sequential
/// objects and their swap tests decide it.
pub fn recheck<S: Source, L: Ledger>(
    alloc: Global,
    source: &mut S,
    ticks: &mut Ticks<L>,
) -> Result<(Status, Text), Failure>
    ensures output { IfOk result (λ r. WhereTold (S.left source.old) λ bytes.
        IsRecheck bytes r.0 r.1) }
    ensures status { IfOk result (λ r. (r.0 ≡ statuses.Accepted) ⊎ (r.0 ≡ statuses.Rejected)
        ⊎ (r.0 ≡ statuses.InputFault)) }
    ensures end { IfOk result (λ r. r.0 ≡ statuses.Accepted → IsAtEnd (S.left source.new)) }
    ensures checked { IfOk result (λ r. r.0 ≡ statuses.Accepted →
        WhereTold (S.left source.old) λ bytes. IsCheckedSound bytes) }
    ensures read_fault { IsErrOf result ReadFault →
        HasRisen (S.faults source.old) (S.faults source.new)
        × RecheckReadsNoFault (S.left source.old) (S.left source.new) }
    ensures count { S.faults source.old ≤ S.faults source.new }
    ensures faultless { ¬ IsErrOf result ReadFault → S.faults source.new ≡ S.faults source.old }
    ensures most { WhereTold (S.left source.old) λ bytes.
        CheckCostsAtMost bytes ticks.old ticks.new }
    ensures least { IfOk result (λ r. r.0 ≡ statuses.Accepted →
        WhereTold (S.left source.old) λ bytes. CheckCostsAtLeast bytes ticks.old ticks.new) }
{
    let input = check_input(alloc, source, ticks)?;
    let answer = report(alloc, &input)?;
    Ok(answer)
}
