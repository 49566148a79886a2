//! Performing a command: from its input to its status and its output.
ghost use Rattle.std.specs.Prelude.{◌≡◌, ◌≤◌, ◌⊎◌, ℕ, Some, IfOk, IsErrOf};
ghost use Rattle.std.specs.Io.KnownBytes.{IsAtEnd};
ghost use Rattle.pp_core.specs.declared.status.Status.TheVariants as statuses;
ghost use Rattle.pp_input.specs.Faults.{HasRisen};
ghost use Rattle.pp_input_reader.specs.declared.stop.Failure.TheVariants.{ReadFault};
ghost use Rattle.pp_input_reader.specs.Sources.{WhereTold};
ghost use Rattle.pp_certificate_lines.specs.Rechecked.{IsCheckedSound};
ghost use Rattle.pp_judge.specs.Inputs.{scan};
ghost use Rattle.pp_judge.specs.Rejected.{IsEvident};
ghost use Rattle.pp_cmd_judge.specs.Inputs.{judge_scan};
ghost use Rattle.pp_cmd_judge.specs.Judgements.{IsJudgedEvident};
ghost use Rattle.pp_cmd_opaque.specs.Meanings.{MeetsAll};
ghost use Rattle.pp_run.specs.declared.words.Command.TheVariants.{Drill, Judge, Opaque, Recheck};
ghost use Rattle.pp_run.specs.Bounds.{RisesAtLeast, RisesAtMost};
ghost use Rattle.pp_run.specs.Outputs.{IsOfWhole, IsOutput, IsVerdictOrSize, OfInput, ReadsSound};
ghost use Rattle.pp_run.specs.Words.{DrivesMachine, Reads, TellsSize};

use crate::words::Command;
use pp_cmd_certify::certify;
use pp_cmd_drill::drill;
use pp_cmd_expand::expand;
use pp_cmd_focus::focus;
use pp_cmd_judge::judge;
use pp_cmd_opaque::opaque;
use pp_cmd_quick::quick;
use pp_cmd_recheck::recheck;
use pp_cmd_swaps::swaps;
use pp_cmd_views::views;
use pp_core::{Status, Text, Ticks};
use pp_input::Source;
use pp_input_reader::Failure;
use std::alloc::Global;
use std::sync::ledger::Ledger;

/// Computes the status and the output of a command. It reads the source if the command reads an
/// input, and writes nothing.
pub(crate) fn perform<S: Source, L: Ledger>(
    alloc: Global,
    command: Command,
    source: &mut S,
    ticks: &mut Ticks<L>,
) -> Result<(Status, Text), Failure>
    requires { (n : ℕ) → command ≡ Drill n → (1 ≤ n) × (n ≤ 20_000) }
    ensures output { IfOk result (λ r. OfInput (Some command) (S.left source.old) λ bytes.
        IsOutput (Some command) bytes r.0 r.1) }
    ensures status { IfOk result (λ r. IsVerdictOrSize r.0 ⊎ (r.0 ≡ statuses.InputFault)) }
    ensures size { IfOk result (λ r. r.0 ≡ statuses.TooLarge → TellsSize (Some command)) }
    ensures end { IfOk result (λ r. IsOfWhole (Some command) r.0 → IsAtEnd (S.left source.new)) }
    ensures shown { IfOk result (λ r. DrivesMachine (Some command) → r.0 ≡ statuses.Rejected →
        WhereTold (S.left source.old) λ bytes. IsEvident (scan bytes)) }
    ensures opaque { IfOk result (λ r. command ≡ Opaque → r.0 ≡ statuses.Rejected →
        WhereTold (S.left source.old) λ bytes. IsEvident (scan bytes) ⊎ MeetsAll bytes) }
    ensures judged { IfOk result (λ r. command ≡ Judge → r.0 ≡ statuses.Rejected →
        WhereTold (S.left source.old) λ bytes. IsJudgedEvident (judge_scan bytes)) }
    ensures checked { IfOk result (λ r. command ≡ Recheck → r.0 ≡ statuses.Accepted →
        WhereTold (S.left source.old) λ bytes. IsCheckedSound bytes) }
    ensures untouched { ¬ Reads (Some command) → source.new ≡ source.old }
    ensures reading { IsErrOf result ReadFault → Reads (Some command) }
    ensures read_fault { IsErrOf result ReadFault →
        HasRisen (S.faults source.old) (S.faults source.new)
        × ReadsSound (Some command) (S.left source.old) (S.left source.new) }
    ensures count { S.faults source.old ≤ S.faults source.new }
    ensures faultless { ¬ IsErrOf result ReadFault → S.faults source.new ≡ S.faults source.old }
    ensures most { RisesAtMost (Some command) (S.left source.old) ticks.old ticks.new }
    ensures least { IfOk result (λ r.
        RisesAtLeast (Some command) (S.left source.old) r.0 ticks.old ticks.new) }
{
    match command {
        Command::Certify => certify(alloc, source, ticks),
        Command::Expand => expand(alloc, source, ticks),
        Command::Judge => judge(alloc, source, ticks),
        Command::Quick => quick(alloc, source, ticks),
        Command::Swaps => swaps(alloc, source, ticks),
        Command::Recheck => recheck(alloc, source, ticks),
        Command::Views => views(alloc, source, ticks),
        Command::Opaque => opaque(alloc, source, ticks),
        Command::Drill { n } => {
            let report = drill(alloc, n, ticks)?;
            Ok(report)
        }
        Command::Focus { name } => focus(alloc, name, source, ticks),
    }
}
