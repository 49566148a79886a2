//! The program without its edge: from its arguments and its input to its status and its output.
ghost use Rattle.std.specs.Prelude.{◌≡◌};
ghost use Rattle.pp_run.specs.Outcomes.{outcome};
ghost use Rattle.pp_run.specs.Runs.{RunLaws, RunPromise};
ghost use Rattle.pp_run.specs.Streams.{counts};
ghost use Rattle.pp_run.specs.Words.{command_of};

use crate::perform::perform;
use crate::words::read_words;
use crate::write::{WriteError, send};
use pp_core::{Status, Ticks, Words};
use pp_input::{Sink, Source};
use pp_input_reader::Failure;
use std::alloc::Global;
use std::sync::ledger::Ledger;

/// Runs the command that the arguments are. It reads the source if the command reads an input, and
/// writes the output to the sink.
///
/// The source is read in pieces of at most 65,536 bytes. Nothing is written before the output is
/// whole.
#[tactic(auto, using(crate::proofs::Promises::run_laws))]
pub fn run<S: Source, K: Sink, L: Ledger>(
    alloc: Global,
    words: &Words,
    source: &mut S,
    sink: &mut K,
    ticks: &mut Ticks<L>,
) -> Status
    // `RunPromise` is in `specs/Runs.antt`. Its field `command` is the promise of the command: for
    // `certify` the record `CertifyPromise`, in `specs/Commands.antt`.
    ensures promise { RunPromise (source.new ≡ source.old) (sink.new ≡ sink.old)
        (command_of words.now)
        (outcome (S.left source.old) (S.left source.new) (K.held sink.old) (K.held sink.new)
        result ticks.old ticks.new)
        (counts (S.faults source.old) (S.faults source.new) (K.faults sink.old) (K.faults sink.new)
        (K.refusals sink.old) (K.refusals sink.new) (K.flushes sink.old) (K.flushes sink.new)) }

    // Laws of the definitions that the promise names. They do not depend on the call.
    ensures laws { RunLaws }
{
    let Some(command) = read_words(words) else {
        return Status::BadWords;
    };
    let (status, text) = match perform(alloc, command, source, ticks) {
        Ok(report) => report,
        Err(Failure::ReadFault) => return Status::ReadFault,
        Err(Failure::OutOfMemory) => return Status::OutOfMemory,
    };
    match send(sink, text.bytes()) {
        Ok(()) => status,
        Err(WriteError::WriteFault) => Status::WriteFault,
        Err(WriteError::Memory) => Status::OutOfMemory,
    }
}
