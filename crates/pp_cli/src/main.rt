//! Certifies that a recorded run of a transactional memory is a run of the Push/Pull machine.
#![tactic(auto)]

ghost use Rattle.std.specs.Prelude.{◌≡◌, ℕ};
ghost use Rattle.pp_run.specs.Outcomes.{outcome};
ghost use Rattle.pp_run.specs.Runs.{RunLaws, RunPromise};
ghost use Rattle.pp_run.specs.Streams.{counts};
ghost use Rattle.pp_run.specs.Words.{command_of};

mod edge;
#[cfg(test)]
mod tests;
mod words;

use crate::edge::{StdSink, StdSource};
use crate::words::collect_words;
use pp_core::{OutOfMemory, Status, Ticks, Words};
use pp_run::run;
use std::alloc::Global;
use std::io::{self, Read, Write};
use std::marker::Brand;
use std::process::ExitCode;
use std::sync::ledger::{Blank, Ledger};

/// The status if the system has no arguments to read.
const NO_WORDS: u8 = 8;

/// Runs a command over any reader and any writer, with a counter of operations that begins at 0.
/// `main` calls it once it has its arguments. It promises what `run` promises, for the bytes that
/// the reader has left and that the writer holds. The system's own streams do not say these bytes:
/// see "The real streams" in `docs/PROMISES.md`.
///
/// The promise says of the counter only that some number is within the bounds. `main` picks the
/// ledger, so no type in the signature can depend on it, and the counter cannot be handed in or
/// out. The clauses of `run` bound this counter itself.
pub fn run_streams<L: Ledger, R: Read + Drop, W: Write + Drop>(
    alloc: Global,
    words: &Words,
    source: &mut StdSource<R>,
    sink: &mut StdSink<W>,
    blank: Blank,
) -> Status
    requires name { blank.name ≡ L.name }
    requires parts { blank.parts ≡ L.parts }
    requires one { L.parts ≡ 1 }
    ensures promise { (after : ℕ) × RunPromise (source.new ≡ source.old) (sink.new ≡ sink.old)
        (command_of words.now)
        (outcome (R.remaining source.old.stream) (R.remaining source.new.stream)
        (W.contents sink.old.stream) (W.contents sink.new.stream) result 0 after)
        (counts source.old.faults source.new.faults sink.old.faults sink.new.faults
        0 0 sink.old.flushes sink.new.flushes) }
    ensures laws { RunLaws }
{
    let mut ticks = Ticks::<L>::new(blank);
    run(alloc, words, source, sink, &mut ticks)
}

fn main(rt: HostRuntime) -> ExitCode {
    let alloc = rt.alloc();
    let words = match collect_words(alloc, &rt) {
        Ok(Some(words)) => words,
        Ok(None) => return ExitCode::from(NO_WORDS),
        Err(OutOfMemory) => return ExitCode::from(Status::OutOfMemory.code()),
    };
    let mut source = StdSource::new(rt.reader());
    let mut sink = StdSink::new(io::writer(&rt));
    let status = run_streams::<Brand, _, _>(alloc, &words, &mut source, &mut sink, Blank::new(1));
    ExitCode::from(status.code())
}
