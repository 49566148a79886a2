//! Reading the lines of a source, however it is cut.
ghost use Rattle.std.specs.Prelude.{◌≡◌, ◌≤◌, ℕ, List, [], ◌++◌, length, false, None, Some, IfOk};
ghost use Rattle.std.specs.Prelude.{IfErr, OnOk, OnErr, IsErrOf};
ghost use Rattle.std.specs.Io.KnownBytes.{IsAtEnd};
ghost use Rattle.pp_input.specs.Faults.{HasRisen};
ghost use Rattle.pp_input.specs.declared.fault.LineFault.TheVariants as limits;
ghost use Rattle.pp_input.specs.Held.{fed};
ghost use Rattle.pp_input.specs.Overruns.{scanned_lines};
ghost use Rattle.pp_input.specs.Reaches.{overrun_from};
ghost use Rattle.pp_input_reader.specs.declared.stop.Failure.TheVariants as failures;
ghost use Rattle.pp_input_reader.specs.declared.stop.Failure.TheVariants.{ReadFault};
ghost use Rattle.pp_input_reader.specs.declared.stop.Stop.TheVariants.{Failure as StopsByFailure};
ghost use Rattle.pp_input_reader.specs.Takers.{CountsEarly, CountsTo, HasEarlyFault};
ghost use Rattle.pp_input_reader.specs.Takers.{HasInputFault, IfFault, IfInputFault};
ghost use Rattle.pp_input_reader.specs.Takers.{IsAt, IsLimitFault, ReadsAll, ReadsSoFar};

use crate::cause::Cause;
use crate::stop::{Failure, Stop};
use crate::taker::TakesLines;
use pp_core::{OutOfMemory, Ticks};
use pp_input::{LineFault, Lines, Source};
use std::alloc::{AllocError, Global};
use std::sync::ledger::Ledger;

/// The most bytes of a piece of the input.
const LONGEST_PIECE: usize = 65_536;

/// The stop at a limit that is passed.
fn stop_at_limit<T: TakesLines>(limit: LineFault) -> Stop<T::Fault>
    ensures fault { IfFault result (λ at fault. (first : ℕ) →
        IsLimitFault (T.reading first) (Some limit) at fault) }
    ensures memory { result ≡ StopsByFailure failures.OutOfMemory → limit ≡ limits.OutOfMemory }
{
    match limit {
        LineFault::TooLong { line } => Stop::Fault(line, T::at_limit(Cause::TooLong)),
        LineFault::TooManyLines { line } => Stop::Fault(line, T::at_limit(Cause::TooManyLines)),
        LineFault::LineTooLong { line } => Stop::Fault(line, T::at_limit(Cause::LineTooLong)),
        LineFault::OutOfMemory => Stop::Failure(Failure::OutOfMemory),
    }
}

/// Feeds a piece of the input, and answers the limit that it passes.
fn feed(lines: &mut Lines, piece: &[u8]) -> Result<Option<LineFault>, OutOfMemory>
    requires sound { lines.old.fault ≡ None }
    requires open { lines.old.closed ≡ false }
    ensures fed { IfOk result (λ limit. (lines.new ≡ fed lines.old piece.now)
        × (overrun_from lines.old.reach piece.now ≡ limit)) }
{
    match lines.feed(piece) {
        Ok(()) => Ok(None),
        Err(LineFault::OutOfMemory) => Err(OutOfMemory),
        Err(fault) => Ok(Some(fault)),
    }
}

/// Takes a piece of the input, and each line that it ends.
fn take_piece<T: TakesLines, L: Ledger>(
    alloc: Global,
    lines: &mut Lines,
    taker: T,
    piece: &[u8],
    ticks: &mut Ticks<L>,
) -> Result<T, Stop<T::Fault>>
    requires { (first : ℕ) × (bytes : List ℕ)
        × IsAt (T.reading first) bytes lines.old (taker, ticks.old) }
    ensures ok { IfOk result (λ next. (first : ℕ) (bytes : List ℕ) →
        IsAt (T.reading first) bytes lines.old (taker, ticks.old) →
        IsAt (T.reading first) (bytes ++ piece.now) lines.new (next, ticks.new)) }
    ensures given { IfOk result (λ next. T.given next ≡ T.given taker) }
    ensures stop { IfErr result (λ stop. (first : ℕ) →
        IfFault stop (λ at cause. (bytes : List ℕ) →
        IsAt (T.reading first) bytes lines.old (taker, ticks.old) →
        HasEarlyFault (T.reading first) (bytes ++ piece.now) at cause)) }
    ensures cost { OnErr result ((first : ℕ) (bytes : List ℕ) →
        IsAt (T.reading first) bytes lines.old (taker, ticks.old) →
        CountsEarly (T.reading first) (bytes ++ piece.now) ticks.new) }
{
    let limit = feed(lines, piece)?;
    let mut taker = taker;
    'lines: while let Some(line) = lines.next() {
        taker = taker.take(alloc, &line, ticks)?;
    }
    match limit {
        None => Ok(taker),
        Some(limit) => Err(stop_at_limit::<T>(limit)),
    }
}

/// Takes what is left at the end of the input: one line at most.
fn take_rest<T: TakesLines, L: Ledger>(
    alloc: Global,
    lines: &mut Lines,
    taker: T,
    ticks: &mut Ticks<L>,
) -> Result<T, Stop<T::Fault>>
    requires { (first : ℕ) × (bytes : List ℕ)
        × IsAt (T.reading first) bytes lines.old (taker, ticks.old) }
    ensures ok { IfOk result (λ next. (first : ℕ) (bytes : List ℕ) →
        IsAt (T.reading first) bytes lines.old (taker, ticks.old) →
        (T.reading first).Leads (scanned_lines (T.reading first).limits bytes) (next, ticks.new)) }
    ensures given { IfOk result (λ next. T.given next ≡ T.given taker) }
    ensures stop { IfErr result (λ stop. (first : ℕ) →
        IfFault stop (λ at cause. (bytes : List ℕ) →
        IsAt (T.reading first) bytes lines.old (taker, ticks.old) →
        HasInputFault (T.reading first) bytes at cause)) }
    ensures cost { OnErr result ((first : ℕ) (bytes : List ℕ) →
        IsAt (T.reading first) bytes lines.old (taker, ticks.old) →
        CountsTo (T.reading first) (scanned_lines (T.reading first).limits bytes) ticks.new) }
{
    lines.finish();
    match lines.next() {
        Some(line) => taker.take(alloc, &line, ticks),
        None => Ok(taker),
    }
}

/// Room for a piece of the input.
fn room(alloc: Global) -> Result<Vec<u8>, AllocError>
    ensures { IfOk result (λ v. length v.items ≡ LONGEST_PIECE) }
{
    vec![in alloc; 0u8; LONGEST_PIECE]
}

/// Reads a source to its end, or to the first fault, in pieces of at most 65,536 bytes, and takes
/// each line before the next read.
pub fn read_lines<S: Source, T: TakesLines, L: Ledger>(
    alloc: Global,
    source: &mut S,
    taker: T,
    ticks: &mut Ticks<L>,
) -> Result<T, Stop<T::Fault>>
    requires { (T.reading ticks.old).Leads [] (taker, ticks.old) }
    ensures ok { IfOk result (λ last. ReadsAll (T.reading ticks.old)
        (S.left source.old) (S.left source.new) (last, ticks.new)) }
    ensures given { IfOk result (λ last. T.given last ≡ T.given taker) }
    ensures end { OnOk result (IsAtEnd (S.left source.new)) }
    ensures stop { IfErr result (λ stop. IfInputFault stop (λ at cause. (bytes : List ℕ) →
        S.left source.old ≡ Some bytes → HasInputFault (T.reading ticks.old) bytes at cause)) }
    ensures read_fault { IsErrOf result (StopsByFailure ReadFault) →
        HasRisen (S.faults source.old) (S.faults source.new)
        × ReadsSoFar (T.reading ticks.old) (S.left source.old) (S.left source.new) }
    ensures count { S.faults source.old ≤ S.faults source.new }
    ensures faultless { ¬ IsErrOf result (StopsByFailure ReadFault) →
        S.faults source.new ≡ S.faults source.old }
    ensures cost { (bytes : List ℕ) → S.left source.old ≡ Some bytes →
        CountsTo (T.reading ticks.old) (scanned_lines (T.reading ticks.old).limits bytes)
        ticks.new }
{
    let mut buffer = room(alloc)?;
    let mut lines = Lines::new(alloc, T::limits());
    let mut taker = taker;
    'pieces: loop {
        let Ok(n) = source.read(&mut buffer) else {
            return Err(Stop::Failure(Failure::ReadFault));
        };
        if n == 0 {
            break;
        }
        taker = take_piece(alloc, &mut lines, taker, &buffer[..n], ticks)?;
    }
    Ok(take_rest(alloc, &mut lines, taker, ticks)?)
}
