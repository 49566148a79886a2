//! Why the lines of an input are not all taken.
ghost use Rattle.std.specs.Prelude.{◌≡◌};
ghost use Rattle.pp_input_reader.specs.declared.stop.Failure.TheVariants as failures;
ghost use Rattle.pp_input_reader.specs.declared.stop.Stop.TheVariants as stops;

use pp_core::OutOfMemory;
use std::alloc::AllocError;

/// Why nothing is known of an input.
#[derive(Clone, Copy, Debug, PartialEq, Eq)]
pub enum Failure {
    /// A read failed.
    ReadFault,
    /// Memory was refused.
    OutOfMemory,
}

impl From<OutOfMemory> for Failure {
    ghost from_gives = { λ _ failure. failure ≡ failures.OutOfMemory };

    fn from(_refused: OutOfMemory) -> Failure {
        Failure::OutOfMemory
    }
}

/// Why the lines of an input are not all taken. What takes them says what its faults are.
#[derive(Drop)]
pub enum Stop<F> {
    /// The input has this fault on this line.
    Fault(u32, F),
    /// Nothing is known of it.
    Failure(Failure),
}

impl<F> From<OutOfMemory> for Stop<F> {
    ghost from_gives = { λ _ stop. stop ≡ stops.Failure failures.OutOfMemory };

    fn from(_refused: OutOfMemory) -> Stop<F> {
        Stop::Failure(Failure::OutOfMemory)
    }
}

impl<F> From<AllocError> for Stop<F> {
    ghost from_gives = { λ _ stop. stop ≡ stops.Failure failures.OutOfMemory };

    fn from(_refused: AllocError) -> Stop<F> {
        Stop::Failure(Failure::OutOfMemory)
    }
}
