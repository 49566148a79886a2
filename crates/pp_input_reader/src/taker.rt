//! What takes the lines of an input, one after another.
ghost use Rattle.std.specs.Prelude.{◌≡◌, ℕ, List, [], IfOk, IfErr, OnErr};
ghost use Rattle.pp_input.specs.Limits.{CanCount};
ghost use Rattle.pp_input_reader.specs.Takers.{IsNext, LeadsOn, Reading, StopsAt, StopsWith};

use crate::cause::Cause;
use crate::stop::Stop;
use pp_core::Ticks;
use pp_input::{Limits, Line};
use std::alloc::Global;
use std::sync::ledger::Ledger;

/// What takes the lines of an input, one after another.
pub trait TakesLines: Drop {
    /// What a fault of an input is to it.
    type Fault: Drop;

    /// The limits of an input; where lines lead to, with what the counter then shows, which fault
    /// they have, and what they cost, by what the counter shows before the first; and which fault a
    /// passed limit is.
    ghost reading: { ℕ → Reading (Self × ℕ) Self.Fault };

    /// Bytes that it was given, and that no line changes: none, unless a type says which.
    ghost given: { Self → List ℕ } = { λ _. [] };

    /// The limits of an input.
    fn limits() -> Limits
        ensures limits { (first : ℕ) → result ≡ (reading first).limits }
        ensures count { CanCount result };

    /// The fault that the cause of a passed limit is.
    fn at_limit(cause: Cause) -> Self::Fault
        ensures { (first : ℕ) → result ≡ (reading first).at_limit cause };

    /// Takes the next line. It stops at a fault, which no line after it changes, or out of
    /// memory.
    fn take<L: Ledger>(
        self,
        alloc: Global,
        line: &Line,
        ticks: &mut Ticks<L>,
    ) -> Result<Self, Stop<Self::Fault>>
        requires { (first : ℕ)
            × IsNext (reading first) (self, ticks.old) (line.now.number, line.now.text) }
        ensures ok { IfOk result (λ next. (first : ℕ) → LeadsOn (reading first) (self, ticks.old)
            (line.now.number, line.now.text) (next, ticks.new)) }
        ensures given { IfOk result (λ next. given next ≡ given self) }
        ensures stop { IfErr result (λ stop. (first : ℕ) →
            StopsAt (reading first) (self, ticks.old) (line.now.number, line.now.text) stop) }
        ensures cost { OnErr result ((first : ℕ) → StopsWith (reading first) (self, ticks.old)
            (line.now.number, line.now.text) ticks.new) };
}
