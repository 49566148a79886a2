//! A sink of bytes.
ghost use Rattle.std.specs.Prelude.{◌≡◌, ◌≤◌, ℕ, List, Option, length, IfOk, OnOk, OnErr, IsErrOf};
ghost use Rattle.std.specs.Io.KnownBytes.{WriteAppends, Keeps};
ghost use Rattle.pp_input.specs.Faults.{CountsNothing, HasRisen, TakesSome, counted};
ghost use Rattle.pp_input.specs.Sent.{SendsAll};
ghost use Rattle.pp_input.specs.declared.sink.SinkFault.TheVariants.{Failed, OutOfMemory};

/// Why a write or a flush is refused.
#[derive(Clone, Copy, Debug, PartialEq, Eq)]
pub enum SinkFault {
    /// The sink failed, and counts it.
    Failed,
    /// Out of memory, and the sink counts it.
    OutOfMemory,
}

/// A sink of bytes.
pub trait Sink {
    /// The bytes taken so far, if it reports them.
    ghost held: { Self → Option (List ℕ) };

    /// The bytes that were sent on, if it reports them.
    ghost sent: { Self → Option (List ℕ) };

    /// How often it was called to send on what it took, up to the end of 64 bits.
    ghost flushes: { Self → ℕ };

    /// How often it has failed, up to the end of 64 bits.
    ghost faults: { Self → ℕ };

    /// How often it returned out of memory, up to the end of 64 bits.
    ghost refusals: { Self → ℕ };

    /// Takes bytes from the front of a piece, and returns how many. None of a piece that is not
    /// empty is a fault.
    fn write(&mut self, bytes: &[u8]) -> Result<usize, SinkFault>
        ensures bound { IfOk result (λ n. n ≤ length bytes.now) }
        ensures bytes { WriteAppends (held self.old) (held self.new) result bytes.now }
        ensures unsent { Keeps (sent self.old) (sent self.new) }
        ensures unflushed { flushes self.new ≡ flushes self.old }
        ensures count { faults self.old ≤ faults self.new }
        ensures nothing { IfOk result (λ n.
            CountsNothing n bytes.now (faults self.old) (faults self.new)) }
        ensures faultless { IfOk result (λ n.
            TakesSome n bytes.now → faults self.new ≡ faults self.old) }
        ensures failed { IsErrOf result Failed → HasRisen (faults self.old) (faults self.new) }
        ensures refusals { refusals self.old ≤ refusals self.new }
        ensures refused { IsErrOf result OutOfMemory →
            HasRisen (refusals self.old) (refusals self.new) }
        ensures unrefused { ¬ IsErrOf result OutOfMemory →
            refusals self.new ≡ refusals self.old };

    /// Sends on what was taken.
    fn flush(&mut self) -> Result<(), SinkFault>
        ensures bytes { Keeps (held self.old) (held self.new) }
        ensures sent { OnOk result (SendsAll (sent self.old) (sent self.new) (held self.new)) }
        ensures faultless { OnOk result (faults self.new ≡ faults self.old) }
        ensures flushed { flushes self.new ≡ counted (flushes self.old) }
        ensures count { faults self.old ≤ faults self.new }
        ensures failed { IsErrOf result Failed → HasRisen (faults self.old) (faults self.new) }
        ensures refusals { refusals self.old ≤ refusals self.new }
        ensures refused { IsErrOf result OutOfMemory →
            HasRisen (refusals self.old) (refusals self.new) }
        ensures unrefused { ¬ IsErrOf result OutOfMemory →
            refusals self.new ≡ refusals self.old };
}
