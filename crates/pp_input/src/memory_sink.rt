//! A sink in memory, with calls that fail.
ghost use Rattle.std.specs.Prelude.{◌≡◌, ◌≤◌, Some, [], Ok, Err, length, take, min, IfOk, OnErr};
ghost use Rattle.std.specs.Prelude.{IsErrOf, IsTrue, OnOk, ◌↔◌};
ghost use Rattle.std.specs.Io.KnownBytes.{WriteAppends, Keeps};
ghost use Rattle.pp_input.specs.Faults.{CountsNothing, HasRisen, TakesSome, counted};
ghost use Rattle.pp_input.specs.Memory.{WriteFails, after_write, after_flush, fresh_sink};
ghost use Rattle.pp_input.specs.Memory.{after_failed_flush, after_failed_write, after_refused_write};
ghost use Rattle.pp_input.specs.Sent.{SendsAll};
ghost use Rattle.pp_input.specs.declared.sink.SinkFault.TheVariants.{Failed, OutOfMemory};

use crate::memory_source::is_among;
use crate::sink::{Sink, SinkFault};
use std::alloc::Global;
use std::marker::Model;

/// Keeps what it takes, at most so many bytes a call. The calls whose numbers, from 0, are in
/// `failing` fail.
#[derive(Drop)]
pub struct MemorySink {
    held: Vec<u8>,
    sent: usize,
    most: usize,
    failing: Vec<u64>,
    calls: u64,
    flushes: u64,
    faults: u64,
    refusals: u64,
}

impl Model for MemorySink {
    ghost use Rattle.std.specs.Prelude.{◌<◌, ◌≤◌, length, take};
    ghost use Rattle.pp_input.specs.Memory.{SinkInMemory};

    ghost Value = { SinkInMemory };

    ghost view = { λ s. record {
      held = s.held.items;
      sent = take s.sent s.held.items;
      most = s.most;
      failing = s.failing.items;
      calls = s.calls;
      flushes = s.flushes;
      faults = s.faults;
      refusals = s.refusals;
    } };

    ghost invariant = { λ s. (0 < s.most) × (s.sent ≤ length s.held.items) };
}

impl MemorySink {
    /// A sink that has taken nothing. It takes one byte a call at least.
    pub fn new(alloc: Global, most: usize, failing: Vec<u64>) -> MemorySink
        ensures { result ≡ fresh_sink most failing.items }
    {
        MemorySink {
            held: Vec::new(alloc),
            sent: 0,
            most: most.max(1),
            failing,
            calls: 0,
            flushes: 0,
            faults: 0,
            refusals: 0,
        }
    }

    /// The bytes that were taken.
    pub fn held(&self) -> &[u8]
        ensures { result.now ≡ self.now.held }
    {
        &self.held
    }

    /// Those of them that were sent on.
    pub fn sent(&self) -> &[u8]
        ensures { result.now ≡ self.now.sent }
    {
        &self.held[..self.sent]
    }

    /// Counts a call, and returns whether it fails.
    fn fails(&mut self) -> bool
        ensures fails { IsTrue result ↔ WriteFails self.old }
        ensures failed { IsTrue result → self.new ≡ after_failed_write self.old }
        ensures passed { ¬ IsTrue result → self.new ≡ after_write self.old [] }
        ensures count { self.old.faults ≤ self.new.faults }
        ensures refusals { self.new.refusals ≡ self.old.refusals }
    {
        let call = self.calls;
        self.calls = call.saturating_add(1);
        let fails = is_among(&self.failing, call);
        if fails {
            self.faults = self.faults.saturating_add(1);
        }
        fails
    }
}

impl Sink for MemorySink {
    ghost held = { λ s. Some s.held };

    ghost sent = { λ s. Some s.sent };

    ghost flushes = { λ s. s.flushes };

    ghost faults = { λ s. s.faults };

    ghost refusals = { λ s. s.refusals };

    fn write(&mut self, bytes: &[u8]) -> Result<usize, SinkFault>
        ensures bound { IfOk result (λ n. n ≤ length bytes.now) }
        ensures bytes { WriteAppends (Some self.old.held) (Some self.new.held) result bytes.now }
        ensures unsent { self.new.sent ≡ self.old.sent }
        ensures unflushed { self.new.flushes ≡ self.old.flushes }
        ensures count { self.old.faults ≤ self.new.faults }
        ensures nothing { IfOk result (λ n.
            CountsNothing n bytes.now self.old.faults self.new.faults) }
        ensures faultless { IfOk result (λ n.
            TakesSome n bytes.now → self.new.faults ≡ self.old.faults) }
        ensures failed { IsErrOf result Failed → HasRisen self.old.faults self.new.faults }
        ensures refusals { self.old.refusals ≤ self.new.refusals }
        ensures refused { IsErrOf result OutOfMemory →
            HasRisen self.old.refusals self.new.refusals }
        ensures unrefused { ¬ IsErrOf result OutOfMemory →
            self.new.refusals ≡ self.old.refusals }
        ensures fails { WriteFails self.old →
            (result ≡ Err Failed) × (self.new ≡ after_failed_write self.old) }
        ensures takes { ¬ WriteFails self.old →
            IfOk result (λ n.
            (n ≡ min (length bytes.now) self.old.most)
            × (self.new ≡ after_write self.old (take n bytes.now))) }
        ensures memory { ¬ WriteFails self.old →
            OnErr result ((result ≡ Err OutOfMemory) × (self.new ≡ after_refused_write self.old)) }
    {
        if self.fails() {
            return Err(SinkFault::Failed);
        }
        let n = bytes.len().min(self.most);
        match self.held.extend_from_slice(&bytes[..n]) {
            Ok(()) => Ok(n),
            Err(_) => {
                self.refusals = self.refusals.saturating_add(1);
                Err(SinkFault::OutOfMemory)
            }
        }
    }

    fn flush(&mut self) -> Result<(), SinkFault>
        ensures bytes { Keeps (Some self.old.held) (Some self.new.held) }
        ensures sent { OnOk result (self.new.sent ≡ self.new.held) }
        ensures faultless { OnOk result (self.new.faults ≡ self.old.faults) }
        ensures flushed { self.new.flushes ≡ counted self.old.flushes }
        ensures count { self.old.faults ≤ self.new.faults }
        ensures failed { IsErrOf result Failed → HasRisen self.old.faults self.new.faults }
        ensures refusals { self.new.refusals ≡ self.old.refusals }
        ensures fails { WriteFails self.old →
            (result ≡ Err Failed) × (self.new ≡ after_failed_flush self.old) }
        ensures passes { ¬ WriteFails self.old →
            (result ≡ Ok tt) × (self.new ≡ after_flush self.old) }
    {
        self.flushes = self.flushes.saturating_add(1);
        if self.fails() {
            return Err(SinkFault::Failed);
        }
        self.sent = self.held.len();
        Ok(())
    }
}
