//! A source and a sink in memory that never fail.
ghost use Rattle.std.specs.Prelude.{◌≡◌, ◌<◌, ◌≤◌, ◌++◌, ℕ, Some, [], Ok, Err, length, take, drop};
ghost use Rattle.std.specs.Prelude.{min, IfOk, OnErr, IsErrOf};
ghost use Rattle.std.specs.Io.KnownBytes.{ReadConsumes, WriteAppends, Keeps};
ghost use Rattle.pp_input.specs.Faults.{HasRisen, counted};
ghost use Rattle.pp_input.specs.Memory.{fresh_steady};
ghost use Rattle.pp_input.specs.Sent.{SendsAll};
ghost use Rattle.pp_input.specs.declared.sink.SinkFault.TheVariants.{Failed, OutOfMemory};

use crate::memory_source::give;
use crate::sink::{Sink, SinkFault};
use crate::source::{Failed, Source};
use std::alloc::Global;
use std::marker::Model;

/// Bytes in memory. A read fills its buffer, and never fails. Contracts see it as the bytes that
/// are left.
#[derive(Drop)]
pub struct SteadySource {
    bytes: Vec<u8>,
    at: usize,
}

impl Model for SteadySource {
    ghost use Rattle.std.specs.Prelude.{◌≤◌, List, ℕ, length, drop};

    ghost Value = { List ℕ };

    ghost view = { λ s. drop s.at s.bytes.items };

    ghost invariant = { λ s. s.at ≤ length s.bytes.items };
}

impl SteadySource {
    /// A source that has returned nothing yet.
    pub fn new(bytes: Vec<u8>) -> SteadySource
        ensures { result ≡ bytes.items }
    {
        SteadySource { bytes, at: 0 }
    }
}

impl Source for SteadySource {
    ghost left = { λ s. Some s };

    ghost faults = { λ _. 0 };

    fn read(&mut self, into: &mut [u8]) -> Result<usize, Failed>
        ensures bytes { ReadConsumes (Some self.old) (Some self.new) result into.new }
        ensures gives { let n = min (length into.new) (length self.old) in
            (result ≡ Ok n) × (self.new ≡ drop n self.old) }
    {
        let n = into.len().min(self.bytes.len() - self.at);
        give(into, &self.bytes[self.at..], n);
        self.at += n;
        Ok(n)
    }
}

/// Keeps the bytes that it takes, and never fails. Contracts see the bytes that were taken, those
/// of them that were sent on, how often it was called to send on, and how often it was out of
/// memory.
#[derive(Drop)]
pub struct SteadySink {
    held: Vec<u8>,
    sent: usize,
    flushes: u64,
    refusals: u64,
}

impl Model for SteadySink {
    ghost use Rattle.std.specs.Prelude.{◌≤◌, length, take};
    ghost use Rattle.pp_input.specs.Memory.{SteadyBytes};

    ghost Value = { SteadyBytes };

    ghost view = { λ s. record {
      held = s.held.items;
      sent = take s.sent s.held.items;
      flushes = s.flushes;
      refusals = s.refusals;
    } };

    ghost invariant = { λ s. s.sent ≤ length s.held.items };
}

impl SteadySink {
    /// A sink that has taken nothing.
    pub fn new(alloc: Global) -> SteadySink
        ensures { result ≡ fresh_steady }
    {
        SteadySink {
            held: Vec::new(alloc),
            sent: 0,
            flushes: 0,
            refusals: 0,
        }
    }

    /// The bytes that were taken.
    pub fn held(&self) -> &[u8]
        ensures { result.now ≡ self.now.held }
    {
        &self.held
    }

    /// Those of them that were sent on.
    pub fn sent(&self) -> &[u8]
        ensures { result.now ≡ self.now.sent }
    {
        &self.held[..self.sent]
    }
}

impl Sink for SteadySink {
    ghost held = { λ s. Some s.held };

    ghost sent = { λ s. Some s.sent };

    ghost flushes = { λ s. s.flushes };

    ghost faults = { λ _. 0 };

    ghost refusals = { λ s. s.refusals };

    fn write(&mut self, bytes: &[u8]) -> Result<usize, SinkFault>
        ensures ok { IfOk result (λ n. (n ≡ length bytes.now)
            × (self.new ≡ record self.old { held = self.old.held ++ bytes.now })) }
        ensures err { OnErr result ((result ≡ Err OutOfMemory)
            × (self.new ≡ record self.old { refusals = counted self.old.refusals })) }
        ensures refusals { self.old.refusals ≤ self.new.refusals }
    {
        match self.held.extend_from_slice(bytes) {
            Ok(()) => Ok(bytes.len()),
            Err(_) => {
                self.refusals = self.refusals.saturating_add(1);
                Err(SinkFault::OutOfMemory)
            }
        }
    }

    fn flush(&mut self) -> Result<(), SinkFault>
        ensures { (result ≡ Ok tt) × (self.new ≡ record self.old {
          sent = self.old.held;
          flushes = counted self.old.flushes;
        }) }
    {
        self.flushes = self.flushes.saturating_add(1);
        self.sent = self.held.len();
        Ok(())
    }
}
