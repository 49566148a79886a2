//! Bytes in memory, in pieces, with calls that fail.
ghost use Rattle.std.specs.Prelude.{◌≡◌, ◌≤◌, Some, Ok, IsErr, length, take, drop, slice_get};
ghost use Rattle.std.specs.Prelude.{Contains, IfOk, OnErr, OnOk, IsTrue, ◌↔◌};
ghost use Rattle.std.specs.Io.KnownBytes.{ReadConsumes};
ghost use Rattle.pp_input.specs.Faults.{HasRisen};
ghost use Rattle.pp_input.specs.Memory.{ReadFails, most_of, given_by, after_read, after_failed_read};
ghost use Rattle.pp_input.specs.Memory.{fresh_source};

use crate::source::{Failed, Source};
use std::marker::Model;

/// Bytes in memory, in pieces. The calls whose numbers, from 0, are in `failing` fail.
#[derive(Drop)]
pub struct MemorySource {
    bytes: Vec<u8>,
    at: usize,
    pieces: Vec<usize>,
    failing: Vec<u64>,
    calls: u64,
    faults: u64,
}

impl Model for MemorySource {
    ghost use Rattle.std.specs.Prelude.{◌≤◌, length, drop};
    ghost use Rattle.pp_input.specs.Memory.{SourceInMemory};

    ghost Value = { SourceInMemory };

    ghost view = { λ s. record {
      left = drop s.at s.bytes.items;
      pieces = s.pieces.items;
      failing = s.failing.items;
      calls = s.calls;
      faults = s.faults;
    } };

    ghost invariant = { λ s. s.at ≤ length s.bytes.items };
}

impl MemorySource {
    /// A source that has returned nothing yet.
    pub fn new(bytes: Vec<u8>, pieces: Vec<usize>, failing: Vec<u64>) -> MemorySource
        ensures { result ≡ fresh_source bytes.items pieces.items failing.items }
    {
        MemorySource {
            bytes,
            at: 0,
            pieces,
            failing,
            calls: 0,
            faults: 0,
        }
    }
}

pub(crate) fn is_among(calls: &[u64], call: u64) -> bool
    ensures { IsTrue result ↔ Contains calls.now call }
{
    calls.iter().any(|known| *known == call)
}

fn most_at(pieces: &[usize], call: u64, room: usize) -> usize
    ensures { result ≡ most_of (slice_get pieces.now call) room }
{
    match pieces.get(call as usize) {
        Some(most) => (*most).max(1),
        None => room,
    }
}

/// Copies the first bytes.
pub(crate) fn give(into: &mut [u8], from: &[u8], n: usize)
    requires room { n ≤ length into.old }
    requires there { n ≤ length from.now }
    ensures { take n into.new ≡ take n from.now }
{
    into[..n].copy_from_slice(&from[..n]);
}

impl Source for MemorySource {
    ghost left = { λ s. Some s.left };

    ghost faults = { λ s. s.faults };

    fn read(&mut self, into: &mut [u8]) -> Result<usize, Failed>
        ensures bound { IfOk result (λ n. n ≤ length into.new) }
        ensures bytes { ReadConsumes (Some self.old.left) (Some self.new.left) result into.new }
        ensures count { self.old.faults ≤ self.new.faults }
        ensures failed { OnErr result (HasRisen self.old.faults self.new.faults) }
        ensures faultless { OnOk result (self.new.faults ≡ self.old.faults) }
        ensures fails { ReadFails self.old →
            IsErr result × (self.new ≡ after_failed_read self.old) }
        ensures gives { ¬ ReadFails self.old →
            let n = given_by self.old (length into.new) in
            (result ≡ Ok n) × (self.new ≡ after_read self.old n) }
    {
        let call = self.calls;
        self.calls = call.saturating_add(1);
        if is_among(&self.failing, call) {
            self.faults = self.faults.saturating_add(1);
            return Err(Failed);
        }
        let room = into.len();
        let n = room
            .min(most_at(&self.pieces, call, room))
            .min(self.bytes.len() - self.at);
        give(into, &self.bytes[self.at..], n);
        self.at += n;
        Ok(n)
    }
}
