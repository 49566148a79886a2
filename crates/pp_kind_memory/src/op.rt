//! The operations of a memory.
ghost use Rattle.std.specs.Prelude.{◌≡◌};
ghost use Rattle.pp_kind_memory.specs.Operations.{address_of, is_write, call_of, recorded_by, is_ranged};
ghost use Rattle.pp_kind_memory.specs.Operations.{in_clique, writes_at};

use pp_core::{Answer, Call, Method};
use pp_kind::in_range;

/// An operation on a memory, with its recorded result.
#[derive(Clone, Copy, Debug, PartialEq, Eq)]
pub enum MemOp {
    /// Reads the number at an address.
    Read {
        at: i64,
        value: i64,
    },
    /// Writes a number at an address.
    Write {
        at: i64,
        value: i64,
    },
    /// Writes a number at an address if the expected one is there. The result is whether it does.
    Cas {
        at: i64,
        expected: i64,
        new: i64,
        done: bool,
    },
}

impl MemOp {
    /// Its address.
    #[inline(always)]
    pub fn address(&self) -> i64
        ensures { result ≡ address_of self.now }
    {
        match *self {
            MemOp::Read { at, value: _ } => at,
            MemOp::Write { at, value: _ } => at,
            MemOp::Cas { at, .. } => at,
        }
    }

    /// Whether it writes whatever is there.
    #[inline]
    pub fn is_write(&self) -> bool
        ensures { result ≡ is_write self.now }
    {
        match *self {
            MemOp::Read { at: _, value: _ } => false,
            MemOp::Write { at: _, value: _ } => true,
            MemOp::Cas { .. } => false,
        }
    }

    /// Whether it writes at this address, whatever is there.
    #[inline]
    pub fn writes_at(&self, address: i64) -> bool
        ensures { result ≡ writes_at self.now address }
    {
        match *self {
            MemOp::Read { at: _, value: _ } => false,
            MemOp::Write { at, value: _ } => at == address,
            MemOp::Cas { .. } => false,
        }
    }

    /// Whether it reads, or is a compare-and-swap that failed: these swap with one another, whatever
    /// their numbers.
    #[inline]
    pub fn in_clique(&self) -> bool
        ensures { result ≡ in_clique self.now }
    {
        match *self {
            MemOp::Read { at: _, value: _ } => true,
            MemOp::Write { at: _, value: _ } => false,
            MemOp::Cas { done, .. } => !done,
        }
    }

    /// Whether all its numbers may be in a record.
    pub fn ranged(&self) -> bool
        ensures { result ≡ is_ranged self.now }
    {
        match *self {
            MemOp::Read { at, value } => in_range(at) && in_range(value),
            MemOp::Write { at, value } => in_range(at) && in_range(value),
            MemOp::Cas {
                at,
                expected,
                new,
                ..
            } => { in_range(at) && in_range(expected) && in_range(new) }
        }
    }

    /// Its call, at the object 0.
    pub fn call(&self) -> Call
        ensures { result ≡ call_of self.now }
    {
        let (method, first, second, third) = match *self {
            MemOp::Read { at, value: _ } => (Method::Read, at, 0, 0),
            MemOp::Write { at, value } => (Method::Write, at, value, 0),
            MemOp::Cas {
                at,
                expected,
                new,
                ..
            } => (Method::Cas, at, expected, new),
        };
        Call {
            object: 0,
            method,
            first,
            second,
            third,
        }
    }

    /// The result that it records.
    pub fn recorded(&self) -> Answer
        ensures { result ≡ recorded_by self.now }
    {
        match *self {
            MemOp::Read { at: _, value } => Answer::Number(i128::from(value)),
            MemOp::Write { at: _, value: _ } => Answer::None,
            MemOp::Cas { done, .. } => Answer::Truth(done),
        }
    }
}
