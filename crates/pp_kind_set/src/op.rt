//! The operations of a set.
ghost use Rattle.std.specs.Prelude.{◌≡◌};
ghost use Rattle.pp_kind_set.specs.Operations.{key_of, bit_before, bit_after, call_of, recorded_by};
ghost use Rattle.pp_kind_set.specs.Operations.{is_ranged};

use pp_core::{Answer, Call, Method};
use pp_kind::in_range;

/// An operation on a set, with its recorded result.
#[derive(Clone, Copy, Debug, PartialEq, Eq)]
pub enum SetOp {
    /// Puts a key in, which changes the set if it was not in.
    Add { key: i64, changed: bool },
    /// Takes a key out, which changes the set if it was in.
    Remove { key: i64, changed: bool },
    /// Reads whether a key is in.
    Contains { key: i64, present: bool },
}

impl SetOp {
    /// Its key.
    #[inline(always)]
    pub fn key(&self) -> i64
        ensures { result ≡ key_of self.now }
    {
        match *self {
            SetOp::Add { key, changed: _ } => key,
            SetOp::Remove { key, changed: _ } => key,
            SetOp::Contains { key, present: _ } => key,
        }
    }

    /// Whether the key was in before it, by its result.
    #[inline(always)]
    pub fn was_present(&self) -> bool
        ensures { result ≡ bit_before self.now }
    {
        match *self {
            SetOp::Add { key: _, changed } => !changed,
            SetOp::Remove { key: _, changed } => changed,
            SetOp::Contains { key: _, present } => present,
        }
    }

    /// Whether the key is in after it.
    #[inline(always)]
    pub fn is_present(&self) -> bool
        ensures { result ≡ bit_after self.now }
    {
        match *self {
            SetOp::Add { key: _, changed: _ } => true,
            SetOp::Remove { key: _, changed: _ } => false,
            SetOp::Contains { key: _, present } => present,
        }
    }

    /// Whether all its numbers may be in a record.
    pub fn ranged(&self) -> bool
        ensures { result ≡ is_ranged self.now }
    {
        in_range(self.key())
    }

    /// Its call, at the object 0.
    pub fn call(&self) -> Call
        ensures { result ≡ call_of self.now }
    {
        let method = match self {
            SetOp::Add { key: _, changed: _ } => Method::Add,
            SetOp::Remove { key: _, changed: _ } => Method::Remove,
            SetOp::Contains { key: _, present: _ } => Method::Contains,
        };
        Call {
            object: 0,
            method,
            first: self.key(),
            second: 0,
            third: 0,
        }
    }

    /// The result that it records.
    pub fn recorded(&self) -> Answer
        ensures { result ≡ recorded_by self.now }
    {
        match *self {
            SetOp::Add { key: _, changed } => Answer::Truth(changed),
            SetOp::Remove { key: _, changed } => Answer::Truth(changed),
            SetOp::Contains { key: _, present } => Answer::Truth(present),
        }
    }
}
