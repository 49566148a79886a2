//! The operations of a map.
ghost use Rattle.std.specs.Prelude.{◌≡◌};
ghost use Rattle.pp_kind_map.specs.Operations.{key_of, found_by, left_by, call_of, recorded_by};
ghost use Rattle.pp_kind_map.specs.Operations.{is_ranged};

use pp_core::{Answer, Call, Method};
use pp_kind::{answer_of, in_range, is_ranged_found};

/// An operation on a map, with its recorded result: what it found at its key.
#[derive(Clone, Copy, Debug, PartialEq, Eq)]
pub enum MapOp {
    /// Sets the value at a key.
    Put {
        key: i64,
        value: i64,
        was: Option<i64>,
    },
    /// Reads the value at a key.
    Get {
        key: i64,
        found: Option<i64>,
    },
    /// Takes the value at a key out.
    Remove {
        key: i64,
        was: Option<i64>,
    },
}

impl MapOp {
    /// Its key.
    #[inline(always)]
    pub fn key(&self) -> i64
        ensures { result ≡ key_of self.now }
    {
        match *self {
            MapOp::Put {
                key,
                value: _,
                was: _,
            } => key,
            MapOp::Get { key, found: _ } => key,
            MapOp::Remove { key, was: _ } => key,
        }
    }

    /// The value that it found at its key, by its recorded result.
    #[inline(always)]
    pub fn found(&self) -> Option<i64>
        ensures { result ≡ found_by self.now }
    {
        match *self {
            MapOp::Put {
                key: _,
                value: _,
                was,
            } => was,
            MapOp::Get { key: _, found } => found,
            MapOp::Remove { key: _, was } => was,
        }
    }

    /// The value that it leaves there.
    #[inline(always)]
    pub fn left(&self) -> Option<i64>
        ensures { result ≡ left_by self.now }
    {
        match *self {
            MapOp::Put {
                key: _,
                value,
                was: _,
            } => Some(value),
            MapOp::Get { key: _, found } => found,
            MapOp::Remove { key: _, was: _ } => None,
        }
    }

    /// Whether all its numbers may be in a record.
    pub fn ranged(&self) -> bool
        ensures { result ≡ is_ranged self.now }
    {
        match *self {
            MapOp::Put { key, value, was } => {
                in_range(key) && in_range(value) && is_ranged_found(was)
            }
            MapOp::Get { key, found } => in_range(key) && is_ranged_found(found),
            MapOp::Remove { key, was } => in_range(key) && is_ranged_found(was),
        }
    }

    /// Its call, at the object 0.
    pub fn call(&self) -> Call
        ensures { result ≡ call_of self.now }
    {
        let (method, second) = match *self {
            MapOp::Put {
                key: _,
                value,
                was: _,
            } => (Method::Put, value),
            MapOp::Get { key: _, found: _ } => (Method::Get, 0),
            MapOp::Remove { key: _, was: _ } => (Method::Remove, 0),
        };
        Call {
            object: 0,
            method,
            first: self.key(),
            second,
            third: 0,
        }
    }

    /// The result that it records.
    pub fn recorded(&self) -> Answer
        ensures { result ≡ recorded_by self.now }
    {
        answer_of(self.found())
    }
}
