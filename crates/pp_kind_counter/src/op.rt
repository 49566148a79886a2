//! The operations of a counter.
ghost use Rattle.std.specs.Prelude.{◌≡◌};
ghost use Rattle.pp_kind_counter.specs.Operations.{shift_of, call_of, recorded_by, is_ranged};

use pp_core::{Answer, Call, Method};
use pp_kind::in_range;

/// An operation on a counter, with its recorded result.
#[derive(Clone, Copy, Debug, PartialEq, Eq)]
pub enum CounterOp {
    /// Adds a number.
    Add { by: i64 },
    /// Reads the number.
    Get { value: i64 },
    /// Adds a number, and reads what was there before.
    FetchAdd { by: i64, was: i64 },
}

impl CounterOp {
    /// The number that it adds.
    #[inline(always)]
    pub fn shift(&self) -> i64
        ensures { result ≡ shift_of self.now }
    {
        match *self {
            CounterOp::Add { by } => by,
            CounterOp::Get { value: _ } => 0,
            CounterOp::FetchAdd { by, was: _ } => by,
        }
    }

    /// Whether all its numbers may be in a record.
    pub fn ranged(&self) -> bool
        ensures { result ≡ is_ranged self.now }
    {
        match *self {
            CounterOp::Add { by } => in_range(by),
            CounterOp::Get { value } => in_range(value),
            CounterOp::FetchAdd { by, was } => in_range(by) && in_range(was),
        }
    }

    /// Its call, at the object 0.
    pub fn call(&self) -> Call
        ensures { result ≡ call_of self.now }
    {
        let (method, first) = match *self {
            CounterOp::Add { by } => (Method::Add, by),
            CounterOp::Get { value: _ } => (Method::Get, 0),
            CounterOp::FetchAdd { by, was: _ } => (Method::FetchAdd, by),
        };
        Call {
            object: 0,
            method,
            first,
            second: 0,
            third: 0,
        }
    }

    /// The result that it records.
    pub fn recorded(&self) -> Answer
        ensures { result ≡ recorded_by self.now }
    {
        match *self {
            CounterOp::Add { by: _ } => Answer::None,
            CounterOp::Get { value } => Answer::Number(i128::from(value)),
            CounterOp::FetchAdd { by: _, was } => Answer::Number(i128::from(was)),
        }
    }
}
