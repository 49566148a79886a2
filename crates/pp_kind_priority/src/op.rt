//! The operations of a priority queue.
ghost use Rattle.std.specs.Prelude.{◌≡◌};
ghost use Rattle.pp_kind_priority.specs.Operations.{found_by, call_of, recorded_by, is_ranged, in_clique};

use pp_core::{Answer, Call, Method};
use pp_kind::{answer_of, in_range, is_ranged_found};

/// An operation on a priority queue, with its recorded result.
#[derive(Clone, Copy, Debug, PartialEq, Eq)]
pub enum PrioOp {
    /// Adds a value, also if it is there.
    Insert { value: i64 },
    /// Takes one of the least value, or finds that there is none.
    Take { value: Option<i64> },
    /// Looks at the least value, or finds that there is none.
    Least { value: Option<i64> },
}

impl PrioOp {
    /// Whether all its numbers may be in a record.
    pub fn ranged(&self) -> bool
        ensures { result ≡ is_ranged self.now }
    {
        match *self {
            PrioOp::Insert { value } => in_range(value),
            PrioOp::Take { value } => is_ranged_found(value),
            PrioOp::Least { value } => is_ranged_found(value),
        }
    }

    /// The value that it finds, if it finds one.
    pub fn found(&self) -> Option<i64>
        ensures { result ≡ found_by self.now }
    {
        match *self {
            PrioOp::Insert { value: _ } => None,
            PrioOp::Take { value } => value,
            PrioOp::Least { value } => value,
        }
    }

    /// Whether it inserts: insertions swap with one another, whatever their values.
    #[inline]
    pub fn in_clique(&self) -> bool
        ensures { result ≡ in_clique self.now }
    {
        match *self {
            PrioOp::Insert { value: _ } => true,
            PrioOp::Take { value: _ } => false,
            PrioOp::Least { value: _ } => false,
        }
    }

    /// Its call, at the object 0.
    pub fn call(&self) -> Call
        ensures { result ≡ call_of self.now }
    {
        let (method, first) = match *self {
            PrioOp::Insert { value } => (Method::Insert, value),
            PrioOp::Take { value: _ } => (Method::Take, 0),
            PrioOp::Least { value: _ } => (Method::Least, 0),
        };
        Call {
            object: 0,
            method,
            first,
            second: 0,
            third: 0,
        }
    }

    /// The result that it records.
    pub fn recorded(&self) -> Answer
        ensures { result ≡ recorded_by self.now }
    {
        match *self {
            PrioOp::Insert { value: _ } => Answer::None,
            PrioOp::Take { value } => answer_of(value),
            PrioOp::Least { value } => answer_of(value),
        }
    }
}
