//! The operations of a queue.
ghost use Rattle.std.specs.Prelude.{◌≡◌};
ghost use Rattle.pp_kind_queue.specs.Operations.{call_of, recorded_by, is_ranged};

use pp_core::{Answer, Call, Method};
use pp_kind::{answer_of, in_range, is_ranged_found};

/// An operation on a queue, with its recorded result.
#[derive(Clone, Copy, Debug, PartialEq, Eq)]
pub enum QueueOp {
    /// Adds an item at the back.
    Enq { value: i64 },
    /// Takes the item at the front, or finds that there is none.
    Deq { value: Option<i64> },
}

impl QueueOp {
    /// Whether all its numbers may be in a record.
    pub fn ranged(&self) -> bool
        ensures { result ≡ is_ranged self.now }
    {
        match *self {
            QueueOp::Enq { value } => in_range(value),
            QueueOp::Deq { value } => is_ranged_found(value),
        }
    }

    /// Its call, at the object 0.
    pub fn call(&self) -> Call
        ensures { result ≡ call_of self.now }
    {
        let (method, first) = match *self {
            QueueOp::Enq { value } => (Method::Enq, value),
            QueueOp::Deq { value: _ } => (Method::Deq, 0),
        };
        Call {
            object: 0,
            method,
            first,
            second: 0,
            third: 0,
        }
    }

    /// The result that it records.
    pub fn recorded(&self) -> Answer
        ensures { result ≡ recorded_by self.now }
    {
        match *self {
            QueueOp::Enq { value: _ } => Answer::None,
            QueueOp::Deq { value } => answer_of(value),
        }
    }
}
