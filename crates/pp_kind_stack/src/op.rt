//! The operations of a stack.
ghost use Rattle.std.specs.Prelude.{◌≡◌};
ghost use Rattle.pp_kind_stack.specs.Operations.{call_of, recorded_by, is_ranged};

use pp_core::{Answer, Call, Method};
use pp_kind::{answer_of, in_range, is_ranged_found};

/// An operation on a stack, with its recorded result.
#[derive(Clone, Copy, Debug, PartialEq, Eq)]
pub enum StackOp {
    /// Adds an item at the top.
    Push { value: i64 },
    /// Takes the item at the top, or finds that there is none.
    Pop { value: Option<i64> },
}

impl StackOp {
    /// Whether all its numbers may be in a record.
    pub fn ranged(&self) -> bool
        ensures { result ≡ is_ranged self.now }
    {
        match *self {
            StackOp::Push { value } => in_range(value),
            StackOp::Pop { value } => is_ranged_found(value),
        }
    }

    /// Its call, at the object 0.
    pub fn call(&self) -> Call
        ensures { result ≡ call_of self.now }
    {
        let (method, first) = match *self {
            StackOp::Push { value } => (Method::StackPush, value),
            StackOp::Pop { value: _ } => (Method::StackPop, 0),
        };
        Call {
            object: 0,
            method,
            first,
            second: 0,
            third: 0,
        }
    }

    /// The result that it records.
    pub fn recorded(&self) -> Answer
        ensures { result ≡ recorded_by self.now }
    {
        match *self {
            StackOp::Push { value: _ } => Answer::None,
            StackOp::Pop { value } => answer_of(value),
        }
    }
}
