//! The stack: a list of numbers, at first empty, which are added at its top and leave there.
#![tactic(auto)]

mod contexts;
mod gap;
mod movers;
mod op;
mod pile;
mod stack;

pub use gap::StackGap;
pub use movers::{form, gate, number};
pub use op::StackOp;
pub use pile::Pile;
pub use stack::Stack;
