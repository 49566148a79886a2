//! The counter: a whole number, at first 0.
#![tactic(auto)]

mod contexts;
mod count;
mod gap;
mod movers;
mod op;

pub use count::Count;
pub use gap::CounterGap;
pub use movers::{gate, gate_form, number};
pub use op::CounterOp;
