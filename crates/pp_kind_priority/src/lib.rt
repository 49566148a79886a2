//! The priority queue: numbers in ascending order, at first none, of which the least leaves first.
#![tactic(auto)]

mod bag;
mod contexts;
mod gap;
mod movers;
mod op;
mod prio;

pub use bag::Bag;
pub use gap::PrioGap;
pub use movers::{form, gate, number};
pub use op::PrioOp;
pub use prio::Prio;
