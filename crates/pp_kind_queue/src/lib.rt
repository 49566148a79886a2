//! The queue: a list of numbers, at first empty, which are added at its back and leave at its
//! front.
#![tactic(auto)]

mod contexts;
mod fifo;
mod gap;
mod movers;
mod op;
mod queue;

pub use fifo::Fifo;
pub use gap::QueueGap;
pub use movers::{form, gate, number};
pub use op::QueueOp;
pub use queue::Queue;
