//! The set: keys that are in it or not, at first none.
#![tactic(auto)]

mod contexts;
mod gap;
mod members;
mod movers;
mod op;
mod set;

pub use gap::SetGap;
pub use members::Members;
pub use movers::{form, gate};
pub use op::SetOp;
pub use set::KeySet;
