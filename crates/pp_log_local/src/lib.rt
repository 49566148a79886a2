//! The local log of an open transaction.
#![tactic(auto)]

mod frontiers;
mod local;
mod movers;
mod own;

pub use local::Local;
pub use pp_core::{LocalEntry, Mark};
pub use pp_log::Removed;
