//! The shared log of a run.
#![tactic(auto)]

mod numbers;
mod open_parts;
mod shared;
mod tally;

pub use pp_core::SharedEntry;
pub use pp_log::Removed;
pub use shared::Shared;
