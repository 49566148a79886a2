//! Optimistic runs are decided from the serial state alone, without a log.
#![tactic(auto)]

mod anew;
mod begin;
mod by_part;
mod commit;
mod laws;
mod many;
mod op;
mod parts;
mod past;
mod refresh;
mod snapshots;
mod start;
mod steps;
mod take;
mod undo;

pub use by_part::{ByPart, Numbered, PartOps};
pub use laws::{taken_law, tried_costs_law};
pub use op::{count_at, own_at, seen_at};
pub use parts::Parts;
pub use past::{Done, Made, Past};
pub use snapshots::Snapshots;
