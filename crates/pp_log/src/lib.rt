//! A log of entries, each with an id and an operation, which keeps the state that its operations
//! lead to, and from which an entry may be taken out.
#![tactic(auto)]

mod batch;
mod carry;
mod entries;
mod gap;
mod id_table;
mod index;
mod leave;
mod log;
mod place;
mod room;
mod run;
mod sides;
mod take_out;

pub use log::Log;
pub use place::Removed;
pub use sides::{LocalSide, SharedSide, Side};
