//! Walks: which calls of a transaction follow its body.
#![tactic(auto)]

mod matching;
mod moving;
mod position;
mod walk;

pub use pp_core::{Body, Call, OutOfMemory, Parts, Pattern};
pub use walk::Walk;
