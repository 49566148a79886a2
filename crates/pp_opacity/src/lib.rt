//! Whether an accepted run is opaque, and its first zombie.
#![tactic(auto)]

mod attempts;
mod explained;
mod replay;
mod serial;
mod trial;
mod zombie;

pub use zombie::{Zombie, first_zombie};
