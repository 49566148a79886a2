//! The map: numbers at keys, at first none.
#![tactic(auto)]

mod contexts;
mod gap;
mod key_map;
mod movers;
mod op;

pub use gap::MapGap;
pub use key_map::KeyMap;
pub use movers::{form, gate, number};
pub use op::MapOp;
