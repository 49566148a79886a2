//! The memory: a whole number at each address, at first 0.
#![tactic(auto)]

mod contexts;
mod gap;
mod mem;
mod memory;
mod movers;
mod op;
mod undo;

pub use gap::MemGap;
pub use mem::Mem;
pub use memory::Memory;
pub use movers::{gate, gate_form, number};
pub use op::MemOp;
pub use undo::Undo;
