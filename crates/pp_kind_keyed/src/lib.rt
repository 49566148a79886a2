//! The common part of memories, sets and maps: objects that keep something at each key.
//!
//! Such a kind says by the record `Keys` what is at a key, and what each of its operations finds
//! and leaves there. `IsKeyed` and `IsShown` are the facts that it proves of itself, and
//! `keyed_lawful` makes all its laws of them.
#![tactic(auto)]

mod cells;

pub use cells::Cells;
