//! The command `focus`: an input restricted to one of its objects, line for line.
#![tactic(auto)]

mod command;
mod ending;
mod header;
mod line;
mod located;
mod objects;
mod subject;
mod taker;

pub use command::focus;
