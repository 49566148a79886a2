//! The command `certify`: the verdict of an input, with the serial run of an accepted one.
#![tactic(auto)]

mod command;

pub use command::certify;
