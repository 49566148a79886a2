//! The command `expand`: the steps of a run, as a run of style rules.
#![tactic(auto)]

mod command;

pub use command::expand;
