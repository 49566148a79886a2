//! The command `views`: the attempts of a run, also those that were undone. Each has a number of
//! committed transactions after which its results are what the objects return.
#![tactic(auto)]

mod command;
mod law;
mod report;
mod run_steps;
mod text;

pub use command::views;
pub use law::views_law;
