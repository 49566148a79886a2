//! The command `judge`: the report of `certify` for a run of any number of steps. In styles hardware
//! and dependent a run has at most 4,294,967,295.
#![tactic(auto)]

mod boosted;
mod command;
mod driven;
mod engine;
mod law;
mod limits;
mod optimistic;
mod rejection;
mod rules;
mod run_judge;
mod style_judge;

pub use command::judge;
pub use law::judgement_law;
