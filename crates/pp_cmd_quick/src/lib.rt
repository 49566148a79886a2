//! The command `quick`: it decides a boosted run from its records, without their steps.
#![tactic(auto)]

mod command;
mod decider;
mod law;
mod report;

pub use command::quick;
pub use decider::start_quick;
pub use law::decision_law;
