//! The command `drill N`: the run that it makes, the laws that this run is accepted and read back,
//! and the report that it prints.
#![tactic(auto)]

mod command;
mod law;
mod objects;
mod pairs;
mod report;
mod steps;
mod transaction;
mod write;

pub use command::drill;
pub use law::{drill_law, prints_law, read_back_law};
pub use write::drill_run;
