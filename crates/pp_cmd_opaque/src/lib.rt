//! The command `opaque`: whether an accepted run is opaque, and its first zombie if it is not.
#![tactic(auto)]

mod command;
mod kept_run;
mod report;
mod text;

pub use command::opaque;
