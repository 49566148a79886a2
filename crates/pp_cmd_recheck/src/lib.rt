//! The command `recheck`: it checks a certificate of exchanges, and needs no machine to do so.
#![tactic(auto)]

mod check_input;
mod command;
mod holds;
mod law;
mod refused;
mod report;

pub use command::recheck;
pub use law::recheck_law;
