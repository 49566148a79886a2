//! The report of a run.
#![tactic(auto)]

mod evidence;
mod run;
mod verdict;

pub use run::{accepted, write_first_line, write_transactions};
pub use verdict::rejected;
