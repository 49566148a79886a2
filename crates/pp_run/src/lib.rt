//! A whole run of the program: from its arguments and its input to its status and its output.
#![tactic(auto)]

mod law;
mod perform;
mod program;
mod words;
mod write;

pub use law::words_law;
pub use program::run;
