//! Reading the lines of an input, however it is cut, and why it stops; and the report of a fault.
#![tactic(auto)]

mod cause;
mod read;
mod report;
mod stop;
mod taker;
mod words;

pub use cause::Cause;
pub use read::read_lines;
pub use report::fault;
pub use stop::{Failure, Stop};
pub use taker::TakesLines;
