//! Certificates of exchanges: writing and reading their lines, and checking the lines of an input
//! as those of a certificate.
#![tactic(auto)]

mod checking;
mod law;
mod line;
mod read;
mod taker;
mod value;

pub use checking::Checking;
pub use law::{accepted_law, spells_law};
pub use line::{entry_line, head_line, row_line, serial_line};
pub use read::{read_line, read_objects};
pub use taker::CheckFault;
