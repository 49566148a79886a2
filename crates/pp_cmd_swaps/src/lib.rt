//! The command `swaps`: for an accepted run, it writes the certificate of the exchanges that put
//! the shared log into commit order.
#![tactic(auto)]

mod command;
mod law;
mod list;
mod text;

pub use command::swaps;
pub use law::{certified_law, log_law, one_answer_law};
