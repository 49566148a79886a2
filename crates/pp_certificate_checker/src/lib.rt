//! A checker of certificates, which say in which order of its entries a log may be run. It uses the
//! sequential objects and their movers only, and knows no machine.
#![tactic(auto)]

mod checker;
mod entry;
mod exchange;
mod held;
mod law;
mod line;
mod refusal;
mod shown;

pub use checker::Checker;
pub use law::{certificate_law, checked_law, read_law, rows_law, taken_law};
pub use line::Line;
pub use refusal::Refusal;
pub use shown::Shown;
