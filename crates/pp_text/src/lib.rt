//! Writing results, operations and states as text.
#![tactic(auto)]

mod answer;
mod lines;
mod number;
mod op;
mod state;

pub use answer::{answer_text, write_answer};
pub use lines::{write_op_lines, write_state_lines};
pub use number::{write_integer, write_number};
pub use op::{op_text, write_op};
pub use state::{state_line, write_state};
