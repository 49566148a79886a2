//! Writing the lines of a run: its header, and its steps as records of style rules.
#![tactic(auto)]

mod body;
mod call;
mod header;
mod law;
mod line;
mod name;
mod run;
mod step;

pub use header::{header_line, header_line_2, item_value, object_values};
pub use law::{header_law, length_law, read_header_law, read_record_law, run_text_law, step_law};
pub use line::line_of;
pub use run::{add_steps, header_text};
pub use step::step_line;
