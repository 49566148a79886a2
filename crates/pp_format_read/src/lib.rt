//! Reading the lines of a run: the header, and the records after it.
#![tactic(auto)]

mod body;
mod boosted;
mod call;
mod dependent;
mod fault;
mod hardware;
mod header;
mod item;
mod members;
mod optimistic;
mod pattern;
mod record;
mod rules;
mod start;

pub use fault::RecordFault;
pub use header::{Header, catalog_in, read_header, start_law};
pub use item::{id_that_is, item_in};
pub use members::{array_in, member_in, object_on, whole_in, whole_number};
pub use record::read_record;
pub use start::Start;
