//! Whole lines out of pieces of bytes, and the sources and sinks of bytes.
#![tactic(auto)]

mod cut;
mod fault;
mod law;
mod limits;
mod lines;
mod memory_sink;
mod memory_source;
mod reach;
mod sink;
mod source;
mod steady;
mod tail;

pub use fault::LineFault;
pub use law::joined_law;
pub use limits::Limits;
pub use lines::{Line, Lines, is_blank};
pub use memory_sink::MemorySink;
pub use memory_source::MemorySource;
pub use sink::{Sink, SinkFault};
pub use source::{Failed, Source};
pub use steady::{SteadySink, SteadySource};
