//! The types that every layer names: names, kinds, calls, entries, steps, lists, texts, the counter of
//! ticks, and values and sets of ids.
#![tactic(auto)]

mod answer;
mod body;
mod call;
mod catalog;
mod entry;
mod id_map;
mod id_set;
mod limits;
mod member;
mod name;
mod sequence;
mod status;
mod step;
mod text;
mod ticks;

pub use answer::{Answer, OutOfMemory};
pub use body::{Body, Parts, Pattern};
pub use call::{Call, Kind, Kinds, Method, Style};
pub use catalog::Catalog;
pub use entry::{Committed, CommittedTx, Item, Items, LocalEntry, Mark, Ops, SharedEntry};
pub use id_map::IdMap;
pub use id_set::IdSet;
pub use limits::{
    LONGEST_LINE, LONGEST_NAME, MOST_BODY_NODES, MOST_BYTES, MOST_DEPTH, MOST_LINES, MOST_OBJECTS,
    MOST_START, MOST_STEPS, MOST_SWAPS, MOST_TRANSACTIONS, MOST_VIEWED,
};
pub use member::Member;
pub use name::Name;
pub use sequence::Sequence;
pub use status::Status;
pub use step::{Rule, Step, rule_of};
pub use text::{Text, Words};
pub use ticks::Ticks;
