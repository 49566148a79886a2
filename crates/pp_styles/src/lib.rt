//! The styles of recording: from the records of a run to the steps of the machine that they stand
//! for.
#![tactic(auto)]

mod any_front;
mod boosted;
mod boxed_front;
mod dependent;
mod drive;
mod drops;
mod entries_on;
mod front;
mod hardware;
mod id_lists;
mod looks;
mod notes;
mod optimistic;
mod places;
mod published;
mod pulled;
mod pulls;
mod recorded;
mod rules;
mod source_set;
mod step_list;
mod taken;
mod taken_from;
mod tracked;
mod walks;

pub use any_front::AnyFront;
pub use boosted::Boosted;
pub use boxed_front::BoxedFront;
pub use dependent::Dependent;
pub use drive::{Halt, do_steps};
pub use front::Front;
pub use hardware::Hardware;
pub use optimistic::Optimistic;
pub use pulls::refresh;
pub use rules::Rules;
pub use step_list::StepList;
pub use tracked::Tracked;
pub use walks::{back, pushall};
