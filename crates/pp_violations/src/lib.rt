//! The first step of a boosted record that violates a criterion, found without local logs.
#![tactic(auto)]

mod begin;
mod ends;
mod find;
mod op;
mod pull;
mod view;
mod violation;

pub use find::find_violation;
pub use pull::search_pulls;
pub use view::{add_items, committed_at};
pub use violation::{Broken, Violation, alone, at_step, at_step_if, bare};
