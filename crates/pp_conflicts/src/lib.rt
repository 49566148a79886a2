//! The first step of an optimistic record that violates a criterion, found without local logs.
#![tactic(auto)]

mod begin;
mod commit;
mod find;
mod op;
mod pull;
mod quit;
mod refresh;
mod view;

pub use find::find_conflict;
pub use pp_violations::Violation;
