//! The machine: its steps, their criteria and their effects.
#![tactic(auto)]

mod course;
mod detail;
mod find;
mod laws;
mod machine;
mod transactions;

pub use detail::{BoxedContext, Detail, swap_detail};
pub use laws::{
    alone_law, evidence_law, kept_law, same_state_law, serial_law, simulation_law,
    start_evidence_law, verdict_law, views_law, written_law,
};
pub use machine::{Machine, Outcome};
pub use pp_core::{
    Committed, CommittedTx, LocalEntry, Mark, Rule, SharedEntry, Step, Ticks, rule_of,
};
pub use pp_log_local::Local;
pub use pp_log_shared::Shared;
