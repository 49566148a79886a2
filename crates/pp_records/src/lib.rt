//! The records of a run, and their steps: the definitions, and proofs of their laws.
#![tactic(auto)]

mod run_record;

pub use run_record::RunRecord;
