//! Boosted runs are decided from the shared log alone, without their local logs.
#![tactic(auto)]

mod begin;
mod commit;
mod commits;
mod laws;
mod op;
mod open_tx;
mod own;
mod part_filter;
mod parts;
mod quick;
mod seen;
mod slots;
mod start;
mod steps;
mod take;
mod undo;

pub use laws::{
    boosted_law, brief_law, decided_law, failure_law, front_law, leave_law, placed_law, reader_law,
    sum_law,
};
pub use open_tx::given_back;
pub use own::Own;
pub use parts::{Commits, OpenTx, Parts};
pub use pp_records::RunRecord;
pub use quick::Quick;
pub use seen::Seen;
pub use slots::{Slots, find_open, put_back, put_new, take_out};
