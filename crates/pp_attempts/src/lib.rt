//! The operations that each attempt of a run had applied, and after how many committed transactions
//! its results are what the object returns.
#![tactic(auto)]

mod candidates;
mod collect;
mod law;
mod order;
mod own;
mod peak;
mod top;
mod trial;
mod view;

pub use law::{applied_law, kept_peak_law, one_view_law, orderly_law};
pub use peak::{Peak, PeakFault, Peaks, peaks_of};
pub use view::{View, Views, explain};
