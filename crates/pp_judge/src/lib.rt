//! What judges the records of an input, one after another: the trait of a judge, the examination of
//! an input by any judge, and the machine as a judge with an observer of its steps.
#![tactic(auto)]

mod cause;
mod driven;
mod finding;
mod judge;
mod law;
mod observer;
mod progress;
mod record_steps;
mod report;
mod take;

pub use driven::{Driven, ObservedRejection, Rejection, first_front, rejection_on, start_machine};
pub use finding::{Finding, examine};
pub use judge::{Judge, Judged};
pub use law::{limits_law, records_are_steps, records_extend, wider_limits_law};
pub use observer::{Blind, Observer};
pub use progress::{Progress, Tally};
pub use record_steps::{make_steps, steps_of};
pub use report::{compute_states, report_rejected};
