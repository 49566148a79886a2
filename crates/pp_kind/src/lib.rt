//! What a kind of objects promises: its calls and the laws that they obey, tables of the conditions
//! under which two operations swap, parts of objects, and the state that a list of operations leads
//! to.
#![tactic(auto)]

mod found;
mod gapped;
mod gate;
mod joined;
mod label;
mod part;
mod parted;
mod permutation;
mod range;
mod samples;
mod serial_run;
mod spec;
mod table;
mod takes_back;

pub use found::{answer_of, is_ranged_found};
pub use gapped::{Crossed, Gapped, Left};
pub use gate::{Gate, Reading};
pub use label::Label;
pub use part::Part;
pub use parted::{Parted, other_parts_swap};
pub use permutation::permutation_law;
pub use range::{GREATEST_NUMBER, MOST_OPERATIONS, in_range};
pub use samples::{MOST_SAMPLES, Samples};
pub use serial_run::{SerialList, serial, serial_state, state_after};
pub use spec::{
    Applied, Context, Placed, Spec, commuting_operations_swap, futures_tell_states,
    other_places_swap, undone_behind_others, unfitting_operations_swap,
};
pub use table::{Condition, Figures, MoverTable};
pub use takes_back::TakesBack;
