//! Parts of objects that do not depend on one another: an operation is legal, or not, whatever was done
//! to other parts.
#![tactic(auto)]

mod part_by_part;

pub use part_by_part::{PartByPart, parts_stand_alone};
