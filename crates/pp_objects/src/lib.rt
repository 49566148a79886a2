//! The objects of a run: one state for each of any kinds, and operations that name the place of
//! theirs.
#![tactic(auto)]

mod act;
mod acts;
mod calls;
mod form;
mod gap;
mod gapped;
mod objects;
mod one;
mod parts;
mod pieces;
mod states;

pub use act::{Act, Op};
pub use calls::{arity, make_op, method_of};
pub use form::{Form, answer_form};
pub use gap::{ActGap, Gap};
pub use objects::Objects;
pub use pieces::{Piece, Pieces, show};
pub use states::{ObjectState, ObjectStates};
