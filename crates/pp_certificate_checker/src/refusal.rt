//! Why a line is refused.
use pp_core::Answer;

/// Why a line is refused.
#[derive(Clone, Copy, Debug, PartialEq, Eq)]
pub enum Refusal {
    /// It is not of the form of its place, or after the last place.
    NotCertificate,
    /// The objects return this result for the entry of this id, and not the recorded one.
    Gives { entry: u32, answer: Answer },
    /// A position, or the serial number, is past the last entry.
    Position,
    /// The second of these entries does not move left over the first.
    Pair { first: u32, second: u32 },
}
