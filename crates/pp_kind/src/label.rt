//! The parts of operations that gates read.

/// The form of an operation that gates know, and the one number of it that they read.
#[derive(Clone, Copy, Debug, PartialEq, Eq)]
pub struct Label {
    /// Its form, among those that the gates of its kind know.
    pub form: usize,
    /// The number that these read.
    pub number: i128,
}
