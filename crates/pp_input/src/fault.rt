//! Limits of an input that are passed.
/// Why a piece of an input is not taken.
#[derive(Clone, Copy, Debug, PartialEq, Eq)]
pub enum LineFault {
    /// A line has more bytes than the limit allows.
    LineTooLong { line: u32 },
    /// The input has more lines than the limit allows.
    TooManyLines { line: u32 },
    /// The input has more bytes than the limit allows.
    TooLong { line: u32 },
    /// Out of memory.
    OutOfMemory,
}
