//! The limits of an input, of a run and of what is printed.

/// The most bytes of an input.
pub const MOST_BYTES: u64 = 268_435_456;

/// The most lines of an input.
pub const MOST_LINES: u32 = 200_001;

/// The most bytes of a line, without its byte 10.
pub const LONGEST_LINE: u64 = 65_536;

/// The most objects of a run.
pub const MOST_OBJECTS: usize = 256;

/// The most operations of a start.
pub const MOST_START: usize = 256;

/// The most begin records of an input.
pub const MOST_TRANSACTIONS: u32 = 20_000;

/// The most rule steps of a run.
pub const MOST_STEPS: u32 = 200_000;

/// The most nodes of a body.
pub const MOST_BODY_NODES: u32 = 64;

/// The greatest depth of a body.
pub const MOST_DEPTH: u32 = 16;

/// The most bytes of a name.
pub const LONGEST_NAME: usize = 24;

/// The most exchanges of neighbours of a certificate.
pub const MOST_SWAPS: u32 = 1_000_000;

/// The most operations of all attempts together, if the command reports what each of them saw.
pub const MOST_VIEWED: u32 = 2_000_000;
