//! The limits of an input.
ghost use Rattle.std.specs.Prelude.{◌≡◌};
ghost use Rattle.pp_input.specs.Limits.{usual_limits};

use pp_core::{LONGEST_LINE, MOST_BYTES, MOST_LINES, MOST_TRANSACTIONS};

/// How much of an input is read. What takes the lines says their limits.
#[derive(Clone, Copy, Debug, PartialEq, Eq)]
pub struct Limits {
    /// The most bytes. No real input passes `u64::MAX`.
    pub bytes: u64,
    /// The most lines: fewer than `u32::MAX`, so that the line after the last one has a number.
    pub lines: u32,
    /// The most bytes of a line, without its end. No real line passes `u64::MAX`.
    pub line_bytes: u64,
    /// The most begin records. No input passes the limit `u32::MAX`: it has fewer lines.
    pub transactions: u32,
}

impl Limits {
    /// The usual limits: 268,435,456 bytes, 200,001 lines, 65,536 bytes a line, and
    /// 20,000 transactions.
    pub fn usual() -> Limits
        ensures { result ≡ usual_limits }
    {
        Limits {
            bytes: MOST_BYTES,
            lines: MOST_LINES,
            line_bytes: LONGEST_LINE,
            transactions: MOST_TRANSACTIONS,
        }
    }
}
