//! The range of the numbers of records.
ghost use Rattle.std.specs.Prelude.{◌≡◌};
ghost use Rattle.pp_kind.specs.Numbers.{in_range};

/// The greatest number of a record. The least one is its negative.
pub const GREATEST_NUMBER: i64 = 1_000_000_000_000_000_000;

/// The most operations of a log. A run of 4,294,967,295 lines, the most that a line number counts,
/// has fewer: an operation a line, and the 256 of a start.
pub const MOST_OPERATIONS: u64 = 4_294_967_552;

/// Whether a number may be in a record.
pub fn in_range(number: i64) -> bool
    ensures { result ≡ in_range number }
{
    -GREATEST_NUMBER <= number && number <= GREATEST_NUMBER
}
