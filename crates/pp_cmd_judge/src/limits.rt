//! The limits of an input that is judged.
ghost use Rattle.std.specs.Prelude.{◌≡◌};
ghost use Rattle.pp_cmd_judge.specs.Inputs.{judge_limits};

use pp_core::LONGEST_LINE;
use pp_input::Limits;

/// The limits of an input that is judged. It may have any number of bytes and of transactions.
/// So many lines keep the number of each step in 64 bits.
pub(crate) fn judge_limits() -> Limits
    ensures { result ≡ judge_limits }
{
    Limits {
        bytes: u64::MAX,
        lines: 2_147_483_647,
        line_bytes: LONGEST_LINE,
        transactions: u32::MAX,
    }
}
