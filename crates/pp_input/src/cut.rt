//! Cutting a piece at its line ends.
ghost use Rattle.std.specs.Prelude.{◌≡◌, ◌++◌, length, take, map, OnOk};
ghost use Rattle.pp_input.specs.Lines.{ended_behind, rest_behind, without_return};

use crate::tail::Tail;
use bstr::ByteSlice;
use pp_core::{OutOfMemory, Text};
use std::collections::VecDeque;

/// Adds each line that ends in the piece, and keeps what follows the last.
pub(crate) fn cut(
    whole: &mut VecDeque<Text>,
    tail: &mut Tail,
    piece: &[u8],
) -> Result<(), OutOfMemory>
    ensures whole { OnOk result
        (whole.new.items
        ≡ whole.old.items ++ map without_return (ended_behind tail.old piece.now)) }
    ensures tail { OnOk result (tail.new ≡ rest_behind tail.old piece.now) }
    ensures kept { take (length whole.old.items) whole.new.items ≡ whole.old.items }
{
    let mut left = piece;
    'cuts: while let Some(at) = left.find_byte(b'\n') {
        tail.extend(&left[..at])?;
        whole.push_back(tail.take())?;
        left = &left[at + 1..];
    }
    tail.extend(left)?;
    Ok(())
}
