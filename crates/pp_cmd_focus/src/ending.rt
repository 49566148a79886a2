//! Ending the lines of the restriction.
ghost use Rattle.std.specs.Prelude.{◌≡◌, ◌==◌, ◌≤◌, ◌++◌, ◌∷◌, ◌-◌, [], drop, length, slice_index};
ghost use Rattle.std.specs.Prelude.{take, OnOk};
ghost use Rattle.pp_cmd_focus.specs.Restrictions.{with_return};

use pp_core::{OutOfMemory, Text};

/// Whether the last byte of a line is 13.
fn ends_in_return(line: &[u8]) -> bool
    ensures { result ≡ (slice_index line.now (length line.now - 1) == 13) }
{
    !line.is_empty() && line[line.len() - 1] == 13
}

/// Ends the line that begins at this place of a text. A byte 13 at its end is written twice.
pub(crate) fn end_line(text: &mut Text, start: usize) -> Result<(), OutOfMemory>
    requires { start ≤ length text.old }
    ensures { OnOk result (text.new
        ≡ take start text.old ++ with_return (drop start text.old) ++ 10 ∷ []) }
{
    if ends_in_return(&text.bytes()[start..]) {
        text.append(b"\r\n")
    } else {
        text.push(b'\n')
    }
}
