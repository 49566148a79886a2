//! Numbers as text.
ghost use Rattle.std.specs.Prelude.{◌≡◌, ◌++◌, OnOk, OnErr};
ghost use Rattle.std.specs.Fmt.{decimal, signed_decimal};

use itoa::Buffer;
use pp_core::{OutOfMemory, Text};

/// Adds a number in decimal digits. The only error is out of memory.
pub fn write_number(text: &mut Text, number: u64) -> Result<(), OutOfMemory>
    ensures ok { OnOk result (text.new ≡ text.old ++ decimal number) }
    ensures err { OnErr result (text.new ≡ text.old) }
{
    let mut buffer = Buffer::new();
    text.append(buffer.format(number).as_bytes())
}

/// Adds a signed number in decimal digits, with a `-` if it is negative. The only error is
/// out of memory.
pub(crate) fn write_signed_number(text: &mut Text, signed: i64) -> Result<(), OutOfMemory>
    ensures ok { OnOk result (text.new ≡ text.old ++ signed_decimal signed) }
    ensures err { OnErr result (text.new ≡ text.old) }
{
    let mut buffer = Buffer::new();
    text.append(buffer.format(signed).as_bytes())
}

/// Adds an integer in decimal digits, with a `-` if it is negative. The only error is
/// out of memory.
pub fn write_integer(text: &mut Text, integer: i128) -> Result<(), OutOfMemory>
    ensures ok { OnOk result (text.new ≡ text.old ++ signed_decimal integer) }
    ensures err { OnErr result (text.new ≡ text.old) }
{
    let mut buffer = Buffer::new();
    text.append(buffer.format(integer).as_bytes())
}
