//! Causes as text.
ghost use Rattle.std.specs.Prelude.{◌≡◌, ◌++◌, OnOk};
ghost use Rattle.pp_input_reader.specs.Words.{with_member, cause_bytes};

use crate::cause::Cause;
use pp_core::{Member, OutOfMemory, Text};

/// Adds the name of a cause that has a member.
fn write_with_member(text: &mut Text, name: &[u8], member: Member) -> Result<(), OutOfMemory>
    ensures { OnOk result (text.new ≡ text.old ++ with_member name.now member) }
{
    text.append(name)?;
    text.append(b"(")?;
    text.append(member.word().as_bytes())?;
    text.append(b")")
}

/// Adds the name of a cause.
pub(crate) fn write_cause(text: &mut Text, cause: Cause) -> Result<(), OutOfMemory>
    ensures { OnOk result (text.new ≡ text.old ++ cause_bytes cause) }
{
    match cause {
        Cause::NotJson => text.append(b"NotJson"),
        Cause::NotObject => text.append(b"NotObject"),
        Cause::Missing(member) => write_with_member(text, b"Missing", member),
        Cause::WrongType(member) => write_with_member(text, b"WrongType", member),
        Cause::OutOfRange(member) => write_with_member(text, b"OutOfRange", member),
        Cause::BadName(member) => write_with_member(text, b"BadName", member),
        Cause::UnknownStyle => text.append(b"UnknownStyle"),
        Cause::UnknownKind => text.append(b"UnknownKind"),
        Cause::RepeatedObject => text.append(b"RepeatedObject"),
        Cause::TooManyObjects => text.append(b"TooManyObjects"),
        Cause::TooManyStart => text.append(b"TooManyStart"),
        Cause::UnknownObject => text.append(b"UnknownObject"),
        Cause::UnknownCall => text.append(b"UnknownCall"),
        Cause::UnknownStep => text.append(b"UnknownStep"),
        Cause::BodyBad => text.append(b"BodyBad"),
        Cause::BodyTooLarge => text.append(b"BodyTooLarge"),
        Cause::LineTooLong => text.append(b"LineTooLong"),
        Cause::TooManyLines => text.append(b"TooManyLines"),
        Cause::TooLong => text.append(b"TooLong"),
        Cause::NoHeader => text.append(b"NoHeader"),
        Cause::TooManyTransactions => text.append(b"TooManyTransactions"),
        Cause::TooManySteps => text.append(b"TooManySteps"),
        Cause::NotBoosted => text.append(b"NotBoosted"),
        Cause::StyleNotJudged => text.append(b"StyleNotJudged"),
        Cause::NotCertificate => text.append(b"NotCertificate"),
    }
}
