//! What a fault of a line is in a report.
ghost use Rattle.std.specs.Prelude.{◌≡◌};
ghost use Rattle.pp_judge.specs.Causes.{cause_of};

use pp_core::OutOfMemory;
use pp_format_read::RecordFault;
use pp_input_reader::Cause;

/// The cause that a fault of a line is. The error is out of memory, if reading the line ran out of it.
pub(crate) fn cause_of(fault: RecordFault) -> Result<Cause, OutOfMemory>
    ensures { result ≡ cause_of fault }
{
    match fault {
        RecordFault::NotJson => Ok(Cause::NotJson),
        RecordFault::NotObject => Ok(Cause::NotObject),
        RecordFault::Missing(member) => Ok(Cause::Missing(member)),
        RecordFault::WrongType(member) => Ok(Cause::WrongType(member)),
        RecordFault::OutOfRange(member) => Ok(Cause::OutOfRange(member)),
        RecordFault::BadName(member) => Ok(Cause::BadName(member)),
        RecordFault::UnknownStyle => Ok(Cause::UnknownStyle),
        RecordFault::UnknownKind => Ok(Cause::UnknownKind),
        RecordFault::RepeatedObject => Ok(Cause::RepeatedObject),
        RecordFault::TooManyObjects => Ok(Cause::TooManyObjects),
        RecordFault::TooManyStart => Ok(Cause::TooManyStart),
        RecordFault::UnknownObject => Ok(Cause::UnknownObject),
        RecordFault::UnknownCall => Ok(Cause::UnknownCall),
        RecordFault::UnknownStep => Ok(Cause::UnknownStep),
        RecordFault::BodyBad => Ok(Cause::BodyBad),
        RecordFault::BodyTooLarge => Ok(Cause::BodyTooLarge),
        RecordFault::OutOfMemory => Err(OutOfMemory),
    }
}
