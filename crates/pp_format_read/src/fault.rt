//! The faults of lines.
ghost use Rattle.std.specs.Prelude.{◌≡◌};
ghost use Rattle.pp_format_read.specs.declared.fault.RecordFault.TheVariants.{OutOfMemory};

use pp_core::{Member, OutOfMemory};
use std::alloc::AllocFailed;
use thiserror::Error;

/// The first thing that is wrong with a line.
#[derive(Clone, Copy, Debug, PartialEq, Eq, Error)]
pub enum RecordFault {
    #[error("the line is no JSON value")]
    NotJson,
    #[error("the value is no object")]
    NotObject,
    #[error("the member {0:?} is missing")]
    Missing(Member),
    #[error("the member {0:?} is of a wrong type")]
    WrongType(Member),
    #[error("the member {0:?} is out of range")]
    OutOfRange(Member),
    #[error("the member {0:?} is no name")]
    BadName(Member),
    #[error("there is no such style")]
    UnknownStyle,
    #[error("there is no such kind of object")]
    UnknownKind,
    #[error("an earlier object has this name")]
    RepeatedObject,
    #[error("there are more than 256 objects")]
    TooManyObjects,
    #[error("the start has more than 256 operations")]
    TooManyStart,
    #[error("no object has this name")]
    UnknownObject,
    #[error("the object has no such call")]
    UnknownCall,
    #[error("the style has no such step")]
    UnknownStep,
    #[error("the body is malformed")]
    BodyBad,
    #[error("the body is too large")]
    BodyTooLarge,
    #[error("out of memory")]
    OutOfMemory,
}

impl From<OutOfMemory> for RecordFault {
    ghost from_gives = { λ _ e. e ≡ OutOfMemory };

    fn from(_refused: OutOfMemory) -> RecordFault {
        RecordFault::OutOfMemory
    }
}

impl<T: Drop> From<AllocFailed<T>> for RecordFault {
    ghost from_gives = { λ _ e. e ≡ OutOfMemory };

    fn from(_refused: AllocFailed<T>) -> RecordFault {
        RecordFault::OutOfMemory
    }
}
