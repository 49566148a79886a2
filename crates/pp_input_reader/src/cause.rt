//! The causes of faults.
use pp_core::Member;

/// Why an input is not taken.
#[derive(Clone, Copy, Debug, PartialEq, Eq)]
pub enum Cause {
    /// The line is not one JSON value.
    NotJson,
    /// The value is not an object.
    NotObject,
    /// The member is missing.
    Missing(Member),
    /// The member is of a wrong type.
    WrongType(Member),
    /// The member is out of its range.
    OutOfRange(Member),
    /// The member is not a name.
    BadName(Member),
    /// There is no such style.
    UnknownStyle,
    /// There is no such kind of object.
    UnknownKind,
    /// An earlier object has this name.
    RepeatedObject,
    /// There are more than 256 objects.
    TooManyObjects,
    /// The start has more than 256 operations.
    TooManyStart,
    /// No object has this name.
    UnknownObject,
    /// The kind of the object has no such call.
    UnknownCall,
    /// The style has no such step.
    UnknownStep,
    /// The body is of none of the forms.
    BodyBad,
    /// The body has more than 64 nodes, or is deeper than 16.
    BodyTooLarge,
    /// The line has more bytes than the limit allows, which is usually 65,536.
    LineTooLong,
    /// There are more lines than the limit allows, which is usually 200,001.
    TooManyLines,
    /// There are more bytes than the limit allows, which is usually 268,435,456.
    TooLong,
    /// All lines are blank.
    NoHeader,
    /// More than 20,000 records begin a transaction.
    TooManyTransactions,
    /// The records mean more than 200,000 steps.
    TooManySteps,
    /// The run is not of the style that `quick` decides.
    NotBoosted,
    /// The run is not of a style that `judge` judges.
    StyleNotJudged,
    /// It is not a certificate, by this line, or by its end.
    NotCertificate,
}
