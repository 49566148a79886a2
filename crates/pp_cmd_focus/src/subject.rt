//! What a record is about: an object, or a transaction alone.
ghost use Rattle.std.specs.Prelude.{◌≡◌, IfOk};
ghost use Rattle.pp_core.specs.Steps.{meaning};
ghost use Rattle.pp_core.specs.Values.{value_of};
ghost use Rattle.pp_records.specs.Records.{record_meaning};
ghost use Rattle.pp_cmd_focus.specs.Subjects.{begin_subject, subject_of, subject_of_id};
ghost use Rattle.pp_cmd_focus.specs.Subjects.{subject_of_step};

use pp_core::{Catalog, IdMap, Name, OutOfMemory, Step, Text};
use pp_format_write::step_line;
use pp_objects::Op;
use pp_records::RunRecord;
use std::alloc::Global;

/// What a line that is not blank is about.
#[derive(Drop)]
pub(crate) enum Subject {
    /// It is the header.
    Header,
    /// A record of the object at this place: an operation on it, or a refresh of it.
    Object(u16),
    /// A record of a begin. This is its line without a body.
    Begin(Text),
    /// A record of no object, or of an id that was not applied.
    Alone,
}

/// A begin, with its line without a body.
fn begin_subject(
    alloc: Global,
    catalog: &Catalog,
    tx: Name,
    thread: Name,
) -> Result<Subject, OutOfMemory>
    ensures { IfOk result (λ subject. subject ≡ begin_subject tx thread) }
{
    let step = Step::Begin {
        tx,
        thread,
        body: None,
    };
    let line = step_line(alloc, catalog, &step)?;
    Ok(Subject::Begin(line))
}

/// The object of the operation under an id.
fn subject_of_id(objects: &IdMap<u16>, id: u32) -> Subject
    ensures { result ≡ subject_of_id (value_of objects.now id) }
{
    match objects.get(id) {
        Some(object) => Subject::Object(object),
        None => Subject::Alone,
    }
}

/// What a step is about.
fn subject_of_step(
    alloc: Global,
    catalog: &Catalog,
    objects: &IdMap<u16>,
    step: &Step<Op>,
) -> Result<Subject, OutOfMemory>
    ensures { IfOk result (λ subject.
        subject ≡ subject_of_step (value_of objects.now) (meaning step.now)) }
{
    match step {
        Step::Begin { tx, thread, .. } => begin_subject(alloc, catalog, *tx, *thread),
        Step::App { op, .. } => Ok(Subject::Object(op.object)),
        Step::Unapp { id, .. }
        | Step::Push { id, .. }
        | Step::Unpush { id, .. }
        | Step::Pull { id, .. }
        | Step::Unpull { id, .. } => Ok(subject_of_id(objects, *id)),
        Step::Cmt { .. } | Step::Quit { .. } | Step::Note { .. } => Ok(Subject::Alone),
    }
}

/// What a record is about, if the ids that were applied are on these objects.
pub(crate) fn subject_of(
    alloc: Global,
    catalog: &Catalog,
    objects: &IdMap<u16>,
    recorded: &RunRecord<Op>,
) -> Result<Subject, OutOfMemory>
    ensures { IfOk result (λ subject.
        subject ≡ subject_of (value_of objects.now) (record_meaning recorded.now)) }
{
    match recorded {
        RunRecord::Plain(step) => subject_of_step(alloc, catalog, objects, step),
        RunRecord::Op { op, .. } => Ok(Subject::Object(op.object)),
        RunRecord::Refresh { object, .. } => Ok(Subject::Object(*object)),
        RunRecord::Commit { .. }
        | RunRecord::Abort { .. }
        | RunRecord::Retry { .. }
        | RunRecord::XBegin { .. }
        | RunRecord::XEnd { .. }
        | RunRecord::XAbort { .. }
        | RunRecord::Depend { .. }
        | RunRecord::Publish { .. }
        | RunRecord::DropSource { .. } => Ok(Subject::Alone),
    }
}
