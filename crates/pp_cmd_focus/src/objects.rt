//! The objects of ids that were applied.
ghost use Rattle.std.specs.Prelude.{◌≡◌, [], ◌∷◌, OnOk};
ghost use Rattle.pp_core.specs.Steps.{meaning};
ghost use Rattle.pp_records.specs.Records.{record_meaning, Plain};
ghost use Rattle.pp_cmd_focus.specs.Known.{KnowMore};
ghost use Rattle.pp_cmd_focus.specs.Records.{applied_by, start_items};

use pp_core::{IdMap, Item, OutOfMemory, Step};
use pp_format_read::Start;
use pp_objects::Op;
use pp_records::RunRecord;

/// Keeps the object of an operation, if its id has none.
fn add_item(objects: &mut IdMap<u16>, id: u32, op: &Op) -> Result<(), OutOfMemory>
    ensures { OnOk result
        (KnowMore objects.old objects.new (record { id = id; op = op.now } ∷ [])) }
{
    if objects.get(id).is_some() {
        return Ok(());
    }
    objects.reserve(id)?;
    objects.set(id, op.object);
    Ok(())
}

/// Keeps the objects of operations.
fn add_items(objects: &mut IdMap<u16>, items: &[Item<Op>]) -> Result<(), OutOfMemory>
    ensures { OnOk result (KnowMore objects.old objects.new items.now) }
{
    for item in items {
        add_item(objects, item.id, &item.op)?;
    }
    Ok(())
}

/// Keeps the objects of the operations of a start.
pub(crate) fn add_start(objects: &mut IdMap<u16>, start: &Option<Start>) -> Result<(), OutOfMemory>
    ensures { OnOk result (KnowMore objects.old objects.new (start_items start.now)) }
{
    match start {
        None => Ok(()),
        Some(start) => add_items(objects, start.ops.as_slice()),
    }
}

/// Keeps the object of the operation that a step applies.
fn add_step(objects: &mut IdMap<u16>, step: &Step<Op>) -> Result<(), OutOfMemory>
    ensures { OnOk result
        (KnowMore objects.old objects.new (applied_by (Plain (meaning step.now)))) }
{
    match step {
        Step::App { id, op, .. } => add_item(objects, *id, op),
        Step::Begin { .. }
        | Step::Unapp { .. }
        | Step::Push { .. }
        | Step::Unpush { .. }
        | Step::Pull { .. }
        | Step::Unpull { .. }
        | Step::Cmt { .. }
        | Step::Quit { .. }
        | Step::Note { .. } => Ok(()),
    }
}

/// Keeps the object of the operation that a record applies, if it is an APP.
pub(crate) fn add_record(
    objects: &mut IdMap<u16>,
    recorded: &RunRecord<Op>,
) -> Result<(), OutOfMemory>
    ensures { OnOk result
        (KnowMore objects.old objects.new (applied_by (record_meaning recorded.now))) }
{
    match recorded {
        RunRecord::Plain(step) => add_step(objects, step),
        RunRecord::Op { .. }
        | RunRecord::Commit { .. }
        | RunRecord::Abort { .. }
        | RunRecord::Retry { .. }
        | RunRecord::Refresh { .. }
        | RunRecord::XBegin { .. }
        | RunRecord::XEnd { .. }
        | RunRecord::XAbort { .. }
        | RunRecord::Depend { .. }
        | RunRecord::Publish { .. }
        | RunRecord::DropSource { .. } => Ok(()),
    }
}
