//! The steps of a record. A record that is a step itself is neither copied nor put in a list.
ghost use Rattle.std.specs.Prelude.{◌≡◌, IfOk, List, OnOk};
ghost use Rattle.pp_core.specs.declared.call.Kind.{Kind};
ghost use Rattle.pp_objects.specs.Objects.{place_of};
ghost use Rattle.pp_records.specs.Expansions.{IsOfStyle, expand, front_after};
ghost use Rattle.pp_records.specs.Records.{record_meaning};
ghost use Rattle.pp_styles.specs.AnyFronts.{any_state, any_style};
ghost use Rattle.pp_styles.specs.Meanings.{meanings};
ghost use Rattle.pp_styles.specs.SameFronts.{SameFront};
ghost use Rattle.pp_judge.specs.Running.{steps_given};

use pp_core::{OutOfMemory, Step};
use pp_objects::{Objects, Op};
use pp_records::RunRecord;
use pp_styles::{BoxedFront, Front, StepList, Tracked};
use std::slice;

/// The list of the steps that a record becomes. It makes none if the record is a step itself.
pub fn make_steps(
    front: &mut BoxedFront,
    recorded: &RunRecord<Op>,
    machine: &mut Tracked<Objects>,
) -> Result<Option<StepList<Op>>, OutOfMemory>
    requires { IsOfStyle (any_style front.old) (record_meaning recorded.now) }
    ensures steps { (kinds : List Kind) → IfOk result (λ made.
        steps_given (record_meaning recorded.now) made
        ≡ expand place_of (any_style front.old) (any_state kinds front.old) machine.old.config
        (record_meaning recorded.now)) }
    ensures kept { (kinds : List Kind) → OnOk result (SameFront (any_state kinds front.new)
        (front_after (any_state kinds front.old) machine.old.config
        (record_meaning recorded.now))) }
    ensures same { any_style front.new ≡ any_style front.old }
    ensures machine { machine.new ≡ machine.old }
{
    if let RunRecord::Plain(_step) = recorded {
        return Ok(None);
    }
    let list = front.expand(recorded, machine)?;
    Ok(Some(list))
}

/// The steps of a record: those of this list, if there is one, or else the record itself.
pub fn steps_of<'a>(recorded: &'a RunRecord<Op>, made: &'a Option<StepList<Op>>) -> &'a [Step<Op>]
    ensures { meanings result.now ≡ steps_given (record_meaning recorded.now) made.now }
{
    if let Some(list) = made {
        return list.as_slice();
    }
    match recorded {
        RunRecord::Plain(step) => slice::from_ref(step),
        RunRecord::Op { .. }
        | RunRecord::Commit { .. }
        | RunRecord::Abort { .. }
        | RunRecord::Retry { .. }
        | RunRecord::Refresh { .. }
        | RunRecord::XBegin { .. }
        | RunRecord::XEnd { .. }
        | RunRecord::XAbort { .. }
        | RunRecord::Depend { .. }
        | RunRecord::Publish { .. }
        | RunRecord::DropSource { .. } => &[],
    }
}
