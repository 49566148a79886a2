//! Lists of steps that records stand for.
ghost use Rattle.std.specs.Prelude.{◌≡◌, ◌++◌, ◌∷◌, IfOk, OnOk, []};
ghost use Rattle.pp_core.specs.Steps.{meaning};
ghost use Rattle.pp_styles.specs.Meanings.{meanings};

use pp_core::{OutOfMemory, Sequence, Step};
use std::alloc::Global;

/// Steps, in order.
pub type StepList<O> = Sequence<Step<O>>;

/// Adds a step at the end.
pub fn add<O: Copy>(list: &mut StepList<O>, step: Step<O>) -> Result<(), OutOfMemory>
    ensures { OnOk result (meanings list.new ≡ meanings list.old ++ meaning step ∷ []) }
{
    list.push(step)?;
    Ok(())
}

/// A list of one step.
pub fn only<O: Copy>(alloc: Global, step: Step<O>) -> Result<StepList<O>, OutOfMemory>
    ensures { IfOk result (λ list. meanings list ≡ meaning step ∷ []) }
{
    let mut list = StepList::new(alloc);
    list.push(step)?;
    Ok(list)
}

/// A list of the one step that a record is.
pub fn only_copied<O: Copy>(alloc: Global, step: &Step<O>) -> Result<StepList<O>, OutOfMemory>
    ensures { IfOk result (λ list. meanings list ≡ meaning step.now ∷ []) }
{
    only(alloc, step.copy(alloc)?)
}
