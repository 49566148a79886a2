//! At which steps of a run there is a peak.
ghost use Rattle.std.specs.Prelude.{◌≡◌, ◌∷◌, List, IfOk, OnOk, reverse};
ghost use Rattle.pp_core.specs.Steps.{Step as StepOf, meaning};
ghost use Rattle.pp_attempts.specs.Peaks.{meanings};
ghost use Rattle.pp_attempts.specs.Tops.{KeepsGoing, is_top, tops};

use indexmap::IndexSet;
use pp_core::{Name, OutOfMemory, Step};
use std::alloc::Global;

/// Whether there is a peak right after the step. The names are those that go on after it, and then
/// those that go on from it on.
fn take<O>(names: &mut IndexSet<Name>, step: &Step<O>) -> Result<bool, OutOfMemory>
    ensures top { IfOk result (λ top. (rest : List (StepOf O)) → KeepsGoing names.old rest
        → top ≡ is_top (meaning step.now) rest) }
    ensures kept { OnOk result ((rest : List (StepOf O)) → KeepsGoing names.old rest
        → KeepsGoing names.new (meaning step.now ∷ rest)) }
{
    match step {
        Step::App { tx, .. } => Ok(names.insert(*tx)?),
        Step::Unapp { tx, .. } => {
            names.swap_remove(tx);
            Ok(false)
        }
        Step::Begin { .. }
        | Step::Push { .. }
        | Step::Unpush { .. }
        | Step::Pull { .. }
        | Step::Unpull { .. }
        | Step::Cmt { .. }
        | Step::Quit { .. }
        | Step::Note { .. } => Ok(false),
    }
}

/// Whether there is a peak right after each step, the last step first.
pub(crate) fn tops<O>(alloc: Global, steps: &[Step<O>]) -> Result<Vec<bool>, OutOfMemory>
    ensures { IfOk result (λ v. v.items ≡ reverse (tops (meanings steps.now))) }
{
    let mut names = IndexSet::new(alloc);
    let mut found = Vec::new(alloc);
    let mut left = steps.len();
    while left > 0 {
        left -= 1;
        found.push(take(&mut names, &steps[left])?)?;
    }
    Ok(found)
}
