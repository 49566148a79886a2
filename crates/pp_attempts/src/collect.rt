//! Collecting the peaks of a run.
ghost use Rattle.std.specs.Prelude.{◌≡◌, ◌++◌, ◌∷◌, ◌+◌, ◌<◌, ◌≤◌, [], List, IfOk, OnOk, length};
ghost use Rattle.pp_core.specs.Steps.{meaning};
ghost use Rattle.pp_core.specs.declared.limits.TheConstants.{MOST_STEPS};
ghost use Rattle.pp_model.specs.Names.{Name as NameOf};
ghost use Rattle.pp_attempts.specs.Lists.{IsCollected, list_of, own_after, peak_at};
ghost use Rattle.pp_attempts.specs.Peaks.{IsOrderly, Peak as PeakOf, meanings, peaks};
ghost use Rattle.pp_attempts.specs.Tops.{tops};

use crate::own::{Lists, apply, own, unapply};
use crate::peak::{Peak, Peaks};
use indexmap::IndexMap;
use pp_core::{Item, Items, Name, OutOfMemory, Step};
use std::alloc::Global;

/// The peaks so far, while all their operations are not too many, and how many these are.
#[derive(Drop)]
pub(crate) struct Collected<O: Copy> {
    pub(crate) total: u64,
    pub(crate) peaks: Peaks<O>,
}

/// Adds a peak.
fn add<O: Copy>(
    alloc: Global,
    collected: &mut Collected<O>,
    tx: &Name,
    own: &[Item<O>],
    most: u64,
) -> Result<(), OutOfMemory>
    requires { collected.old.total + length own.now < 18_446_744_073_709_551_616 }
    ensures total { OnOk result (collected.new.total ≡ collected.old.total + length own.now) }
    ensures added { OnOk result ((ps : List (PeakOf O))
        → IsCollected most ps collected.old.total collected.old.peaks
        → IsCollected most (ps ++ record { tx = tx.now; ops = own.now } ∷ [])
        collected.new.total collected.new.peaks) }
{
    collected.total += own.len() as u64;
    if collected.total > most {
        return Ok(());
    }
    let mut ops = Vec::new(alloc);
    ops.extend_from_slice(own)?;
    collected.peaks.push(Peak {
        tx: *tx,
        ops: Items::from(ops),
    })
}

/// Takes a step, after which there is a peak or not.
fn take<O: Copy>(
    alloc: Global,
    lists: &mut Lists<O>,
    collected: &mut Collected<O>,
    step: &Step<O>,
    top: bool,
    most: u64,
) -> Result<(), OutOfMemory>
    requires short { (t : NameOf) → length (list_of t lists.old.entries) < MOST_STEPS }
    requires small { collected.old.total ≤ 40_000_000_000 }
    ensures lists { OnOk result ((t : NameOf) → list_of t lists.new.entries
        ≡ own_after t (meaning step.now) (list_of t lists.old.entries)) }
    ensures total { OnOk result (collected.new.total ≤ collected.old.total + MOST_STEPS) }
    ensures added { OnOk result ((ps : List (PeakOf O))
        → IsCollected most ps collected.old.total collected.old.peaks
        → IsCollected most (ps ++ peak_at top (meaning step.now) (λ t. list_of t lists.new.entries))
        collected.new.total collected.new.peaks) }
{
    match step {
        Step::App { tx, id, op } => {
            apply(alloc, lists, tx, Item { id: *id, op: *op })?;
            if !top {
                return Ok(());
            }
            add(alloc, collected, tx, own(lists, tx), most)
        }
        Step::Unapp { tx, .. } => {
            unapply(lists, tx);
            Ok(())
        }
        Step::Begin { .. }
        | Step::Push { .. }
        | Step::Unpush { .. }
        | Step::Pull { .. }
        | Step::Unpull { .. }
        | Step::Cmt { .. }
        | Step::Quit { .. }
        | Step::Note { .. } => Ok(()),
    }
}

/// The peaks of the steps, after each of which there is one or not.
pub(crate) fn collect<O: Copy>(
    alloc: Global,
    steps: &[Step<O>],
    marks: &[bool],
    most: u64,
) -> Result<Collected<O>, OutOfMemory>
    requires few { length steps.now ≤ MOST_STEPS }
    requires orderly { IsOrderly (meanings steps.now) }
    requires marks { marks.now ≡ tops (meanings steps.now) }
    ensures { IfOk result
        (λ found. IsCollected most (peaks (meanings steps.now)) found.total found.peaks) }
{
    let mut lists = IndexMap::new(alloc);
    let mut collected = Collected {
        total: 0,
        peaks: Peaks::new(alloc),
    };
    for (i, step) in steps.iter().enumerate() {
        take(alloc, &mut lists, &mut collected, step, marks[i], most)?;
    }
    Ok(collected)
}
