//! The first zombie of an accepted run.
ghost use Rattle.std.specs.Prelude.{◌≡◌, ◌+◌, ◌≤◌, IfOk, Option as OptionOf, length};
ghost use Rattle.pp_model.specs.Config.{Start as StartOf};
ghost use Rattle.pp_model.specs.Serial.{start_attempts};
ghost use Rattle.pp_kind.specs.Object.{rules_of};
ghost use Rattle.pp_attempts.specs.Peaks.{meanings};
ghost use Rattle.pp_opacity.specs.Attempts.{least_in, own_in};
ghost use Rattle.pp_opacity.specs.Costs.{searching_at_most};
ghost use Rattle.pp_opacity.specs.Results.{IsFound, IsRun};

use crate::attempts::{least, own};
use crate::replay::{Replay, start_replay, take};
use pp_core::{CommittedTx, Items, Name, OutOfMemory, Step, Ticks};
use pp_kind::Spec;
use std::alloc::Global;
use std::sync::ledger::Ledger;

/// An own list that no number of commits in its window explains.
#[derive(Drop)]
pub struct Zombie<O: Copy> {
    /// After how many steps of the run it is there.
    pub step: usize,
    /// The transaction whose own list it is.
    pub tx: Name,
    /// How many transactions had committed when the attempt began.
    pub least: usize,
    /// How many have committed by now.
    pub most: usize,
    /// The own list.
    pub items: Items<O>,
}

/// What is kept of a transaction after so many steps.
fn zombie_of<T, U, O: Copy>(
    alloc: Global,
    replay: &Replay<T, U, O>,
    step: usize,
    tx: &Name,
) -> Result<Zombie<O>, OutOfMemory>
    ensures step { IfOk result (λ z. z.step ≡ step) }
    ensures tx { IfOk result (λ z. z.tx ≡ tx.now) }
    ensures least { IfOk result (λ z. z.least ≡ least_in tx.now replay.now.attempts.entries) }
    ensures most { IfOk result (λ z. z.most ≡ replay.now.serial.count) }
    ensures items { IfOk result (λ z. z.items ≡ own_in tx.now replay.now.attempts.entries) }
{
    let items = Items::copy_of(own(&replay.attempts, tx), alloc)?;
    Ok(Zombie {
        step,
        tx: *tx,
        least: least(&replay.attempts, tx),
        most: replay.serial.count,
        items,
    })
}

/// The first zombie of an accepted run, if it is not opaque. The run has these steps, and these
/// transactions are committed in the end: so many by the start, and the others by the steps. The
/// only error is out of memory.
pub fn first_zombie<S: Spec, L: Ledger>(
    alloc: Global,
    shape: &S::Shape,
    given: usize,
    steps: &[Step<S::Op>],
    committed: &[CommittedTx<S::Op>],
    ticks: &mut Ticks<L>,
) -> Result<Option<Zombie<S::Op>>, OutOfMemory>
    requires { (h : OptionOf (StartOf S.Op))
        × IsRun S.object shape.now h (meanings steps.now) committed.now
        × (given ≡ length (start_attempts h)) }
    ensures found { IfOk result (λ found. (h : OptionOf (StartOf S.Op))
        → IsRun S.object shape.now h (meanings steps.now) committed.now
        → given ≡ length (start_attempts h)
        → IsFound (rules_of S.object shape.now) h (meanings steps.now) found) }
    ensures rises { ticks.old ≤ ticks.new }
    ensures bound { (h : OptionOf (StartOf S.Op))
        → IsRun S.object shape.now h (meanings steps.now) committed.now
        → given ≡ length (start_attempts h)
        → ticks.new ≤ ticks.old + searching_at_most h (meanings steps.now) committed.now }
{
    let mut replay = start_replay::<S, L>(alloc, shape, committed, given, ticks)?;
    for (i, step) in steps.iter().enumerate() {
        if let Some(tx) = take::<S, L>(alloc, &mut replay, committed, step, ticks)? {
            let zombie = zombie_of(alloc, &replay, i + 1, &tx)?;
            return Ok(Some(zombie));
        }
    }
    Ok(None)
}
