//! Trying operations from a state, until one does not return its recorded result.
ghost use Rattle.std.specs.Prelude.{◌≡◌, ◌++◌, ◌+◌, ◌↔◌, ◌≤◌, IfOk, IsTrue, OnOk, length, take};
ghost use Rattle.pp_attempts.specs.Trying.{IsFurthest, MayFollow, Stands, applied};

use pp_core::{OutOfMemory, Ticks};
use pp_kind::{Applied, Spec};
use std::sync::ledger::Ledger;

/// An operation that was applied, and what takes it back.
#[derive(Drop)]
pub(crate) struct AppliedOp<O: Copy, U> {
    pub(crate) op: O,
    pub(crate) undo: U,
}

/// Applies operations after those that were applied, one after another, until one does not return
/// its recorded result. Returns whether all did.
pub(crate) fn apply_all<S: Spec, L: Ledger>(
    state: &mut S::State,
    done: &mut Vec<AppliedOp<S::Op, S::Undo>>,
    ops: &[S::Op],
    ticks: &mut Ticks<L>,
) -> Result<bool, OutOfMemory>
    requires { (s : S.State) × MayFollow S.object s (applied done.old.items ++ ops.now)
        × Stands S.object s done.old.items state.old }
    ensures furthest { OnOk result ((s : S.State)
        → MayFollow S.object s (applied done.old.items ++ ops.now)
        → Stands S.object s done.old.items state.old
        → IsFurthest S.object s (applied done.old.items ++ ops.now) done.new.items state.new) }
    ensures all { IfOk result (λ all.
        IsTrue all ↔ (length done.new.items ≡ length done.old.items + length ops.now)) }
    ensures rises { ticks.old ≤ ticks.new }
    ensures bound { ticks.new ≤ ticks.old + length ops.now }
{
    for op in ops {
        match S::apply(state, op, ticks)? {
            Applied::Done(undo) => done.push(AppliedOp { op: *op, undo })?,
            Applied::Differs => return Ok(false),
        }
    }
    Ok(true)
}

/// Takes back those that were applied after this many first ones, the last one first.
pub(crate) fn take_back_to<S: Spec, L: Ledger>(
    state: &mut S::State,
    done: &mut Vec<AppliedOp<S::Op, S::Undo>>,
    len: usize,
    ticks: &mut Ticks<L>,
) -> Result<(), OutOfMemory>
    requires { (s : S.State) × MayFollow S.object s (applied done.old.items)
        × Stands S.object s done.old.items state.old }
    ensures stands { OnOk result ((s : S.State) → MayFollow S.object s (applied done.old.items)
        → Stands S.object s done.old.items state.old
        → Stands S.object s done.new.items state.new) }
    ensures first { OnOk result (done.new.items ≡ take len done.old.items) }
    ensures cost { OnOk result
        (ticks.new + length done.new.items ≡ ticks.old + length done.old.items) }
    ensures rises { ticks.old ≤ ticks.new }
    ensures bound { ticks.new ≤ ticks.old + length done.old.items }
{
    while done.len() > len {
        let Some(AppliedOp { op, undo }) = done.pop() else {
            unreachable!()
        };
        S::undo(state, &op, undo, ticks)?;
    }
    Ok(())
}
