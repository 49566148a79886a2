//! The states after entries and after the serial run, and the list of this.
ghost use Rattle.std.specs.Prelude.{◌≡◌, ◌+◌, ◌≤◌, ◌<◌, List, length, IfOk, OnOk};
ghost use Rattle.pp_model.specs.Object.{ops};
ghost use Rattle.pp_kind.specs.declared.range.TheConstants.{MOST_OPERATIONS};
ghost use Rattle.pp_kind.specs.Object.{AllowedFrom, IsAllowed, AllRanged, IsLog, state_from};
ghost use Rattle.pp_kind.specs.Object.{state_after};
ghost use Rattle.pp_model.specs.Sound.{serial_ops};

use crate::joined::joined_operations;
use crate::spec::{Applied, Spec};
use pp_core::{Committed, Item, OutOfMemory, Sequence, Ticks};
use std::alloc::Global;
use std::sync::ledger::Ledger;

/// The operations of a serial run.
pub type SerialList<O> = Sequence<O>;

/// Applies the operations of these entries to a state of which a run is known.
fn replay<S: Spec, L: Ledger>(
    state: &mut S::State,
    entries: &[Item<S::Op>],
    ticks: &mut Ticks<L>,
) -> Result<(), OutOfMemory>
    requires allowed { AllowedFrom S.object state.old (ops entries.now) }
    requires ranged { AllRanged S.object (ops entries.now) }
    requires reached { (before : List S.Op) × IsLog S.object state.old before
        × (length before + length entries.now < MOST_OPERATIONS) }
    ensures state { OnOk result (state.new ≡ state_from S.object state.old (ops entries.now)) }
    ensures cost { OnOk result (ticks.new ≡ ticks.old + length entries.now) }
    ensures rises { ticks.old ≤ ticks.new }
    ensures bound { ticks.new ≤ ticks.old + length entries.now }
{
    for entry in entries {
        match S::apply(state, &entry.op, ticks)? {
            Applied::Done(_) => {}
            Applied::Differs => unreachable!(),
        }
    }
    Ok(())
}

/// The state after the operations of these entries, from the empty state. The only error is out of
/// memory.
pub fn state_after<S: Spec, L: Ledger>(
    alloc: Global,
    shape: &S::Shape,
    entries: &[Item<S::Op>],
    ticks: &mut Ticks<L>,
) -> Result<S::State, OutOfMemory>
    requires allowed { IsAllowed S.object shape.now (ops entries.now) }
    requires ranged { AllRanged S.object (ops entries.now) }
    requires few { length entries.now < MOST_OPERATIONS }
    ensures state { IfOk result (λ state.
        state ≡ state_after S.object shape.now (ops entries.now)) }
    ensures cost { OnOk result (ticks.new ≡ ticks.old + length entries.now) }
    ensures rises { ticks.old ≤ ticks.new }
    ensures bound { ticks.new ≤ ticks.old + length entries.now }
{
    let mut after = S::empty(alloc, shape)?;
    replay::<S, L>(&mut after, entries, ticks)?;
    Ok(after)
}

/// The state after the operations of the committed transactions, in commit order. No list of them
/// is made. The only error is out of memory.
pub fn serial_state<S: Spec, L: Ledger>(
    alloc: Global,
    shape: &S::Shape,
    committed: &Committed<S::Op>,
    ticks: &mut Ticks<L>,
) -> Result<S::State, OutOfMemory>
    requires allowed { IsAllowed S.object shape.now (serial_ops committed.now) }
    requires ranged { AllRanged S.object (serial_ops committed.now) }
    requires few { length (serial_ops committed.now) < MOST_OPERATIONS }
    ensures state { IfOk result (λ state. state
        ≡ state_after S.object shape.now (serial_ops committed.now)) }
    ensures cost { OnOk result (ticks.new ≡ ticks.old + length (serial_ops committed.now)) }
    ensures rises { ticks.old ≤ ticks.new }
    ensures bound { ticks.new ≤ ticks.old + length (serial_ops committed.now) }
{
    let mut state = S::empty(alloc, shape)?;
    for transaction in committed.as_slice() {
        replay::<S, L>(&mut state, transaction.entries.as_slice(), ticks)?;
    }
    Ok(state)
}

/// The operations of the committed transactions, joined in commit order, and the state after them.
/// The only error is out of memory.
pub fn serial<S: Spec, L: Ledger>(
    alloc: Global,
    shape: &S::Shape,
    committed: &Committed<S::Op>,
    ticks: &mut Ticks<L>,
) -> Result<(SerialList<S::Op>, S::State), OutOfMemory>
    requires allowed { IsAllowed S.object shape.now (serial_ops committed.now) }
    requires ranged { AllRanged S.object (serial_ops committed.now) }
    requires few { length (serial_ops committed.now) < MOST_OPERATIONS }
    ensures list { IfOk result (λ run. run.0 ≡ serial_ops committed.now) }
    ensures state { IfOk result (λ run. run.1
        ≡ state_after S.object shape.now (serial_ops committed.now)) }
    ensures cost { OnOk result (ticks.new ≡ ticks.old + length (serial_ops committed.now)) }
    ensures rises { ticks.old ≤ ticks.new }
    ensures bound { ticks.new ≤ ticks.old + length (serial_ops committed.now) }
{
    let list = joined_operations(alloc, committed)?;
    let state = serial_state::<S, L>(alloc, shape, committed, ticks)?;
    Ok((list, state))
}
