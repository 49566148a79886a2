//! Whether some number of committed transactions in a window explains a list of operations.
ghost use Rattle.std.specs.Prelude.{◌≡◌, ◌+◌, ◌*◌, ◌≤◌, ◌↔◌, IfOk, IsTrue, List, OnOk, length, take};
ghost use Rattle.std.specs.Prelude.{None, Some, [], cond};
ghost use Rattle.pp_model.specs.Config.{CommittedTx as TxOf};
ghost use Rattle.pp_model.specs.Sound.{serial_ops};
ghost use Rattle.pp_kind.specs.Object.{rules_of};
ghost use Rattle.pp_attempts.specs.Views.{Explains};
ghost use Rattle.pp_opacity.specs.Trials.{IsAt, IsGreatest, IsWith, MayAsk, MayExtend};

use crate::attempts::Excluded;
use crate::serial::{Serial, advance, advance_to, retreat};
use crate::trial::{apply_if_allowed, is_allowed_next, take_back};
use pp_core::{CommittedTx, Item, OutOfMemory, Ticks};
use pp_kind::Spec;
use std::sync::ledger::Ledger;

/// Applies the operations from `first` on after those before it, if they are allowed there. They are
/// not tried if the number of transactions is excluded. It returns whether they were applied.
fn extend<S: Spec, L: Ledger>(
    serial: &mut Serial<S::State, S::Undo>,
    items: &[Item<S::Op>],
    first: usize,
    excluded: Excluded,
    ticks: &mut Ticks<L>,
) -> Result<bool, OutOfMemory>
    requires within { first ≤ length items.now }
    requires extend { (shape : S.Shape) × (committed : List (TxOf S.Op))
        × MayExtend S.object shape committed items.now first excluded serial.old }
    ensures decided { IfOk result (λ yes. (shape : S.Shape) (committed : List (TxOf S.Op))
        → MayExtend S.object shape committed items.now first excluded serial.old
        → IsTrue yes ↔ Explains (rules_of S.object shape) committed items.now serial.old.count) }
    ensures applied { IfOk result (λ yes. (shape : S.Shape) (committed : List (TxOf S.Op))
        → MayExtend S.object shape committed items.now first excluded serial.old
        → IsWith S.object shape committed (cond yes items.now (take first items.now)) serial.new) }
    ensures count { OnOk result (serial.new.count ≡ serial.old.count) }
    ensures rises { ticks.old ≤ ticks.new }
    ensures bound { ticks.new + first ≤ ticks.old + 2 * length items.now }
    ensures paid { IfOk result (λ yes. ticks.new
        + length (cond yes items.now (take first items.now)) + first
        ≤ ticks.old + 2 * length items.now) }
{
    if excluded.after < serial.count && serial.count <= excluded.up_to {
        return Ok(false);
    }
    let items = &items[first..];
    let yes = apply_if_allowed::<S, L>(&mut serial.state, &mut serial.undos, items, ticks)?;
    Ok(yes)
}

/// Applies the operations from `first` on after those before it, if they are allowed there.
/// Otherwise all of them are taken back. It returns whether they are applied.
pub(crate) fn apply_here<S: Spec, L: Ledger>(
    serial: &mut Serial<S::State, S::Undo>,
    items: &[Item<S::Op>],
    first: usize,
    excluded: Excluded,
    ticks: &mut Ticks<L>,
) -> Result<bool, OutOfMemory>
    requires within { first ≤ length items.now }
    requires extend { (shape : S.Shape) × (committed : List (TxOf S.Op))
        × MayExtend S.object shape committed items.now first excluded serial.old }
    ensures decided { IfOk result (λ yes. (shape : S.Shape) (committed : List (TxOf S.Op))
        → MayExtend S.object shape committed items.now first excluded serial.old
        → IsTrue yes ↔ Explains (rules_of S.object shape) committed items.now serial.old.count) }
    ensures applied { IfOk result (λ yes. (shape : S.Shape) (committed : List (TxOf S.Op))
        → MayExtend S.object shape committed items.now first excluded serial.old
        → IsWith S.object shape committed (cond yes items.now []) serial.new) }
    ensures count { OnOk result (serial.new.count ≡ serial.old.count) }
    ensures rises { ticks.old ≤ ticks.new }
    ensures bound { ticks.new ≤ ticks.old + 2 * length items.now }
    ensures paid { IfOk result (λ yes. ticks.new + length (cond yes items.now [])
        ≤ ticks.old + 2 * length items.now) }
{
    let yes = extend::<S, L>(serial, items, first, excluded, ticks)?;
    if yes {
        return Ok(true);
    }
    let before = &items[..first];
    take_back::<S, L>(&mut serial.state, &mut serial.undos, before, ticks)?;
    Ok(false)
}

/// Whether operations are allowed after the transactions of the serial run. They are not tried if
/// this number of transactions is excluded.
fn is_explained_here<S: Spec, L: Ledger>(
    serial: &mut Serial<S::State, S::Undo>,
    items: &[Item<S::Op>],
    excluded: Excluded,
    ticks: &mut Ticks<L>,
) -> Result<bool, OutOfMemory>
    requires { (shape : S.Shape) × (committed : List (TxOf S.Op))
        × MayAsk S.object shape committed items.now excluded serial.old }
    ensures decided { IfOk result (λ yes. (shape : S.Shape) (committed : List (TxOf S.Op))
        → MayAsk S.object shape committed items.now excluded serial.old
        → IsTrue yes ↔ Explains (rules_of S.object shape) committed items.now serial.old.count) }
    ensures at { OnOk result ((shape : S.Shape) (committed : List (TxOf S.Op))
        → MayAsk S.object shape committed items.now excluded serial.old
        → IsAt S.object shape committed serial.new) }
    ensures count { OnOk result (serial.new.count ≡ serial.old.count) }
    ensures rises { ticks.old ≤ ticks.new }
    ensures bound { ticks.new ≤ ticks.old + 2 * length items.now }
{
    if excluded.after < serial.count && serial.count <= excluded.up_to {
        return Ok(false);
    }
    let yes = is_allowed_next::<S, L>(&mut serial.state, &mut serial.undos, items, ticks)?;
    Ok(yes)
}

/// Takes transactions back, but no more than leave `low`, until the others explain the operations.
/// It returns whether they do. The excluded numbers are passed over.
fn descend<S: Spec, L: Ledger>(
    serial: &mut Serial<S::State, S::Undo>,
    committed: &[CommittedTx<S::Op>],
    low: usize,
    items: &[Item<S::Op>],
    excluded: Excluded,
    ticks: &mut Ticks<L>,
) -> Result<bool, OutOfMemory>
    requires low { low ≤ serial.old.count }
    requires ask { (shape : S.Shape)
        × MayAsk S.object shape committed.now items.now excluded serial.old }
    ensures decided { IfOk result (λ found. (shape : S.Shape)
        → MayAsk S.object shape committed.now items.now excluded serial.old
        → IsGreatest (rules_of S.object shape) committed.now items.now low serial.old.count
        (cond found (Some serial.new.count) None)) }
    ensures at { OnOk result ((shape : S.Shape)
        → MayAsk S.object shape committed.now items.now excluded serial.old
        → IsAt S.object shape committed.now serial.new) }
    ensures above { OnOk result (low ≤ serial.new.count) }
    ensures below { OnOk result (serial.new.count ≤ serial.old.count) }
    ensures rises { ticks.old ≤ ticks.new }
    ensures cost { OnOk result (ticks.new
        + length (serial_ops (take serial.new.count committed.now)) + 2 * (low * length items.now)
        ≤ ticks.old + length (serial_ops (take serial.old.count committed.now))
        + 2 * ((serial.old.count + 1) * length items.now)) }
    ensures bound { ticks.new + 2 * length (serial_ops (take low committed.now))
        + 2 * (low * length items.now)
        ≤ ticks.old + 2 * length (serial_ops (take serial.old.count committed.now))
        + 2 * ((serial.old.count + 1) * length items.now) }
{
    let mut found = is_explained_here::<S, L>(serial, items, excluded, ticks)?;
    while !found && serial.count > low {
        retreat::<S, L>(serial, committed, ticks)?;
        found = is_explained_here::<S, L>(serial, items, excluded, ticks)?;
    }
    Ok(found)
}

/// The greatest number of committed transactions that explains the operations: at least `low`, and
/// at most as many as the serial run has. In the end it has as many again.
fn find_explanation<S: Spec, L: Ledger>(
    serial: &mut Serial<S::State, S::Undo>,
    committed: &[CommittedTx<S::Op>],
    low: usize,
    items: &[Item<S::Op>],
    excluded: Excluded,
    ticks: &mut Ticks<L>,
) -> Result<Option<usize>, OutOfMemory>
    requires low { low ≤ serial.old.count }
    requires ask { (shape : S.Shape)
        × MayAsk S.object shape committed.now items.now excluded serial.old }
    ensures decided { IfOk result (λ found. (shape : S.Shape)
        → MayAsk S.object shape committed.now items.now excluded serial.old
        → IsGreatest (rules_of S.object shape) committed.now items.now low serial.old.count
        found) }
    ensures at { OnOk result ((shape : S.Shape)
        → MayAsk S.object shape committed.now items.now excluded serial.old
        → IsAt S.object shape committed.now serial.new) }
    ensures count { OnOk result (serial.new.count ≡ serial.old.count) }
    ensures rises { ticks.old ≤ ticks.new }
    ensures bound { ticks.new + 2 * length (serial_ops (take low committed.now))
        + 2 * (low * length items.now)
        ≤ ticks.old + 2 * length (serial_ops (take serial.old.count committed.now))
        + 2 * ((serial.old.count + 1) * length items.now) }
{
    let high = serial.count;
    let found = descend::<S, L>(serial, committed, low, items, excluded, ticks)?;
    let count = serial.count;
    advance_to::<S, L>(serial, committed, high, ticks)?;
    Ok(if found { Some(count) } else { None })
}

/// The greatest number of committed transactions that explains the operations: at least `low`, and
/// fewer than the serial run has, which do not explain them. In the end it has as many again.
pub(crate) fn find_below<S: Spec, L: Ledger>(
    serial: &mut Serial<S::State, S::Undo>,
    committed: &[CommittedTx<S::Op>],
    low: usize,
    items: &[Item<S::Op>],
    excluded: Excluded,
    ticks: &mut Ticks<L>,
) -> Result<Option<usize>, OutOfMemory>
    requires low { low ≤ serial.old.count }
    requires ask { (shape : S.Shape)
        × MayAsk S.object shape committed.now items.now excluded serial.old }
    ensures decided { IfOk result (λ found. (shape : S.Shape)
        → MayAsk S.object shape committed.now items.now excluded serial.old
        → (Explains (rules_of S.object shape) committed.now items.now serial.old.count → ⊥)
        → IsGreatest (rules_of S.object shape) committed.now items.now low serial.old.count
        found) }
    ensures at { OnOk result ((shape : S.Shape)
        → MayAsk S.object shape committed.now items.now excluded serial.old
        → IsAt S.object shape committed.now serial.new) }
    ensures count { OnOk result (serial.new.count ≡ serial.old.count) }
    ensures rises { ticks.old ≤ ticks.new }
    ensures bound { ticks.new + 2 * length (serial_ops (take low committed.now))
        + 2 * (low * length items.now)
        ≤ ticks.old + 2 * length (serial_ops (take serial.old.count committed.now))
        + 2 * (serial.old.count * length items.now) }
{
    if serial.count == low {
        return Ok(None);
    }
    retreat::<S, L>(serial, committed, ticks)?;
    let found = find_explanation::<S, L>(serial, committed, low, items, excluded, ticks)?;
    advance::<S, L>(serial, committed, ticks)?;
    Ok(found)
}
