//! The steps of an accepted run, taken one after another.
ghost use Rattle.std.specs.Prelude.{◌≡◌, ◌+◌, ◌*◌, ◌≤◌, ◌↔◌, ◌++◌, ◌∷◌, [], IfOk, IsTrue, List, OnOk};
ghost use Rattle.std.specs.Prelude.{None, Option as OptionOf, Some, false, length, take};
ghost use Rattle.pp_core.specs.Steps.{Step as StepOf, meaning};
ghost use Rattle.pp_model.specs.Config.{CommittedTx as TxOf, Start as StartOf};
ghost use Rattle.pp_model.specs.Names.{Name as NameOf, ◌=ⁿ◌};
ghost use Rattle.pp_model.specs.Serial.{start_attempts};
ghost use Rattle.pp_model.specs.Sound.{serial_ops};
ghost use Rattle.pp_kind.specs.Object.{rules_of};
ghost use Rattle.pp_opacity.specs.Attempts.{excluded_in, least_in, own_in};
ghost use Rattle.pp_opacity.specs.Replays.{AskingCostsAtMost, IsReplay, IsSeen, MayAskOf};
ghost use Rattle.pp_opacity.specs.Replays.{applied_in, step_costs};
ghost use Rattle.pp_opacity.specs.Results.{IsRun};
ghost use Rattle.pp_opacity.specs.Trials.{AreExcluded, IsAt, IsExplained, IsWith, MayTakeBack};

use crate::attempts::{
    Attempts, Excluded, apply, begin, exclude, excluded_of, least, own, unapply,
};
use crate::explained::{apply_here, find_below};
use crate::serial::{Serial, advance, advance_to, start};
use crate::trial::take_back;
use indexmap::IndexMap;
use pp_core::{CommittedTx, Item, Name, OutOfMemory, Step, Ticks};
use pp_kind::Spec;
use std::alloc::Global;
use std::sync::ledger::Ledger;

/// The serial run so far, and the attempts that the transactions are in.
#[derive(Drop)]
pub(crate) struct Replay<T, U, O: Copy> {
    pub(crate) serial: Serial<T, U>,
    pub(crate) attempts: Attempts<O>,
    /// The transaction whose own list is applied after the serial run, if one is.
    pub(crate) applied: Option<Name>,
}

/// A replay before the first step, with so many transactions that the start committed.
pub(crate) fn start_replay<S: Spec, L: Ledger>(
    alloc: Global,
    shape: &S::Shape,
    committed: &[CommittedTx<S::Op>],
    given: usize,
    ticks: &mut Ticks<L>,
) -> Result<Replay<S::State, S::Undo, S::Op>, OutOfMemory>
    requires { (h : OptionOf (StartOf S.Op)) × (ss : List (StepOf S.Op))
        × IsRun S.object shape.now h ss committed.now × (given ≡ length (start_attempts h)) }
    ensures follows { IfOk result (λ replay. (h : OptionOf (StartOf S.Op)) (ss : List (StepOf S.Op))
        → IsRun S.object shape.now h ss committed.now → given ≡ length (start_attempts h)
        → IsReplay S.object shape.now h [] committed.now replay.serial replay.attempts.entries
        replay.applied) }
    ensures none { IfOk result (λ replay. replay.applied ≡ None) }
    ensures rises { ticks.old ≤ ticks.new }
    ensures bound { ticks.new
        ≤ ticks.old + length (serial_ops (take given committed.now)) }
{
    let mut serial = start::<S>(alloc, shape)?;
    advance_to::<S, L>(&mut serial, committed, given, ticks)?;
    Ok(Replay {
        serial,
        attempts: IndexMap::new(alloc),
        applied: None,
    })
}

/// Takes the own list back that is applied after the serial run, if one is.
fn settle<S: Spec, L: Ledger>(
    serial: &mut Serial<S::State, S::Undo>,
    applied: &mut Option<Name>,
    attempts: &Attempts<S::Op>,
    ticks: &mut Ticks<L>,
) -> Result<(), OutOfMemory>
    requires { (shape : S.Shape) × (committed : List (TxOf S.Op))
        × MayTakeBack S.object shape committed (applied_in applied.old attempts.now.entries)
        serial.old }
    ensures at { OnOk result ((shape : S.Shape) (committed : List (TxOf S.Op))
        → MayTakeBack S.object shape committed (applied_in applied.old attempts.now.entries)
        serial.old → IsAt S.object shape committed serial.new) }
    ensures none { OnOk result (applied.new ≡ None) }
    ensures count { OnOk result (serial.new.count ≡ serial.old.count) }
    ensures rises { ticks.old ≤ ticks.new }
    ensures bound { ticks.new ≤ ticks.old + length (applied_in applied.old attempts.now.entries) }
{
    let Some(tx) = *applied else {
        return Ok(());
    };
    *applied = None;
    let items = own(attempts, &tx);
    take_back::<S, L>(&mut serial.state, &mut serial.undos, items, ticks)?;
    Ok(())
}

/// Takes the own list back that is applied, unless it is that of the transaction. It returns how
/// many operations of the transaction are applied.
fn keep_own<S: Spec, L: Ledger>(
    serial: &mut Serial<S::State, S::Undo>,
    applied: &mut Option<Name>,
    attempts: &Attempts<S::Op>,
    tx: &Name,
    ticks: &mut Ticks<L>,
) -> Result<usize, OutOfMemory>
    requires { (shape : S.Shape) × (committed : List (TxOf S.Op))
        × MayTakeBack S.object shape committed (applied_in applied.old attempts.now.entries)
        serial.old }
    ensures at { IfOk result (λ first. (shape : S.Shape) (committed : List (TxOf S.Op))
        → MayTakeBack S.object shape committed (applied_in applied.old attempts.now.entries)
        serial.old → IsWith S.object shape committed
        (take first (own_in tx.now attempts.now.entries)) serial.new) }
    ensures within { IfOk result (λ first. first ≤ length (own_in tx.now attempts.now.entries)) }
    ensures count { OnOk result (serial.new.count ≡ serial.old.count) }
    ensures rises { ticks.old ≤ ticks.new }
    ensures bound { ticks.new ≤ ticks.old + length (applied_in applied.old attempts.now.entries) }
{
    if is_own(applied, tx) {
        return Ok(own(attempts, tx).len());
    }
    settle::<S, L>(serial, applied, attempts, ticks)?;
    Ok(0)
}

/// Whether the own list that is applied is that of the transaction.
fn is_own(applied: &Option<Name>, tx: &Name) -> bool
    ensures { IsTrue result → applied.now ≡ Some tx.now }
{
    match applied {
        Some(name) => name.same(tx),
        None => false,
    }
}

/// Whether the own list of a transaction is explained by a number of commits in its window. If so,
/// the greater numbers are excluded. The first so many operations of the list are applied. If all
/// commits so far explain it, all of it is applied in the end, and otherwise nothing.
fn ask<S: Spec, L: Ledger>(
    replay: &mut Replay<S::State, S::Undo, S::Op>,
    committed: &[CommittedTx<S::Op>],
    tx: &Name,
    first: usize,
    ticks: &mut Ticks<L>,
) -> Result<bool, OutOfMemory>
    requires low { least_in tx.now replay.old.attempts.entries ≤ replay.old.serial.count }
    requires within { first ≤ length (own_in tx.now replay.old.attempts.entries) }
    requires ask { (shape : S.Shape) × MayAskOf S.object shape committed.now tx.now
        replay.old.attempts.entries first replay.old.serial }
    ensures decided { IfOk result (λ yes. (shape : S.Shape)
        → MayAskOf S.object shape committed.now tx.now replay.old.attempts.entries first
        replay.old.serial
        → IsTrue yes ↔ IsExplained (rules_of S.object shape) committed.now
        (own_in tx.now replay.old.attempts.entries)
        (least_in tx.now replay.old.attempts.entries) replay.old.serial.count) }
    ensures at { OnOk result ((shape : S.Shape)
        → MayAskOf S.object shape committed.now tx.now replay.old.attempts.entries first
        replay.old.serial
        → IsWith S.object shape committed.now
        (applied_in replay.new.applied replay.new.attempts.entries) replay.new.serial) }
    ensures own { OnOk result ((t : NameOf) → own_in t replay.new.attempts.entries
        ≡ own_in t replay.old.attempts.entries) }
    ensures least { OnOk result ((t : NameOf) → least_in t replay.new.attempts.entries
        ≡ least_in t replay.old.attempts.entries) }
    ensures others { OnOk result ((t : NameOf) → (tx.now =ⁿ t) ≡ false
        → excluded_in t replay.new.attempts.entries
        ≡ excluded_in t replay.old.attempts.entries) }
    ensures excluded { OnOk result ((shape : S.Shape)
        → MayAskOf S.object shape committed.now tx.now replay.old.attempts.entries first
        replay.old.serial
        → AreExcluded (rules_of S.object shape) committed.now
        (own_in tx.now replay.old.attempts.entries)
        (excluded_in tx.now replay.new.attempts.entries)) }
    ensures count { OnOk result (replay.new.serial.count ≡ replay.old.serial.count) }
    ensures rises { ticks.old ≤ ticks.new }
    ensures bound { AskingCostsAtMost committed.now tx.now replay.old.attempts.entries
        replay.old.serial.count ticks.old ticks.new }
    ensures paid { OnOk result (AskingCostsAtMost committed.now tx.now
        replay.old.attempts.entries replay.old.serial.count ticks.old
        (ticks.new + length (applied_in replay.new.applied replay.new.attempts.entries))) }
{
    let low = least(&replay.attempts, tx);
    let high = replay.serial.count;
    let known = excluded_of(&replay.attempts, tx);
    let items = own(&replay.attempts, tx);
    replay.applied = None;
    let here = apply_here::<S, L>(&mut replay.serial, items, first, known, ticks)?;
    if here {
        replay.applied = Some(*tx);
        return Ok(true);
    }
    let serial = &mut replay.serial;
    let found = find_below::<S, L>(serial, committed, low, items, known, ticks)?;
    let Some(count) = found else {
        return Ok(false);
    };
    let greater = Excluded {
        after: count,
        up_to: high,
    };
    exclude(&mut replay.attempts, tx, greater);
    Ok(true)
}

/// Takes a step. It returns the transaction of the step if this is an APP, and its own list is not
/// explained after it.
pub(crate) fn take<S: Spec, L: Ledger>(
    alloc: Global,
    replay: &mut Replay<S::State, S::Undo, S::Op>,
    committed: &[CommittedTx<S::Op>],
    step: &Step<S::Op>,
    ticks: &mut Ticks<L>,
) -> Result<Option<Name>, OutOfMemory>
    requires { (shape : S.Shape) × (h : OptionOf (StartOf S.Op)) × (past : List (StepOf S.Op))
        × (rest : List (StepOf S.Op))
        × IsRun S.object shape h (past ++ meaning step.now ∷ rest) committed.now
        × IsReplay S.object shape h past committed.now replay.old.serial
        replay.old.attempts.entries replay.old.applied }
    ensures follows { OnOk result ((shape : S.Shape) (h : OptionOf (StartOf S.Op))
        (past rest : List (StepOf S.Op))
        → IsRun S.object shape h (past ++ meaning step.now ∷ rest) committed.now
        → IsReplay S.object shape h past committed.now replay.old.serial
        replay.old.attempts.entries replay.old.applied
        → IsReplay S.object shape h (past ++ meaning step.now ∷ []) committed.now
        replay.new.serial replay.new.attempts.entries replay.new.applied) }
    ensures seen { IfOk result (λ found. (shape : S.Shape) (h : OptionOf (StartOf S.Op))
        (past rest : List (StepOf S.Op))
        → IsRun S.object shape h (past ++ meaning step.now ∷ rest) committed.now
        → IsReplay S.object shape h past committed.now replay.old.serial
        replay.old.attempts.entries replay.old.applied
        → IsSeen (rules_of S.object shape) h past (meaning step.now) found) }
    ensures rises { ticks.old ≤ ticks.new }
    ensures bound { (shape : S.Shape) (h : OptionOf (StartOf S.Op)) (past rest : List (StepOf S.Op))
        → IsRun S.object shape h (past ++ meaning step.now ∷ rest) committed.now
        → IsReplay S.object shape h past committed.now replay.old.serial
        replay.old.attempts.entries replay.old.applied
        → ticks.new ≤ ticks.old
        + length (applied_in replay.old.applied replay.old.attempts.entries)
        + step_costs h past (meaning step.now) committed.now }
    ensures paid { OnOk result ((shape : S.Shape) (h : OptionOf (StartOf S.Op))
        (past rest : List (StepOf S.Op))
        → IsRun S.object shape h (past ++ meaning step.now ∷ rest) committed.now
        → IsReplay S.object shape h past committed.now replay.old.serial
        replay.old.attempts.entries replay.old.applied
        → ticks.new + length (applied_in replay.new.applied replay.new.attempts.entries)
        ≤ ticks.old + length (applied_in replay.old.applied replay.old.attempts.entries)
        + step_costs h past (meaning step.now) committed.now) }
{
    let serial = &mut replay.serial;
    match step {
        Step::Begin { tx, .. } => {
            settle::<S, L>(serial, &mut replay.applied, &replay.attempts, ticks)?;
            begin(alloc, &mut replay.attempts, tx, replay.serial.count)?;
            Ok(None)
        }
        Step::App { tx, id, op } => {
            let applied = &mut replay.applied;
            let first = keep_own::<S, L>(serial, applied, &replay.attempts, tx, ticks)?;
            apply(alloc, &mut replay.attempts, tx, Item { id: *id, op: *op })?;
            let explained = ask::<S, L>(replay, committed, tx, first, ticks)?;
            if explained { Ok(None) } else { Ok(Some(*tx)) }
        }
        Step::Unapp { tx, .. } => {
            settle::<S, L>(serial, &mut replay.applied, &replay.attempts, ticks)?;
            unapply(&mut replay.attempts, tx, replay.serial.count);
            Ok(None)
        }
        Step::Cmt { .. } => {
            settle::<S, L>(serial, &mut replay.applied, &replay.attempts, ticks)?;
            advance::<S, L>(&mut replay.serial, committed, ticks)?;
            Ok(None)
        }
        Step::Push { .. } => Ok(None),
        Step::Unpush { .. } => Ok(None),
        Step::Pull { .. } => Ok(None),
        Step::Unpull { .. } => Ok(None),
        Step::Quit { .. } => Ok(None),
        Step::Note { .. } => Ok(None),
    }
}
