//! After how many committed transactions the results of peaks are what the object returns.
ghost use Rattle.std.specs.Prelude.{◌≡◌, ◌+◌, ◌*◌, ◌<◌, ◌≤◌, ◌^◌, ℕ, List, []};
ghost use Rattle.std.specs.Prelude.{IfOk, OnOk, length};
ghost use Rattle.pp_model.specs.Config.{CommittedTx as TxOf};
ghost use Rattle.pp_model.specs.Lists.{In};
ghost use Rattle.pp_model.specs.Object.{ops};
ghost use Rattle.pp_model.specs.Sound.{serial_ops};
ghost use Rattle.pp_kind.specs.Object.{AllRanged, AllowedFrom, IsAllowed, rules_of, state_from};
ghost use Rattle.pp_attempts.specs.Peaks.{IdsTell, Peak as PeakOf, operations};
ghost use Rattle.pp_attempts.specs.Trying.{AreCandidates, IsStateAt, IsUntried, MayBeNumbered};
ghost use Rattle.pp_attempts.specs.Trying.{MayFollow, MayRun};
ghost use Rattle.pp_attempts.specs.Views.{AreViews, IsViewBelow, MayBeTried, Pairwise};

use crate::candidates::{Candidates, without_numbered};
use crate::order::line_up;
use crate::peak::{Peak, Peaks};
use crate::trial::{AppliedOp, apply_all, take_back_to};
use pp_core::{Committed, CommittedTx, Item, Name, OutOfMemory, Sequence, Ticks};
use pp_kind::{Applied, Spec};
use std::alloc::Global;
use std::sync::ledger::Ledger;

/// After how many committed transactions the results of a peak are what the object returns.
#[derive(Clone, Copy)]
pub struct View {
    pub tx: Name,
    /// How many operations the peak has.
    pub ops: u32,
    /// The least number of committed transactions, if there is one.
    pub after: Option<u32>,
}

/// Views, in the order of the peaks.
pub type Views = Sequence<View>;

/// Views that no number was tried for.
fn untried<O: Copy>(alloc: Global, peaks: &[Peak<O>]) -> Result<Vec<View>, OutOfMemory>
    requires { (p : PeakOf O) → In p peaks.now → length p.ops < 1_000_000 }
    ensures { IfOk result (λ views. Pairwise IsUntried peaks.now views.items) }
{
    let mut views = Vec::new(alloc);
    for peak in peaks {
        views.push(View {
            tx: peak.tx,
            ops: peak.ops.len() as u32,
            after: None,
        })?;
    }
    Ok(views)
}

/// Lets the operations of a committed transaction take effect.
fn apply_committed<S: Spec, L: Ledger>(
    state: &mut S::State,
    entries: &[Item<S::Op>],
    ticks: &mut Ticks<L>,
) -> Result<(), OutOfMemory>
    requires may { MayFollow S.object state.old (ops entries.now) }
    requires allowed { AllowedFrom S.object state.old (ops entries.now) }
    ensures state { OnOk result (state.new ≡ state_from S.object state.old (ops entries.now)) }
    ensures rises { ticks.old ≤ ticks.new }
    ensures bound { ticks.new ≤ ticks.old + length entries.now }
{
    for entry in entries {
        match S::apply(state, &entry.op, ticks)? {
            Applied::Done(_) => {}
            Applied::Differs => unreachable!(),
        }
    }
    Ok(())
}

/// Tries the candidates after this many committed transactions, one after another. A peak without a
/// number, whose operations all return their results, gets this number; a peak that has one keeps
/// it. Returns whether any peak got one. Of the operations applied for a candidate, as many stay as
/// the next one shares. If the operation that failed is one that the next one shares, that one
/// fails too, and is skipped. In the end all is taken back.
fn try_all<S: Spec, L: Ledger>(
    state: &mut S::State,
    done: &mut Vec<AppliedOp<S::Op, S::Undo>>,
    views: &mut Vec<View>,
    candidates: &Candidates<S::Op>,
    number: u32,
    ticks: &mut Ticks<L>,
) -> Result<bool, OutOfMemory>
    requires empty { done.old.items ≡ [] }
    requires candidates { (ps : List (PeakOf S.Op))
        × MayBeNumbered S.object state.old ps views.old.items candidates.now }
    ensures tried { OnOk result ((ps : List (PeakOf S.Op)) (shape : S.Shape)
        (committed : List (TxOf S.Op))
        → MayBeNumbered S.object state.old ps views.old.items candidates.now
        → IsStateAt S.object shape committed number state.old
        → Pairwise (IsViewBelow number (rules_of S.object shape) committed) ps views.old.items
        → Pairwise (IsViewBelow (number + 1) (rules_of S.object shape) committed) ps
        views.new.items) }
    ensures candidates { OnOk result ((ps : List (PeakOf S.Op))
        → MayBeNumbered S.object state.old ps views.old.items candidates.now
        → AreCandidates ps views.new.items candidates.now) }
    ensures same { OnOk result (state.new ≡ state.old) }
    ensures empty { OnOk result (done.new.items ≡ []) }
    ensures rises { ticks.old ≤ ticks.new }
    ensures bound { (ps : List (PeakOf S.Op))
        → MayBeNumbered S.object state.old ps views.old.items candidates.now
        → ticks.new ≤ ticks.old + 2 * operations ps }
{
    let mut numbered = false;
    for candidate in &candidates.list {
        if done.len() < candidate.shared {
            continue;
        }
        take_back_to::<S, L>(state, done, candidate.shared, ticks)?;
        let others = &candidates.ops[candidate.from..candidate.to];
        let all_done = apply_all::<S, L>(state, done, others, ticks)?;
        if all_done && views[candidate.position].after.is_none() {
            views[candidate.position].after = Some(number);
            numbered = true;
        }
    }
    take_back_to::<S, L>(state, done, 0, ticks)?;
    Ok(numbered)
}

/// Applies a committed transaction, and tries the peaks after it. Returns whether any peak got a
/// number. After a transaction without operations the results are those before it, and no peak is
/// tried.
fn try_behind<S: Spec, L: Ledger>(
    state: &mut S::State,
    done: &mut Vec<AppliedOp<S::Op, S::Undo>>,
    entries: &[Item<S::Op>],
    views: &mut Vec<View>,
    candidates: &Candidates<S::Op>,
    number: u32,
    ticks: &mut Ticks<L>,
) -> Result<bool, OutOfMemory>
    requires empty { done.old.items ≡ [] }
    requires may { MayFollow S.object state.old (ops entries.now) }
    requires allowed { AllowedFrom S.object state.old (ops entries.now) }
    requires candidates { (ps : List (PeakOf S.Op)) × MayBeNumbered S.object
        (state_from S.object state.old (ops entries.now)) ps views.old.items candidates.now }
    ensures state { OnOk result (state.new ≡ state_from S.object state.old (ops entries.now)) }
    ensures tried { OnOk result ((ps : List (PeakOf S.Op)) (shape : S.Shape)
        (committed : List (TxOf S.Op)) (before : ℕ)
        → MayBeNumbered S.object (state_from S.object state.old (ops entries.now)) ps
        views.old.items candidates.now
        → number ≡ before + 1 → IsStateAt S.object shape committed before state.old
        → IsStateAt S.object shape committed number
        (state_from S.object state.old (ops entries.now))
        → Pairwise (IsViewBelow number (rules_of S.object shape) committed) ps views.old.items
        → Pairwise (IsViewBelow (number + 1) (rules_of S.object shape) committed) ps
        views.new.items) }
    ensures candidates { OnOk result ((ps : List (PeakOf S.Op))
        → MayBeNumbered S.object (state_from S.object state.old (ops entries.now)) ps
        views.old.items candidates.now
        → AreCandidates ps views.new.items candidates.now) }
    ensures empty { OnOk result (done.new.items ≡ []) }
    ensures rises { ticks.old ≤ ticks.new }
    ensures bound { (ps : List (PeakOf S.Op))
        → MayBeNumbered S.object (state_from S.object state.old (ops entries.now)) ps
        views.old.items candidates.now
        → ticks.new ≤ ticks.old + length entries.now + 2 * operations ps }
{
    if entries.len() == 0 {
        return Ok(false);
    }
    apply_committed::<S, L>(state, entries, ticks)?;
    try_all::<S, L>(state, done, views, candidates, number, ticks)
}

/// Tries the peaks before any committed transaction and after each of them, until each has a
/// number. Those that have one are left out if some have got one since the last time, and as many
/// transactions have passed as had by then. So the candidates are made again a few times, and a
/// peak with the number n is a candidate for numbers up to 2n at most.
fn number_all<S: Spec, L: Ledger>(
    alloc: Global,
    shape: &S::Shape,
    committed: &[CommittedTx<S::Op>],
    peaks: &[Peak<S::Op>],
    views: &mut Vec<View>,
    ticks: &mut Ticks<L>,
) -> Result<(), OutOfMemory>
    requires few { length committed.now < 2 ^ 32 }
    requires runs { MayRun S.object shape.now committed.now peaks.now }
    requires ids { IdsTell peaks.now }
    requires untried { Pairwise IsUntried peaks.now views.old.items }
    ensures views { OnOk result
        (AreViews (rules_of S.object shape.now) committed.now peaks.now views.new.items) }
    ensures rises { ticks.old ≤ ticks.new }
    ensures bound { ticks.new ≤ ticks.old + length (serial_ops committed.now)
        + 2 * ((length committed.now + 1) * operations peaks.now) }
{
    let mut candidates = line_up(alloc, peaks)?;
    let mut done = Vec::new(alloc);
    let mut state = S::empty(alloc, shape)?;
    let mut stale = try_all::<S, L>(&mut state, &mut done, views, &candidates, 0, ticks)?;
    let mut number = 0u32;
    let mut due = 0u32;
    for transaction in committed {
        if stale && number >= due {
            candidates = without_numbered(alloc, peaks, views.as_slice(), &candidates)?;
            stale = false;
            due = number.saturating_mul(2);
        }
        if candidates.list.len() == 0 {
            return Ok(());
        }
        number += 1;
        let entries = transaction.entries.as_slice();
        let more = try_behind::<S, L>(
            &mut state,
            &mut done,
            entries,
            views,
            &candidates,
            number,
            ticks,
        )?;
        stale = stale || more;
    }
    Ok(())
}

/// For each peak the least number of committed transactions after which its results are what the
/// object returns. Entries of the peaks with one id must be one, as they are in those of a run: so
/// peaks that begin alike are known by their ids, and for each number of committed transactions
/// what a peak shares with the one tried before it is not applied again.
pub fn explain<S: Spec, L: Ledger>(
    alloc: Global,
    shape: &S::Shape,
    committed: &Committed<S::Op>,
    peaks: &Peaks<S::Op>,
    ticks: &mut Ticks<L>,
) -> Result<Views, OutOfMemory>
    requires few { length committed.now < 2 ^ 32 }
    requires allowed { IsAllowed S.object shape.now (serial_ops committed.now) }
    requires ranged { AllRanged S.object (serial_ops committed.now) }
    requires may { (p : PeakOf S.Op) → In p peaks.now
        → MayBeTried S.object shape.now (length (serial_ops committed.now)) p.ops }
    requires ids { IdsTell peaks.now }
    ensures views { IfOk result
        (AreViews (rules_of S.object shape.now) committed.now peaks.now) }
    ensures rises { ticks.old ≤ ticks.new }
    ensures bound { ticks.new ≤ ticks.old + length (serial_ops committed.now)
        + 2 * ((length committed.now + 1) * operations peaks.now) }
{
    let mut views = untried(alloc, peaks.as_slice())?;
    if peaks.len() == 0 {
        return Ok(Views::from(views));
    }
    let committed = committed.as_slice();
    number_all::<S, L>(alloc, shape, committed, peaks.as_slice(), &mut views, ticks)?;
    Ok(Views::from(views))
}
