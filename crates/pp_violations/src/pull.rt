//! The criteria of the PULLs of an operation.
ghost use Rattle.std.specs.Prelude.{◌≡◌, ◌≤◌, ◌<◌, ◌+◌, IfOk, IsTrue, List, length};
ghost use Rattle.pp_model.specs.Lists.{In};
ghost use Rattle.pp_core.specs.declared.entry.Item.{Item as ItemOf};
ghost use Rattle.pp_kind.specs.Object.{AllRanged, IsAllowed};
ghost use Rattle.pp_kind.specs.declared.range.TheConstants.{MOST_OPERATIONS};
ghost use Rattle.pp_model.specs.Object.{ops};
ghost use Rattle.pp_summary.specs.Held.{IsOpAsked};
ghost use Rattle.pp_violations.specs.Searches.{AreEntriesAsked, AreItemsAsked, IsStateOf};
ghost use Rattle.pp_violations.specs.Searches.{JudgesPull, SearchesPulls, own_swap};

use crate::violation::{Broken, Violation, at_step};
use pp_core::{Item, OutOfMemory, Rule, SharedEntry, Ticks};
use pp_kind::{Applied, Parted, Spec, state_after};
use pp_machine::{Detail, swap_detail};
use pp_summary::Own;
use std::alloc::Global;
use std::sync::ledger::Ledger;

/// The evidence for the first of these operations that does not swap with another operation.
fn find_own_swap<S: Spec>(
    alloc: Global,
    own: &[Item<S::Op>],
    op: &S::Op,
) -> Result<Detail<S::Op>, OutOfMemory>
    requires own { (p : ItemOf S.Op) → In p own.now → IsTrue (S.object.ranged p.op) }
    requires ranged { IsTrue (S.object.ranged op.now) }
    ensures { IfOk result (λ detail. detail ≡ own_swap S.object own.now op.now) }
{
    for item in own {
        if !S::swaps(&item.op, op) {
            return swap_detail::<S>(alloc, item.id, &item.op, op);
        }
    }
    Ok(Detail::Nothing)
}

/// The first violated criterion of the PULL of an entry. If it violates none, the state becomes
/// the one after the entry.
fn judge_pull<S: Parted, L: Ledger>(
    alloc: Global,
    own: &Own<S>,
    entry: &SharedEntry<S::Op>,
    state: &mut S::State,
    ticks: &mut Ticks<L>,
) -> Result<Option<Broken<S::Op>>, OutOfMemory>
    requires own { AreItemsAsked S.object (S.object.shape state.old) own.now }
    requires asked { IsOpAsked S.object (S.object.shape state.old) entry.now.op }
    requires state { (before : List S.Op)
        × IsStateOf S.object S.place_of (S.object.shape state.old) state.old before
        × (length before < MOST_OPERATIONS) }
    ensures judges { IfOk result (λ r. (before : List S.Op) →
        IsStateOf S.object S.place_of (S.object.shape state.old) state.old before →
        JudgesPull S.object S.place_of (S.object.shape state.old) before own.now entry.now
        state.new r) }
    ensures cost { ticks.new ≡ ticks.old + 1 }
{
    match S::apply(state, &entry.op, ticks)? {
        Applied::Done(_) => {}
        Applied::Differs => {
            let answer = S::gives(state, &entry.op);
            let id = entry.id;
            return Ok(Some(Broken {
                criterion: 4,
                detail: Detail::Gives { id, answer },
            }));
        }
    }
    if own.let_pass(&entry.op) {
        return Ok(None);
    }
    let detail = find_own_swap::<S>(alloc, own.as_slice(), &entry.op)?;
    Ok(Some(Broken {
        criterion: 5,
        detail,
    }))
}

/// The first of the PULLs that violates a criterion, or the state after them if none does.
pub fn search_pulls<S: Parted, L: Ledger>(
    alloc: Global,
    shape: &S::Shape,
    own: &Own<S>,
    view: &[Item<S::Op>],
    entries: &[SharedEntry<S::Op>],
    ticks: &mut Ticks<L>,
) -> Result<Result<S::State, Violation<S::Op>>, OutOfMemory>
    requires own { AreItemsAsked S.object shape.now own.now }
    requires asked { AreEntriesAsked S.object shape.now entries.now }
    requires allowed { IsAllowed S.object shape.now (ops view.now) }
    requires ranged { AllRanged S.object (ops view.now) }
    requires few { length view.now + length entries.now < MOST_OPERATIONS }
    ensures searches { IfOk result (SearchesPulls S.object S.place_of shape.now (ops view.now)
        own.now entries.now) }
    ensures rises { ticks.old ≤ ticks.new }
    ensures bound { ticks.new ≤ ticks.old + (length view.now + length entries.now) }
{
    let mut state = state_after::<S, L>(alloc, shape, view, ticks)?;
    for k in 0..entries.len() {
        if let Some(broken) = judge_pull(alloc, own, &entries[k], &mut state, ticks)? {
            return Ok(Err(at_step(k as u64, Rule::Pull, broken)));
        }
    }
    Ok(Ok(state))
}
