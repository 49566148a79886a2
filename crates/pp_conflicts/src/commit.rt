//! The criteria of a commit: those of its PUSHes and of its CMT.
ghost use Rattle.std.specs.Prelude.{◌≡◌, ◌≤◌, ◌<◌, ◌+◌, IfOk, List, length};
ghost use Rattle.pp_kind.specs.declared.range.TheConstants.{MOST_OPERATIONS};
ghost use Rattle.pp_records.specs.Records.{Commit};
ghost use Rattle.pp_snapshots.specs.Shown.{Keeps};
ghost use Rattle.pp_violations.specs.Searches.{AreItemsAsked, IsStateOf};
ghost use Rattle.pp_conflicts.specs.Searches.{SearchesPushes, SearchesShown};

use pp_core::{Item, Name, OutOfMemory, Rule, Ticks};
use pp_kind::{Applied, Placed, serial_state};
use pp_machine::Detail;
use pp_snapshots::Parts;
use pp_summary::find_open;
use pp_violations::{Broken, Violation, alone, at_step, bare};
use std::alloc::Global;
use std::sync::ledger::Ledger;

/// The first of the PUSHes of these operations that violates a criterion, after the operations of
/// which the state is known.
fn search_pushes<S: Placed, L: Ledger>(
    state: &mut S::State,
    own: &[Item<S::Op>],
    ticks: &mut Ticks<L>,
) -> Result<Option<Violation<S::Op>>, OutOfMemory>
    requires own { AreItemsAsked S.object (S.object.shape state.old) own.now }
    requires state { (before : List S.Op)
        × IsStateOf S.object S.place_of (S.object.shape state.old) state.old before
        × (length before + length own.now ≤ MOST_OPERATIONS) }
    ensures searches { IfOk result (λ r. (before : List S.Op) →
        IsStateOf S.object S.place_of (S.object.shape state.old) state.old before →
        SearchesPushes S.object (S.object.shape state.old) before own.now r) }
    ensures rises { ticks.old ≤ ticks.new }
    ensures bound { ticks.new ≤ ticks.old + length own.now }
{
    for k in 0..own.len() {
        let item = &own[k];
        match S::apply(state, &item.op, ticks)? {
            Applied::Done(_) => {}
            Applied::Differs => {
                let answer = S::gives(state, &item.op);
                let broken = Broken {
                    criterion: 5,
                    detail: Detail::Gives {
                        id: item.id,
                        answer,
                    },
                };
                return Ok(Some(at_step(k as u64, Rule::Push, broken)));
            }
        }
    }
    Ok(None)
}

/// The first step of a commit that violates a criterion: the PUSH of an own operation, or CMT.
pub(crate) fn search_commit<S: Placed, L: Ledger>(
    alloc: Global,
    parts: &Parts<S::Shape, S::State, S::Op, S::Undo>,
    tx: &Name,
    ticks: &mut Ticks<L>,
) -> Result<Option<Violation<S::Op>>, OutOfMemory>
    requires keeps { Keeps S.object S.place_of parts.now }
    requires few { parts.now.count < 4_294_967_295 }
    ensures searches { IfOk result (SearchesShown S.object S.place_of parts.now (Commit tx.now)) }
    ensures rises { ticks.old ≤ ticks.new }
    ensures bound { ticks.new ≤ ticks.old + (parts.now.count + 256) }
{
    let Some(it) = find_open(&parts.slots, tx) else {
        return Ok(Some(alone(Rule::Cmt)));
    };
    let own = it.own.as_slice();
    let mut state = serial_state::<S, L>(alloc, &parts.shape, &parts.committed, ticks)?;
    if let Some(violation) = search_pushes::<S, L>(&mut state, own, ticks)? {
        return Ok(Some(violation));
    }
    if !it.walk.complete() {
        return Ok(Some(at_step(own.len() as u64, Rule::Cmt, bare(2))));
    }
    Ok(None)
}
