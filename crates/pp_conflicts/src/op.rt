//! The criteria of an op record: those of its PULLs and of its APP.
ghost use Rattle.std.specs.Prelude.{◌≡◌, ◌≤◌, ◌<◌, ◌+◌, IfOk, IsTrue, List, reverse};
ghost use Rattle.pp_body.specs.Walks.{HasTaken};
ghost use Rattle.pp_records.specs.Records.{Op};
ghost use Rattle.pp_snapshots.specs.Shown.{Keeps};
ghost use Rattle.pp_summary.specs.Held.{IsOpAsked};
ghost use Rattle.pp_summary.specs.Shown.{calls_of};
ghost use Rattle.pp_violations.specs.Asks.{Judges};
ghost use Rattle.pp_violations.specs.Searches.{IsStateOf, app_evidence, app_facts};
ghost use Rattle.pp_conflicts.specs.Searches.{SearchesShown};

use crate::pull::search_missing;
use crate::view::find_pulled;
use pp_core::{IdSet, Items, Name, OutOfMemory, Rule, Ticks};
use pp_kind::Parted;
use pp_machine::Detail;
use pp_snapshots::Parts;
use pp_summary::{OpenTx, find_open};
use pp_violations::{Broken, Violation, alone, at_step_if, bare};
use std::alloc::Global;
use std::sync::ledger::Ledger;

/// The first violated criterion of the APP of an operation in a state of the objects.
fn judge_app<S: Parted>(
    ids: &IdSet,
    it: &OpenTx<Items<S::Op>>,
    state: &S::State,
    id: u32,
    op: &S::Op,
) -> Option<Broken<S::Op>>
    requires taken { HasTaken it.now.walk (calls_of S.object it.now.own) }
    requires fits { IsTrue (S.object.fits (S.object.shape state.now) op.now) }
    ensures { (before : List S.Op) →
        IsStateOf S.object S.place_of (S.object.shape state.now) state.now before →
        Judges (app_facts S.object S.place_of (S.object.shape state.now) (reverse ids.now) id
        op.now it.now.walk.body it.now.own before)
        (app_evidence S.object S.place_of (S.object.shape state.now) id op.now before) result }
{
    if ids.contains(id) {
        return Some(bare(2));
    }
    if !it.walk.can(&S::call(op)) {
        return Some(bare(3));
    }
    if !S::legal(state, op) {
        let answer = S::gives(state, op);
        return Some(Broken {
            criterion: 4,
            detail: Detail::Gives { id, answer },
        });
    }
    None
}

/// The first step of an op record that violates a criterion.
pub(crate) fn search_op<S: Parted, L: Ledger>(
    alloc: Global,
    parts: &Parts<S::Shape, S::State, S::Op, S::Undo>,
    tx: &Name,
    id: u32,
    op: &S::Op,
    ticks: &mut Ticks<L>,
) -> Result<Option<Violation<S::Op>>, OutOfMemory>
    requires keeps { Keeps S.object S.place_of parts.now }
    requires asked { IsOpAsked S.object parts.now.shape op.now }
    requires few { parts.now.count < 4_294_967_295 }
    ensures searches { IfOk result (SearchesShown S.object S.place_of parts.now
        (Op tx.now id op.now)) }
    ensures rises { ticks.old ≤ ticks.new }
    ensures bound { ticks.new ≤ ticks.old + (parts.now.count + 256) }
{
    let Some(it) = find_open(&parts.slots, tx) else {
        return Ok(Some(alone(Rule::App)));
    };
    let place = S::place(op);
    let pulled = find_pulled::<S>(parts, it, place)?;
    let state = match search_missing::<S, L>(alloc, parts, it, place, &pulled, ticks)? {
        Ok(state) => state,
        Err(violation) => return Ok(Some(violation)),
    };
    let broken = judge_app::<S>(&parts.ids, it, &state, id, op);
    Ok(at_step_if(pulled.len() as u64, Rule::App, broken))
}
