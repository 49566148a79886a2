//! The criteria of an op record: those of its PULLs, of its APP and of its PUSH.
ghost use Rattle.std.specs.Prelude.{◌≡◌, ◌≤◌, ◌<◌, ◌+◌, IfOk, IsTrue, List, reverse};
ghost use Rattle.pp_body.specs.Walks.{HasTaken};
ghost use Rattle.pp_records.specs.Records.{Op};
ghost use Rattle.pp_summary.specs.Held.{IsOpAsked};
ghost use Rattle.pp_summary.specs.Shown.{KeepsQuick, calls_of};
ghost use Rattle.pp_violations.specs.Asks.{Judges};
ghost use Rattle.pp_violations.specs.Searches.{IsStateOf, SearchesRecord, app_evidence, app_facts};
ghost use Rattle.pp_violations.specs.Searches.{push_evidence, push_facts};

use crate::pull::search_pulls;
use crate::view::{find_missing, make_view};
use crate::violation::{Broken, Violation, alone, at_step, at_step_if, bare};
use pp_core::{IdSet, Name, OutOfMemory, Rule, Ticks};
use pp_kind::Parted;
use pp_log_shared::Shared;
use pp_machine::{Detail, swap_detail};
use pp_summary::{OpenTx, Own, Parts, find_open};
use std::alloc::Global;
use std::sync::ledger::Ledger;

/// The first violated criterion of the APP of an operation in a state of the objects.
fn judge_app<S: Parted>(
    ids: &IdSet,
    it: &OpenTx<Own<S>>,
    state: &S::State,
    id: u32,
    op: &S::Op,
) -> Option<Broken<S::Op>>
    requires taken { HasTaken it.now.walk (calls_of S.object it.now.own) }
    requires fits { IsTrue (S.object.fits (S.object.shape state.now) op.now) }
    ensures { (before : List S.Op) →
        IsStateOf S.object S.place_of (S.object.shape state.now) state.now before →
        Judges (app_facts S.object S.place_of (S.object.shape state.now) (reverse ids.now) id
        op.now it.now.walk.body it.now.own before)
        (app_evidence S.object S.place_of (S.object.shape state.now) id op.now before) result }
{
    if ids.contains(id) {
        return Some(bare(2));
    }
    if !it.walk.can(&S::call(op)) {
        return Some(bare(3));
    }
    if !S::legal(state, op) {
        let answer = S::gives(state, op);
        return Some(Broken {
            criterion: 4,
            detail: Detail::Gives { id, answer },
        });
    }
    None
}

/// The first violated criterion of the PUSH of an operation. All other operations of its
/// transaction are pushed.
fn judge_push<S: Parted>(
    alloc: Global,
    shared: &Shared<S>,
    tx: &Name,
    id: u32,
    op: &S::Op,
) -> Result<Option<Broken<S::Op>>, OutOfMemory>
    requires asked { IsOpAsked S.object shared.now.0 op.now }
    ensures { IfOk result (Judges (push_facts S.object S.place_of shared.now.0 tx.now op.now
        shared.now.1) (push_evidence S.object S.place_of shared.now.0 tx.now id op.now
        shared.now.1)) }
{
    // It is here for what its clauses say of each log.
    let _length = shared.len();
    if let Some(k) = shared.blocking(tx, op) {
        let other = &shared.entries()[k];
        let detail = swap_detail::<S>(alloc, other.id, &other.op, op)?;
        return Ok(Some(Broken {
            criterion: 4,
            detail,
        }));
    }
    if !shared.legal(op) {
        let answer = shared.gives(op);
        return Ok(Some(Broken {
            criterion: 5,
            detail: Detail::Gives { id, answer },
        }));
    }
    Ok(None)
}

/// The first step of an op record that violates a criterion.
pub(crate) fn search_op<S: Parted, L: Ledger>(
    alloc: Global,
    parts: &Parts<S::Shape, S::Op, Shared<S>, Own<S>>,
    tx: &Name,
    id: u32,
    op: &S::Op,
    ticks: &mut Ticks<L>,
) -> Result<Option<Violation<S::Op>>, OutOfMemory>
    requires keeps { KeepsQuick S.object S.place_of parts.now }
    requires asked { IsOpAsked S.object parts.now.shape op.now }
    requires few { parts.now.count < 4_294_967_295 }
    ensures searches { IfOk result (SearchesRecord S.object S.place_of parts.now.shape parts.now
        (Op tx.now id op.now)) }
    ensures rises { ticks.old ≤ ticks.new }
    ensures bound { ticks.new ≤ ticks.old + (parts.now.count + 256) }
{
    let Some(it) = find_open(&parts.slots, tx) else {
        return Ok(Some(alone(Rule::App)));
    };
    let place = S::place(op);
    let view = make_view::<S>(parts, it, place)?;
    let missing = find_missing::<S>(parts, it, place)?;
    let state = match search_pulls(alloc, &parts.shape, &it.own, &view, &missing, ticks)? {
        Ok(state) => state,
        Err(violation) => return Ok(Some(violation)),
    };
    let offset = missing.len() as u64;
    if let Some(broken) = judge_app::<S>(&parts.ids, it, &state, id, op) {
        return Ok(Some(at_step(offset, Rule::App, broken)));
    }
    let broken = judge_push::<S>(alloc, &parts.shared, tx, id, op)?;
    Ok(at_step_if(offset + 1, Rule::Push, broken))
}
