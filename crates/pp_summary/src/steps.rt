//! How many steps a record means.
ghost use Rattle.std.specs.Prelude.{◌≡◌, ◌≤◌, ◌<◌, ◌+◌, ◌*◌, ℕ, nat_eq, length, Some};
ghost use Rattle.std.specs.Map.{lookup};
ghost use Rattle.pp_records.specs.Records.{Abort, Op, Retry, record_meaning};
ghost use Rattle.pp_summary.specs.Held.{HasSteps};
ghost use Rattle.pp_summary.specs.Runs.{IsBoosted};
ghost use Rattle.pp_summary.specs.Seen.{seen_total};
ghost use Rattle.pp_summary.specs.Shown.{KeepsQuick, as_held, at, count_behind};

use crate::commits::count_at;
use crate::own::Own;
use crate::parts::{Commits, OpenTx, Parts};
use crate::slots::find_open;
use pp_core::Name;
use pp_kind::Parted;
use pp_log_shared::Shared;
use pp_records::RunRecord;

/// How many commits at a place the transaction has not seen.
fn count_unseen<S: Parted>(it: &OpenTx<Own<S>>, commits: &Commits, place: u16) -> usize
    requires within { (k : ℕ) → lookup (nat_eq place) it.now.seen.entries ≡ Some k →
        k ≤ length (at place commits.now.items) }
    ensures { result ≡ count_behind (lookup (nat_eq place) it.now.seen.entries)
        (at place commits.now.items) }
{
    let all = count_at(commits, place);
    match it.seen.get(place) {
        None => all,
        Some(seen) => all - seen,
    }
}

/// How many steps an operation means: a PULL of each commit at its place that the transaction has
/// not seen, an APP and a PUSH.
fn op_steps<S: Parted>(
    parts: &Parts<S::Shape, S::Op, Shared<S>, Own<S>>,
    tx: &Name,
    op: &S::Op,
) -> u64
    requires keeps { KeepsQuick S.object S.place_of parts.now }
    ensures count { (id : ℕ) → HasSteps S.object S.place_of (as_held S.place_of parts.now)
        (Op tx.now id op.now) result }
    ensures bound { result ≤ parts.now.count + 258 }
{
    let Some(it) = find_open(&parts.slots, tx) else {
        return 1;
    };
    let place = S::place(op);
    let unseen = count_unseen::<S>(it, &parts.commits, place);
    unseen as u64 + 2
}

/// How many steps take an open transaction back: an UNPULL of each commit that it has seen, an
/// UNPUSH and an UNAPP of each own operation, and one step for the record itself.
fn back_steps<S: Parted>(parts: &Parts<S::Shape, S::Op, Shared<S>, Own<S>>, tx: &Name) -> u64
    requires keeps { KeepsQuick S.object S.place_of parts.now }
    requires few { parts.now.count < 4_294_967_295 }
    ensures abort { HasSteps S.object S.place_of (as_held S.place_of parts.now) (Abort tx.now)
        result }
    ensures retry { HasSteps S.object S.place_of (as_held S.place_of parts.now) (Retry tx.now)
        result }
    ensures bound { result ≤ 3 * (parts.now.count + 256) + 1 }
{
    let Some(it) = find_open(&parts.slots, tx) else {
        return 1;
    };
    it.seen.own_places();
    let seen = it.seen.total();
    let own = it.own.as_slice().len();
    seen as u64 + 2 * own as u64 + 1
}

/// How many steps a record means, whether it is good or not.
pub fn steps<S: Parted>(
    parts: &Parts<S::Shape, S::Op, Shared<S>, Own<S>>,
    recorded: &RunRecord<S::Op>,
) -> u64
    requires keeps { KeepsQuick S.object S.place_of parts.now }
    requires few { parts.now.count < 4_294_967_295 }
    requires style { IsBoosted (record_meaning recorded.now) }
    ensures count { HasSteps S.object S.place_of (as_held S.place_of parts.now)
        (record_meaning recorded.now) result }
    ensures bound { result ≤ 3 * (parts.now.count + 256) + 1 }
{
    match recorded {
        RunRecord::Op { tx, op, .. } => op_steps(parts, tx, op),
        RunRecord::Abort { tx } => back_steps(parts, tx),
        RunRecord::Retry { tx } => back_steps(parts, tx),
        RunRecord::Plain(_)
        | RunRecord::Commit { .. }
        | RunRecord::Refresh { .. }
        | RunRecord::XBegin { .. }
        | RunRecord::XEnd { .. }
        | RunRecord::XAbort { .. }
        | RunRecord::Depend { .. }
        | RunRecord::Publish { .. }
        | RunRecord::DropSource { .. } => 1,
    }
}
