//! How many steps a record has.
ghost use Rattle.std.specs.Prelude.{◌≡◌, ◌≤◌, ◌<◌, ◌+◌, ℕ};
ghost use Rattle.pp_core.specs.declared.call.Style.TheVariants.{Optimistic};
ghost use Rattle.pp_records.specs.Expansions.{IsOfStyle};
ghost use Rattle.pp_records.specs.Records.{Abort, Commit, Op, Refresh, Retry, record_meaning};
ghost use Rattle.pp_snapshots.specs.Shown.{Keeps};
ghost use Rattle.pp_snapshots.specs.Steps.{CountsAs, first_pulls, pulls_first};

use crate::op::{count_at, has_own_at, seen_at};
use crate::parts::Parts;
use pp_core::{Items, Name};
use pp_kind::Placed;
use pp_records::RunRecord;
use pp_summary::{OpenTx, find_open};

/// How many of all commits at its place an operation pulls first: all, if its transaction has nothing
/// of the place, and else none.
fn pulls_of(seen: usize, own: bool, all: usize) -> usize
    ensures { result ≡ pulls_first seen own all }
{
    if seen == 0 && !own { all } else { 0 }
}

/// How many commits at its place an operation of an open transaction pulls first.
fn count_pulls<S: Placed>(
    parts: &Parts<S::Shape, S::State, S::Op, S::Undo>,
    it: &OpenTx<Items<S::Op>>,
    place: u16,
) -> usize
    ensures { result ≡ first_pulls S.place_of parts.now place it.now }
{
    let seen = seen_at(&it.seen, place);
    let own = has_own_at::<S>(it.own.as_slice(), place);
    let all = count_at(&parts.past.places, place);
    pulls_of(seen, own, all)
}

/// How many steps an operation has: a PULL of each commit that it pulls first, and an APP.
fn op_steps<S: Placed>(
    parts: &Parts<S::Shape, S::State, S::Op, S::Undo>,
    tx: &Name,
    op: &S::Op,
) -> u64
    requires keeps { Keeps S.object S.place_of parts.now }
    requires few { parts.now.count < 4_294_967_295 }
    ensures count { (id : ℕ) → CountsAs S.place_of parts.now (Op tx.now id op.now) result }
    ensures bound { result ≤ parts.now.count + 257 }
{
    let Some(it) = find_open(&parts.slots, tx) else {
        return 1;
    };
    let place = S::place(op);
    let pulls = count_pulls::<S>(parts, it, place);
    pulls as u64 + 1
}

/// How many steps a refresh has: a PULL of each commit at the place that the transaction has not
/// seen, and a NOTE.
fn refresh_steps<S: Placed>(
    parts: &Parts<S::Shape, S::State, S::Op, S::Undo>,
    tx: &Name,
    place: u16,
) -> u64
    requires keeps { Keeps S.object S.place_of parts.now }
    requires few { parts.now.count < 4_294_967_295 }
    ensures count { CountsAs S.place_of parts.now (Refresh tx.now place) result }
    ensures bound { result ≤ parts.now.count + 257 }
{
    let Some(it) = find_open(&parts.slots, tx) else {
        return 1;
    };
    let all = count_at(&parts.past.places, place);
    let seen = seen_at(&it.seen, place);
    let unseen = all - seen;
    unseen as u64 + 1
}

/// How many steps a commit has: a PUSH of each own operation, and a CMT.
fn commit_steps<S: Placed>(parts: &Parts<S::Shape, S::State, S::Op, S::Undo>, tx: &Name) -> u64
    requires keeps { Keeps S.object S.place_of parts.now }
    requires few { parts.now.count < 4_294_967_295 }
    ensures count { CountsAs S.place_of parts.now (Commit tx.now) result }
    ensures bound { result ≤ parts.now.count + 257 }
{
    let Some(it) = find_open(&parts.slots, tx) else {
        return 1;
    };
    let own = it.own.as_slice().len();
    own as u64 + 1
}

/// How many steps take an open transaction back: an UNPULL of each commit that it has seen, an UNAPP
/// of each own operation, and one more for the record itself.
fn back_steps<S: Placed>(parts: &Parts<S::Shape, S::State, S::Op, S::Undo>, tx: &Name) -> u64
    requires keeps { Keeps S.object S.place_of parts.now }
    requires few { parts.now.count < 4_294_967_295 }
    ensures abort { CountsAs S.place_of parts.now (Abort tx.now) result }
    ensures retry { CountsAs S.place_of parts.now (Retry tx.now) result }
    ensures bound { result ≤ parts.now.count + 257 }
{
    let Some(it) = find_open(&parts.slots, tx) else {
        return 1;
    };
    it.seen.own_places();
    let seen = it.seen.total();
    let own = it.own.as_slice().len();
    seen as u64 + own as u64 + 1
}

/// How many steps a record has, good or not.
pub fn steps<S: Placed>(
    parts: &Parts<S::Shape, S::State, S::Op, S::Undo>,
    recorded: &RunRecord<S::Op>,
) -> u64
    requires keeps { Keeps S.object S.place_of parts.now }
    requires few { parts.now.count < 4_294_967_295 }
    requires style { IsOfStyle Optimistic (record_meaning recorded.now) }
    ensures count { CountsAs S.place_of parts.now (record_meaning recorded.now) result }
    ensures bound { result ≤ parts.now.count + 257 }
{
    match recorded {
        RunRecord::Plain(_) => 1,
        RunRecord::Op { tx, op, .. } => op_steps::<S>(parts, tx, op),
        RunRecord::Commit { tx } => commit_steps::<S>(parts, tx),
        RunRecord::Abort { tx } => back_steps::<S>(parts, tx),
        RunRecord::Retry { tx } => back_steps::<S>(parts, tx),
        RunRecord::Refresh { tx, object } => refresh_steps::<S>(parts, tx, *object),
        RunRecord::XBegin { .. }
        | RunRecord::XEnd { .. }
        | RunRecord::XAbort { .. }
        | RunRecord::Depend { .. }
        | RunRecord::Publish { .. }
        | RunRecord::DropSource { .. } => unreachable!(),
    }
}
