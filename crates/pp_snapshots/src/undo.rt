//! An abort record, and a retry record.
ghost use Rattle.std.specs.Prelude.{◌≡◌, ◌<◌, []};
ghost use Rattle.pp_body.specs.Walks.{HasTaken};
ghost use Rattle.pp_records.specs.Records.{Abort, Retry};
ghost use Rattle.pp_summary.specs.Shown.{calls_of};
ghost use Rattle.pp_snapshots.specs.Moving.{Answers};
ghost use Rattle.pp_snapshots.specs.Shown.{Keeps};

use crate::parts::Parts;
use pp_core::{Items, Name};
use pp_kind::Placed;
use pp_summary::{OpenTx, Seen, given_back, put_back, take_out};
use std::alloc::Global;

/// The transaction as it began.
fn anew<S: Placed>(alloc: Global, it: OpenTx<Items<S::Op>>) -> OpenTx<Items<S::Op>>
    requires { HasTaken it.walk (calls_of S.object it.own) }
    ensures thread { result.thread ≡ it.thread }
    ensures body { result.walk.body ≡ it.walk.body }
    ensures taken { HasTaken result.walk [] }
    ensures own { result.own ≡ [] }
    ensures seen { result.seen.entries ≡ [] }
{
    let OpenTx {
        thread,
        walk,
        own,
        seen: _,
    } = it;
    let walk = given_back::<S>(walk, own.as_slice());
    OpenTx {
        thread,
        walk,
        own: Items::new(alloc),
        seen: Seen::new(alloc),
    }
}

/// Takes an abort record if it is good: the open transaction gives up.
pub fn abort<S: Placed>(parts: &mut Parts<S::Shape, S::State, S::Op, S::Undo>, tx: &Name) -> bool
    requires keeps { Keeps S.object S.place_of parts.old }
    requires few { parts.old.count < 4_294_967_295 }
    ensures answers { Answers S.object S.place_of parts.old (Abort tx.now) result parts.new }
    ensures index { parts.new.by_part ≡ parts.old.by_part }
{
    let Some(it) = take_out(&mut parts.slots, tx) else {
        return false;
    };
    parts.threads.swap_remove(&it.thread);
    parts.count += 1;
    true
}

/// Takes a retry record if it is good: the open transaction begins anew.
pub fn retry<S: Placed>(parts: &mut Parts<S::Shape, S::State, S::Op, S::Undo>, tx: &Name) -> bool
    requires keeps { Keeps S.object S.place_of parts.old }
    requires few { parts.old.count < 4_294_967_295 }
    ensures answers { Answers S.object S.place_of parts.old (Retry tx.now) result parts.new }
    ensures index { parts.new.by_part ≡ parts.old.by_part }
{
    let Some(it) = take_out(&mut parts.slots, tx) else {
        return false;
    };
    let it = anew::<S>(parts.alloc, it);
    put_back(&mut parts.slots, tx, it);
    parts.count += 1;
    true
}
