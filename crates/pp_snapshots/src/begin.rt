//! A begin record.
ghost use Rattle.std.specs.Prelude.{◌≡◌, ◌<◌, [], IfOk, OnOk, option_map};
ghost use Rattle.pp_body.specs.Walks.{HasTaken};
ghost use Rattle.pp_core.specs.Steps.{Begin};
ghost use Rattle.pp_core.specs.Trees.{IsWithinLimits, tree};
ghost use Rattle.pp_records.specs.Records.{Plain};
ghost use Rattle.pp_snapshots.specs.Moving.{Answers};
ghost use Rattle.pp_snapshots.specs.Shown.{Keeps};

use crate::parts::Parts;
use pp_body::Walk;
use pp_core::{Body, Items, Name, OutOfMemory};
use pp_kind::Placed;
use pp_summary::{OpenTx, Seen, put_new};
use std::alloc::Global;

/// A transaction that begins. The only error is out of memory.
fn fresh<O: Copy>(
    alloc: Global,
    thread: &Name,
    body: &Option<Body>,
) -> Result<OpenTx<Items<O>>, OutOfMemory>
    requires { IsWithinLimits (option_map tree body.now) }
    ensures thread { IfOk result (λ x. x.thread ≡ thread.now) }
    ensures body { IfOk result (λ x. x.walk.body ≡ option_map tree body.now) }
    ensures taken { IfOk result (λ x. HasTaken x.walk []) }
    ensures own { IfOk result (λ x. x.own ≡ []) }
    ensures seen { IfOk result (λ x. x.seen.entries ≡ []) }
{
    let body = Body::copy_if_any(body, alloc)?;
    let walk = Walk::start(alloc, body)?;
    Ok(OpenTx {
        thread: *thread,
        walk,
        own: Items::new(alloc),
        seen: Seen::new(alloc),
    })
}

/// A transaction begins, where its name is new and its thread is not busy. The only error is
/// out of memory.
pub fn begin<S: Placed>(
    parts: &mut Parts<S::Shape, S::State, S::Op, S::Undo>,
    tx: &Name,
    thread: &Name,
    body: &Option<Body>,
) -> Result<bool, OutOfMemory>
    requires keeps { Keeps S.object S.place_of parts.old }
    requires within { IsWithinLimits (option_map tree body.now) }
    requires few { parts.old.count < 4_294_967_295 }
    ensures answers { IfOk result (λ answer. Answers S.object S.place_of parts.old
        (Plain (Begin tx.now thread.now (option_map tree body.now))) answer parts.new) }
    ensures index { OnOk result (parts.new.by_part ≡ parts.old.by_part) }
{
    if parts.slots.contains_key(tx) {
        return Ok(false);
    }
    if parts.threads.contains(thread) {
        return Ok(false);
    }
    let it = fresh::<S::Op>(parts.alloc, thread, body)?;
    parts.threads.insert(*thread)?;
    put_new(&mut parts.slots, tx, Some(it))?;
    parts.count += 1;
    Ok(true)
}
