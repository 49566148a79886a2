//! Changes of an open transaction.
ghost use Rattle.std.specs.Prelude.{◌≡◌, [], IfOk, OnOk, option_map};
ghost use Rattle.pp_body.specs.Walks.{HasTaken, MayTake};
ghost use Rattle.pp_core.specs.Trees.{IsWithinLimits, tree};
ghost use Rattle.pp_summary.specs.Passing.{IsGrown};
ghost use Rattle.pp_summary.specs.Shown.{calls_of};

use crate::commits::count_at;
use crate::own::Own;
use crate::parts::{Commits, OpenTx};
use crate::seen::Seen;
use pp_body::Walk;
use pp_core::{Body, Item, Name, OutOfMemory};
use pp_kind::{Parted, Placed};
use std::alloc::Global;

/// Makes a transaction that begins. The only error is out of memory.
pub fn fresh<S: Parted>(
    alloc: Global,
    thread: &Name,
    body: &Option<Body>,
) -> Result<OpenTx<Own<S>>, OutOfMemory>
    requires { IsWithinLimits (option_map tree body.now) }
    ensures thread { IfOk result (λ x. x.thread ≡ thread.now) }
    ensures body { IfOk result (λ x. x.walk.body ≡ option_map tree body.now) }
    ensures taken { IfOk result (λ x. HasTaken x.walk []) }
    ensures own { IfOk result (λ x. x.own ≡ []) }
    ensures seen { IfOk result (λ x. x.seen.entries ≡ []) }
{
    let body = Body::copy_if_any(body, alloc)?;
    let walk = Walk::start(alloc, body)?;
    Ok(OpenTx {
        thread: *thread,
        walk,
        own: Own::new(alloc),
        seen: Seen::new(alloc),
    })
}

/// Adds an own operation. The transaction has then seen all commits at the place of the operation.
/// The only error is out of memory.
pub fn add_operation<S: Parted>(
    it: &mut OpenTx<Own<S>>,
    commits: &Commits,
    item: Item<S::Op>,
) -> Result<(), OutOfMemory>
    requires { MayTake it.old.walk (S.object.call item.op) }
    ensures { OnOk result (IsGrown S.object S.place_of commits.now.items it.old item it.new) }
{
    it.walk.follow(&S::call(&item.op))?;
    it.own.add(item)?;
    let place = S::place(&item.op);
    it.seen.insert(place, count_at(commits, place))?;
    Ok(())
}

/// Takes the calls of these operations back from the end of the walk.
pub fn given_back<S: Placed>(walk: Walk, own: &[Item<S::Op>]) -> Walk
    requires { HasTaken walk (calls_of S.object own.now) }
    ensures body { result.body ≡ walk.body }
    ensures taken { HasTaken result [] }
{
    let mut walk = walk;
    let mut left = own.len();
    while left > 0 {
        left -= 1;
        walk = walk.back();
    }
    walk
}

/// The transaction as it was when it began.
pub fn begin_again<S: Parted>(alloc: Global, it: OpenTx<Own<S>>) -> OpenTx<Own<S>>
    requires { HasTaken it.walk (calls_of S.object it.own) }
    ensures thread { result.thread ≡ it.thread }
    ensures body { result.walk.body ≡ it.walk.body }
    ensures taken { HasTaken result.walk [] }
    ensures own { result.own ≡ [] }
    ensures seen { result.seen.entries ≡ [] }
{
    let OpenTx {
        thread,
        walk,
        own,
        seen: _,
    } = it;
    let walk = given_back::<S>(walk, own.as_slice());
    OpenTx {
        thread,
        walk,
        own: Own::new(alloc),
        seen: Seen::new(alloc),
    }
}
