//! Items that leave a log, a batch of one place after another.
ghost use Rattle.std.specs.Prelude.{◌≡◌, ◌<◌, ◌≤◌, ◌+◌, OnOk, List, drop, length};
ghost use Rattle.pp_core.specs.declared.entry.Item.{Item as ItemOf};
ghost use Rattle.pp_log.specs.Batches.{AreOnOnePlace, CanForget, Forgets};
ghost use Rattle.pp_log.specs.Leaves.{AllLeave, CanAllLeave};

use crate::carry::gather;
use crate::index::Index;
use crate::leave::take_each_back;
use crate::place::Place;
use crate::run::unwind;
use crate::sides::ItemSide;
use crate::take_out::position_in_place;
use pp_core::{Item, OutOfMemory, Ticks};
use pp_kind::{Placed, Spec, TakesBack};
use std::sync::ledger::Ledger;

/// A position from which on all items have one place. That the one before has another place is not
/// promised.
fn start_of_batch<S: Placed>(own: &[Item<S::Op>]) -> usize
    requires { 0 < length own.now }
    ensures within { result < length own.now }
    ensures one_place { AreOnOnePlace S.place_of (drop result own.now) }
{
    let mut start = own.len() - 1;
    let place = S::place(&own[start].op);
    while start > 0 && S::place(&own[start - 1].op) == place {
        start -= 1;
    }
    start
}

/// Forgets the ids of items, from the last to the first, in the index and among those of a place.
fn forget_all<S: Spec>(batch: &[Item<S::Op>], ids: &mut Index, ids_there: &mut Vec<u32>)
    requires { (log items : List (ItemOf S.Op))
        × CanForget S.object batch.now ids.old ids_there.old.items log items }
    ensures { Forgets S.object batch.now ids.old ids_there.old.items ids.new ids_there.new.items }
{
    let mut left = batch.len();
    while left > 0 {
        left -= 1;
        let id = batch[left].id;
        let Some(i) = ids.find(id) else {
            unreachable!()
        };
        let Some(at) = position_in_place(ids_there, ids, i, id) else {
            unreachable!()
        };
        let _ = ids_there.remove(at);
        ids.remove(i, id);
    }
}

/// Takes items of one place back. The others after each may move past it. They are carried after
/// these in one walk, unless none of them exchanges undo values with others: then each undo value
/// is taken out at its position. What is kept is then of the others.
fn take_batch_back<S: TakesBack, L: Ledger>(
    batch: &[Item<S::Op>],
    ids: &mut Index,
    places: &mut Vec<Place<S::Undo>>,
    state: &mut S::State,
    ticks: &mut Ticks<L>,
) -> Result<(), OutOfMemory>
    requires some { 0 < length batch.now }
    requires one_place { AreOnOnePlace S.place_of batch.now }
    requires leave { CanAllLeave S.object S.place_of
        state.old places.old.items ids.old batch.now }
    ensures leaves { OnOk result (AllLeave S.object S.place_of batch.now
        state.old places.old.items ids.old state.new places.new.items ids.new) }
    ensures cost { OnOk result (ticks.new ≡ ticks.old + length batch.now) }
    ensures rises { ticks.old ≤ ticks.new }
    ensures bound { ticks.new ≤ ticks.old + length batch.now }
{
    if batch.iter().all(|item| S::keeps_alone(&item.op)) {
        return take_each_back::<S, L>(batch, ids, places, state, ticks);
    }
    let first = &batch[0];
    let Some(i) = ids.find(first.id) else {
        unreachable!()
    };
    let here = S::place(&first.op);
    let p = usize::from(here);
    let place = &mut places[p];
    let Some(from) = position_in_place(&place.ids, ids, i, first.id) else {
        unreachable!()
    };
    gather::<S>(batch, &place.ids, &mut place.undos, from);
    let others = place.undos.len() - batch.len();
    unwind::<S, ItemSide, L>(batch, here, &mut place.undos, others, state, ticks)?;
    forget_all::<S>(batch, ids, &mut place.ids);
    Ok(())
}

/// Takes items back: the last ones that have one place together, and then those before them. The
/// others after each may move past it. What is kept is then of the others.
pub fn take_all_back<S: TakesBack, L: Ledger>(
    own: &[Item<S::Op>],
    ids: &mut Index,
    places: &mut Vec<Place<S::Undo>>,
    state: &mut S::State,
    ticks: &mut Ticks<L>,
) -> Result<(), OutOfMemory>
    requires { CanAllLeave S.object S.place_of state.old places.old.items ids.old own.now }
    ensures leaves { OnOk result (AllLeave S.object S.place_of own.now
        state.old places.old.items ids.old state.new places.new.items ids.new) }
    ensures cost { OnOk result (ticks.new ≡ ticks.old + length own.now) }
    ensures rises { ticks.old ≤ ticks.new }
    ensures bound { ticks.new ≤ ticks.old + length own.now }
{
    let mut left = own.len();
    while left > 0 {
        let start = start_of_batch::<S>(&own[..left]);
        take_batch_back::<S, L>(&own[start..left], ids, places, state, ticks)?;
        left = start;
    }
    Ok(())
}
