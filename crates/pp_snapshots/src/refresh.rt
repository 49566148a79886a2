//! A refresh record.
ghost use Rattle.std.specs.Prelude.{◌≡◌, ◌+◌, ◌*◌, ◌<◌, ◌≤◌, false, IfOk, IsTrue, OnOk, length};
ghost use Rattle.pp_model.specs.Object.{ops};
ghost use Rattle.pp_records.specs.Records.{Refresh};
ghost use Rattle.pp_snapshots.specs.Costs.{share_part};
ghost use Rattle.pp_snapshots.specs.Many.{AreAsked, AreThere};
ghost use Rattle.pp_snapshots.specs.Moving.{Answers};
ghost use Rattle.pp_snapshots.specs.Ops.{HasAllowed, made_from, open_most, refresh_most};
ghost use Rattle.pp_snapshots.specs.Past.{IsSomePast};
ghost use Rattle.pp_snapshots.specs.Refreshing.{AllSwap, MaySee, OneStays, SeesAll, StaysOf, SwapsAll};
ghost use Rattle.pp_snapshots.specs.Refreshing.{TellsLater, TellsRefresh};
ghost use Rattle.pp_kind.specs.declared.range.TheConstants.{MOST_OPERATIONS};
ghost use Rattle.pp_snapshots.specs.Shown.{Keeps};

use crate::many::{append, may_follow, ops_from};
use crate::op::{count_at, has_part, own_at, seen_at};
use crate::parts::Parts;
use crate::past::Past;
use pp_core::{Items, Name, OutOfMemory, Ticks};
use pp_kind::{Parted, Placed};
use pp_kind_parts::PartByPart;
use pp_summary::{OpenTx, find_open, put_back, take_out};
use std::sync::ledger::Ledger;

/// Whether each of these operations lets another one pass.
fn each_swaps<S: Placed>(own: &[S::Op], op: &S::Op) -> bool
    ensures yes { IsTrue result → SwapsAll S.object own.now op.now }
    ensures no { result ≡ false → StaysOf S.object own.now op.now }
{
    for a in own {
        if !S::swaps(a, op) {
            return false;
        }
    }
    true
}

/// Whether each of the own operations lets each of the later ones pass.
fn all_swap<S: Placed>(own: &[S::Op], later: &[S::Op]) -> bool
    ensures yes { IsTrue result → AllSwap S.object own.now later.now }
    ensures no { result ≡ false → OneStays S.object own.now later.now }
{
    for op in later {
        if !each_swaps::<S>(own, op) {
            return false;
        }
    }
    true
}

/// Whether one of the later operations is of the part of an own one.
fn shares_part<S: Parted>(own: &[S::Op], later: &[S::Op]) -> bool
    ensures { result ≡ share_part S.part_of own.now later.now }
{
    later.iter().any(|b| has_part::<S>(own, b))
}

/// Whether the own operations of a place swap with the later ones there, and all of these are allowed
/// behind them. The only error is out of memory.
fn ask_later<S: Placed, L: Ledger>(
    past: &mut Past<S::State, S::Op, S::Undo>,
    place: u16,
    seen: usize,
    own: &[S::Op],
    later: &[S::Op],
    ticks: &mut Ticks<L>,
) -> Result<bool, OutOfMemory>
    requires some { IsSomePast S.object S.place_of past.old }
    requires own { AreAsked S.object past.old own.now }
    requires there { AreThere S.place_of place own.now }
    requires later { later.now ≡ made_from past.old place seen }
    requires few { past.old.size + length own.now < MOST_OPERATIONS }
    ensures tells { IfOk result (λ good. TellsLater S.object S.place_of past.old place seen own.now
        good past.new) }
    ensures size { OnOk result (past.new.size ≡ past.old.size) }
    ensures rises { ticks.old ≤ ticks.new }
    ensures bound { ticks.new ≤ ticks.old
        + 2 * (length later.now + (length own.now + length later.now)) }
{
    if !all_swap::<S>(own, later) {
        return Ok(false);
    }
    let mut asked = Vec::new(past.alloc);
    append(&mut asked, own)?;
    append(&mut asked, later)?;
    may_follow::<S, L>(past, place, seen, &asked, ticks)
}

/// Whether an open transaction may take a new snapshot of a place: its own operations there swap with
/// what it has missed, and all of it is allowed behind them. That is so where no own operation is of
/// the part of one that it has missed. The only error is out of memory.
fn may_refresh<S: PartByPart, L: Ledger>(
    it: &OpenTx<Items<S::Op>>,
    past: &mut Past<S::State, S::Op, S::Undo>,
    place: u16,
    ticks: &mut Ticks<L>,
) -> Result<bool, OutOfMemory>
    requires some { IsSomePast S.object S.place_of past.old }
    requires own { AreAsked S.object past.old (ops it.now.own) }
    requires has { HasAllowed S.object S.place_of past.old it.now }
    requires few { past.old.size + length it.now.own < MOST_OPERATIONS }
    ensures tells { IfOk result (λ good.
        TellsRefresh S.object S.place_of past.old place it.now good past.new) }
    ensures size { OnOk result (past.new.size ≡ past.old.size) }
    ensures rises { ticks.old ≤ ticks.new }
    ensures bound { ticks.new ≤ ticks.old
        + refresh_most S.place_of S.part_of past.old it.now place }
{
    let own = own_at::<S>(past.alloc, it.own.as_slice(), place)?;
    let seen = seen_at(&it.seen, place);
    let later = ops_from(past.alloc, &past.places, usize::from(place), seen)?;
    if !shares_part::<S>(&own, &later) {
        return Ok(true);
    }
    ask_later::<S, L>(past, place, seen, &own, &later, ticks)
}

/// The open transaction has seen all commits at the place. The only error is out of memory.
fn see_all<S: Placed>(
    parts: &mut Parts<S::Shape, S::State, S::Op, S::Undo>,
    tx: &Name,
    place: u16,
) -> Result<(), OutOfMemory>
    requires { MaySee parts.old tx.now }
    ensures { OnOk result (SeesAll parts.old tx.now place parts.new) }
{
    let all = count_at(&parts.past.places, place);
    let Some(mut it) = take_out(&mut parts.slots, tx) else {
        unreachable!()
    };
    it.seen.insert(place, all)?;
    put_back(&mut parts.slots, tx, it);
    parts.count += 1;
    Ok(())
}

/// Takes a refresh record if it is good: the open transaction has a new snapshot of the place. The
/// only error is out of memory.
pub fn refresh<S: PartByPart, L: Ledger>(
    parts: &mut Parts<S::Shape, S::State, S::Op, S::Undo>,
    tx: &Name,
    place: u16,
    ticks: &mut Ticks<L>,
) -> Result<bool, OutOfMemory>
    requires keeps { Keeps S.object S.place_of parts.old }
    requires few { parts.old.count < 4_294_967_295 }
    ensures answers { IfOk result (λ good. Answers S.object S.place_of parts.old
        (Refresh tx.now place) good parts.new) }
    ensures rises { ticks.old ≤ ticks.new }
    ensures bound { ticks.new ≤ ticks.old
        + open_most tx.now parts.old (λ x.
        refresh_most S.place_of S.part_of parts.old.past x place) }
    ensures index { OnOk result (parts.new.by_part ≡ parts.old.by_part) }
{
    let Some(it) = find_open(&parts.slots, tx) else {
        return Ok(false);
    };
    if !may_refresh::<S, L>(it, &mut parts.past, place, ticks)? {
        return Ok(false);
    }
    see_all::<S>(parts, tx, place)?;
    Ok(true)
}
