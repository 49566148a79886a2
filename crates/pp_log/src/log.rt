//! The one log, whoever's it is.
ghost use Rattle.std.specs.Prelude.{◌≡◌, ◌==◌, ◌<◌, ◌≤◌, ◌+◌, IfOk, OnOk, OnErr, IsTrue};
ghost use Rattle.std.specs.Prelude.{None, List, [], ◌∷◌, ◌++◌, length, map, position};
ghost use Rattle.std.specs.Prelude.{slice_get, slice_set, IfSome, IfNone};
ghost use Rattle.std.specs.Option.{option_copied};
ghost use Rattle.pp_model.specs.Object.{HasDistinctIds};
ghost use Rattle.pp_kind.specs.declared.range.TheConstants.{MOST_OPERATIONS};
ghost use Rattle.pp_kind.specs.Object.{IsAllowed, AllRanged, IsLog};
ghost use Rattle.pp_log.specs.Keeps.{KeepsAll};
ghost use Rattle.pp_log.specs.Leaving.{MayLeave, without_items};
ghost use Rattle.pp_log.specs.Logs.{GoesBehind, HasItemAt, IsFirstFrom, IsOn, NoneFrom};
ghost use Rattle.pp_log.specs.Logs.{RemovalBound, RemovalCosts, RemovesEntry};
ghost use Rattle.pp_log.specs.Logs.{entry_ops};

use crate::batch::take_all_back;
use crate::entries::Entries;
use crate::index::Index;
use crate::leave::leave_out;
use crate::place::{Place, Removed};
use crate::room::make_room;
use crate::sides::Side;
use crate::take_out::{position_in_place, take_out};
use pp_core::{Item, OutOfMemory, Ticks};
use pp_kind::{Applied, Gapped, Placed, TakesBack};
use std::alloc::Global;
use std::marker::Model;
use std::sync::ledger::Ledger;

/// A list of entries whose operations are allowed one after another, with the state that they lead
/// to. An index has the ids of the entries, and each place has those of its own entries in order,
/// with what takes them back.
#[derive(Drop)]
pub struct Log<S: Placed + Gapped, T: Side<S::Op>> {
    entries: Entries<T::Entry>,
    ids: Index,
    places: Vec<Place<S::Undo>>,
    state: S::State,
    alloc: Global,
}

impl<S: Placed + Gapped, T: Side<S::Op>> Model for Log<S, T> {
    ghost Value = { S.Shape × List T.Entry };

    ghost view = { λ a. (S.object.shape a.state, a.entries.items) };

    ghost invariant = { λ a. KeepsAll S.object S.place_of a.state (map T.item_of a.entries.items)
        a.places.items a.ids };
}

impl<S: Placed + Gapped, T: Side<S::Op>> Log<S, T> {
    /// The empty log. The only error is out of memory.
    pub fn new(alloc: Global, shape: &S::Shape) -> Result<Self, OutOfMemory>
        ensures { IfOk result (λ log. log ≡ (shape.now, [])) }
    {
        let state = S::empty(alloc, shape)?;
        Ok(Log {
            entries: Entries::new(alloc),
            ids: Index::new(),
            places: Vec::new(alloc),
            state,
            alloc,
        })
    }

    /// How many entries there are.
    pub fn len(&self) -> usize
        ensures len { result ≡ length self.now.1 }
        ensures allowed { IsAllowed S.object self.now.0 (entry_ops T.item_of self.now.1) }
        ensures ranged { AllRanged S.object (entry_ops T.item_of self.now.1) }
        ensures distinct { HasDistinctIds (map T.item_of self.now.1) }
        ensures few { length self.now.1 ≤ MOST_OPERATIONS }
    {
        self.entries.len()
    }

    /// The entry at a position, from 0.
    pub fn get(&self, i: usize) -> Option<&T::Entry>
        ensures { option_copied result ≡ slice_get self.now.1 i }
    {
        self.entries.as_slice().get(i)
    }

    /// All entries, in order.
    pub fn entries(&self) -> &[T::Entry]
        ensures { result.now ≡ self.now.1 }
    {
        self.entries.as_slice()
    }

    /// The position of the entry with this id. It looks through at most sixteen ids, and uses a
    /// table if there are more.
    pub fn find(&self, id: u32) -> Option<usize>
        ensures { result ≡ position (λ e. (T.item_of e).id == id) self.now.1 }
    {
        self.ids.find(id)
    }

    /// The first position at `from` or after it whose operation has this place. It halves over the
    /// ids of the place, and takes no memory.
    pub fn next_on(&self, place: u16, from: usize) -> Option<usize>
        ensures found { IfSome result
            (IsFirstFrom (IsOn S.place_of T.item_of place) self.now.1 from) }
        ensures none { IfNone result (NoneFrom (IsOn S.place_of T.item_of place) self.now.1 from) }
    {
        let ids = &self.places.get(usize::from(place))?.ids;
        let mut low = 0;
        let mut high = ids.len();
        'halve: while low < high {
            let middle = low + (high - low) / 2;
            let Some(at) = self.find(ids[middle]) else {
                unreachable!()
            };
            if at < from {
                low = middle + 1;
            } else {
                high = middle;
            }
        }
        let next = ids.get(low)?;
        self.find(*next)
    }

    /// The objects after all entries.
    pub fn state(&self) -> &S::State
        ensures shape { S.object.shape result.now ≡ self.now.0 }
        ensures log { IsLog S.object result.now (entry_ops T.item_of self.now.1) }
    {
        &self.state
    }

    /// Adds an entry at the end, which keeps the log allowed. The only error is out of memory, and
    /// the log is then as it was.
    pub fn append<L: Ledger>(
        &mut self,
        entry: T::Entry,
        ticks: &mut Ticks<L>,
    ) -> Result<(), OutOfMemory>
        requires allowed { GoesBehind S.object self.old.0 (entry_ops T.item_of self.old.1)
            (T.item_of entry).op }
        requires ranged { IsTrue (S.object.ranged (T.item_of entry).op) }
        requires new { position (λ e. (T.item_of e).id == (T.item_of entry).id) self.old.1 ≡ None }
        requires few { length self.old.1 < MOST_OPERATIONS }
        ensures ok { OnOk result (self.new ≡ (self.old.0, self.old.1 ++ entry ∷ [])) }
        ensures err { OnErr result (self.new ≡ self.old) }
        ensures cost { OnOk result (ticks.new ≡ ticks.old + 1) }
        ensures rises { ticks.old ≤ ticks.new }
        ensures bound { ticks.new ≤ ticks.old + 1 }
    {
        let item = T::item(&entry);
        let p = usize::from(S::place(&item.op));
        make_room(
            &mut self.entries,
            &mut self.ids,
            item.id,
            &mut self.places,
            p,
            self.alloc,
        )?;
        let Applied::Done(undo) = S::apply(&mut self.state, &item.op, ticks)? else {
            unreachable!()
        };
        self.places[p].keep(item.id, undo);
        self.entries.push(entry);
        self.ids.push(item.id);
        Ok(())
    }

    /// Puts an entry with the same id and operation in another's place.
    pub fn set(&mut self, i: usize, entry: T::Entry)
        requires within { i < length self.old.1 }
        requires same { HasItemAt T.item_of self.old.1 i entry }
        ensures { self.new ≡ (self.old.0, slice_set self.old.1 i entry) }
    {
        self.entries.set(i, entry);
    }

    /// Takes out the i-th entry. If it is the last of its place, it alone is taken back. If the gap
    /// that it leaves is known after the later ones and borne, at most that gap is closed.
    /// Otherwise they are taken back with it and applied again. If one of them differs, all is put
    /// back. The only error is out of memory, and the log is then lost.
    pub fn remove<L: Ledger>(
        self,
        i: usize,
        ticks: &mut Ticks<L>,
    ) -> Result<(Self, Removed), OutOfMemory>
        requires { i < length self.1 }
        ensures removes { IfOk result (λ r. RemovesEntry S.object T.item_of self i r.0 r.1) }
        ensures cost { RemovalCosts S.place_of (entry_ops T.item_of self.1) i result
            ticks.old ticks.new }
        ensures bound { RemovalBound S.place_of (entry_ops T.item_of self.1) i ticks.old ticks.new }
    {
        let Log {
            mut entries,
            mut ids,
            mut places,
            mut state,
            alloc,
        } = self;
        let all = entries.as_slice();
        let item = T::item(&all[i]);
        let p = usize::from(S::place(&item.op));
        let place = &mut places[p];
        let Some(from) = position_in_place(&place.ids, &ids, i, item.id) else {
            unreachable!()
        };
        let removed = take_out::<S, T, L>(place, from, &all[i..], &mut state, ticks)?;
        if let Removed::Done = removed {
            entries.remove(i);
            ids.remove(i, item.id);
        }
        let log = Log {
            entries,
            ids,
            places,
            state,
            alloc,
        };
        Ok((log, removed))
    }
}

impl<S: TakesBack + Gapped, T: Side<S::Op>> Log<S, T> {
    /// Takes entries out, from the last to the first. The entries of others after each may move
    /// past it, so each of them alone is taken back. The only error is out of memory, and the log
    /// is then lost.
    pub fn take_back<L: Ledger>(
        self,
        own: &[Item<S::Op>],
        ticks: &mut Ticks<L>,
    ) -> Result<Self, OutOfMemory>
        requires { MayLeave S.object own.now (map T.item_of self.1) }
        ensures log { IfOk result (λ log. log ≡ (self.0, without_items T.item_of own.now self.1)) }
        ensures cost { OnOk result (ticks.new ≡ ticks.old + length own.now) }
        ensures rises { ticks.old ≤ ticks.new }
        ensures bound { ticks.new ≤ ticks.old + length own.now }
    {
        let Log {
            mut entries,
            mut ids,
            mut places,
            mut state,
            alloc,
        } = self;
        leave_out::<S::Op, T>(&mut entries, &ids, own);
        take_all_back::<S, L>(own, &mut ids, &mut places, &mut state, ticks)?;
        Ok(Log {
            entries,
            ids,
            places,
            state,
            alloc,
        })
    }
}
