//! The local log of a transaction, which marks its entries.
ghost use Rattle.std.specs.Prelude.{◌≡◌, ◌≢◌, ◌==◌, ◌<◌, ◌≤◌, ◌+◌, ◌↔◌, IfOk, OnOk, OnErr, IsTrue};
ghost use Rattle.std.specs.Prelude.{Some, None, List, [], ◌∷◌, ◌++◌, length, map, position};
ghost use Rattle.std.specs.Prelude.{slice_get, take, drop, option_map, IfSome, IfNone};
ghost use Rattle.std.specs.Option.{option_copied};
ghost use Rattle.pp_core.specs.declared.entry.LocalEntry.{LocalEntry as EntryOf};
ghost use Rattle.pp_core.specs.declared.entry.Mark.TheVariants.{Pulled};
ghost use Rattle.pp_model.specs.Config.{item, local_ops, set_mark};
ghost use Rattle.pp_model.specs.Object.{HasDistinctIds};
ghost use Rattle.pp_kind.specs.declared.range.TheConstants.{MOST_OPERATIONS};
ghost use Rattle.pp_kind.specs.Object.{IsAllowed, AllRanged};
ghost use Rattle.pp_log.specs.Logs.{GoesBehind, RemovesEntry, RemovalCosts, RemovalBound};
ghost use Rattle.pp_log.specs.Logs.{answer_behind, IsFirstFrom, IsOn, NoneFrom};
ghost use Rattle.pp_kind.specs.Parts.{Covers};
ghost use Rattle.pp_log_local.specs.Known.{KnowsOwn};
ghost use Rattle.pp_log_local.specs.Movers.{holds_back, stands_first, stays_behind};

use crate::{frontiers, movers, own};
use pp_core::{Answer, LocalEntry, Mark, OutOfMemory, Ticks};
use pp_kind::{Parted, Samples};
use pp_log::{LocalSide, Log, Removed};
use std::alloc::Global;
use std::marker::Model;
use std::sync::ledger::Ledger;

/// The local log of an open transaction: its own operations and those that it pulled, which are
/// allowed one after another. Contracts see the objects of the run, and the entries in order.
#[derive(Drop)]
pub struct Local<S: Parted> {
    log: Log<S, LocalSide>,
    /// They represent the operation of each own entry.
    samples: Samples<S>,
    /// How many entries are own.
    own_count: usize,
    /// No entry before this position is own and unpushed.
    unpushed_from: usize,
    /// No entry from this position on is own and pushed.
    pushed_to: usize,
}

impl<S: Parted> Model for Local<S> {
    ghost Value = { S.Shape × List (EntryOf S.Op) };

    ghost view = { λ a. a.log };

    ghost invariant = { λ a. KnowsOwn (λ op. Covers S.object a.samples op) a.log.1 a.own_count
        a.unpushed_from a.pushed_to };
}

impl<S: Parted> Local<S> {
    /// The empty log. The only error is out of memory.
    pub fn new(alloc: Global, shape: &S::Shape) -> Result<Self, OutOfMemory>
        ensures { IfOk result (λ log. log ≡ (shape.now, [])) }
    {
        let log = Log::new(alloc, shape)?;
        Ok(Local {
            log,
            samples: Samples::new(alloc),
            own_count: 0,
            unpushed_from: 0,
            pushed_to: 0,
        })
    }

    /// How many entries there are.
    pub fn len(&self) -> usize
        ensures len { result ≡ length self.now.1 }
        ensures allowed { IsAllowed S.object self.now.0 (local_ops self.now.1) }
        ensures ranged { AllRanged S.object (local_ops self.now.1) }
        ensures distinct { HasDistinctIds (map item self.now.1) }
    {
        self.log.len()
    }

    /// The entry at a position, from 0.
    pub fn entry(&self, i: usize) -> Option<&LocalEntry<S::Op>>
        ensures { option_copied result ≡ slice_get self.now.1 i }
    {
        self.log.get(i)
    }

    /// All entries, in order.
    pub fn entries(&self) -> &[LocalEntry<S::Op>]
        ensures { result.now ≡ self.now.1 }
    {
        self.log.entries()
    }

    /// The position of the entry with this id. It uses an index, and walks over nothing.
    pub fn find(&self, id: u32) -> Option<usize>
        ensures { result ≡ position (λ e. e.id == id) self.now.1 }
    {
        self.log.find(id)
    }

    /// The first position at `from` or after it whose operation has this place. It halves over the
    /// entries of the place, and takes no memory.
    pub fn next_on(&self, place: u16, from: usize) -> Option<usize>
        ensures found { IfSome result (IsFirstFrom (IsOn S.place_of item place) self.now.1 from) }
        ensures none { IfNone result (NoneFrom (IsOn S.place_of item place) self.now.1 from) }
    {
        self.log.next_on(place, from)
    }

    /// Whether the log stays allowed with the operation after it.
    pub fn legal(&self, op: &S::Op) -> bool
        requires { IsTrue (S.object.fits self.now.0 op.now) }
        ensures { IsTrue result ↔ GoesBehind S.object self.now.0 (local_ops self.now.1) op.now }
    {
        S::legal(self.log.state(), op)
    }

    /// The object's result for the operation's call at the end of the log.
    pub fn gives(&self, op: &S::Op) -> Answer
        requires { IsTrue (S.object.fits self.now.0 op.now) }
        ensures { result ≡ answer_behind S.object self.now.0 (local_ops self.now.1) op.now }
    {
        S::gives(self.log.state(), op)
    }

    /// Adds an entry at the end. The only error is out of memory, and the log is then as it was.
    pub fn append<L: Ledger>(
        &mut self,
        entry: LocalEntry<S::Op>,
        ticks: &mut Ticks<L>,
    ) -> Result<(), OutOfMemory>
        requires allowed { GoesBehind S.object self.old.0 (local_ops self.old.1) entry.op }
        requires ranged { IsTrue (S.object.ranged entry.op) }
        requires new { position (λ e. e.id == entry.id) self.old.1 ≡ None }
        requires few { length self.old.1 < MOST_OPERATIONS }
        ensures ok { OnOk result (self.new ≡ (self.old.0, self.old.1 ++ entry ∷ [])) }
        ensures err { OnErr result (self.new ≡ self.old) }
        ensures cost { OnOk result (ticks.new ≡ ticks.old + 1) }
        ensures rises { ticks.old ≤ ticks.new }
        ensures bound { ticks.new ≤ ticks.old + 1 }
    {
        let i = self.log.len();
        self.log.append(entry, ticks)?;
        self.own_count = own::with::<S>(&mut self.samples, self.own_count, &entry);
        let entries = self.log.entries();
        self.unpushed_from = frontiers::unpushed_from(entries, i, self.unpushed_from);
        self.pushed_to = frontiers::pushed_to(entries, i, self.pushed_to);
        Ok(())
    }

    /// Sets the mark of one of the transaction's own entries.
    pub fn mark(&mut self, i: usize, mark: Mark)
        requires within { i < length self.old.1 }
        requires own { (e : EntryOf S.Op) → slice_get self.old.1 i ≡ Some e → e.mark ≢ Pulled }
        requires to_own { mark ≢ Pulled }
        ensures { (e : EntryOf S.Op) → slice_get self.old.1 i ≡ Some e →
            self.new ≡ (self.old.0, set_mark e.id mark self.old.1) }
    {
        let _distinct = self.log.len();
        let Some(&entry) = self.log.get(i) else {
            unreachable!()
        };
        self.log.set(i, LocalEntry { mark, ..entry });
        let entries = self.log.entries();
        self.unpushed_from = frontiers::unpushed_from(entries, i, self.unpushed_from);
        self.pushed_to = frontiers::pushed_to(entries, i, self.pushed_to);
    }

    /// The first own unpushed entry before a position that the operation may not come before. It
    /// walks over nothing if the samples show that it may come before all own entries.
    pub fn first_holding_back(&self, i: usize, op: &S::Op) -> Option<usize>
        requires { i ≤ length self.now.1 }
        ensures { result ≡ position (holds_back S.object op.now) (take i self.now.1) }
    {
        let start = self.unpushed_from;
        if i <= start {
            return None;
        }
        if self.samples.all_behind(op) {
            return None;
        }
        let entries = &self.log.entries()[start..i];
        let Some(k) = movers::first_holding_back::<S>(entries, op) else {
            return None;
        };
        Some(start + k)
    }

    /// The first own pushed entry after a position that may not come before the operation. It walks
    /// over nothing if the samples show that all own entries may come before it.
    pub fn first_staying_behind(&self, i: usize, op: &S::Op) -> Option<usize>
        ensures { result ≡ option_map (λ k. i + 1 + k)
            (position (stays_behind S.object op.now) (drop (i + 1) self.now.1)) }
    {
        let end = self.pushed_to;
        if end.saturating_sub(i) <= 1 {
            return None;
        }
        let start = i + 1;
        if self.samples.all_before(op) {
            return None;
        }
        let entries = &self.log.entries()[start..end];
        let Some(k) = movers::first_staying_behind::<S>(entries, op) else {
            return None;
        };
        Some(start + k)
    }

    /// The first own entry that may not come after the operation. It walks over nothing if no entry
    /// is own, or the samples show that each may come after it.
    pub fn first_not_before(&self, op: &S::Op) -> Option<usize>
        ensures { result ≡ position (stands_first S.object op.now) self.now.1 }
    {
        if self.samples.all_before(op) {
            return None;
        }
        movers::first_not_before::<S>(self.log.entries(), op)
    }

    /// Takes out the i-th entry, unless the list without it is not allowed. The ticks are those of
    /// its place alone. If the entry is the last one there, it is taken back. If the gap that it
    /// leaves is known after the others there and borne, it takes one tick at most. Otherwise, with
    /// k operations there from the entry on, itself counted, these are taken back, and the k - 1
    /// others applied again. If one of them differs, what was applied is taken back too, and all k
    /// are applied as they were. The only error is out of memory, and the log is then lost.
    pub fn remove<L: Ledger>(
        self,
        i: usize,
        ticks: &mut Ticks<L>,
    ) -> Result<(Self, Removed), OutOfMemory>
        requires { i < length self.1 }
        ensures removes { IfOk result (λ r. RemovesEntry S.object item self i r.0 r.1) }
        ensures cost { RemovalCosts S.place_of (local_ops self.1) i result ticks.old ticks.new }
        ensures bound { RemovalBound S.place_of (local_ops self.1) i ticks.old ticks.new }
    {
        let Local {
            log,
            mut samples,
            mut own_count,
            mut unpushed_from,
            mut pushed_to,
        } = self;
        let Some(&entry) = log.get(i) else {
            unreachable!()
        };
        let (log, removed) = log.remove(i, ticks)?;
        if let Removed::Done = removed {
            own_count = own::without::<S>(&mut samples, own_count, &entry);
            unpushed_from = frontiers::without(unpushed_from, i);
            pushed_to = frontiers::without(pushed_to, i);
        }
        let local = Local {
            log,
            samples,
            own_count,
            unpushed_from,
            pushed_to,
        };
        Ok((local, removed))
    }
}
