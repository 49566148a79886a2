//! The log that all transactions share, whose entries are committed or not.
ghost use Rattle.std.specs.Prelude.{◌≡◌, ◌==◌, ◌<◌, ◌≤◌, ◌+◌, ◌↔◌, ◌&&◌, not, false, IsTrue};
ghost use Rattle.std.specs.Prelude.{IfOk, IfSome, IfNone, OnOk, OnErr};
ghost use Rattle.std.specs.Prelude.{None, List, [], ◌∷◌, ◌++◌, length, map, position, slice_get};
ghost use Rattle.std.specs.Option.{option_copied};
ghost use Rattle.pp_core.specs.declared.entry.SharedEntry.{SharedEntry as EntryOf};
ghost use Rattle.pp_model.specs.Config.{shared_item, shared_ops, commit_all};
ghost use Rattle.pp_model.specs.Names.{◌=ⁿ◌};
ghost use Rattle.pp_model.specs.Object.{HasDistinctIds};
ghost use Rattle.pp_kind.specs.declared.range.TheConstants.{MOST_OPERATIONS};
ghost use Rattle.pp_kind.specs.Object.{IsAllowed, AllRanged};
ghost use Rattle.pp_log.specs.Leaving.{MayLeave, without_items};
ghost use Rattle.pp_log.specs.Logs.{GoesBehind, RemovesEntry, RemovalCosts, RemovalBound};
ghost use Rattle.pp_log.specs.Logs.{IsFirstFrom, IsOn, NoneFrom, answer_behind};
ghost use Rattle.pp_log_shared.specs.Blocking.{AllGiveWay, Blocks, GivesWay, IsFirstBlocking};
ghost use Rattle.pp_log_shared.specs.Blocking.{IsSettled};
ghost use Rattle.pp_log_shared.specs.Committing.{HoldsIdsOf, IsCommittedOn};
ghost use Rattle.pp_log_shared.specs.Uncommitted.{CommitsOne, KeepsOpen, KeepsShared};

use crate::open_parts::OpenParts;
use pp_core::{Answer, Item, Items, Name, OutOfMemory, SharedEntry, Ticks};
use pp_kind::{Parted, Spec, TakesBack};
use pp_log::{Log, Removed, SharedSide};
use std::alloc::Global;
use std::marker::Model;
use std::sync::ledger::Ledger;

/// Numbers are kept if more entries than these, with the new one, are from the settled position on:
/// a shorter walk is taken to cost less.
const SHORT_WALK: usize = 64;

/// The shared log: the operations that transactions pushed, which are allowed one after another.
/// Contracts see the objects of the run, and the entries in order.
#[derive(Drop)]
pub struct Shared<S: Parted> {
    log: Log<S, SharedSide>,
    /// What is known about the uncommitted entries.
    open: OpenParts<S>,
    /// All entries before this position are committed.
    settled: usize,
}

impl<S: Parted> Model for Shared<S> {
    ghost Value = { S.Shape × List (EntryOf S.Op) };

    ghost view = { λ a. a.log };

    ghost invariant = { λ a. KeepsShared S.object S.label_of S.part_of a.log.1 a.open.slots.entries
        a.settled };
}

/// Whether an entry is uncommitted, of another owner, and may not change places with an operation
/// after it.
fn blocks<S: Spec>(owner: &Name, op: &S::Op, entry: &SharedEntry<S::Op>) -> bool
    ensures blocks { IsTrue result → Blocks S.object owner.now op.now entry.now }
    ensures gives_way { result ≡ false → GivesWay S.object owner.now op.now entry.now }
{
    // The movers come before the names, since most pairs swap, and names are compared byte by byte.
    !entry.committed && !S::swaps(&entry.op, op) && !entry.owner.same(owner)
}

/// Whether an entry is an uncommitted one of an owner.
fn is_open<O: Copy>(owner: &Name, entry: &SharedEntry<O>) -> bool
    ensures { result ≡ not entry.now.committed && (entry.now.owner =ⁿ owner.now) }
{
    !entry.committed && entry.owner.same(owner)
}

/// The first position from one on whose entry is uncommitted.
fn settle<O: Copy>(entries: &[SharedEntry<O>], from: usize) -> usize
    requires { IsSettled entries.now from }
    ensures { IsSettled entries.now result }
{
    for k in from..entries.len() {
        if !entries[k].committed {
            return k;
        }
    }
    entries.len()
}

/// A position before which all entries are committed after these are taken out. It is at most that
/// of the first of them, so those before it keep their positions.
fn settled_without<S: Parted>(
    log: &Log<S, SharedSide>,
    own: &[Item<S::Op>],
    settled: usize,
) -> usize
    requires distinct { HasDistinctIds (map shared_item log.now.1) }
    requires leave { MayLeave S.object own.now (map shared_item log.now.1) }
    requires settles { IsSettled log.now.1 settled }
    ensures { IsSettled (without_items shared_item own.now log.now.1) result }
{
    let Some(first) = own.first() else {
        return settled;
    };
    let Some(position) = log.find(first.id) else {
        unreachable!()
    };
    settled.min(position)
}

/// Leaves entries of a log out of what is known of its uncommitted ones.
fn forget_own<S: Parted>(parts: &mut OpenParts<S>, log: &Log<S, SharedSide>, own: &[Item<S::Op>])
    requires distinct { HasDistinctIds (map shared_item log.now.1) }
    requires leave { MayLeave S.object own.now (map shared_item log.now.1) }
    ensures { KeepsOpen S.object S.label_of S.part_of parts.old.slots.entries log.now.1 →
        KeepsOpen S.object S.label_of S.part_of parts.new.slots.entries
        (without_items shared_item own.now log.now.1) }
{
    for item in own {
        let Some(position) = log.find(item.id) else {
            unreachable!()
        };
        let Some(entry) = log.get(position) else {
            unreachable!()
        };
        parts.take(entry);
    }
}

impl<S: Parted> Shared<S> {
    /// The empty log. The only error is out of memory.
    pub fn new(alloc: Global, shape: &S::Shape) -> Result<Self, OutOfMemory>
        ensures { IfOk result (λ log. log ≡ (shape.now, [])) }
    {
        let log = Log::new(alloc, shape)?;
        Ok(Shared {
            log,
            open: OpenParts::new(alloc),
            settled: 0,
        })
    }

    /// How many entries there are.
    pub fn len(&self) -> usize
        ensures len { result ≡ length self.now.1 }
        ensures allowed { IsAllowed S.object self.now.0 (shared_ops self.now.1) }
        ensures ranged { AllRanged S.object (shared_ops self.now.1) }
        ensures distinct { HasDistinctIds (map shared_item self.now.1) }
    {
        self.log.len()
    }

    /// The entry at a position, from 0.
    pub fn entry(&self, i: usize) -> Option<&SharedEntry<S::Op>>
        ensures { option_copied result ≡ slice_get self.now.1 i }
    {
        self.log.get(i)
    }

    /// All entries, in order.
    pub fn entries(&self) -> &[SharedEntry<S::Op>]
        ensures { result.now ≡ self.now.1 }
    {
        self.log.entries()
    }

    /// The position of the entry with this id, as the index of the log has it.
    pub fn find(&self, id: u32) -> Option<usize>
        ensures { result ≡ position (λ e. e.id == id) self.now.1 }
    {
        self.log.find(id)
    }

    /// The first position at `from` or after it whose operation has this place. It halves over the
    /// entries of the place, and takes no memory.
    pub fn next_on(&self, place: u16, from: usize) -> Option<usize>
        ensures found { IfSome result
            (IsFirstFrom (IsOn S.place_of shared_item place) self.now.1 from) }
        ensures none { IfNone result
            (NoneFrom (IsOn S.place_of shared_item place) self.now.1 from) }
    {
        self.log.next_on(place, from)
    }

    /// The first position at `from` or after it whose entry is committed and whose operation has
    /// this place. It goes from one entry of the place to the next, and takes no memory.
    pub fn next_committed(&self, place: u16, from: usize) -> Option<usize>
        ensures found { IfSome result
            (IsFirstFrom (IsCommittedOn S.place_of place) self.now.1 from) }
        ensures none { IfNone result (NoneFrom (IsCommittedOn S.place_of place) self.now.1 from) }
    {
        let entries = self.log.entries();
        let mut at = from;
        'step: while at < self.log.len() {
            let Some(k) = self.log.next_on(place, at) else {
                return None;
            };
            if entries[k].committed {
                return Some(k);
            }
            at = k + 1;
        }
        None
    }

    /// Whether the log stays allowed with the operation after it.
    pub fn legal(&self, op: &S::Op) -> bool
        requires { IsTrue (S.object.fits self.now.0 op.now) }
        ensures { IsTrue result ↔ GoesBehind S.object self.now.0 (shared_ops self.now.1) op.now }
    {
        S::legal(self.log.state(), op)
    }

    /// The object's result for the operation's call at the end of the log.
    pub fn gives(&self, op: &S::Op) -> Answer
        requires { IsTrue (S.object.fits self.now.0 op.now) }
        ensures { result ≡ answer_behind S.object self.now.0 (shared_ops self.now.1) op.now }
    {
        S::gives(self.log.state(), op)
    }

    /// Adds an entry at the end. The only error is out of memory, and the log is then as it was.
    pub fn push<L: Ledger>(
        &mut self,
        entry: SharedEntry<S::Op>,
        ticks: &mut Ticks<L>,
    ) -> Result<(), OutOfMemory>
        requires allowed { GoesBehind S.object self.old.0 (shared_ops self.old.1) entry.op }
        requires ranged { IsTrue (S.object.ranged entry.op) }
        requires new { position (λ e. e.id == entry.id) self.old.1 ≡ None }
        requires few { length self.old.1 < MOST_OPERATIONS }
        requires uncommitted { entry.committed ≡ false }
        ensures ok { OnOk result (self.new ≡ (self.old.0, self.old.1 ++ entry ∷ [])) }
        ensures err { OnErr result (self.new ≡ self.old) }
        ensures cost { OnOk result (ticks.new ≡ ticks.old + 1) }
        ensures rises { ticks.old ≤ ticks.new }
        ensures bound { ticks.new ≤ ticks.old + 1 }
    {
        self.open.make_room()?;
        self.log.append(entry, ticks)?;
        let wanted = self.open.add(&entry);
        if wanted && self.log.len() > self.settled.saturating_add(SHORT_WALK) {
            let entries = self.log.entries();
            self.open.keep_numbers(&entry.op, &entries[self.settled..]);
        }
        Ok(())
    }

    /// The first uncommitted entry of another owner that may not change places with the operation
    /// after it, whatever the objects are. It walks over the entries only if what is known of the
    /// uncommitted ones of the operation's part does not decide this.
    pub fn blocking(&self, owner: &Name, op: &S::Op) -> Option<usize>
        ensures some { IfSome result (λ k. IsFirstBlocking S.object owner.now op.now self.now.1 k) }
        ensures none { IfNone result (AllGiveWay S.object owner.now op.now self.now.1) }
    {
        if self.open.lets(owner, op) {
            return None;
        }
        let entries = self.log.entries();
        for k in self.settled..self.log.len() {
            if blocks::<S>(owner, op, &entries[k]) {
                return Some(k);
            }
        }
        None
    }

    /// Commits the entry with this id if it is an uncommitted one of the owner.
    fn commit_entry(&mut self, owner: &Name, id: u32)
        requires { HasDistinctIds (map shared_item self.old.1) }
        ensures { CommitsOne owner.now id self.old self.new }
    {
        let Some(k) = self.log.find(id) else {
            return;
        };
        let Some(&entry) = self.log.get(k) else {
            unreachable!()
        };
        if !is_open(owner, &entry) {
            return;
        }
        self.log.set(
            k,
            SharedEntry {
                committed: true,
                ..entry
            },
        );
        self.open.take(&entry);
    }

    /// Moves the position on before which all entries are committed.
    fn settle_front(&mut self)
        ensures { self.new ≡ self.old }
    {
        self.settled = settle(self.log.entries(), self.settled);
    }

    /// Commits all entries of an owner, whose ids are given. It looks at no others, except the
    /// committed ones that are now at the front.
    pub fn commit(&mut self, owner: &Name, own: &Items<S::Op>)
        requires { HoldsIdsOf owner.now own.now self.old.1 }
        ensures { self.new ≡ (self.old.0, commit_all owner.now self.old.1) }
    {
        // It is here for what its clauses say of each log.
        if self.len() == 0 {
            return;
        }
        for item in own.as_slice() {
            self.commit_entry(owner, item.id);
        }
        self.settle_front();
    }

    /// Takes out the i-th entry, unless the list without it is not allowed. The ticks are those of
    /// its place alone. If the entry is the last one there, it is taken back. If the gap that it
    /// leaves is known after the others there and borne, it takes one tick at most. Otherwise, with
    /// k operations there from the entry on, itself counted, these are taken back, and the k - 1
    /// others applied again. If one of them differs, what was applied is taken back too, and all k
    /// are applied as they were. The only error is out of memory, and the log is then lost.
    pub fn remove<L: Ledger>(
        self,
        i: usize,
        ticks: &mut Ticks<L>,
    ) -> Result<(Self, Removed), OutOfMemory>
        requires { i < length self.1 }
        ensures removes { IfOk result (λ r. RemovesEntry S.object shared_item self i r.0 r.1) }
        ensures cost { RemovalCosts S.place_of (shared_ops self.1) i result ticks.old ticks.new }
        ensures bound { RemovalBound S.place_of (shared_ops self.1) i ticks.old ticks.new }
    {
        let Shared {
            log,
            mut open,
            settled,
        } = self;
        let Some(&entry) = log.get(i) else {
            unreachable!()
        };
        let (log, removed) = log.remove(i, ticks)?;
        let Removed::Done = removed else {
            return Ok((Shared { log, open, settled }, removed));
        };
        open.take(&entry);
        let settled = settled.min(i);
        Ok((Shared { log, open, settled }, removed))
    }
}

impl<S: Parted + TakesBack> Shared<S> {
    /// Takes entries out. The entries of others after each may move past it, so each of them alone
    /// is taken back. The only error is out of memory, and the log is then lost.
    pub fn take_back<L: Ledger>(
        self,
        own: &[Item<S::Op>],
        ticks: &mut Ticks<L>,
    ) -> Result<Self, OutOfMemory>
        requires { MayLeave S.object own.now (map shared_item self.1) }
        ensures log { IfOk result (λ log. log ≡
            (self.0, without_items shared_item own.now self.1)) }
        ensures cost { OnOk result (ticks.new ≡ ticks.old + length own.now) }
        ensures rises { ticks.old ≤ ticks.new }
        ensures bound { ticks.new ≤ ticks.old + length own.now }
    {
        // It is here for what its clauses say of each log.
        if self.len() == 0 {
            return Ok(self);
        }
        let Shared {
            log,
            mut open,
            settled,
        } = self;
        let settled = settled_without::<S>(&log, own, settled);
        forget_own::<S>(&mut open, &log, own);
        let log = log.take_back(own, ticks)?;
        Ok(Shared { log, open, settled })
    }
}
