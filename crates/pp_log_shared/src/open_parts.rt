//! What the shared log knows about its uncommitted entries, part by part.
ghost use Rattle.std.specs.Prelude.{◌≡◌, ◌<◌, OnOk, IsTrue, false, List, [], ◌∷◌, ◌++◌, length};
ghost use Rattle.indexmap.specs.IndexMap.{spare};
ghost use Rattle.pp_core.specs.declared.entry.SharedEntry.{SharedEntry as EntryOf};
ghost use Rattle.pp_kind.specs.declared.range.TheConstants.{MOST_OPERATIONS};
ghost use Rattle.pp_log_shared.specs.Blocking.{AllGiveWay};
ghost use Rattle.pp_log_shared.specs.Uncommitted.{KeepsOpen, LeavesOut, LosesOne, Tells};

use crate::numbers::{Numbers, count_less, count_more, numbers_in, numbers_let};
use indexmap::IndexMap;
use indexmap::map::Entry;
use pp_core::{Name, OutOfMemory, SharedEntry};
use pp_kind::{Part, Parted, Samples};
use std::alloc::Global;

/// What is known about the uncommitted entries of one part. The samples represent their operations.
/// If there is none, the owner and the samples are those of earlier ones, and say nothing.
#[derive(Drop)]
pub struct OpenPart<T> {
    /// How many there are.
    pub count: usize,
    pub owner: Name,
    /// Whether all of them are the owner's.
    pub alone: bool,
    pub samples: T,
    /// Their numbers, if these are kept.
    pub numbers: Option<Numbers>,
}

/// What is known if the entry is the only one.
fn first<S: Parted>(alloc: Global, entry: &SharedEntry<S::Op>) -> OpenPart<Samples<S>>
    ensures { Tells S.object S.label_of result (entry.now ∷ []) }
{
    let mut samples = Samples::<S>::new(alloc);
    samples.add(&entry.op);
    OpenPart {
        count: 1,
        owner: entry.owner,
        alone: true,
        samples,
        numbers: None,
    }
}

/// Counts one more entry. If there was none, the count begins again.
fn note<S: Parted>(alloc: Global, slot: &mut OpenPart<Samples<S>>, entry: &SharedEntry<S::Op>)
    requires { slot.old.count < MOST_OPERATIONS }
    ensures { (x : List (EntryOf S.Op)) → Tells S.object S.label_of slot.old x →
        Tells S.object S.label_of slot.new (x ++ entry.now ∷ []) }
{
    if slot.count == 0 {
        *slot = first::<S>(alloc, entry);
        return;
    }
    slot.count += 1;
    slot.alone = slot.alone && slot.owner.same(&entry.owner);
    slot.samples.add(&entry.op);
    count_more::<S>(&mut slot.numbers, entry);
}

/// Leaves one entry out. If it was the last, no numbers are kept.
fn forget<S: Parted>(slot: &mut OpenPart<Samples<S>>, entry: &SharedEntry<S::Op>)
    ensures { (x y : List (EntryOf S.Op)) → Tells S.object S.label_of slot.old x →
        LosesOne entry.now x y → Tells S.object S.label_of slot.new y }
{
    slot.count = slot.count.saturating_sub(1);
    if slot.count == 0 {
        slot.numbers = None;
        return;
    }
    count_less::<S>(&mut slot.numbers, entry);
}

/// Whether numbers are worth keeping, since they may show more than the samples, which leave open
/// whether the entries of others commute with this one. Nothing is promised of it.
fn wants_numbers<S: Parted>(slot: &OpenPart<Samples<S>>, entry: &SharedEntry<S::Op>) -> bool {
    if slot.count == 0 || slot.numbers.is_some() {
        return false;
    }
    if slot.alone && slot.owner.same(&entry.owner) {
        return false;
    }
    !slot.samples.all_before(&entry.op)
}

/// What is known about the uncommitted entries of a log. For each part that has some, or had some:
/// how many there are, whose they are, and operations that represent theirs. Their numbers are kept
/// too, if these do not show that all entries of several owners commute, and the log is long after
/// the settled position. A part keeps its slot when its last entry is left out, since operations
/// come to the same parts again.
#[derive(Drop)]
pub struct OpenParts<S: Parted> {
    pub slots: IndexMap<Part, OpenPart<Samples<S>>>,
    pub alloc: Global,
}

impl<S: Parted> OpenParts<S> {
    /// No entry. It takes no memory.
    pub fn new(alloc: Global) -> Self
        ensures { result.slots.entries ≡ [] }
    {
        OpenParts {
            slots: IndexMap::new(alloc),
            alloc,
        }
    }

    /// Makes room for one more entry. The only error is out of memory.
    pub fn make_room(&mut self) -> Result<(), OutOfMemory>
        ensures same { self.new.slots.entries ≡ self.old.slots.entries }
        ensures room { OnOk result (0 < spare self.new.slots) }
    {
        self.slots.reserve(1)?;
        Ok(())
    }

    /// Adds an entry, for which there is room. Returns whether numbers of its part are worth
    /// keeping; nothing is promised of it.
    pub fn add(&mut self, entry: &SharedEntry<S::Op>) -> bool
        requires room { 0 < spare self.old.slots }
        requires few { (x : List (EntryOf S.Op))
            × KeepsOpen S.object S.label_of S.part_of self.old.slots.entries x
            × (length x < MOST_OPERATIONS) }
        ensures { entry.now.committed ≡ false → (x : List (EntryOf S.Op)) →
            KeepsOpen S.object S.label_of S.part_of self.old.slots.entries x →
            KeepsOpen S.object S.label_of S.part_of self.new.slots.entries (x ++ entry.now ∷ []) }
    {
        let alloc = self.alloc;
        let Ok(slot) = self.slots.entry(S::part(&entry.op)) else {
            unreachable!()
        };
        match slot {
            Entry::Occupied(slot) => {
                let slot = slot.into_mut();
                let wanted = wants_numbers::<S>(slot, entry);
                note::<S>(alloc, slot, entry);
                wanted
            }
            Entry::Vacant(slot) => {
                slot.insert(first::<S>(alloc, entry));
                false
            }
        }
    }

    /// Begins to keep the numbers of an operation's part, which one walk over the entries finds. If
    /// memory runs out none are kept.
    pub fn keep_numbers(&mut self, op: &S::Op, entries: &[SharedEntry<S::Op>])
        ensures { KeepsOpen S.object S.label_of S.part_of self.old.slots.entries entries.now →
            KeepsOpen S.object S.label_of S.part_of self.new.slots.entries entries.now }
    {
        let part = S::part(op);
        let numbers = numbers_in::<S>(self.alloc, entries, part);
        if let Some(slot) = self.slots.get_mut(&part) {
            slot.numbers = numbers;
        }
    }

    /// Leaves out an entry that was committed or taken out. Nothing is known of committed ones.
    pub fn take(&mut self, entry: &SharedEntry<S::Op>)
        ensures { (x y : List (EntryOf S.Op)) →
            KeepsOpen S.object S.label_of S.part_of self.old.slots.entries x →
            LeavesOut S.part_of entry.now x y →
            KeepsOpen S.object S.label_of S.part_of self.new.slots.entries y }
    {
        if entry.committed {
            return;
        }
        if let Some(slot) = self.slots.get_mut(&S::part(&entry.op)) {
            forget::<S>(slot, entry);
        }
    }

    /// Whether each uncommitted entry of another owner is known to change places with the operation
    /// after it. False says nothing.
    pub fn lets(&self, owner: &Name, op: &S::Op) -> bool
        ensures { IsTrue result → (x : List (EntryOf S.Op)) →
            KeepsOpen S.object S.label_of S.part_of self.now.slots.entries x →
            AllGiveWay S.object owner.now op.now x }
    {
        let part = S::part(op);
        let Some(slot) = self.slots.get(&part) else {
            return true;
        };
        if slot.count == 0 {
            return true;
        }
        if slot.alone && slot.owner.same(owner) {
            return true;
        }
        slot.samples.all_before(op) || numbers_let::<S>(&slot.numbers, owner, op)
    }
}
