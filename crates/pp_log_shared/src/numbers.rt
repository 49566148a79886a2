//! The numbers of the uncommitted entries of a part, by their owners and forms.
ghost use Rattle.std.specs.Prelude.{◌≡◌, ◌≢◌, IsTrue, List, [], ◌∷◌, ◌++◌, ℤ};
ghost use Rattle.pp_core.specs.declared.entry.SharedEntry.{SharedEntry as EntryOf};
ghost use Rattle.pp_model.specs.Lists.{In};
ghost use Rattle.pp_kind.specs.Object.{Swaps};
ghost use Rattle.pp_kind.specs.Gates.{passes};
ghost use Rattle.pp_log_shared.specs.Numbers.{AllFormsSwap, CountsAll, CountsAllOf, FormSwaps, Gains};
ghost use Rattle.pp_log_shared.specs.Numbers.{GainsEntry, HasOthers, Loses, LosesEntry};
ghost use Rattle.pp_log_shared.specs.Uncommitted.{LosesOne, is_open_in, open_in};

use crate::tally::Tally;
use indexmap::IndexMap;
use pp_core::{Name, SharedEntry};
use pp_kind::{Gate, Label, Part, Parted};
use std::alloc::Global;
use std::marker::Model;

/// An owner, or all owners together, and a form of operations.
#[derive(Clone, Copy, PartialEq, Eq, Hash)]
pub struct Holder {
    pub owner: Option<Name>,
    pub form: usize,
}

/// For each owner and each form, how many entries have which number. Contracts see the owners and
/// forms, each with its numbers.
#[derive(Drop)]
struct Tallies {
    tallies: IndexMap<Holder, Tally>,
    alloc: Global,
}

impl Model for Tallies {
    ghost use Rattle.pp_log_shared.specs.Numbers.{TallyList};

    ghost Value = { TallyList };

    ghost view = { λ a. a.tallies.entries };
}

/// For each form, how many entries have which number, all together and by their owners.
#[derive(Drop)]
pub struct Numbers {
    all: Tallies,
    own: Tallies,
}

impl Model for Numbers {
    ghost use Rattle.pp_log_shared.specs.Numbers.{NumberList};

    ghost Value = { NumberList };

    ghost view = { λ a. record { all = a.all; own = a.own } };
}

impl Tallies {
    /// No entry. It takes no memory.
    fn new(alloc: Global) -> Self
        ensures { result ≡ [] }
    {
        Tallies {
            tallies: IndexMap::new(alloc),
            alloc,
        }
    }

    /// Counts one more entry. False says that memory ran out, or there are too many.
    fn add(&mut self, owner: Option<Name>, label: &Label) -> bool
        ensures { IsTrue result → Gains self.old self.new owner label.now }
    {
        let holder = Holder {
            owner,
            form: label.form,
        };
        if let Some(tally) = self.tallies.get_mut(&holder) {
            return tally.add(label.number);
        }
        let mut tally = Tally::new(self.alloc);
        if !tally.add(label.number) {
            return false;
        }
        let Ok(_) = self.tallies.insert(holder, tally) else {
            return false;
        };
        true
    }

    /// Counts one entry less. An owner and a form that have none any more are left out.
    fn take(&mut self, owner: Option<Name>, label: &Label)
        ensures { Loses self.old self.new owner label.now }
    {
        let holder = Holder {
            owner,
            form: label.form,
        };
        let Some(tally) = self.tallies.get_mut(&holder) else {
            return;
        };
        tally.take(label.number);
        if tally.is_empty() {
            self.tallies.swap_remove(&holder);
        }
    }

    /// Whether each number passes that others than this owner have of all entries of a form.
    fn others_pass(&self, owner: &Name, form: usize, all: &Tally, gate: Gate) -> bool
        ensures { IsTrue result → (n : ℤ) → HasOthers self.now owner.now form all.now n →
            IsTrue (passes gate n) }
    {
        let holder = Holder {
            owner: Some(*owner),
            form,
        };
        match self.tallies.get(&holder) {
            Some(own) => all.others_pass(own, gate),
            None => {
                let none = Tally::new(self.alloc);
                all.others_pass(&none, gate)
            }
        }
    }
}

/// Whether each entry of a form that is of another owner is known to change places with the
/// operation after it. False says nothing.
fn form_swaps<S: Parted>(
    holder: &Holder,
    all: &Tally,
    own: &Tallies,
    owner: &Name,
    op: &S::Op,
) -> bool
    ensures { IsTrue result →
        FormSwaps S.object S.label_of owner.now op.now own.now (holder.now, all.now) }
{
    own.others_pass(owner, holder.form, all, S::gate(holder.form, op))
}

/// Whether an entry is an uncommitted one of a part.
fn is_open_in<S: Parted>(entry: &SharedEntry<S::Op>, part: Part) -> bool
    ensures { result ≡ is_open_in S.part_of part entry.now }
{
    !entry.committed && S::part(&entry.op) == part
}

/// Whether each entry that is of another owner is known to change places with the operation after
/// it. False says nothing.
fn all_forms_swap<S: Parted>(all: &Tallies, own: &Tallies, owner: &Name, op: &S::Op) -> bool
    ensures { IsTrue result →
        AllFormsSwap S.object S.label_of owner.now op.now own.now all.now }
{
    for (holder, tally) in all.tallies.iter() {
        if !form_swaps::<S>(holder, tally, own, owner, op) {
            return false;
        }
    }
    true
}

impl Numbers {
    /// No entry. It takes no memory.
    fn new(alloc: Global) -> Self
        ensures { result ≡ record { all = []; own = [] } }
    {
        Numbers {
            all: Tallies::new(alloc),
            own: Tallies::new(alloc),
        }
    }

    /// Counts one more entry. False says that memory ran out, or there are too many.
    fn add<S: Parted>(&mut self, entry: &SharedEntry<S::Op>) -> bool
        ensures { IsTrue result → GainsEntry S.label_of self.old self.new entry.now }
    {
        let label = S::label(&entry.op);
        self.all.add(None, &label) && self.own.add(Some(entry.owner), &label)
    }

    /// Counts one entry less.
    fn take<S: Parted>(&mut self, entry: &SharedEntry<S::Op>)
        ensures { LosesEntry S.label_of self.old self.new entry.now }
    {
        let label = S::label(&entry.op);
        self.all.take(None, &label);
        self.own.take(Some(entry.owner), &label);
    }

    /// Whether each entry of another owner is known to change places with the operation after it.
    /// False says nothing.
    fn all_swap<S: Parted>(&self, owner: &Name, op: &S::Op) -> bool
        ensures { IsTrue result →
            AllFormsSwap S.object S.label_of owner.now op.now self.now.own self.now.all }
    {
        all_forms_swap::<S>(&self.all, &self.own, owner, op)
    }
}

/// Counts one more entry, if it is an uncommitted one of a part. False says that memory ran out, or
/// there are too many.
fn add_open<S: Parted>(numbers: &mut Numbers, entry: &SharedEntry<S::Op>, part: Part) -> bool
    ensures { IsTrue result → (x : List (EntryOf S.Op)) →
        CountsAll S.label_of numbers.old (open_in S.part_of part x) →
        CountsAll S.label_of numbers.new (open_in S.part_of part (x ++ entry.now ∷ [])) }
{
    if !is_open_in::<S>(entry, part) {
        return true;
    }
    numbers.add::<S>(entry)
}

/// The numbers of the uncommitted entries of a part in a log, or none if memory runs out, or there
/// are too many.
pub fn numbers_in<S: Parted>(
    alloc: Global,
    entries: &[SharedEntry<S::Op>],
    part: Part,
) -> Option<Numbers>
    ensures { CountsAllOf S.label_of result (open_in S.part_of part entries.now) }
{
    let mut numbers = Numbers::new(alloc);
    for entry in entries {
        if !add_open::<S>(&mut numbers, entry, part) {
            return None;
        }
    }
    Some(numbers)
}

/// Counts one more entry, if numbers are kept. If memory runs out, or there are too many, they are
/// given up.
pub fn count_more<S: Parted>(numbers: &mut Option<Numbers>, entry: &SharedEntry<S::Op>)
    ensures { (x : List (EntryOf S.Op)) → CountsAllOf S.label_of numbers.old x →
        CountsAllOf S.label_of numbers.new (x ++ entry.now ∷ []) }
{
    let Some(kept) = numbers else {
        return;
    };
    if !kept.add::<S>(entry) {
        *numbers = None;
    }
}

/// Leaves one entry out, if numbers are kept.
pub fn count_less<S: Parted>(numbers: &mut Option<Numbers>, entry: &SharedEntry<S::Op>)
    ensures { (x y : List (EntryOf S.Op)) → CountsAllOf S.label_of numbers.old x →
        LosesOne entry.now x y → CountsAllOf S.label_of numbers.new y }
{
    let Some(kept) = numbers else {
        return;
    };
    kept.take::<S>(entry);
}

/// Whether numbers are kept, and by them each entry of another owner changes places with the
/// operation after it. False says nothing.
pub fn numbers_let<S: Parted>(numbers: &Option<Numbers>, owner: &Name, op: &S::Op) -> bool
    ensures { IsTrue result → (x : List (EntryOf S.Op)) → CountsAllOf S.label_of numbers.now x →
        (e : EntryOf S.Op) → In e x → e.owner ≢ owner.now → Swaps S.object e.op op.now }
{
    match numbers {
        None => false,
        Some(numbers) => numbers.all_swap::<S>(owner, op),
    }
}
