//! How many entries have which number.
ghost use Rattle.std.specs.Prelude.{◌≡◌, ◌+◌, ◌-◌, ◌<◌, ◌||◌, IsTrue, Option, Some, ℤ, nat_le};
ghost use Rattle.std.specs.List.{list_all};
ghost use Rattle.std.specs.Map.{keys_of};
ghost use Rattle.pp_kind.specs.Gates.{passes};
ghost use Rattle.pp_log_shared.specs.Numbers.{amount, is_number, none_counted, one_if};

use indexmap::IndexMap;
use pp_kind::Gate;
use std::alloc::Global;
use std::marker::Model;

/// How many entries have each number, and how many they are. Contracts see the numbers, each with
/// how many have it.
#[derive(Drop)]
pub struct Tally {
    counts: IndexMap<i128, usize>,
    size: usize,
}

impl Model for Tally {
    ghost use Rattle.pp_log_shared.specs.Numbers.{Counted};

    ghost Value = { Counted };

    ghost view = { λ a. record { numbers = a.counts.entries; size = a.size } };
}

impl Tally {
    /// No entry. It takes no memory.
    pub fn new(alloc: Global) -> Self
        ensures { result ≡ none_counted }
    {
        Tally {
            counts: IndexMap::new(alloc),
            size: 0,
        }
    }

    /// Whether there is no entry.
    pub fn is_empty(&self) -> bool
        ensures { IsTrue result → self.now ≡ none_counted }
    {
        self.size == 0 && self.counts.is_empty()
    }

    /// How many have a number.
    fn count(&self, number: i128) -> usize
        ensures { result ≡ amount (Some number) self.now }
    {
        self.counts.get(&number).copied().unwrap_or(0)
    }

    /// Counts one more. False says that memory ran out, or that there are too many.
    pub fn add(&mut self, number: i128) -> bool
        ensures { IsTrue result → (q : Option ℤ) →
            amount q self.new ≡ amount q self.old + one_if (is_number q number) }
    {
        let Some(more) = self.count(number).checked_add(1) else {
            return false;
        };
        let Some(size) = self.size.checked_add(1) else {
            return false;
        };
        let Ok(_) = self.counts.insert(number, more) else {
            return false;
        };
        self.size = size;
        true
    }

    /// Counts one less, of those that have a number. A number that none has is left out.
    pub fn take(&mut self, number: i128)
        ensures { (q : Option ℤ) →
            amount q self.new ≡ amount q self.old - one_if (is_number q number) }
    {
        self.size = self.size.saturating_sub(1);
        if let Some(count) = self.counts.get_mut(&number) {
            if *count > 1 {
                *count -= 1;
                return;
            }
        }
        self.counts.swap_remove(&number);
    }

    /// Whether each number passes.
    fn each_passes(&self, gate: Gate) -> bool
        ensures { result ≡ list_all (passes gate) (keys_of self.now.numbers) }
    {
        self.counts.keys().all(|number| gate.passes(*number))
    }

    /// Whether each number passes, unless some own ones among the entries are all that have it.
    fn each_passes_or_is_own(&self, own: &Tally, gate: Gate) -> bool
        ensures { result ≡ list_all
            (λ e. passes gate e.0 || nat_le e.1 (amount (Some e.0) own.now)) self.now.numbers }
    {
        self.counts.iter().all(|(number, count)| gate.passes(*number)
            || *count <= own.count(*number))
    }

    /// Whether each number passes that others than the owner have. It walks over the numbers only
    /// if there are others, and the gate has a bound.
    pub fn others_pass(&self, own: &Tally, gate: Gate) -> bool
        ensures { IsTrue result → own.now.size < self.now.size → (n : ℤ) →
            amount (Some n) own.now < amount (Some n) self.now → IsTrue (passes gate n) }
    {
        if self.size <= own.size {
            return true;
        }
        match gate {
            Gate::Open => true,
            Gate::Shut => false,
            Gate::Unless(number) => self.count(number) <= own.count(number),
            // Usually all of them pass, and then their owners do not matter.
            _ => self.each_passes(gate) || self.each_passes_or_is_own(own, gate),
        }
    }
}
