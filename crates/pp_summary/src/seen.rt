//! How many of the commits at each place a transaction has seen.
ghost use Rattle.std.specs.Prelude.{◌≡◌, ◌≤◌, ℕ, [], cond, nat_eq, IfNone, IfSome, None, OnOk, Some};
ghost use Rattle.std.specs.Map.{lookup};
ghost use Rattle.pp_summary.specs.Seen.{HaveOwnPlaces, IsFirst, seen_total};

use pp_core::OutOfMemory;
use std::alloc::Global;
use std::marker::Model;

/// Places, each with the number of commits there that were seen. A transaction mostly has one or
/// two places, and never more than there are objects, so a search goes through them one by one.
#[derive(Drop)]
pub struct Seen {
    entries: Vec<(u16, usize)>,
}

impl Model for Seen {
    ghost use Rattle.pp_summary.specs.Seen.{HaveOwnPlaces, SeenCounts};

    ghost Value = { SeenCounts };

    ghost view = { λ a. record { entries = a.entries.items } };

    ghost invariant = { λ a. HaveOwnPlaces a.entries.items };
}

/// The sum of all counts.
fn total(entries: &[(u16, usize)]) -> usize
    requires few { seen_total entries.now ≤ 10_000_000_000 }
    ensures { result ≡ seen_total entries.now }
{
    let mut total = 0;
    for k in 0..entries.len() {
        total += entries[k].1;
    }
    total
}

/// The position of the first entry that has the place, if there is one.
fn position(entries: &[(u16, usize)], place: u16) -> Option<usize>
    ensures found { IfSome result (IsFirst place entries.now) }
    ensures none { IfNone result (lookup (nat_eq place) entries.now ≡ None) }
{
    for k in 0..entries.len() {
        if entries[k].0 == place {
            return Some(k);
        }
    }
    None
}

impl Seen {
    /// Makes an empty list of places. It takes no memory.
    pub fn new(alloc: Global) -> Self
        ensures { result.entries ≡ [] }
    {
        Seen {
            entries: Vec::new(alloc),
        }
    }

    /// No place has two counts.
    pub fn own_places(&self)
        ensures { HaveOwnPlaces self.now.entries }
    {
        let _entries = &self.entries;
    }

    /// How many commits were seen, at all places together.
    pub fn total(&self) -> usize
        requires few { seen_total self.now.entries ≤ 10_000_000_000 }
        ensures { result ≡ seen_total self.now.entries }
    {
        total(&self.entries)
    }

    /// How many commits at the place were seen, if the place has an entry.
    pub fn get(&self, place: u16) -> Option<usize>
        ensures { result ≡ lookup (nat_eq place) self.now.entries }
    {
        let k = position(&self.entries, place)?;
        Some(self.entries[k].1)
    }

    /// Sets the count of the place. The only error is out of memory.
    pub fn insert(&mut self, place: u16, count: usize) -> Result<(), OutOfMemory>
        ensures { OnOk result ((q : ℕ) → lookup (nat_eq q) self.new.entries
            ≡ cond (nat_eq place q) (Some count) (lookup (nat_eq q) self.old.entries)) }
    {
        if let Some(k) = position(&self.entries, place) {
            self.entries[k] = (place, count);
            return Ok(());
        }
        self.entries.push((place, count))?;
        Ok(())
    }
}
