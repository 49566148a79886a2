//! For each object a number of its ids, from the first on.
ghost use Rattle.std.specs.Prelude.{◌≡◌, ◌⊎◌, ◌==◌, ℕ, [], if◌then◌else◌};
ghost use Rattle.pp_styles.specs.Counting.{count_of};

use indexmap::IndexMap;
use std::alloc::Global;
use std::marker::Model;

/// For objects, a number of ids. It is 0 if none is kept. Contracts see the objects, each with its
/// number.
#[derive(Drop)]
pub struct Taken {
    counts: IndexMap<u16, usize>,
}

impl Model for Taken {
    ghost use Rattle.std.specs.Prelude.{List, ℕ};

    ghost Value = { List (ℕ × ℕ) };

    ghost view = { λ a. a.counts.entries };
}

impl Taken {
    /// No number is kept.
    pub fn new(alloc: Global) -> Taken
        ensures { result ≡ [] }
    {
        Taken {
            counts: IndexMap::new(alloc),
        }
    }

    /// The number at an object.
    pub fn count(&self, object: u16) -> usize
        ensures { result ≡ count_of self.now object }
    {
        self.counts.get(&object).copied().unwrap_or(0)
    }

    /// Keeps a number in place of another, if one is kept at the object.
    pub fn replace(&mut self, object: u16, count: usize)
        ensures each { (o : ℕ) → (count_of self.new o ≡ count_of self.old o)
            ⊎ ((o ≡ object) × (count_of self.new o ≡ count)) }
        ensures here { (count_of self.new object ≡ 0) ⊎ (count_of self.new object ≡ count) }
    {
        if let Some(kept) = self.counts.get_mut(&object) {
            *kept = count;
        }
    }

    /// Keeps a number at an object. Without memory all is as it was.
    pub fn set(&mut self, object: u16, count: usize)
        ensures { (o : ℕ) → (count_of self.new o ≡ count_of self.old o)
            ⊎ (count_of self.new o ≡ (if o == object then count else count_of self.old o)) }
    {
        let _ = self.counts.insert(object, count);
    }
}
