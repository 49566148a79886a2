//! How many of the ids that others published on each object a transaction is known to have passed.
ghost use Rattle.std.specs.Prelude.{◌≡◌, ◌⊎◌, ℕ, [], true};
ghost use Rattle.pp_model.specs.Names.{Name as NameOf, ◌=ⁿ◌};
ghost use Rattle.pp_styles.specs.Noting.{taken_in};

use crate::taken::Taken;
use indexmap::IndexMap;
use pp_core::Name;
use std::alloc::Global;
use std::marker::Model;

/// For transactions and objects, a number of ids. It is 0 if none is kept. Contracts see the names,
/// each with its numbers.
#[derive(Drop)]
pub struct TakenFrom {
    counts: IndexMap<Name, Taken>,
}

impl Model for TakenFrom {
    ghost use Rattle.std.specs.Prelude.{List, ℕ};
    ghost use Rattle.pp_model.specs.Names.{Name as NameOf};

    ghost Value = { List (NameOf × List (ℕ × ℕ)) };

    ghost view = { λ a. a.counts.entries };
}

impl TakenFrom {
    /// No number is kept.
    pub fn new(alloc: Global) -> TakenFrom
        ensures { result ≡ [] }
    {
        TakenFrom {
            counts: IndexMap::new(alloc),
        }
    }

    /// The number at a transaction and an object.
    pub fn count(&self, source: &Name, object: u16) -> usize
        ensures { result ≡ taken_in source.now self.now object }
    {
        let Some(taken) = self.counts.get(source) else {
            return 0;
        };
        taken.count(object)
    }

    /// Keeps a number at a transaction and an object. If memory runs out, no number is kept at the
    /// transaction, or all is as it was.
    pub fn set(&mut self, alloc: Global, source: &Name, object: u16, count: usize)
        ensures { (u : NameOf) (o : ℕ) → (taken_in u self.new o ≡ 0)
            ⊎ (taken_in u self.new o ≡ taken_in u self.old o)
            ⊎ (((u =ⁿ source.now) ≡ true) × (o ≡ object) × (taken_in u self.new o ≡ count)) }
    {
        let mut taken = match self.counts.swap_remove(source) {
            Some(taken) => taken,
            None => Taken::new(alloc),
        };
        taken.set(object, count);
        let _ = self.counts.insert(*source, taken);
    }

    /// Keeps a number in place of another, if one is kept at the transaction and the object.
    pub fn replace(&mut self, source: &Name, object: u16, count: usize)
        ensures each { (u : NameOf) (o : ℕ) → (taken_in u self.new o ≡ taken_in u self.old o)
            ⊎ (((u =ⁿ source.now) ≡ true) × (o ≡ object) × (taken_in u self.new o ≡ count)) }
        ensures here { (taken_in source.now self.new object ≡ 0)
            ⊎ (taken_in source.now self.new object ≡ count) }
    {
        if let Some(taken) = self.counts.get_mut(source) {
            taken.replace(object, count);
        }
    }
}
