//! A set of ids.
ghost use Rattle.std.specs.Prelude.{◌≡◌, ◌==◌, [], ◌∷◌, ◌++◌, false, List, ℕ, OnErr, OnOk};
ghost use Rattle.std.specs.List.{list_any};

use crate::answer::OutOfMemory;
use crate::id_map::IdMap;
use std::alloc::Global;
use std::marker::Model;

/// Ids, in the order in which they were added. The calls use the marks; contracts see the list.
#[derive(Drop)]
pub struct IdSet {
    ids: Vec<u32>,
    marks: IdMap<()>,
}

impl Model for IdSet {
    ghost use Rattle.std.specs.Prelude.{List, ℕ};
    ghost use Rattle.std.specs.Coded.{coded_list, coded_ℕ};
    ghost use Rattle.pp_core.specs.Values.{AreMarked};

    ghost Value = { List ℕ };

    ghost view = { λ a. a.ids.items };

    ghost invariant = { λ a. AreMarked a.ids.items a.marks };
}

impl IdSet {
    /// No id. It takes no memory.
    pub fn new(alloc: Global) -> Self
        ensures { result ≡ [] }
    {
        IdSet {
            ids: Vec::new(alloc),
            marks: IdMap::new(alloc),
        }
    }

    /// Whether the id is among them.
    pub fn contains(&self, id: u32) -> bool
        ensures { result ≡ list_any (λ i. id == i) self.now }
    {
        self.marks.get(id).is_some()
    }

    /// Adds an id that is not among them. The only error is out of memory, and they are then as
    /// they were.
    pub fn insert(&mut self, id: u32) -> Result<(), OutOfMemory>
        requires { list_any (λ i. id == i) self.old ≡ false }
        ensures ok { OnOk result (self.new ≡ self.old ++ id ∷ []) }
        ensures err { OnErr result (self.new ≡ self.old) }
    {
        self.marks.reserve(id)?;
        self.ids.push(id)?;
        self.marks.set(id, ());
        Ok(())
    }
}
