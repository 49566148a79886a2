//! The position of each id in a log of many entries.
ghost use Rattle.std.specs.Prelude.{◌≡◌, ◌<◌, ℕ, nat_eq, List, [], ◌∷◌, ◌++◌, IfOk, OnOk, Some};
ghost use Rattle.std.specs.Prelude.{length, position, remove, slice_get};
ghost use Rattle.pp_log.specs.Index.{HasTableRoom, IsNewId, IsSameTable, IsTableOf, StandOnce};

use pp_core::{IdMap, OutOfMemory};
use std::alloc::Global;

/// The ids of the entries of a log, each with a serial number. The numbers rise along the log, so
/// an entry that is taken out leaves those of the others as they are.
#[derive(Drop)]
pub struct IdTable {
    serials: Vec<u32>,
    serial_of: IdMap<u32>,
    next: u32,
}

impl IdTable {
    /// The table of these ids.
    pub fn of(ids: &[u32], alloc: Global) -> Result<Self, OutOfMemory>
        ensures { StandOnce ids.now → IfOk result (λ table. IsTableOf table ids.now) }
    {
        let mut table = IdTable {
            serials: Vec::new(alloc),
            serial_of: IdMap::new(alloc),
            next: 0,
        };
        'each: for id in ids {
            table.reserve(*id)?;
            table.push(*id);
        }
        Ok(table)
    }

    /// The position of the entry with this id: its number if none before it was taken out, and
    /// otherwise where a search by halves finds the number.
    pub fn find(&self, id: u32) -> Option<usize>
        ensures { (ids : List ℕ) → IsTableOf self.now ids → result ≡ position (nat_eq id) ids }
    {
        let serial = self.serial_of.get(id)?;
        let first = serial as usize;
        if first < self.serials.len() && self.serials[first] == serial {
            return Some(first);
        }
        self.serials.binary_search(&serial).ok()
    }

    /// Makes room for one more entry with this id. To have no number left is to have no memory.
    pub fn reserve(&mut self, id: u32) -> Result<(), OutOfMemory>
        ensures same { IsSameTable self.old self.new }
        ensures room { OnOk result (HasTableRoom id self.new) }
    {
        if self.next == u32::MAX {
            return Err(OutOfMemory);
        }
        self.serials.reserve(1)?;
        self.serial_of.reserve(id)?;
        Ok(())
    }

    /// Adds an entry with a new id at the end.
    pub fn push(&mut self, id: u32)
        requires { HasTableRoom id self.old }
        ensures { (ids : List ℕ) → IsTableOf self.old ids → IsNewId id ids
            → IsTableOf self.new (ids ++ id ∷ []) }
    {
        let Ok(()) = self.serials.push(self.next) else {
            unreachable!()
        };
        self.serial_of.set(id, self.next);
        self.next += 1;
    }

    /// Takes the entry out that is at a position and has this id. The last one's number is free
    /// again.
    pub fn remove(&mut self, i: usize, id: u32)
        requires { i < length self.old.serials.items }
        ensures { (ids : List ℕ) → IsTableOf self.old ids → StandOnce ids
            → slice_get ids i ≡ Some id → IsTableOf self.new (remove ids i) }
    {
        self.serial_of.remove(id);
        let serial = self.serials.remove(i);
        if i == self.serials.len() {
            self.next = serial;
        }
    }
}
