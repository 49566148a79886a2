//! The position of each id in a log.
ghost use Rattle.std.specs.Prelude.{◌≡◌, ◌<◌, ℕ, nat_eq, List, [], ◌∷◌, ◌++◌, OnOk, Some};
ghost use Rattle.std.specs.Prelude.{position, remove, slice_get};
ghost use Rattle.pp_log.specs.Index.{HasIndexRoom, IsIndexOf, IsNewId, IsSameIndex, StandOnce};
ghost use Rattle.pp_log.specs.Index.{index_len};

use crate::id_table::IdTable;
use arrayvec::ArrayVec;
use pp_core::OutOfMemory;
use std::alloc::Global;

/// The ids of the entries of a log. A few are looked through, and take no memory
/// of their own.
#[derive(Drop)]
pub enum Index {
    /// The ids, in order.
    Few(ArrayVec<u32, 16>),
    /// The ids of a log that has, or had, more entries.
    Many(IdTable),
}

/// The position of this id among a few.
fn look_for(ids: &[u32], id: u32) -> Option<usize>
    ensures { result ≡ position (nat_eq id) ids.now }
{
    ids.iter().position(|other| id == *other)
}

impl Index {
    /// The index of an empty log.
    pub fn new() -> Self
        ensures { IsIndexOf result [] }
    {
        Index::Few(ArrayVec::new())
    }

    /// The position of the entry with this id.
    pub fn find(&self, id: u32) -> Option<usize>
        ensures { (ids : List ℕ) → IsIndexOf self.now ids → result ≡ position (nat_eq id) ids }
    {
        match self {
            Index::Few(ids) => look_for(ids.as_slice(), id),
            Index::Many(table) => table.find(id),
        }
    }

    /// Makes room for one more entry with this id. To have no number left is to have no memory.
    pub fn reserve(&mut self, id: u32, alloc: Global) -> Result<(), OutOfMemory>
        ensures same { IsSameIndex self.old self.new }
        ensures room { OnOk result (HasIndexRoom id self.new) }
    {
        match self {
            Index::Few(ids) => {
                if ids.is_full() {
                    let mut table = IdTable::of(ids.as_slice(), alloc)?;
                    table.reserve(id)?;
                    *self = Index::Many(table);
                }
                Ok(())
            }
            Index::Many(table) => table.reserve(id),
        }
    }

    /// Adds an entry with a new id at the end.
    pub fn push(&mut self, id: u32)
        requires { HasIndexRoom id self.old }
        ensures { (ids : List ℕ) → IsIndexOf self.old ids → IsNewId id ids
            → IsIndexOf self.new (ids ++ id ∷ []) }
    {
        match self {
            Index::Few(ids) => ids.push(id),
            Index::Many(table) => table.push(id),
        }
    }

    /// Takes the entry out that is at a position and has this id.
    pub fn remove(&mut self, i: usize, id: u32)
        requires { i < index_len self.old }
        ensures { (ids : List ℕ) → IsIndexOf self.old ids → StandOnce ids
            → slice_get ids i ≡ Some id → IsIndexOf self.new (remove ids i) }
    {
        match self {
            Index::Few(ids) => {
                let _ = ids.remove(i);
            }
            Index::Many(table) => table.remove(i, id),
        }
    }
}
