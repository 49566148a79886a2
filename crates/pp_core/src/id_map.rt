//! A value for each of some ids.
ghost use Rattle.std.specs.Prelude.{◌≡◌, ℕ, cond, nat_eq, None, OnOk, Some};
ghost use Rattle.indexmap.specs.IndexMap.{get};
ghost use Rattle.pp_core.specs.Values.{HasRoomFor, HasSameValues, Updates, near_value, value_of};

use crate::answer::OutOfMemory;
use indexmap::IndexMap;
use std::alloc::Global;

/// By so many places the list of near ids grows.
const STEP: usize = 64;

/// So many places the list may have for each value that was set.
const PLACES_FOR_EACH: usize = 4;

/// A value for each of some ids. Ids that follow one another from a small number on are near: their
/// values are in a list, each at its id. The values of others are in a hash table.
#[derive(Drop)]
pub struct IdMap<T: Copy> {
    near: Vec<Option<T>>,
    far: IndexMap<u32, T>,
    /// How many values were set. It says how long the list may become.
    count: usize,
}

/// Whether the list may grow up to this position, if this many values are set.
fn is_near(at: usize, count: usize) -> bool {
    at / PLACES_FOR_EACH <= count.saturating_add(STEP)
}

/// The value of the id in the list, if there is one.
fn near_value<T: Copy>(near: &[Option<T>], at: usize) -> Option<T>
    ensures { result ≡ near_value near.now at }
{
    *near.get(at)?
}

/// The value of the id in the hash table, if it has one there. No hash is made if the table is
/// empty.
fn far_value<T: Copy>(far: &IndexMap<u32, T>, id: u32) -> Option<T>
    ensures { result ≡ get nat_eq far.now id }
{
    if far.is_empty() {
        return None;
    }
    far.get(&id).copied()
}

/// Takes away the value at a position, if one is there.
fn empty<T: Copy>(near: &mut [Option<T>], at: usize)
    ensures { (k : ℕ) → near_value near.new k ≡ cond (nat_eq at k) None (near_value near.old k) }
{
    if at < near.len() {
        near[at] = None;
    }
}

impl<T: Copy> IdMap<T> {
    /// No value. It takes no memory.
    pub fn new(alloc: Global) -> Self
        ensures { (id : ℕ) → value_of result id ≡ None }
    {
        IdMap {
            near: Vec::new(alloc),
            far: IndexMap::new(alloc),
            count: 0,
        }
    }

    /// The value of an id, if it has one.
    pub fn get(&self, id: u32) -> Option<T>
        ensures { result ≡ value_of self.now id }
    {
        if let Some(value) = near_value(&self.near, id as usize) {
            return Some(value);
        }
        far_value(&self.far, id)
    }

    /// Makes room for the value of an id. The only error is out of memory.
    pub fn reserve(&mut self, id: u32) -> Result<(), OutOfMemory>
        ensures same { HasSameValues self.old self.new }
        ensures room { OnOk result (HasRoomFor id self.new) }
    {
        let at = id as usize;
        if at < self.near.len() {
            return Ok(());
        }
        if is_near(at, self.count) {
            self.near.resize(at + STEP, None)?;
            return Ok(());
        }
        self.far.reserve(1)?;
        Ok(())
    }

    /// Sets the value of an id, for which there is room.
    pub fn set(&mut self, id: u32, value: T)
        requires { HasRoomFor id self.old }
        ensures { Updates self.old self.new id (Some value) }
    {
        self.count = self.count.saturating_add(1);
        let at = id as usize;
        if at < self.near.len() {
            self.near[at] = Some(value);
            return;
        }
        let Ok(_) = self.far.insert(id, value) else {
            unreachable!()
        };
    }

    /// Takes the value of an id away.
    pub fn remove(&mut self, id: u32)
        ensures { Updates self.old self.new id None }
    {
        empty(&mut self.near, id as usize);
        self.far.swap_remove(&id);
    }
}
