//! Lists of numbers with a front and a back.
ghost use Rattle.std.specs.Prelude.{◌≡◌, ◌<◌, List, [], ◌∷◌, ◌++◌, length, slice_get, OnOk, OnErr};
ghost use Rattle.std.specs.List.{remove};
ghost use Rattle.pp_kind_queue.specs.Operations.{front_of, behind_front, without_last};

use pp_core::OutOfMemory;
use std::alloc::Global;
use std::collections::VecDeque;
use std::marker::Model;

/// The items of a queue. Contracts see it as their list, from front to back.
#[derive(Drop)]
pub struct Queue {
    items: VecDeque<i64>,
}

impl Model for Queue {
    ghost use Rattle.std.specs.Prelude.{ℤ, List};

    ghost Value = { List ℤ };

    ghost view = { λ q. q.items.items };
}

impl Queue {
    /// The empty queue.
    pub fn new(alloc: Global) -> Self
        ensures { result ≡ [] }
    {
        Queue {
            items: VecDeque::new(alloc),
        }
    }

    /// How many items there are.
    #[inline(always)]
    pub fn len(&self) -> usize
        ensures { result ≡ length self.now }
    {
        self.items.len()
    }

    /// The item at a place, from 0 at the front, if there is one.
    pub fn get(&self, i: usize) -> Option<i64>
        ensures { result ≡ slice_get self.now i }
    {
        self.items.get(i).copied()
    }

    /// The item at the front, if there is one.
    pub fn front(&self) -> Option<i64>
        ensures { result ≡ front_of self.now }
    {
        self.items.front().copied()
    }

    /// Adds an item at the back. The only error is out of memory.
    pub fn add_back(&mut self, value: i64) -> Result<(), OutOfMemory>
        ensures ok { OnOk result (self.new ≡ self.old ++ value ∷ []) }
        ensures err { OnErr result (self.new ≡ self.old) }
    {
        self.items.push_back(value)?;
        Ok(())
    }

    /// Adds an item at the front. The only error is out of memory.
    pub fn add_front(&mut self, value: i64) -> Result<(), OutOfMemory>
        ensures ok { OnOk result (self.new ≡ value ∷ self.old) }
        ensures err { OnErr result (self.new ≡ self.old) }
    {
        self.items.push_front(value)?;
        Ok(())
    }

    /// Takes the item at the front away, if there is one.
    pub fn remove_front(&mut self)
        ensures { self.new ≡ behind_front self.old }
    {
        let _front = self.items.pop_front();
    }

    /// Takes the item at the back away, if there is one.
    pub fn remove_back(&mut self)
        ensures { self.new ≡ without_last self.old }
    {
        let _back = self.items.pop_back();
    }

    /// Takes the item at a place away, from 0 at the front. The items on its shorter side move.
    pub fn remove_at(&mut self, i: usize)
        requires { i < length self.old }
        ensures { self.new ≡ remove self.old i }
    {
        let _item = self.items.remove(i);
    }
}
