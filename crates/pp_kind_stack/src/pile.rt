//! Lists of numbers with a top.
ghost use Rattle.std.specs.Prelude.{◌≡◌, ◌<◌, ◌≤◌, List, [], ◌∷◌, ◌++◌, length, slice_get};
ghost use Rattle.std.specs.Prelude.{OnOk, OnErr};
ghost use Rattle.std.specs.List.{insert, remove};
ghost use Rattle.pp_kind_stack.specs.Operations.{top_of, without_top};

use pp_core::OutOfMemory;
use std::alloc::Global;
use std::marker::Model;

/// The items of a stack. Contracts see it as their list, from bottom to top.
#[derive(Drop)]
pub struct Pile {
    items: Vec<i64>,
}

impl Model for Pile {
    ghost use Rattle.std.specs.Prelude.{ℤ, List};

    ghost Value = { List ℤ };

    ghost view = { λ p. p.items.items };
}

impl Pile {
    /// The empty pile.
    pub fn new(alloc: Global) -> Self
        ensures { result ≡ [] }
    {
        Pile {
            items: Vec::new(alloc),
        }
    }

    /// How many items there are.
    #[inline(always)]
    pub fn len(&self) -> usize
        ensures { result ≡ length self.now }
    {
        self.items.len()
    }

    /// The item at a place, from 0 at the bottom, if there is one.
    #[inline(always)]
    pub fn get(&self, i: usize) -> Option<i64>
        ensures { result ≡ slice_get self.now i }
    {
        self.items.get(i).copied()
    }

    /// The item at the top, if there is one.
    pub fn top(&self) -> Option<i64>
        ensures { result ≡ top_of self.now }
    {
        self.items.last().copied()
    }

    /// Adds an item at the top. The only error is out of memory.
    pub fn push(&mut self, value: i64) -> Result<(), OutOfMemory>
        ensures ok { OnOk result (self.new ≡ self.old ++ value ∷ []) }
        ensures err { OnErr result (self.new ≡ self.old) }
    {
        self.items.push(value)?;
        Ok(())
    }

    /// Takes the item at the top away, if there is one.
    pub fn pop(&mut self)
        ensures { self.new ≡ without_top self.old }
    {
        let _top = self.items.pop();
    }

    /// Takes the item at a place away, from 0 at the bottom.
    pub fn remove_at(&mut self, i: usize)
        requires { i < length self.old }
        ensures { self.new ≡ remove self.old i }
    {
        let _item = self.items.remove(i);
    }

    /// Inserts an item at a position, from 0 at the bottom, below those that were there. The only
    /// error is out of memory.
    pub fn insert_at(&mut self, i: usize, value: i64) -> Result<(), OutOfMemory>
        requires { i ≤ length self.old }
        ensures ok { OnOk result (self.new ≡ insert self.old i value) }
        ensures err { OnErr result (self.new ≡ self.old) }
    {
        self.items.insert(i, value)?;
        Ok(())
    }
}
