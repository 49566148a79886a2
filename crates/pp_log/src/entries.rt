//! The entries of a log. If one leaves, those after it or those before it move, whichever are
//! fewer. A `VecDeque` does so too, but does not promise that all are in one slice.
ghost use Rattle.std.specs.Prelude.{◌≡◌, ◌<◌, ◌≤◌, ◌+◌, ◌++◌, ◌∷◌, [], OnOk};
ghost use Rattle.std.specs.Prelude.{drop, length, remove, slice_set, take};

use pp_core::OutOfMemory;
use std::alloc::Global;
use std::marker::Model;

/// A list, which is in a vector after unused positions. If an element is taken out, those after it
/// move one position towards the start. If fewer are before it, these move one position towards the
/// end instead. Contracts see the list, and for how many more there is room.
#[derive(Drop)]
pub struct Entries<E: Copy> {
    all: Vec<E>,
    /// How many positions at the start of the vector are unused.
    front: usize,
}

impl<E: Copy> Model for Entries<E> {
    ghost use Rattle.std.specs.Prelude.{◌-◌, ◌≤◌, drop, length, vec_len};
    ghost use Rattle.std.specs.Vec.{vec_capacity};
    ghost use Rattle.pp_log.specs.Entries.{EntryList};

    ghost Value = { EntryList E };

    ghost view = { λ a. record {
      items = drop a.front a.all.items;
      room = vec_capacity a.all - vec_len a.all;
    } };

    ghost invariant = { λ a. a.front ≤ length a.all.items };
}

impl<E: Copy> Entries<E> {
    /// No element. It takes no memory.
    pub fn new(alloc: Global) -> Self
        ensures { result.items ≡ [] }
    {
        Entries {
            all: Vec::new(alloc),
            front: 0,
        }
    }

    /// How many there are.
    pub fn len(&self) -> usize
        ensures { result ≡ length self.now.items }
    {
        self.all.len() - self.front
    }

    /// All of them, in order.
    pub fn as_slice(&self) -> &[E]
        ensures { result.now ≡ self.now.items }
    {
        &self.all[self.front..]
    }

    /// Moves the list to the start of the vector.
    fn move_to_start(&mut self)
        ensures { self.new.items ≡ self.old.items }
    {
        let len = self.len();
        self.all.copy_within(self.front.., 0);
        self.all.truncate(len);
        self.front = 0;
    }

    /// Makes room for one more. If more positions are unused than there are elements, the list
    /// moves to the start of the vector first. The only error is out of memory.
    pub fn reserve(&mut self) -> Result<(), OutOfMemory>
        ensures items { self.new.items ≡ self.old.items }
        ensures room { OnOk result (0 < self.new.room) }
    {
        if self.front > self.len() {
            self.move_to_start();
        }
        self.all.reserve(1)?;
        Ok(())
    }

    /// Adds one at the end, for which there is room.
    pub fn push(&mut self, entry: E)
        requires { 0 < self.old.room }
        ensures items { self.new.items ≡ self.old.items ++ entry ∷ [] }
        ensures room { self.old.room ≤ self.new.room + 1 }
    {
        let Ok(()) = self.all.push(entry) else {
            unreachable!()
        };
    }

    /// Puts one in the place of another.
    pub fn set(&mut self, i: usize, entry: E)
        requires { i < length self.old.items }
        ensures items { self.new.items ≡ slice_set self.old.items i entry }
        ensures room { self.new.room ≡ self.old.room }
    {
        self.all[self.front + i] = entry;
    }

    /// Keeps the first `len` alone.
    pub fn truncate(&mut self, len: usize)
        requires { len ≤ length self.old.items }
        ensures items { self.new.items ≡ take len self.old.items }
        ensures room { self.old.room ≤ self.new.room }
    {
        self.all.truncate(self.front + len);
    }

    /// Takes out the i-th.
    pub fn remove(&mut self, i: usize)
        requires { i < length self.old.items }
        ensures items { self.new.items ≡ remove self.old.items i }
        ensures room { self.old.room ≤ self.new.room }
    {
        let at = self.front + i;
        if self.all.len() - at <= i + 1 {
            let _ = self.all.remove(at);
            return;
        }
        self.all.copy_within(self.front..at, self.front + 1);
        self.front += 1;
    }
}
