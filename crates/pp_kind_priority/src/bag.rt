//! Numbers in ascending order, repeats kept.
ghost use Rattle.std.specs.Prelude.{◌≡◌, ◌<◌, ◌≤◌, ◌^◌, [], ◌∷◌, ◌++◌, length, IfOk, OnOk, OnErr};
ghost use Rattle.std.specs.Prelude.{IsTrue, ◌↔◌};
ghost use Rattle.pp_kind_priority.specs.Values.{copies_of, least_of, without_least, with_one, without_one};
ghost use Rattle.pp_kind_priority.specs.Copies.{copies};

use pp_core::{OutOfMemory, Sequence};
use std::alloc::Global;
use std::collections::BTreeMap;
use std::marker::Model;

/// The values of a priority queue: for each that is there, how many further copies of it are.
/// Contracts see it as their list, in ascending order. A call costs at most the logarithm of the
/// number of different values, but `values`, which walks them all.
#[derive(Drop)]
pub struct Bag {
    further: BTreeMap<i64, u64>,
}

impl Model for Bag {
    ghost use Rattle.std.specs.Prelude.{ℤ, List};
    ghost use Rattle.pp_kind_priority.specs.Copies.{spread};

    ghost Value = { List ℤ };

    ghost view = { λ b. spread b.further.entries };
}

impl Bag {
    /// No value.
    pub fn new(alloc: Global) -> Self
        ensures { result ≡ [] }
    {
        Bag {
            further: BTreeMap::new(alloc),
        }
    }

    /// The least value, if there is one.
    pub fn least(&self) -> Option<i64>
        ensures { result ≡ least_of self.now }
    {
        match self.further.first_key_value() {
            Some((value, _)) => Some(*value),
            None => None,
        }
    }

    /// Whether at least so many of the values are this one.
    #[inline(always)]
    pub fn has_copies(&self, value: i64, count: u64) -> bool
        ensures { IsTrue result ↔ (count ≤ copies_of value self.now) }
    {
        // It is here for its clause that each value is there once.
        let _ordered = self.further.len();
        match self.further.get(&value).copied() {
            Some(further) => count == 0 || count - 1 <= further,
            None => count == 0,
        }
    }

    /// Adds a value. The only error is out of memory.
    pub fn add(&mut self, value: i64) -> Result<(), OutOfMemory>
        requires room { length self.old < 2 ^ 63 }
        ensures ok { OnOk result (self.new ≡ with_one value self.old) }
        ensures err { OnErr result (self.new ≡ self.old) }
    {
        let further = match self.further.get(&value).copied() {
            Some(further) => further + 1,
            None => 0,
        };
        match self.further.insert(value, further) {
            Ok(_) => Ok(()),
            Err(_) => Err(OutOfMemory),
        }
    }

    /// Takes one of this value away, if there is one. The only error is out of memory.
    pub fn remove(&mut self, value: i64) -> Result<(), OutOfMemory>
        ensures ok { OnOk result (self.new ≡ without_one value self.old) }
        ensures err { OnErr result (self.new ≡ self.old) }
    {
        let further = match self.further.get(&value).copied() {
            Some(further) => further,
            None => return Ok(()),
        };
        if further == 0 {
            self.further.remove(&value);
            return Ok(());
        }
        match self.further.insert(value, further - 1) {
            Ok(_) => Ok(()),
            Err(_) => Err(OutOfMemory),
        }
    }

    /// Takes one of the least value away, if there is one. The only error is out of memory.
    pub fn remove_least(&mut self) -> Result<(), OutOfMemory>
        ensures ok { OnOk result (self.new ≡ without_least self.old) }
        ensures err { OnErr result (self.new ≡ self.old) }
    {
        match self.least() {
            Some(value) => self.remove(value),
            None => Ok(()),
        }
    }

    /// The values in ascending order, repeats kept. The only error is out of memory.
    pub fn values(&self, alloc: Global) -> Result<Sequence<i64>, OutOfMemory>
        ensures { IfOk result (λ values. values ≡ self.now) }
    {
        let mut values = Sequence::new(alloc);
        for (value, further) in self.further.iter() {
            values.push(*value)?;
            push_copies(&mut values, *value, *further)?;
        }
        Ok(values)
    }
}

/// Adds copies of a value after others. The only error is out of memory.
fn push_copies(values: &mut Sequence<i64>, value: i64, count: u64) -> Result<(), OutOfMemory>
    ensures { OnOk result (values.new ≡ values.old ++ copies value count []) }
{
    for _ in 0..count {
        values.push(value)?;
    }
    Ok(())
}
