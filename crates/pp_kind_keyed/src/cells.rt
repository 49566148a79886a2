//! Numbers at keys.
ghost use Rattle.std.specs.Prelude.{◌≡◌, ◌↔◌, IsTrue, false, IfOk, OnOk, OnErr};
ghost use Rattle.std.specs.FinMap as map;

use pp_core::{OutOfMemory, Sequence};
use std::alloc::Global;
use std::collections::BTreeMap;
use std::marker::Model;

/// Numbers at keys, in the keys' order. A call costs at most the logarithm of their number.
#[derive(Drop)]
pub struct Cells {
    entries: BTreeMap<i64, i64>,
}

impl Model for Cells {
    ghost use Rattle.std.specs.Prelude.{ℤ};
    ghost use Rattle.std.specs.Ordering.{int_cmp};
    ghost use Rattle.std.specs.FinMap as map;
    ghost use Rattle.std.specs.Coded.{coded_ℤ};

    ghost Value = { map.FinMap int_cmp ℤ };

    ghost coded = { map.code coded_ℤ coded_ℤ };

    ghost view = { λ c. map.from_entries c.entries.entries };
}

impl Cells {
    /// No number.
    pub fn new(alloc: Global) -> Cells
        ensures { result ≡ map.empty }
    {
        Cells {
            entries: BTreeMap::new(alloc),
        }
    }

    /// The number at a key, if there is one.
    pub fn get(&self, key: i64) -> Option<i64>
        ensures { result ≡ map.get self.now key }
    {
        self.entries.get(&key).copied()
    }

    /// Puts a number at a key, in place of the one that is there, which it returns. The only error
    /// is out of memory.
    pub fn insert(&mut self, key: i64, number: i64) -> Result<Option<i64>, OutOfMemory>
        ensures was { IfOk result (λ was. was ≡ map.get self.old key) }
        ensures ok { OnOk result (self.new ≡ map.insert self.old key number) }
        ensures err { OnErr result (self.new ≡ self.old) }
    {
        match self.entries.insert(key, number) {
            Ok(was) => Ok(was),
            Err(_) => Err(OutOfMemory),
        }
    }

    /// Puts a number at a key if `was` is what is there, and returns whether it is. A key that is
    /// there is looked up once. The only error is out of memory.
    pub fn replace(&mut self, key: i64, was: Option<i64>, number: i64) -> Result<bool, OutOfMemory>
        ensures found { IfOk result (λ done. IsTrue done ↔ (map.get self.old key ≡ was)) }
        ensures yes { IfOk result (λ done.
            IsTrue done → self.new ≡ map.insert self.old key number) }
        ensures no { IfOk result (λ done. done ≡ false → self.new ≡ self.old) }
        ensures err { OnErr result (self.new ≡ self.old) }
    {
        if let Some(present) = self.entries.get_mut(&key) {
            if was != Some(*present) {
                return Ok(false);
            }
            *present = number;
            return Ok(true);
        }
        if was.is_some() {
            return Ok(false);
        }
        self.insert(key, number)?;
        Ok(true)
    }

    /// Takes the number at a key out, if there is one, and returns it.
    pub fn remove(&mut self, key: i64) -> Option<i64>
        ensures was { result ≡ map.get self.old key }
        ensures out { self.new ≡ map.remove self.old key }
    {
        self.entries.remove(&key)
    }

    /// The keys with their numbers, in the keys' order. The only error is out of memory.
    pub fn pairs(&self, alloc: Global) -> Result<Sequence<(i64, i64)>, OutOfMemory>
        ensures { IfOk result (λ pairs. pairs ≡ map.entries self.now) }
    {
        let mut pairs = Sequence::new(alloc);
        for (key, number) in self.entries.iter() {
            pairs.push((*key, *number))?;
        }
        Ok(pairs)
    }
}
