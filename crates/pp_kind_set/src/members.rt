//! Finite sets of keys.
ghost use Rattle.std.specs.Prelude.{◌≡◌, IfOk, OnOk, OnErr};
ghost use Rattle.std.specs.FinMap.{empty};
ghost use Rattle.pp_kind_set.specs.Keys.{contains, insert, remove, members};

use pp_core::{OutOfMemory, Sequence};
use std::alloc::Global;
use std::collections::BTreeSet;
use std::marker::Model;

/// The keys of a set, in their order. A call costs at most the logarithm of their number.
#[derive(Drop)]
pub struct Members {
    keys: BTreeSet<i64>,
}

impl Model for Members {
    ghost use Rattle.std.specs.Ordering.{int_cmp};
    ghost use Rattle.std.specs.FinSet as set;
    ghost use Rattle.std.specs.Coded.{coded_ℤ};

    ghost Value = { set.FinSet int_cmp };

    ghost coded = { set.code coded_ℤ };

    ghost use Rattle.pp_kind_set.specs.Keys.{set_of};

    ghost view = { λ m. set_of m.keys.keys };
}

impl Members {
    /// No key.
    pub fn new(alloc: Global) -> Members
        ensures { result ≡ empty }
    {
        Members {
            keys: BTreeSet::new(alloc),
        }
    }

    /// Whether a key is in.
    pub fn contains(&self, key: i64) -> bool
        ensures { result ≡ contains self.now key }
    {
        self.keys.contains(&key)
    }

    /// Puts a key in. The only error is out of memory.
    pub fn insert(&mut self, key: i64) -> Result<(), OutOfMemory>
        ensures ok { OnOk result (self.new ≡ insert self.old key) }
        ensures err { OnErr result (self.new ≡ self.old) }
    {
        match self.keys.insert(key) {
            Ok(_) => Ok(()),
            Err(_) => Err(OutOfMemory),
        }
    }

    /// Takes a key out, if it is in.
    pub fn remove(&mut self, key: i64)
        ensures { self.new ≡ remove self.old key }
    {
        self.keys.remove(&key);
    }
    /// The keys, ascending. The only error is out of memory.
    pub fn keys(&self, alloc: Global) -> Result<Sequence<i64>, OutOfMemory>
        ensures { IfOk result (λ keys. keys ≡ members self.now) }
    {
        let mut keys = Sequence::new(alloc);
        for key in self.keys.iter() {
            keys.push(*key)?;
        }
        Ok(keys)
    }
}
