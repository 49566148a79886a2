//! Numbers at addresses.
ghost use Rattle.std.specs.Prelude.{◌≡◌, IfOk, OnOk, OnErr};
ghost use Rattle.std.specs.FinMap as map;
ghost use Rattle.pp_kind_memory.specs.Values.{value_at, written};

use pp_core::{OutOfMemory, Sequence};
use pp_kind_keyed::Cells;
use std::alloc::Global;
use std::marker::Model;

/// The numbers at the addresses. Only what is not 0 is kept.
#[derive(Drop)]
pub struct Memory {
    cells: Cells,
}

impl Model for Memory {
    ghost use Rattle.std.specs.Prelude.{ℤ};
    ghost use Rattle.std.specs.Ordering.{int_cmp};
    ghost use Rattle.std.specs.FinMap as map;
    ghost use Rattle.std.specs.Coded.{coded_ℤ};

    ghost Value = { map.FinMap int_cmp ℤ };

    ghost coded = { map.code coded_ℤ coded_ℤ };

    ghost view = { λ m. m.cells };
}

impl Memory {
    /// The memory with 0 at every address.
    pub fn new(alloc: Global) -> Memory
        ensures { result ≡ map.empty }
    {
        Memory {
            cells: Cells::new(alloc),
        }
    }

    /// The number at an address.
    pub fn value_at(&self, at: i64) -> i64
        ensures { result ≡ value_at self.now at }
    {
        self.cells.get(at).unwrap_or(0)
    }

    /// Writes a number at an address, and returns the one that it covers. The only error is out of
    /// memory.
    pub fn write(&mut self, at: i64, value: i64) -> Result<i64, OutOfMemory>
        ensures was { IfOk result (λ was. was ≡ value_at self.old at) }
        ensures ok { OnOk result (self.new ≡ written self.old at value) }
        ensures err { OnErr result (self.new ≡ self.old) }
    {
        let was = if value == 0 {
            self.cells.remove(at)
        } else {
            self.cells.insert(at, value)?
        };
        Ok(was.unwrap_or(0))
    }

    /// The addresses whose number is not 0, with their numbers, in ascending order. The only error
    /// is out of memory.
    pub fn pairs(&self, alloc: Global) -> Result<Sequence<(i64, i64)>, OutOfMemory>
        ensures { IfOk result (λ pairs. pairs ≡ map.entries self.now) }
    {
        self.cells.pairs(alloc)
    }
}
