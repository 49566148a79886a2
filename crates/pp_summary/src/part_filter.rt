//! A filter that says which parts some operations may have.
ghost use Rattle.std.specs.Prelude.{◌≡◌, ◌<◌, ◌↔◌, IsTrue};
ghost use Rattle.pp_kind.specs.declared.part.Part.{Part as PartOf};
ghost use Rattle.pp_summary.specs.Filtered.{MayHave, remainder};

use pp_kind::Part;

/// How many remainders of keys the filter distinguishes.
const REMAINDERS: usize = 64;

/// Which remainders the keys of the added parts leave when they are divided, as unsigned numbers,
/// by `REMAINDERS`. A part whose key leaves another remainder was not added.
#[derive(Drop)]
pub struct PartFilter {
    remainders: [bool; REMAINDERS],
}

/// The remainder that the key of a part leaves.
fn remainder(part: &Part) -> usize
    ensures remainder { result ≡ remainder part.now }
    ensures within { result < REMAINDERS }
{
    (part.key.cast_unsigned() % REMAINDERS as u64) as usize
}

impl PartFilter {
    /// Makes a filter with no part.
    pub fn new() -> Self
        ensures { (part : PartOf) → MayHave result part → ⊥ }
    {
        PartFilter {
            remainders: [false; REMAINDERS],
        }
    }

    /// Whether a part with the same remainder was added.
    pub fn may_have(&self, part: &Part) -> bool
        ensures { IsTrue result ↔ MayHave self.now part.now }
    {
        self.remainders[remainder(part)]
    }

    /// Adds a part.
    pub fn add(&mut self, part: &Part)
        ensures keeps { (other : PartOf) → MayHave self.old other → MayHave self.new other }
        ensures adds { MayHave self.new part.now }
    {
        self.remainders[remainder(part)] = true;
    }
}
