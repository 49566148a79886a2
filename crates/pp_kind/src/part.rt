//! The parts of objects.
ghost use Rattle.std.specs.Prelude.{◌≡◌};
ghost use Rattle.std.specs.Hash as fed;
ghost use Rattle.pp_kind.specs.Words.{part_word, parts_alike};

use std::hash::{Hash, Hasher};

/// The part of an operation: its object, and the key there.
#[derive(Clone, Copy, Debug, PartialEq, Eq)]
pub struct Part {
    /// The place of the object.
    pub object: u16,
    /// The key, or 0 if the kind has none.
    pub key: i64,
}

/// Hashed as one word of both.
impl Hash for Part {
    ghost hash_input = { λ part. fed.u64 (part_word part) };

    ghost respects_eq = { parts_alike };

    fn hash<H: Hasher>(&self, state: &mut H) {
        state.write_u64(self.word());
    }
}

impl Part {
    /// One word of both. It differs at any two parts whose keys lie between 0 and 2 ^ 48.
    fn word(&self) -> u64
        ensures { result ≡ part_word self.now }
    {
        let object = u64::from(self.object) << 48;
        self.key.cast_unsigned().wrapping_add(object)
    }
}
