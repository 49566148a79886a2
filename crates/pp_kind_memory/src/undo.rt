//! The undo values of a memory.
ghost use Rattle.std.specs.Prelude.{◌≡◌};
ghost use Rattle.pp_kind_memory.specs.Operations.{number_of};

/// The undo value of an operation.
#[derive(Drop)]
pub enum Undo {
    /// The number that a write covered, at its address.
    Covered { at: i64, number: i64 },
    /// The operation says it all.
    Nothing,
}

impl Undo {
    /// The number that a write covered, or 0.
    #[inline(always)]
    pub fn number(&self) -> i64
        ensures { result ≡ number_of self.now }
    {
        match *self {
            Undo::Covered { at: _, number } => number,
            Undo::Nothing => 0,
        }
    }
}
