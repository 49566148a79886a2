//! Which numbers pass.
ghost use Rattle.std.specs.Prelude.{◌≡◌};
ghost use Rattle.pp_kind.specs.Gates.{passes};

/// The numbers that pass. Each first operation of a form has a number; each one whose number passes
/// is known to swap with one second operation.
#[derive(Clone, Copy, Debug, PartialEq, Eq)]
pub enum Gate {
    /// All.
    Open,
    /// None: of no number anything is known.
    Shut,
    /// This alone.
    Only(i128),
    /// All but this.
    Unless(i128),
    /// This and those below it.
    AtMost(i128),
    /// This and those above it.
    AtLeast(i128),
}

/// Which number of a first operation a gate reads, and what else is known of the operation.
#[derive(Clone, Copy, Debug, PartialEq, Eq)]
pub enum Reading {
    /// The number that it leads to.
    To,
    /// The number that it starts from.
    From,
    /// Both, which are one number, and it shifts nothing.
    Still,
}

impl Gate {
    /// Whether a number passes.
    #[inline(always)]
    pub fn passes(self, number: i128) -> bool
        ensures { result ≡ passes self number }
    {
        match self {
            Gate::Open => true,
            Gate::Shut => false,
            Gate::Only(bound) => number == bound,
            Gate::Unless(bound) => number != bound,
            Gate::AtMost(bound) => number <= bound,
            Gate::AtLeast(bound) => bound <= number,
        }
    }
}
