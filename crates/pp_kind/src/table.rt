//! Tables of conditions on pairs of operations.
ghost use Rattle.std.specs.Prelude.{◌≡◌, ◌<◌};
ghost use Rattle.pp_kind.specs.declared.gate.Reading.TheVariants.{From, Still, To};
ghost use Rattle.pp_kind.specs.Gates.{IsGateOf};
ghost use Rattle.pp_kind.specs.Table.{condition_holds, entry};

use crate::gate::{Gate, Reading};

/// When a pair of operations swaps, by their figures.
#[derive(Clone, Copy, Debug, PartialEq, Eq)]
pub enum Condition {
    /// Always.
    Always,
    /// Never.
    Never,
    /// Both lead to one number.
    Equal,
    /// The first does not lead to the number that the second starts from.
    Unequal,
    /// The first does not lead to the number that the second starts from, or neither leads away
    /// from that number.
    Chain,
    /// The first shifts nothing.
    FirstStill,
    /// The second shifts nothing.
    SecondStill,
    /// Both lead to one number, and the first shifts nothing.
    Settled,
    /// The two lead to different numbers.
    Apart,
    /// The first does not start from the number that the second leads to, or leads there.
    FromApart,
    /// The second does not lead to the number that the first leads to, or starts from it.
    IntoApart,
    /// The first leads to no greater number than the second.
    Rising,
    /// The second leads to no greater number than the first.
    Falling,
}

/// The numbers of an operation that a condition reads. One that an operation does not have is 0.
#[derive(Clone, Copy, Debug, PartialEq, Eq)]
pub struct Figures {
    /// The number that it starts from.
    pub from: i128,
    /// The number that it leads to.
    pub to: i128,
    /// The number that it adds.
    pub shift: i128,
}

impl Condition {
    /// Whether it is true for the figures of a first and a second operation.
    #[inline(always)]
    pub fn holds(self, x: &Figures, y: &Figures) -> bool
        ensures { result ≡ condition_holds self x.now y.now }
    {
        match self {
            Condition::Always => true,
            Condition::Never => false,
            Condition::Equal => x.to == y.to,
            Condition::Unequal => x.to != y.from,
            Condition::Chain => {
                x.to != y.from || x.from == x.to && x.to == y.from && y.from == y.to
            }
            Condition::FirstStill => x.shift == 0,
            Condition::SecondStill => y.shift == 0,
            Condition::Settled => x.to == y.to && x.shift == 0,
            Condition::Apart => x.to != y.to,
            Condition::FromApart => x.from != y.to || x.to == y.to,
            Condition::IntoApart => y.to != x.to || y.from == x.to,
            Condition::Rising => x.to <= y.to,
            Condition::Falling => y.to <= x.to,
        }
    }

    /// Its gate if the number that the first leads to is read.
    #[inline(always)]
    fn gate_to(self, y: &Figures) -> Gate
        ensures { IsGateOf self To y.now result }
    {
        match self {
            Condition::Always => Gate::Open,
            Condition::Never => Gate::Shut,
            Condition::Equal => Gate::Only(y.to),
            Condition::Unequal => Gate::Unless(y.from),
            Condition::Chain => Gate::Unless(y.from),
            Condition::FirstStill => Gate::Shut,
            Condition::SecondStill => if y.shift == 0 { Gate::Open } else { Gate::Shut },
            Condition::Settled => Gate::Shut,
            Condition::Apart => Gate::Unless(y.to),
            Condition::FromApart => Gate::Only(y.to),
            Condition::IntoApart => Gate::Unless(y.to),
            Condition::Rising => Gate::AtMost(y.to),
            Condition::Falling => Gate::AtLeast(y.to),
        }
    }

    /// Its gate if the number that the first starts from is read.
    #[inline(always)]
    fn gate_from(self, y: &Figures) -> Gate
        ensures { IsGateOf self From y.now result }
    {
        match self {
            Condition::Always => Gate::Open,
            Condition::SecondStill => if y.shift == 0 { Gate::Open } else { Gate::Shut },
            Condition::FromApart => Gate::Unless(y.to),
            _ => Gate::Shut,
        }
    }

    /// Its gate if the first starts from the number that it leads to, and shifts nothing.
    #[inline(always)]
    fn gate_still(self, y: &Figures) -> Gate
        ensures { IsGateOf self Still y.now result }
    {
        match self {
            Condition::Chain => if y.from == y.to {
                Gate::Open
            } else {
                Gate::Unless(y.from)
            },
            Condition::FirstStill => Gate::Open,
            Condition::Settled => Gate::Only(y.to),
            Condition::FromApart => Gate::Open,
            _ => self.gate_to(y),
        }
    }

    /// The first operations that are known to meet it with a second of these figures, by one of
    /// their numbers alone.
    #[inline(always)]
    pub fn gate(self, reading: Reading, y: &Figures) -> Gate
        ensures { IsGateOf self reading y.now result }
    {
        match reading {
            Reading::To => self.gate_to(y),
            Reading::From => self.gate_from(y),
            Reading::Still => self.gate_still(y),
        }
    }
}

/// A condition for each pair of forms of operations, with a row for each form of the first and a
/// column for each form of the second.
#[derive(Clone, Copy, Debug)]
pub struct MoverTable<const N: usize> {
    pub rows: [[Condition; N]; N],
}

impl<const N: usize> MoverTable<N> {
    /// The table with these rows.
    #[inline(always)]
    pub fn new(rows: [[Condition; N]; N]) -> Self
        ensures { result.rows ≡ rows.entry }
    {
        MoverTable { rows }
    }

    /// The entry of a pair of forms.
    #[inline(always)]
    pub fn condition(&self, a: usize, b: usize) -> Condition
        requires row { a < N }
        requires column { b < N }
        ensures { result ≡ entry self.now.rows a b }
    {
        self.rows[a][b]
    }

    /// Whether the entry of a pair of forms is true for these figures.
    #[inline(always)]
    pub fn holds(&self, a: usize, x: &Figures, b: usize, y: &Figures) -> bool
        requires row { a < N }
        requires column { b < N }
        ensures { result ≡ condition_holds (entry self.now.rows a b) x.now y.now }
    {
        self.condition(a, b).holds(x, y)
    }

    /// The first operations of the form of a row that are known to meet their entry with a second
    /// of this form and these figures. None has a form without a row.
    #[inline(always)]
    pub fn gate(&self, a: usize, reading: Reading, b: usize, y: &Figures) -> Gate
        requires column { b < N }
        ensures { IsGateOf (entry self.now.rows a b) reading y.now result }
    {
        if a < N {
            self.condition(a, b).gate(reading, y)
        } else {
            Gate::Shut
        }
    }
}
