//! How a priority queue differs from the one that would be there without one of its operations.
ghost use Rattle.std.specs.Prelude.{IfSome, IsTrue};
ghost use Rattle.pp_kind_priority.specs.Gaps.{Bears, Differ, LeadsTo};

use crate::bag::Bag;
use crate::op::PrioOp;
use crate::prio::Prio;
use pp_core::{OutOfMemory, Ticks};
use pp_kind::{Crossed, Gapped, Left};
use std::sync::ledger::Ledger;

/// How a queue differs from the one without an operation that put a value in or took one.
#[derive(Clone, Copy, Debug, PartialEq, Eq)]
pub enum PrioGap {
    /// The other queue lacks one of this value. If the first has so many copies of it, the other
    /// one has found all that the first has found since.
    Insert { value: i64, copies: u64 },
    /// The other queue still has one of this value.
    Take { value: i64 },
}

/// How many copies of an added value are required after one more operation, if this many are
/// required before it. `None` if that is not known.
#[inline(always)]
fn wanted_behind(value: i64, copies: u64, op: &PrioOp) -> Option<u64>
    ensures { IfSome result (λ more.
        LeadsTo (PrioGap.Insert value copies) op.now (PrioGap.Insert value more)) }
{
    match *op {
        PrioOp::Insert { value: put } => {
            if put == value {
                copies.checked_add(1)
            } else {
                Some(copies)
            }
        }
        PrioOp::Take { value: Some(taken) } => {
            if taken == value {
                Some(copies.max(2) - 1)
            } else {
                Some(copies)
            }
        }
        PrioOp::Least { value: Some(seen) } => {
            if seen == value {
                Some(copies.max(2))
            } else {
                Some(copies)
            }
        }
        PrioOp::Take { value: None } => None,
        PrioOp::Least { value: None } => None,
    }
}

/// Whether an operation is known to be legal with one more value, which was taken: what it finds is
/// not greater.
#[inline(always)]
fn is_legal_with(value: i64, op: &PrioOp) -> bool
    ensures { IsTrue result → LeadsTo (PrioGap.Take value) op.now (PrioGap.Take value) }
{
    match *op {
        PrioOp::Insert { value: _ } => true,
        PrioOp::Take { value: Some(taken) } => taken <= value,
        PrioOp::Least { value: Some(seen) } => seen <= value,
        PrioOp::Take { value: None } => false,
        PrioOp::Least { value: None } => false,
    }
}

impl Gapped for Prio {
    type Gap = PrioGap;

    ghost Bears = { Bears };

    ghost Differ = { Differ };

    #[inline(always)]
    fn gap_of(op: &PrioOp, _undo: &()) -> Left<PrioGap> {
        match *op {
            PrioOp::Insert { value } => Left::Apart(PrioGap::Insert { value, copies: 1 }),
            PrioOp::Take { value: Some(value) } => Left::Apart(PrioGap::Take { value }),
            PrioOp::Take { value: None } => Left::Same,
            PrioOp::Least { value: _ } => Left::Same,
        }
    }

    #[inline(always)]
    fn cross(gap: &PrioGap, op: &PrioOp) -> Crossed<PrioGap, ()> {
        match *gap {
            PrioGap::Insert { value, copies } => match wanted_behind(value, copies, op) {
                Some(copies) => Crossed::Apart(PrioGap::Insert { value, copies }),
                None => Crossed::Unknown,
            },
            PrioGap::Take { value } => {
                if is_legal_with(value, op) {
                    Crossed::Apart(*gap)
                } else {
                    Crossed::Unknown
                }
            }
        }
    }

    #[inline(always)]
    fn bears(gap: &PrioGap, state: &Bag) -> bool {
        match *gap {
            PrioGap::Insert { value, copies } => state.has_copies(value, copies),
            PrioGap::Take { value: _ } => true,
        }
    }

    fn close<L: Ledger>(
        state: &mut Bag,
        gap: &PrioGap,
        ticks: &mut Ticks<L>,
    ) -> Result<(), OutOfMemory> {
        ticks.tick();
        match *gap {
            PrioGap::Insert { value, copies: _ } => state.remove(value),
            PrioGap::Take { value } => state.add(value),
        }
    }
}
