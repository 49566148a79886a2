//! How a stack differs from the one that would be there without one of its operations.
ghost use Rattle.std.specs.Prelude.{IfSome, IsTrue};
ghost use Rattle.pp_kind_stack.specs.declared.gap.StackGap.TheVariants as gap;
ghost use Rattle.pp_kind_stack.specs.Gaps.{Bears, Differ, IsAboveBehind};

use crate::op::StackOp;
use crate::pile::Pile;
use crate::stack::Stack;
use pp_core::{OutOfMemory, Ticks};
use pp_kind::{Crossed, Gapped, Left};
use std::sync::ledger::Ledger;

/// How a stack differs from the one that would be there without one of its operations.
#[derive(Clone, Copy, Debug, PartialEq, Eq)]
pub enum StackGap {
    /// The other stack lacks this item, which has this many above it.
    Push { value: i64, above: u64 },
    /// The other has this item more, with so many above it.
    Pop { value: i64, above: u64 },
}

/// How many are above an item after one more operation. `None` if it takes different items from the
/// two stacks, or the number is too large.
#[inline(always)]
fn above_behind(value: i64, above: u64, op: &StackOp) -> Option<u64>
    ensures { IfSome result (IsAboveBehind value above op.now) }
{
    match *op {
        StackOp::Push { value: _ } => above.checked_add(1),
        StackOp::Pop { value: Some(taken) } => {
            if above > 0 {
                Some(above - 1)
            } else if taken == value {
                Some(0)
            } else {
                None
            }
        }
        StackOp::Pop { value: None } => None,
    }
}

/// Whether this item has so many above it.
#[inline(always)]
fn has_above(state: &Pile, value: i64, above: u64) -> bool
    ensures { IsTrue result → Bears (gap.Push value above) state.now }
{
    let len = state.len();
    let above = above as usize;
    above < len && state.get(len - 1 - above) == Some(value)
}

impl Gapped for Stack {
    type Gap = StackGap;

    ghost Bears = { Bears };

    ghost Differ = { Differ };

    #[inline(always)]
    fn gap_of(op: &StackOp, _undo: &()) -> Left<StackGap> {
        match *op {
            StackOp::Push { value } => Left::Apart(StackGap::Push { value, above: 0 }),
            StackOp::Pop { value: Some(value) } => Left::Apart(StackGap::Pop { value, above: 0 }),
            StackOp::Pop { value: None } => Left::Same,
        }
    }

    #[inline(always)]
    fn cross(gap: &StackGap, op: &StackOp) -> Crossed<StackGap, ()> {
        match *gap {
            StackGap::Push { value, above } => match above_behind(value, above, op) {
                Some(above) => Crossed::Apart(StackGap::Push { value, above }),
                None => Crossed::Unknown,
            },
            StackGap::Pop { value, above } => match above_behind(value, above, op) {
                Some(above) => Crossed::Apart(StackGap::Pop { value, above }),
                None => Crossed::Unknown,
            },
        }
    }

    #[inline(always)]
    fn bears(gap: &StackGap, state: &Pile) -> bool {
        match *gap {
            StackGap::Push { value, above } => has_above(state, value, above),
            StackGap::Pop { value: _, above: _ } => true,
        }
    }

    fn close<L: Ledger>(
        state: &mut Pile,
        gap: &StackGap,
        ticks: &mut Ticks<L>,
    ) -> Result<(), OutOfMemory> {
        ticks.tick();
        match *gap {
            StackGap::Push { value: _, above } => {
                let at = state.len() - 1 - above as usize;
                state.remove_at(at);
                Ok(())
            }
            StackGap::Pop { value, above } => {
                let at = state.len() - above as usize;
                state.insert_at(at, value)
            }
        }
    }
}
