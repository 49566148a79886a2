//! How a set differs from the one that would be there without one of its operations.
ghost use Rattle.std.specs.Prelude.{◌≡◌};
ghost use Rattle.pp_kind_set.specs.Gaps.{Bears, Differ, gap_behind, gap_left};

use crate::members::Members;
use crate::op::SetOp;
use crate::set::KeySet;
use pp_core::{OutOfMemory, Ticks};
use pp_kind::{Crossed, Gapped, Left};
use std::sync::ledger::Ledger;

/// The other set has this key or not, as `present` says, and else the same keys.
#[derive(Clone, Copy, Debug, PartialEq, Eq)]
pub struct SetGap {
    pub key: i64,
    pub present: bool,
}

/// The gap that an operation leaves: what it found, if it leaves something else.
#[inline(always)]
fn gap_left(op: &SetOp) -> Left<SetGap>
    ensures { result ≡ gap_left op.now }
{
    if op.was_present() == op.is_present() {
        Left::Same
    } else {
        Left::Apart(SetGap {
            key: op.key(),
            present: op.was_present(),
        })
    }
}

/// Operations at other keys leave a gap as it is. One at its key shows what was there, which is
/// another thing in the other set.
#[inline(always)]
fn gap_behind(gap: &SetGap, op: &SetOp) -> Crossed<SetGap, ()>
    ensures { result ≡ gap_behind gap.now op.now }
{
    if op.key() == gap.key {
        Crossed::Unknown
    } else {
        Crossed::Apart(*gap)
    }
}

impl Gapped for KeySet {
    type Gap = SetGap;

    ghost Bears = { Bears };

    ghost Differ = { Differ };

    #[inline(always)]
    fn gap_of(op: &SetOp, _undo: &()) -> Left<SetGap> {
        gap_left(op)
    }

    #[inline(always)]
    fn cross(gap: &SetGap, op: &SetOp) -> Crossed<SetGap, ()> {
        gap_behind(gap, op)
    }

    #[inline(always)]
    fn bears(_gap: &SetGap, _state: &Members) -> bool {
        true
    }

    fn close<L: Ledger>(
        state: &mut Members,
        gap: &SetGap,
        ticks: &mut Ticks<L>,
    ) -> Result<(), OutOfMemory> {
        ticks.tick();
        if gap.present {
            state.insert(gap.key)?;
        } else {
            state.remove(gap.key);
        }
        Ok(())
    }
}
