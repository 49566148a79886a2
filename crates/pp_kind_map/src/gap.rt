//! How a map differs from the one that would be there without one of its operations.
ghost use Rattle.std.specs.Prelude.{◌≡◌};
ghost use Rattle.pp_kind_map.specs.Gaps.{Bears, Differ, gap_behind, gap_left};

use crate::key_map::{KeyMap, set_value};
use crate::op::MapOp;
use pp_core::{OutOfMemory, Ticks};
use pp_kind::{Crossed, Gapped, Left};
use pp_kind_keyed::Cells;
use std::sync::ledger::Ledger;

/// The other map has this value at this key, or none there, and elsewhere the same.
#[derive(Clone, Copy, Debug, PartialEq, Eq)]
pub struct MapGap {
    pub key: i64,
    pub value: Option<i64>,
}

/// The gap that an operation leaves: what it found, if it leaves something else.
#[inline(always)]
fn gap_left(op: &MapOp) -> Left<MapGap>
    ensures { result ≡ gap_left op.now }
{
    if op.found() == op.left() {
        Left::Same
    } else {
        Left::Apart(MapGap {
            key: op.key(),
            value: op.found(),
        })
    }
}

/// Operations at other keys leave a gap as it is. One at its key shows what was there, which is
/// another thing in the other map.
#[inline(always)]
fn gap_behind(gap: &MapGap, op: &MapOp) -> Crossed<MapGap, ()>
    ensures { result ≡ gap_behind gap.now op.now }
{
    if op.key() == gap.key {
        Crossed::Unknown
    } else {
        Crossed::Apart(*gap)
    }
}

impl Gapped for KeyMap {
    type Gap = MapGap;

    ghost Bears = { Bears };

    ghost Differ = { Differ };

    #[inline(always)]
    fn gap_of(op: &MapOp, _undo: &()) -> Left<MapGap> {
        gap_left(op)
    }

    #[inline(always)]
    fn cross(gap: &MapGap, op: &MapOp) -> Crossed<MapGap, ()> {
        gap_behind(gap, op)
    }

    #[inline(always)]
    fn bears(_gap: &MapGap, _state: &Cells) -> bool {
        true
    }

    fn close<L: Ledger>(
        state: &mut Cells,
        gap: &MapGap,
        ticks: &mut Ticks<L>,
    ) -> Result<(), OutOfMemory> {
        ticks.tick();
        set_value(state, gap.key, gap.value)
    }
}
