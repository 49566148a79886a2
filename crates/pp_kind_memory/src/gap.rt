//! How a memory differs from the one that would be there without one of its operations.
ghost use Rattle.std.specs.Prelude.{◌≡◌};
ghost use Rattle.pp_kind_memory.specs.Gaps.{Bears, Differ, gap_behind, gap_left, gap_there, where_found};

use crate::mem::Mem;
use crate::memory::Memory;
use crate::op::MemOp;
use crate::undo::Undo;
use pp_core::{OutOfMemory, Ticks};
use pp_kind::{Crossed, Gapped, Left};
use std::sync::ledger::Ledger;

/// The other memory has this number at this address, and elsewhere the same.
#[derive(Clone, Copy, Debug, PartialEq, Eq)]
pub struct MemGap {
    pub at: i64,
    pub number: i64,
}

/// The gap that an operation leaves which kept this: what it covered.
#[inline(always)]
fn gap_left(op: &MemOp, undo: &Undo) -> Left<MemGap>
    ensures { result ≡ gap_left op.now undo.now }
{
    match *op {
        MemOp::Read { at: _, value: _ } => Left::Same,
        MemOp::Write { at, value: _ } => Left::Apart(MemGap {
            at,
            number: undo.number(),
        }),
        MemOp::Cas {
            at,
            expected,
            done: true,
            ..
        } => Left::Apart(MemGap {
            at,
            number: expected,
        }),
        MemOp::Cas { done: false, .. } => Left::Same,
    }
}

/// A gap if the operation finds what it requires; otherwise it is not known.
#[inline(always)]
fn where_found(finds: bool, at: i64, number: i64) -> Crossed<MemGap, Undo>
    ensures { result ≡ where_found finds at number }
{
    if finds {
        Crossed::Apart(MemGap { at, number })
    } else {
        Crossed::Unknown
    }
}

/// The gap after an operation at the address of a gap with this number.
#[inline(always)]
fn gap_there(number: i64, op: &MemOp) -> Crossed<MemGap, Undo>
    ensures { result ≡ gap_there number op.now }
{
    match *op {
        MemOp::Read { at, value } => where_found(value == number, at, number),
        MemOp::Write { at, value: _ } => Crossed::Same(Undo::Covered { at, number }),
        MemOp::Cas {
            at,
            expected,
            new,
            done: true,
        } => where_found(expected == number, at, new),
        MemOp::Cas {
            at,
            expected,
            done: false,
            ..
        } => where_found(expected != number, at, number),
    }
}

/// Operations at other addresses leave it as it is.
#[inline(always)]
fn gap_behind(gap: &MemGap, op: &MemOp) -> Crossed<MemGap, Undo>
    ensures { result ≡ gap_behind gap.now op.now }
{
    if op.address() == gap.at {
        gap_there(gap.number, op)
    } else {
        Crossed::Apart(*gap)
    }
}

impl Gapped for Mem {
    type Gap = MemGap;

    ghost Bears = { Bears };

    ghost Differ = { Differ };

    #[inline(always)]
    fn gap_of(op: &MemOp, undo: &Undo) -> Left<MemGap> {
        gap_left(op, undo)
    }

    #[inline(always)]
    fn cross(gap: &MemGap, op: &MemOp) -> Crossed<MemGap, Undo> {
        gap_behind(gap, op)
    }

    #[inline(always)]
    fn bears(_gap: &MemGap, _state: &Memory) -> bool {
        true
    }

    fn close<L: Ledger>(
        state: &mut Memory,
        gap: &MemGap,
        ticks: &mut Ticks<L>,
    ) -> Result<(), OutOfMemory> {
        ticks.tick();
        state.write(gap.at, gap.number)?;
        Ok(())
    }
}
