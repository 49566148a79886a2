//! How a queue differs from the one that would be there without one of its operations.
ghost use Rattle.std.specs.Prelude.{Some};
ghost use Rattle.pp_kind.specs.Gaps.{Crosses};
ghost use Rattle.pp_kind_queue.specs.declared.gap.QueueGap.TheVariants as gap;
ghost use Rattle.pp_kind_queue.specs.declared.op.QueueOp.TheVariants.{Enq, Deq};
ghost use Rattle.pp_kind_queue.specs.Fifo.{fifo};
ghost use Rattle.pp_kind_queue.specs.Gaps.{Bears, Differ};

use crate::fifo::Fifo;
use crate::op::QueueOp;
use crate::queue::Queue;
use pp_core::{OutOfMemory, Ticks};
use pp_kind::{Crossed, Gapped, Left};
use std::sync::ledger::Ledger;

/// How a queue differs from the one that would be there without one of its operations.
#[derive(Clone, Copy, Debug, PartialEq, Eq)]
pub enum QueueGap {
    /// The other queue lacks this item, which has this many after it. If there are at least as many
    /// items, no operation so far took it.
    Enq { value: i64, behind: u64, least: u64 },
    /// The other has this item more, in front.
    Deq { value: i64 },
}

/// The gap after one more item, if the other queue lacks one. Among equal neighbours it is the last
/// one.
#[inline(always)]
fn lacking_behind_enq(value: i64, behind: u64, least: u64, added: i64) -> Crossed<QueueGap, ()>
    ensures { Crosses fifo Bears Differ (gap.Enq value behind least) (Enq added) result }
{
    let Some(least) = least.checked_add(1) else {
        return Crossed::Unknown;
    };
    if behind == 0 && added == value {
        return Crossed::Apart(QueueGap::Enq {
            value,
            behind: 0,
            least,
        });
    }
    let Some(behind) = behind.checked_add(1) else {
        return Crossed::Unknown;
    };
    Crossed::Apart(QueueGap::Enq {
        value,
        behind,
        least,
    })
}

/// The gap after one item left, if the other queue lacks another one.
#[inline(always)]
fn lacking_behind_deq(value: i64, behind: u64, least: u64, taken: i64) -> Crossed<QueueGap, ()>
    ensures { Crosses fifo Bears Differ (gap.Enq value behind least) (Deq (Some taken)) result }
{
    let Some(over) = behind.checked_add(1) else {
        return Crossed::Unknown;
    };
    Crossed::Apart(QueueGap::Enq {
        value,
        behind,
        least: least.saturating_sub(1).max(over),
    })
}

/// The gap after one more operation, if the other queue lacks an item.
#[inline(always)]
fn lacking_behind(value: i64, behind: u64, least: u64, op: &QueueOp) -> Crossed<QueueGap, ()>
    ensures { Crosses fifo Bears Differ (gap.Enq value behind least) op.now result }
{
    match *op {
        QueueOp::Enq { value: added } => lacking_behind_enq(value, behind, least, added),
        QueueOp::Deq { value: Some(taken) } => lacking_behind_deq(value, behind, least, taken),
        QueueOp::Deq { value: None } => Crossed::Unknown,
    }
}

/// The gap after one more operation, if the other queue has one more item at the front.
#[inline(always)]
fn in_front_behind(value: i64, op: &QueueOp) -> Crossed<QueueGap, ()>
    ensures { Crosses fifo Bears Differ (gap.Deq value) op.now result }
{
    let same = match *op {
        QueueOp::Enq { value: _ } => true,
        QueueOp::Deq { value: taken } => taken == Some(value),
    };
    if same {
        Crossed::Apart(QueueGap::Deq { value })
    } else {
        Crossed::Unknown
    }
}

impl Gapped for Fifo {
    type Gap = QueueGap;

    ghost Bears = { Bears };

    ghost Differ = { Differ };

    #[inline(always)]
    fn gap_of(op: &QueueOp, _undo: &()) -> Left<QueueGap> {
        match *op {
            QueueOp::Enq { value } => Left::Apart(QueueGap::Enq {
                value,
                behind: 0,
                least: 1,
            }),
            QueueOp::Deq { value: Some(value) } => Left::Apart(QueueGap::Deq { value }),
            QueueOp::Deq { value: None } => Left::Same,
        }
    }

    #[inline(always)]
    fn cross(gap: &QueueGap, op: &QueueOp) -> Crossed<QueueGap, ()> {
        match *gap {
            QueueGap::Enq {
                value,
                behind,
                least,
            } => lacking_behind(value, behind, least, op),
            QueueGap::Deq { value } => in_front_behind(value, op),
        }
    }

    #[inline(always)]
    fn bears(gap: &QueueGap, state: &Queue) -> bool {
        match *gap {
            QueueGap::Enq {
                value: _,
                behind: _,
                least,
            } => least <= state.len() as u64,
            QueueGap::Deq { value: _ } => true,
        }
    }

    fn close<L: Ledger>(
        state: &mut Queue,
        gap: &QueueGap,
        ticks: &mut Ticks<L>,
    ) -> Result<(), OutOfMemory> {
        ticks.tick();
        match *gap {
            QueueGap::Enq {
                value: _,
                behind,
                least: _,
            } => {
                let at = state.len() - 1 - behind as usize;
                state.remove_at(at);
                Ok(())
            }
            QueueGap::Deq { value } => state.add_front(value),
        }
    }
}
