//! How a counter differs from the one that would be there without one of its operations.
ghost use Rattle.pp_kind_counter.specs.Gaps.{Bears, Differ};

use crate::count::Count;
use crate::op::CounterOp;
use pp_core::{OutOfMemory, Ticks};
use pp_kind::{Crossed, Gapped, Left};
use std::sync::ledger::Ledger;

/// By how much the number is greater than the one without an operation.
#[derive(Clone, Copy, Debug, PartialEq, Eq)]
pub struct CounterGap {
    pub by: i64,
}

impl Gapped for Count {
    type Gap = CounterGap;

    ghost Bears = { Bears };

    ghost Differ = { Differ };

    #[inline(always)]
    fn gap_of(op: &CounterOp, _undo: &()) -> Left<CounterGap> {
        let by = op.shift();
        if by == 0 {
            Left::Same
        } else {
            Left::Apart(CounterGap { by })
        }
    }

    /// An operation whose result shows the number has another result in the other state.
    #[inline(always)]
    fn cross(gap: &CounterGap, op: &CounterOp) -> Crossed<CounterGap, ()> {
        match *op {
            CounterOp::Add { by: _ } => Crossed::Apart(*gap),
            CounterOp::Get { value: _ } => Crossed::Unknown,
            CounterOp::FetchAdd { by: _, was: _ } => Crossed::Unknown,
        }
    }

    #[inline(always)]
    fn bears(_gap: &CounterGap, _state: &i128) -> bool {
        true
    }

    fn close<L: Ledger>(
        state: &mut i128,
        gap: &CounterGap,
        ticks: &mut Ticks<L>,
    ) -> Result<(), OutOfMemory> {
        ticks.tick();
        *state -= i128::from(gap.by);
        Ok(())
    }
}
