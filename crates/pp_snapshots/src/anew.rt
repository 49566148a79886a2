//! Operations of one part that are asked alone, on new objects.
ghost use Rattle.std.specs.Prelude.{◌+◌, ◌*◌, ◌≤◌, ◌↔◌, ℕ, IfOk, IsTrue, cond, length};
ghost use Rattle.pp_kind.specs.Object.{IsAllowed};
ghost use Rattle.pp_kind.specs.declared.range.TheConstants.{MOST_OPERATIONS};
ghost use Rattle.pp_snapshots.specs.Many.{AreOf, AreThere};

use crate::many::apply_all;
use crate::past::no_past;
use pp_core::{OutOfMemory, Ticks};
use pp_kind::Placed;
use std::alloc::Global;
use std::sync::ledger::Ledger;

/// Whether these operations, all at one place, are allowed, one after another. The only error is out
/// of memory.
pub fn are_allowed<S: Placed, L: Ledger>(
    alloc: Global,
    shape: &S::Shape,
    ops: &[S::Op],
    ticks: &mut Ticks<L>,
) -> Result<bool, OutOfMemory>
    requires there { (p : ℕ) × AreThere S.place_of p ops.now }
    requires of { AreOf S.object shape.now ops.now }
    requires few { length ops.now ≤ MOST_OPERATIONS }
    ensures tells { IfOk result (λ good. IsTrue good ↔ IsAllowed S.object shape.now ops.now) }
    ensures rises { ticks.old ≤ ticks.new }
    ensures bound { ticks.new ≤ ticks.old + 2 * length ops.now }
    ensures least { IfOk result (λ good. ticks.old + cond good (length ops.now) 0 ≤ ticks.new) }
{
    let mut past = no_past::<S>(alloc, shape)?;
    apply_all::<S, L>(&mut past, ops, ticks)
}
