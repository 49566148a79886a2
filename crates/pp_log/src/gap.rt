//! The gap that an operation leaves when it is left out, carried over those after it.
ghost use Rattle.pp_log.specs.Gaps.{CrossesAll, LeavesGap};
ghost use Rattle.pp_log.specs.Parts.{items_on};
ghost use Rattle.pp_model.specs.Object.{ops};

use crate::sides::Side;
use pp_kind::{Crossed, Gapped, Left, Placed};

/// How the state after some operations differs from the one that would be there without an
/// operation before them.
#[derive(Drop)]
pub enum Crossing<G, U> {
    /// Not at all: the operation before them changes nothing, and they are allowed without it.
    Idle,
    /// By this gap. If the state bears it, they are allowed without the operation before them, and
    /// each of them keeps the same.
    Apart(G),
    /// Not at all. They are allowed without the operation before them; the one at this position
    /// among them then keeps this, and each of the others the same.
    Same { at: usize, undo: U },
    /// It is not known: they may not be allowed without it.
    Unknown,
}

/// Carries a gap over the operations of a place among these entries.
fn cross_all<S: Placed + Gapped, T: Side<S::Op>>(
    first: S::Gap,
    place: u16,
    entries: &[T::Entry],
) -> Crossing<S::Gap, S::Undo>
    ensures { CrossesAll S.object S.Bears S.Differ first
        (ops (items_on S.place_of T.item_of place entries.now)) result }
{
    let mut gap = first;
    let mut crossed = 0;
    for k in 0..entries.len() {
        let op = T::op(&entries[k]);
        if S::place(op) == place {
            match S::cross(&gap, op) {
                Crossed::Same(undo) => return Crossing::Same { at: crossed, undo },
                Crossed::Apart(next) => gap = next,
                Crossed::Unknown => return Crossing::Unknown,
            }
            crossed += 1;
        }
    }
    Crossing::Apart(gap)
}

/// The gap that an operation which kept this leaves after the operations of its place among these
/// entries, which are after it.
pub fn gap_behind<S: Placed + Gapped, T: Side<S::Op>>(
    op: &S::Op,
    undo: &S::Undo,
    entries: &[T::Entry],
) -> Crossing<S::Gap, S::Undo>
    ensures { LeavesGap S.object S.Bears S.Differ op.now undo.now
        (ops (items_on S.place_of T.item_of (S.place_of op.now) entries.now)) result }
{
    match S::gap_of(op, undo) {
        Left::Same => Crossing::Idle,
        Left::Apart(gap) => cross_all::<S, T>(gap, S::place(op), entries),
    }
}
