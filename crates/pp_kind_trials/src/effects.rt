//! Operations that take effect and are taken back.
ghost use Rattle.std.specs.Prelude.{◌≡◌, ◌<◌};

use crate::calls::{HERE, adds, enqueues, exchanges, increases, inserts, pushes, puts, writes};
use pp_core::{Kinds, Ticks};
use pp_kind::{Applied, Spec};
use pp_kind_counter::CounterOp;
use pp_kind_map::MapOp;
use pp_kind_memory::MemOp;
use pp_kind_priority::PrioOp;
use pp_kind_queue::QueueOp;
use pp_kind_set::SetOp;
use pp_kind_stack::StackOp;
use pp_objects::{Act, ObjectStates, Objects, Op, Piece, show};
use std::alloc::Global;
use std::process::Abort;
use std::sync::ledger::{Blank, Ledger};
use std::test::Fail;

/// An operation, and what is shown of its object before it and after it.
pub struct Effect {
    pub op: Op,
    pub before: &'static [Piece],
    pub after: &'static [Piece],
}

/// Operations of each kind.
pub const EFFECTS: [Effect; 9] = [
    Effect {
        op: writes!(7, 5),
        before: &[],
        after: &[Piece {
            key: Some(7),
            value: 5,
        }],
    },
    Effect {
        op: exchanges!(7, 0, 5, true),
        before: &[],
        after: &[Piece {
            key: Some(7),
            value: 5,
        }],
    },
    Effect {
        op: exchanges!(7, 1, 5, false),
        before: &[],
        after: &[],
    },
    Effect {
        op: adds!(4, true),
        before: &[],
        after: &[Piece {
            key: None,
            value: 4,
        }],
    },
    Effect {
        op: puts!(1, 70, None),
        before: &[],
        after: &[Piece {
            key: Some(1),
            value: 70,
        }],
    },
    Effect {
        op: increases!(-2),
        before: &[Piece {
            key: None,
            value: 0,
        }],
        after: &[Piece {
            key: None,
            value: -2,
        }],
    },
    Effect {
        op: enqueues!(5),
        before: &[],
        after: &[Piece {
            key: None,
            value: 5,
        }],
    },
    Effect {
        op: pushes!(5),
        before: &[],
        after: &[Piece {
            key: None,
            value: 5,
        }],
    },
    Effect {
        op: inserts!(5),
        before: &[],
        after: &[Piece {
            key: None,
            value: 5,
        }],
    },
];

/// Tries what is shown of the object `HERE`.
fn try_shown(
    rt: &impl Abort,
    alloc: Global,
    states: &ObjectStates,
    pieces: &[Piece],
) -> Result<(), Fail> {
    assert!(rt; usize::from(HERE) < states.len());
    assert_eq!(rt; show(alloc, states, HERE)?.as_slice(), pieces);
    Ok(())
}

/// Applies an operation to objects of its kind, and takes it back.
pub fn try_effect<L: Ledger>(
    rt: &impl Abort,
    alloc: Global,
    effect: &Effect,
    blank: Blank,
) -> Result<(), Fail>
    requires name { blank.name ≡ L.name }
    requires parts { blank.parts ≡ L.parts }
    requires some { 0 < L.parts }
{
    let Effect { op, before, after } = effect;
    let mut ticks = Ticks::<L>::new(blank);
    let kinds = Kinds::from(vec![in alloc; op.act.kind(); 4]?);
    assert!(rt; Objects::fits(&kinds, op) && Objects::ranged(op), "{op:?}");
    let mut states = Objects::empty(alloc, &kinds)?;
    try_shown(rt, alloc, &states, before)?;
    match Objects::apply(&mut states, op, &mut ticks)? {
        Applied::Done(undo) => {
            try_shown(rt, alloc, &states, after)?;
            Objects::undo(&mut states, op, undo, &mut ticks)?;
            try_shown(rt, alloc, &states, before)
        }
        Applied::Differs => Err(Fail::from("another result")),
    }
}
