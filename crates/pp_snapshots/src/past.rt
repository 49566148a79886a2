//! Operations that were applied, place by place, so that the last ones at a place can be taken back.
ghost use Rattle.std.specs.Prelude.{◌≡◌, ◌+◌, ◌<◌, ◌≤◌, ℕ, [], IfOk, IsTrue, OnOk, length};
ghost use Rattle.pp_kind.specs.declared.range.TheConstants.{MOST_OPERATIONS};
ghost use Rattle.pp_snapshots.specs.Past.{EndsWith, Follows, GoesBack, IsPast, IsSomePast, made_at};

use pp_core::{OutOfMemory, Ticks};
use pp_kind::{Applied, Placed};
use std::alloc::Global;
use std::sync::ledger::Ledger;

/// An operation that was applied, and what takes it back.
#[derive(Drop)]
pub struct Made<O: Copy, U: Drop> {
    pub op: O,
    pub undo: U,
}

/// What was applied at a place, in order.
#[derive(Drop)]
pub struct Done<O: Copy, U: Drop> {
    pub made: Vec<Made<O, U>>,
}

/// The objects after some operations, and these at each place. An operation at a place depends on
/// those there alone, so the last one of each place can be taken back at any time.
#[derive(Drop)]
pub struct Past<T: Drop, O: Copy, U: Drop> {
    pub alloc: Global,
    pub state: T,
    pub places: Vec<Done<O, U>>,
    /// How many operations there are.
    pub size: usize,
}

/// Nothing was applied. The only error is out of memory.
pub fn no_past<S: Placed>(
    alloc: Global,
    shape: &S::Shape,
) -> Result<Past<S::State, S::Op, S::Undo>, OutOfMemory>
    ensures past { IfOk result (λ v. IsPast S.object S.place_of shape.now v (λ q. [])) }
    ensures size { IfOk result (λ v. v.size ≡ 0) }
{
    let state = S::empty(alloc, shape)?;
    Ok(Past {
        alloc,
        state,
        places: Vec::new(alloc),
        size: 0,
    })
}

/// Makes an empty list for each place up to this one that has none. The only error is out of
/// memory.
fn make_places<O: Copy, U: Drop>(
    alloc: Global,
    places: &mut Vec<Done<O, U>>,
    place: usize,
) -> Result<(), OutOfMemory>
    ensures same { (q : ℕ) → made_at q places.new.items ≡ made_at q places.old.items }
    ensures there { OnOk result (place < length places.new.items) }
{
    'grow: while places.len() <= place {
        let none = Done {
            made: Vec::new(alloc),
        };
        places.push(none)?;
    }
    Ok(())
}

/// Applies an operation if it is legal, and else says false. The only error is out of
/// memory.
pub fn apply<S: Placed, L: Ledger>(
    past: &mut Past<S::State, S::Op, S::Undo>,
    op: &S::Op,
    ticks: &mut Ticks<L>,
) -> Result<bool, OutOfMemory>
    requires some { IsSomePast S.object S.place_of past.old }
    requires fits { IsTrue (S.object.fits (S.object.shape past.old.state) op.now) }
    requires ranged { IsTrue (S.object.ranged op.now) }
    requires few { past.old.size < MOST_OPERATIONS }
    ensures follows { IfOk result (λ good.
        Follows S.object S.place_of past.old op.now good past.new) }
    ensures cost { ticks.new ≡ ticks.old + 1 }
{
    match S::apply(&mut past.state, op, ticks)? {
        Applied::Differs => Ok(false),
        Applied::Done(undo) => {
            let place = usize::from(S::place(op));
            make_places(past.alloc, &mut past.places, place)?;
            past.places[place].made.push(Made { op: *op, undo })?;
            past.size += 1;
            Ok(true)
        }
    }
}

/// Takes the last operation at a place back. The only error is out of memory.
pub fn take_back<S: Placed, L: Ledger>(
    past: &mut Past<S::State, S::Op, S::Undo>,
    place: u16,
    ticks: &mut Ticks<L>,
) -> Result<(), OutOfMemory>
    requires ends { EndsWith S.object S.place_of past.old place }
    requires few { past.old.size ≤ MOST_OPERATIONS }
    ensures back { OnOk result (GoesBack S.object S.place_of past.old place past.new) }
    ensures size { OnOk result (past.new.size + 1 ≡ past.old.size) }
    ensures cost { ticks.new ≡ ticks.old + 1 }
{
    let Some(Made { op, undo }) = past.places[usize::from(place)].made.pop() else {
        unreachable!()
    };
    S::undo(&mut past.state, &op, undo, ticks)?;
    past.size -= 1;
    Ok(())
}
