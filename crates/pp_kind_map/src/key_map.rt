//! The calls of a map.
ghost use Rattle.std.specs.Prelude.{◌≡◌, OnOk, OnErr};
ghost use Rattle.pp_kind_map.specs.Operations.{with_value};
ghost use Rattle.pp_kind_map.specs.KeyMap.{key_map};
ghost use Rattle.pp_kind_map.specs.laws.Lawful.{key_map_lawful};

use crate::contexts::before_pair;
use crate::movers::may_swap;
use crate::op::MapOp;
use pp_core::{Answer, Ops, OutOfMemory, Ticks};
use pp_kind::{Applied, Context, Spec, answer_of};
use pp_kind_keyed::Cells;
use std::alloc::Global;
use std::sync::ledger::Ledger;

/// Maps. An operation carries what it takes to undo it: the value that it found.
#[derive(Drop)]
pub struct KeyMap;

/// Makes this the value at a key, or leaves the key without one. The only error is out of memory.
pub fn set_value(values: &mut Cells, key: i64, value: Option<i64>) -> Result<(), OutOfMemory>
    ensures ok { OnOk result (values.new ≡ with_value values.old key value) }
    ensures err { OnErr result (values.new ≡ values.old) }
{
    match value {
        Some(number) => values.insert(key, number)?,
        None => values.remove(key),
    };
    Ok(())
}

impl Spec for KeyMap {
    type Shape = ();

    type State = Cells;

    type Op = MapOp;

    type Undo = ();

    ghost object = { key_map };

    fn empty(alloc: Global, _shape: &()) -> Result<Cells, OutOfMemory> {
        Ok(Cells::new(alloc))
    }

    fn fits(_shape: &(), _op: &MapOp) -> bool {
        true
    }

    fn ranged(op: &MapOp) -> bool {
        op.ranged()
    }

    fn recorded(op: &MapOp) -> Answer {
        op.recorded()
    }

    fn gives(state: &Cells, op: &MapOp) -> Answer {
        answer_of(state.get(op.key()))
    }

    fn legal(state: &Cells, op: &MapOp) -> bool {
        state.get(op.key()) == op.found()
    }

    fn apply<L: Ledger>(
        state: &mut Cells,
        op: &MapOp,
        ticks: &mut Ticks<L>,
    ) -> Result<Applied<()>, OutOfMemory> {
        ticks.tick();
        let done = match *op {
            MapOp::Put { key, value, was } => state.replace(key, was, value)?,
            MapOp::Get { key: _, found: _ } => Self::legal(state, op),
            MapOp::Remove { key, was: _ } => {
                let legal = Self::legal(state, op);
                if legal {
                    state.remove(key);
                }
                legal
            }
        };
        if done {
            Ok(Applied::Done(()))
        } else {
            Ok(Applied::Differs)
        }
    }

    fn undo<L: Ledger>(
        state: &mut Cells,
        op: &MapOp,
        _undo: (),
        ticks: &mut Ticks<L>,
    ) -> Result<(), OutOfMemory> {
        ticks.tick();
        match *op {
            MapOp::Put { key, value: _, was } => set_value(state, key, was),
            MapOp::Get { key: _, found: _ } => Ok(()),
            MapOp::Remove { key, was } => set_value(state, key, was),
        }
    }

    #[inline(always)]
    fn swaps(a: &MapOp, b: &MapOp) -> bool {
        may_swap(a, b)
    }

    fn context(alloc: Global, a: &MapOp, b: &MapOp) -> Result<Option<Context<MapOp>>, OutOfMemory> {
        if may_swap(a, b) {
            return Ok(None);
        }
        let before = before_pair(alloc, a)?;
        let after = Ops::new(alloc);
        Ok(Some(Context { before, after }))
    }

    ghost lawful = { key_map_lawful };
}
