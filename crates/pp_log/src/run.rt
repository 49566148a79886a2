//! Taking the operations of a place back, and applying them again.
ghost use Rattle.std.specs.Prelude.{◌≡◌, ◌≤◌, ◌+◌, OnOk, IfOk, IfSome, length};
ghost use Rattle.pp_log.specs.Parts.{items_on};
ghost use Rattle.pp_log.specs.Runs.{Costs, GoesOn, HasRun, IsStop, StopsFrom, answer_at};

use crate::sides::Side;
use pp_core::{Answer, OutOfMemory, Ticks};
use pp_kind::{Applied, Placed};
use std::sync::ledger::Ledger;

/// The point at which operations cannot be applied again.
#[derive(Clone, Copy)]
pub struct Stop {
    /// The position of the first entry whose recorded result the object does not return.
    pub at: usize,
    /// The result that it returns.
    pub answer: Answer,
}

/// Takes the operations of a place among these entries back, which were all applied, the last one
/// first. What takes the first of them back is at `from` there.
pub fn unwind<S: Placed, T: Side<S::Op>, L: Ledger>(
    entries: &[T::Entry],
    place: u16,
    undos: &mut Vec<S::Undo>,
    from: usize,
    state: &mut S::State,
    ticks: &mut Ticks<L>,
) -> Result<(), OutOfMemory>
    requires run { HasRun S.object from (items_on S.place_of T.item_of place entries.now)
        undos.old.items state.old }
    requires all { length undos.old.items
        ≡ from + length (items_on S.place_of T.item_of place entries.now) }
    ensures run { OnOk result (GoesOn S.object from
        (items_on S.place_of T.item_of place entries.now) undos.old.items state.old
        undos.new.items state.new) }
    ensures len { OnOk result (length undos.new.items ≡ from) }
    ensures cost { OnOk result (ticks.new + from ≡ ticks.old + length undos.old.items) }
    ensures rises { ticks.old ≤ ticks.new }
    ensures bound { ticks.new + from ≤ ticks.old + length undos.old.items }
{
    let mut left = entries.len();
    while undos.len() > from {
        left -= 1;
        let op = T::op(&entries[left]);
        if S::place(op) == place {
            let Some(undo) = undos.pop() else {
                unreachable!()
            };
            S::undo(state, op, undo, ticks)?;
        }
    }
    Ok(())
}

/// Applies the operations of a place among these entries, of which none is applied, until one
/// differs.
pub fn rewind<S: Placed, T: Side<S::Op>, L: Ledger>(
    entries: &[T::Entry],
    place: u16,
    undos: &mut Vec<S::Undo>,
    state: &mut S::State,
    ticks: &mut Ticks<L>,
) -> Result<Option<Stop>, OutOfMemory>
    requires { HasRun S.object (length undos.old.items)
        (items_on S.place_of T.item_of place entries.now) undos.old.items state.old }
    ensures run { OnOk result (GoesOn S.object (length undos.old.items)
        (items_on S.place_of T.item_of place entries.now) undos.old.items state.old
        undos.new.items state.new) }
    ensures longer { length undos.old.items ≤ length undos.new.items }
    ensures stops { IfOk result (λ stop. StopsFrom S.object (length undos.old.items)
        (items_on S.place_of T.item_of place entries.now) undos.new.items state.new
        (answer_at stop)) }
    ensures at { IfOk result (λ stop. IfSome stop (λ s. IsStop S.place_of T.item_of place
        entries.now s.at (length undos.old.items) undos.new.items)) }
    ensures cost { IfOk result (λ stop. Costs (answer_at stop) ticks.old (length undos.old.items)
        (length undos.new.items) ticks.new) }
    ensures rises { ticks.old ≤ ticks.new }
    ensures bound { ticks.new
        ≤ ticks.old + length (items_on S.place_of T.item_of place entries.now) }
{
    for at in 0..entries.len() {
        let op = T::op(&entries[at]);
        if S::place(op) == place {
            match S::apply(state, op, ticks)? {
                Applied::Done(undo) => {
                    let Ok(()) = undos.push(undo) else {
                        return Err(OutOfMemory);
                    };
                }
                Applied::Differs => {
                    let answer = S::gives(state, op);
                    return Ok(Some(Stop { at, answer }));
                }
            }
        }
    }
    Ok(None)
}
