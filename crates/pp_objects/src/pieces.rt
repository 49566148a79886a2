//! The pieces of the state of an object that are printed.
ghost use Rattle.std.specs.Prelude.{◌≡◌, ◌<◌, ◌++◌, length, map, option_to_list, IfOk, OnOk};
ghost use Rattle.pp_objects.specs.Pieces.{alone, at_key, pieces_of, pieces_at};

use crate::states::{ObjectState, ObjectStates};
use pp_core::{OutOfMemory, Sequence};
use pp_kind_queue::Queue;
use pp_kind_stack::Pile;
use std::alloc::Global;

/// A printed piece of an object: a number, and its key if it is at one.
#[derive(Clone, Copy, Debug, PartialEq, Eq)]
pub struct Piece {
    pub key: Option<i64>,
    pub value: i128,
}

/// All that is shown of an object.
pub type Pieces = Sequence<Piece>;

fn numbers_at_keys(alloc: Global, pairs: &Sequence<(i64, i64)>) -> Result<Pieces, OutOfMemory>
    ensures { IfOk result (λ pieces. pieces ≡ map at_key pairs.now) }
{
    let mut pieces = Pieces::new(alloc);
    for pair in pairs.as_slice() {
        pieces.push(Piece {
            key: Some(pair.0),
            value: i128::from(pair.1),
        })?;
    }
    Ok(pieces)
}

fn numbers(alloc: Global, numbers: &Sequence<i64>) -> Result<Pieces, OutOfMemory>
    ensures { IfOk result (λ pieces. pieces ≡ map alone numbers.now) }
{
    let mut pieces = Pieces::new(alloc);
    for number in numbers.as_slice() {
        pieces.push(Piece {
            key: None,
            value: i128::from(*number),
        })?;
    }
    Ok(pieces)
}

/// Adds what was found, if there was something.
fn add_item(items: &mut Sequence<i64>, found: Option<i64>) -> Result<(), OutOfMemory>
    ensures { OnOk result (items.new ≡ items.old ++ option_to_list found) }
{
    match found {
        Some(item) => items.push(item),
        None => Ok(()),
    }
}

/// The items of a queue, from front to back.
#[tactic(auto, using(crate::proofs::Items::taken))]
fn queue_items(alloc: Global, queue: &Queue) -> Result<Sequence<i64>, OutOfMemory>
    ensures { IfOk result (λ items. items ≡ queue.now) }
{
    let mut items = Sequence::new(alloc);
    for place in 0..queue.len() {
        add_item(&mut items, queue.get(place))?;
    }
    Ok(items)
}

/// The items of a stack, from bottom to top.
#[tactic(auto, using(crate::proofs::Items::taken))]
fn stack_items(alloc: Global, pile: &Pile) -> Result<Sequence<i64>, OutOfMemory>
    ensures { IfOk result (λ items. items ≡ pile.now) }
{
    let mut items = Sequence::new(alloc);
    for place in 0..pile.len() {
        add_item(&mut items, pile.get(place))?;
    }
    Ok(items)
}

fn show_state(alloc: Global, state: &ObjectState) -> Result<Pieces, OutOfMemory>
    ensures { IfOk result (λ pieces. pieces ≡ pieces_of state.now) }
{
    match state {
        ObjectState::Memory(memory) => numbers_at_keys(alloc, &memory.pairs(alloc)?),
        ObjectState::KeySet(keys) => numbers(alloc, &keys.keys(alloc)?),
        ObjectState::KeyMap(values) => numbers_at_keys(alloc, &values.pairs(alloc)?),
        ObjectState::Counter(number) => {
            let mut pieces = Pieces::new(alloc);
            pieces.push(Piece {
                key: None,
                value: *number,
            })?;
            Ok(pieces)
        }
        ObjectState::Queue(queue) => numbers(alloc, &queue_items(alloc, queue)?),
        ObjectState::Stack(pile) => numbers(alloc, &stack_items(alloc, pile)?),
        ObjectState::PriorityQueue(bag) => numbers(alloc, &bag.values(alloc)?),
    }
}

/// The printed pieces of the state of an object. The only error is out of memory.
pub fn show(alloc: Global, states: &ObjectStates, object: u16) -> Result<Pieces, OutOfMemory>
    requires { object < length states.now }
    ensures { IfOk result (λ pieces. pieces ≡ pieces_at states.now object) }
{
    match states.get(object) {
        Some(state) => show_state(alloc, state),
        None => Ok(Pieces::new(alloc)),
    }
}
