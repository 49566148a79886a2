//! The states of objects of any kind.
ghost use Rattle.std.specs.Prelude.{◌≡◌, length, slice_get};
ghost use Rattle.std.specs.Option.{option_copied};

use pp_kind_keyed::Cells;
use pp_kind_memory::Memory;
use pp_kind_priority::Bag;
use pp_kind_queue::Queue;
use pp_kind_set::Members;
use pp_kind_stack::Pile;
use std::marker::Model;

/// The state of one object.
#[derive(Drop)]
pub enum ObjectState {
    Memory(Memory),
    KeySet(Members),
    KeyMap(Cells),
    Counter(i128),
    Queue(Queue),
    Stack(Pile),
    PriorityQueue(Bag),
}

/// The states of the objects, in the catalog's order. Contracts see it as their list.
#[derive(Drop)]
pub struct ObjectStates {
    pub(crate) states: Vec<ObjectState>,
}

impl Model for ObjectStates {
    ghost use Rattle.std.specs.Prelude.{List};
    ghost use Rattle.pp_objects.specs.declared.states.ObjectState.{ObjectState};

    ghost Value = { List ObjectState };

    ghost use Rattle.pp_objects.specs.contracts.states.ObjectState as state;
    ghost use Rattle.std.specs.Coded.{coded_list};

    ghost coded = { coded_list state.the_row.coded };

    ghost view = { λ s. s.states.items };
}

impl ObjectStates {
    /// How many objects there are.
    pub fn len(&self) -> usize
        ensures { result ≡ length self.now }
    {
        self.states.len()
    }

    /// The state of the object at a place, if there is one.
    pub fn get(&self, object: u16) -> Option<&ObjectState>
        ensures { option_copied result ≡ slice_get self.now object }
    {
        self.states.get(usize::from(object))
    }
}
