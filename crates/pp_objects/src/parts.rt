//! The parts of operations, and which operations represent others.
ghost use Rattle.std.specs.Prelude.{◌≡◌, IsTrue};
ghost use Rattle.pp_kind.specs.Parts.{IsGate, StandsFor};
ghost use Rattle.pp_objects.specs.Objects.{objects};
ghost use Rattle.pp_objects.specs.Parts.{act_label, both_add, label_of, part_of};
ghost use Rattle.pp_objects.specs.One.{in_clique, one};
ghost use Rattle.pp_objects.specs.laws.Cliques.{clique_swaps};
ghost use Rattle.pp_objects.specs.laws.Parts.{other_parts_swap};

use crate::act::{Act, Op};
use crate::objects::Objects;
use pp_kind::{Gate, Label, Part, Parted};
use pp_kind_counter::CounterOp;
use pp_kind_map::MapOp;
use pp_kind_memory::MemOp;

/// Whether both add to a counter, and the first adds another number than 0.
fn both_add(a: &Act, b: &Act) -> bool
    ensures { result ≡ both_add a.now b.now }
{
    match (a, b) {
        (Act::Counter(CounterOp::Add { by }), Act::Counter(CounterOp::Add { by: _ })) => *by != 0,
        _ => false,
    }
}

/// Whether two operations of a memory are equal.
fn is_same_on_memory(a: &MemOp, b: &MemOp) -> bool
    ensures { IsTrue result → a.now ≡ b.now }
{
    match (a, b) {
        (
            MemOp::Read { at, value },
            MemOp::Read {
                at: that_at,
                value: that_value,
            },
        ) => at == that_at && value == that_value,
        (
            MemOp::Write { at, value },
            MemOp::Write {
                at: that_at,
                value: that_value,
            },
        ) => at == that_at && value == that_value,
        (
            MemOp::Cas {
                at,
                expected,
                new,
                done,
            },
            MemOp::Cas {
                at: that_at,
                expected: that_expected,
                new: that_new,
                done: that_done,
            },
        ) => at == that_at && expected == that_expected && new == that_new && done == that_done,
        _ => false,
    }
}

/// Whether two operations of a map are equal.
fn is_same_on_map(a: &MapOp, b: &MapOp) -> bool
    ensures { IsTrue result → a.now ≡ b.now }
{
    match (a, b) {
        (
            MapOp::Put { key, value, was },
            MapOp::Put {
                key: that_key,
                value: that_value,
                was: that_was,
            },
        ) => key == that_key && value == that_value && was == that_was,
        (
            MapOp::Get { key, found },
            MapOp::Get {
                key: that_key,
                found: that_found,
            },
        ) => key == that_key && found == that_found,
        (
            MapOp::Remove { key, was },
            MapOp::Remove {
                key: that_key,
                was: that_was,
            },
        ) => key == that_key && was == that_was,
        _ => false,
    }
}

/// Whether they are equal.
fn is_same(a: &Act, b: &Act) -> bool
    ensures { IsTrue result → a.now ≡ b.now }
{
    match (a, b) {
        (Act::Memory(a), Act::Memory(b)) => is_same_on_memory(a, b),
        (Act::KeySet(a), Act::KeySet(b)) => a == b,
        (Act::KeyMap(a), Act::KeyMap(b)) => is_same_on_map(a, b),
        (Act::Counter(a), Act::Counter(b)) => a == b,
        (Act::Queue(a), Act::Queue(b)) => a == b,
        (Act::Stack(a), Act::Stack(b)) => a == b,
        (Act::PriorityQueue(a), Act::PriorityQueue(b)) => a == b,
        _ => false,
    }
}

/// Whether the first is known to represent the second. An addition to a counter represents all
/// others there, unless it adds 0. Every other operation represents its equals.
fn may_stand_for(a: &Op, b: &Op) -> bool
    ensures { IsTrue result → StandsFor objects a.now b.now }
{
    if a.object != b.object {
        return false;
    }
    if both_add(&a.act, &b.act) {
        return true;
    }
    is_same(&a.act, &b.act)
}

/// Whether an act is in the clique of its kind.
#[inline]
fn in_clique(act: &Act) -> bool
    ensures { result ≡ in_clique act.now }
{
    match act {
        Act::Memory(op) => op.in_clique(),
        Act::PriorityQueue(op) => op.in_clique(),
        Act::KeySet(_) => false,
        Act::KeyMap(_) => false,
        Act::Counter(_) => false,
        Act::Queue(_) => false,
        Act::Stack(_) => false,
    }
}

/// The form of an act, among those that the gates of its kind know, and the number that they read.
#[inline]
fn label(act: &Act) -> Label
    ensures { result ≡ act_label act.now }
{
    match act {
        Act::Memory(op) => Label {
            form: pp_kind_memory::gate_form(op),
            number: pp_kind_memory::number(op),
        },
        Act::KeySet(op) => Label {
            form: pp_kind_set::form(op),
            number: 0,
        },
        Act::KeyMap(op) => Label {
            form: pp_kind_map::form(op),
            number: pp_kind_map::number(op),
        },
        Act::Counter(op) => Label {
            form: pp_kind_counter::gate_form(op),
            number: pp_kind_counter::number(op),
        },
        Act::Queue(op) => Label {
            form: pp_kind_queue::form(op),
            number: pp_kind_queue::number(op),
        },
        Act::Stack(op) => Label {
            form: pp_kind_stack::form(op),
            number: pp_kind_stack::number(op),
        },
        Act::PriorityQueue(op) => Label {
            form: pp_kind_priority::form(op),
            number: pp_kind_priority::number(op),
        },
    }
}

/// The acts of a form that are known to swap with this one after them, by their numbers. Those of
/// other kinds always do.
#[inline]
fn gate(form: usize, act: &Act) -> Gate
    ensures { IsGate one act_label form act.now result }
{
    match act {
        Act::Memory(op) => pp_kind_memory::gate(form, op),
        Act::KeySet(op) => pp_kind_set::gate(form, op),
        Act::KeyMap(op) => pp_kind_map::gate(form, op),
        Act::Counter(op) => pp_kind_counter::gate(form, op),
        Act::Queue(op) => pp_kind_queue::gate(form, op),
        Act::Stack(op) => pp_kind_stack::gate(form, op),
        Act::PriorityQueue(op) => pp_kind_priority::gate(form, op),
    }
}

impl Parted for Objects {
    ghost part_of = { part_of };

    ghost label_of = { label_of };

    #[inline]
    fn part(op: &Op) -> Part {
        Part {
            object: op.object,
            key: op.act.key(),
        }
    }

    #[inline]
    fn label(op: &Op) -> Label {
        label(&op.act)
    }

    #[inline]
    fn gate(form: usize, op: &Op) -> Gate {
        gate(form, &op.act)
    }

    fn stands_for(a: &Op, b: &Op) -> bool {
        may_stand_for(a, b)
    }

    #[inline]
    fn in_clique(op: &Op) -> bool {
        in_clique(&op.act)
    }

    ghost parted = { other_parts_swap };

    ghost clique = { clique_swaps };
}
