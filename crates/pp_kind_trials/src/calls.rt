//! Short forms of the operations on the object `HERE`, for tables that are constants.

/// The object of the operations.
pub const HERE: u16 = 3;

/// Another object.
pub const ELSEWHERE: u16 = 4;

/// A read of a memory: the address, and the number read.
macro_rules! reads {
    ($at:expr, $value:expr) => {
        Op { object: HERE, act: Act::Memory(MemOp::Read { at: $at, value: $value }) }
    };
}

/// A write to a memory: the address, and the number.
macro_rules! writes {
    ($at:expr, $value:expr) => {
        Op { object: HERE, act: Act::Memory(MemOp::Write { at: $at, value: $value }) }
    };
}

/// A compare-and-swap: the address, the number expected, the new number, and whether it was done.
macro_rules! exchanges {
    ($at:expr, $expected:expr, $new:expr, $done:expr) => {
        Op {
            object: HERE,
            act: Act::Memory(MemOp::Cas {
                at: $at,
                expected: $expected,
                new: $new,
                done: $done,
            }),
        }
    };
}

/// An addition to a set: the key, and whether it changed the set.
macro_rules! adds {
    ($key:expr, $changed:expr) => {
        Op { object: HERE, act: Act::KeySet(SetOp::Add { key: $key, changed: $changed }) }
    };
}

/// A removal from a set: the key, and whether it changed the set.
macro_rules! removes {
    ($key:expr, $changed:expr) => {
        Op { object: HERE, act: Act::KeySet(SetOp::Remove { key: $key, changed: $changed }) }
    };
}

/// A question to a set: the key, and whether it is in.
macro_rules! contains {
    ($key:expr, $present:expr) => {
        Op { object: HERE, act: Act::KeySet(SetOp::Contains { key: $key, present: $present }) }
    };
}

/// A put into a map: the key, the value, and what was there.
macro_rules! puts {
    ($key:expr, $value:expr, $was:expr) => {
        Op { object: HERE, act: Act::KeyMap(MapOp::Put { key: $key, value: $value, was: $was }) }
    };
}

/// A get from a map: the key, and what was found.
macro_rules! gets {
    ($key:expr, $found:expr) => {
        Op { object: HERE, act: Act::KeyMap(MapOp::Get { key: $key, found: $found }) }
    };
}

/// A removal from a map: the key, and what was there.
macro_rules! takes {
    ($key:expr, $was:expr) => {
        Op { object: HERE, act: Act::KeyMap(MapOp::Remove { key: $key, was: $was }) }
    };
}

/// An addition to a counter: the number added.
macro_rules! increases {
    ($by:expr) => {
        Op { object: HERE, act: Act::Counter(CounterOp::Add { by: $by }) }
    };
}

/// A reading of a counter: the number read.
macro_rules! counts {
    ($value:expr) => {
        Op { object: HERE, act: Act::Counter(CounterOp::Get { value: $value }) }
    };
}

/// An addition to a counter that reads it before: the number added, and the number read.
macro_rules! fetches {
    ($by:expr, $was:expr) => {
        Op { object: HERE, act: Act::Counter(CounterOp::FetchAdd { by: $by, was: $was }) }
    };
}

/// An enqueue: the item.
macro_rules! enqueues {
    ($value:expr) => {
        Op { object: HERE, act: Act::Queue(QueueOp::Enq { value: $value }) }
    };
}

/// A dequeue: the item taken, if there was one.
macro_rules! dequeues {
    ($value:expr) => {
        Op { object: HERE, act: Act::Queue(QueueOp::Deq { value: $value }) }
    };
}

/// A push: the item.
macro_rules! pushes {
    ($value:expr) => {
        Op { object: HERE, act: Act::Stack(StackOp::Push { value: $value }) }
    };
}

/// A pop: the item taken, if there was one.
macro_rules! pops {
    ($value:expr) => {
        Op { object: HERE, act: Act::Stack(StackOp::Pop { value: $value }) }
    };
}

/// An insertion into a priority queue: the item.
macro_rules! inserts {
    ($value:expr) => {
        Op { object: HERE, act: Act::PriorityQueue(PrioOp::Insert { value: $value }) }
    };
}

/// A removal from a priority queue: the item taken, if there was one.
macro_rules! extracts {
    ($value:expr) => {
        Op { object: HERE, act: Act::PriorityQueue(PrioOp::Take { value: $value }) }
    };
}

/// A question for the least item of a priority queue: the item, if there is one.
macro_rules! least {
    ($value:expr) => {
        Op { object: HERE, act: Act::PriorityQueue(PrioOp::Least { value: $value }) }
    };
}

pub(crate) use adds;
pub(crate) use contains;
pub(crate) use counts;
pub(crate) use dequeues;
pub(crate) use enqueues;
pub(crate) use exchanges;
pub(crate) use extracts;
pub(crate) use fetches;
pub(crate) use gets;
pub(crate) use increases;
pub(crate) use inserts;
pub(crate) use least;
pub(crate) use pops;
pub(crate) use pushes;
pub(crate) use puts;
pub(crate) use reads;
pub(crate) use removes;
pub(crate) use takes;
pub(crate) use writes;
