//! The pairs of operations that are tried.
use crate::calls::{
    HERE, adds, contains, counts, dequeues, enqueues, exchanges, extracts, fetches, gets,
    increases, inserts, least, pops, pushes, puts, reads, removes, takes, writes,
};
use crate::pairs::{Pair, stay, swap};
use pp_kind_counter::CounterOp;
use pp_kind_map::MapOp;
use pp_kind_memory::MemOp;
use pp_kind_priority::PrioOp;
use pp_kind_queue::QueueOp;
use pp_kind_set::SetOp;
use pp_kind_stack::StackOp;
use pp_objects::{Act, Op};

/// The greatest number of a record.
const MOST: i64 = 1_000_000_000_000_000_000;

/// Each pair of a read, a write and a compare-and-swap with either result at one address, and pairs
/// at two.
const MEMORY: [Pair; 41] = [
    // a read
    swap!(reads!(0, 5), reads!(0, 5)),
    swap!(reads!(0, 5), writes!(0, 5)),
    stay!(reads!(0, 5), writes!(0, 6), [writes!(0, 5)], []),
    swap!(reads!(0, 5), exchanges!(0, 6, 7, true)),
    swap!(reads!(0, 5), exchanges!(0, 5, 5, true)),
    stay!(reads!(0, 5), exchanges!(0, 5, 6, true), [writes!(0, 5)], []),
    swap!(reads!(0, 5), exchanges!(0, 6, 7, false)),
    // a write
    swap!(writes!(0, 5), reads!(0, 6)),
    stay!(writes!(0, 5), reads!(0, 5), [writes!(0, 0)], []),
    stay!(writes!(0, 0), reads!(0, 0), [writes!(0, 1)], []),
    swap!(writes!(0, 5), writes!(0, 5)),
    stay!(writes!(0, 5), writes!(0, 6), [], [reads!(0, 6)]),
    swap!(writes!(0, 5), exchanges!(0, 6, 7, true)),
    stay!(
        writes!(0, 5),
        exchanges!(0, 5, 6, true),
        [writes!(0, 0)],
        []
    ),
    stay!(
        writes!(0, 0),
        exchanges!(0, 0, 6, true),
        [writes!(0, 1)],
        []
    ),
    swap!(writes!(0, 5), exchanges!(0, 5, 6, false)),
    stay!(
        writes!(0, 5),
        exchanges!(0, 6, 7, false),
        [writes!(0, 6)],
        []
    ),
    // a compare-and-swap that is done
    swap!(exchanges!(0, 5, 6, true), reads!(0, 7)),
    swap!(exchanges!(0, 5, 5, true), reads!(0, 5)),
    stay!(exchanges!(0, 5, 6, true), reads!(0, 6), [writes!(0, 5)], []),
    swap!(exchanges!(0, 5, 5, true), writes!(0, 5)),
    stay!(
        exchanges!(0, 5, 6, true),
        writes!(0, 6),
        [writes!(0, 5)],
        [reads!(0, 6)]
    ),
    stay!(
        exchanges!(0, 5, 5, true),
        writes!(0, 6),
        [writes!(0, 5)],
        [reads!(0, 6)]
    ),
    swap!(exchanges!(0, 5, 6, true), exchanges!(0, 7, 8, true)),
    swap!(exchanges!(0, 5, 5, true), exchanges!(0, 5, 5, true)),
    stay!(
        exchanges!(0, 5, 6, true),
        exchanges!(0, 6, 7, true),
        [writes!(0, 5)],
        []
    ),
    swap!(exchanges!(0, 5, 6, true), exchanges!(0, 7, 8, false)),
    swap!(exchanges!(0, 5, 6, true), exchanges!(0, 6, 7, false)),
    swap!(exchanges!(0, 5, 5, true), exchanges!(0, 5, 7, false)),
    stay!(
        exchanges!(0, 5, 6, true),
        exchanges!(0, 5, 7, false),
        [writes!(0, 5)],
        []
    ),
    // a compare-and-swap that is not done
    swap!(exchanges!(0, 5, 6, false), reads!(0, 5)),
    swap!(exchanges!(0, 5, 6, false), writes!(0, 7)),
    stay!(
        exchanges!(0, 5, 6, false),
        writes!(0, 5),
        [writes!(0, 0)],
        []
    ),
    stay!(
        exchanges!(0, 0, 6, false),
        writes!(0, 0),
        [writes!(0, 1)],
        []
    ),
    swap!(exchanges!(0, 5, 6, false), exchanges!(0, 7, 8, true)),
    swap!(exchanges!(0, 5, 6, false), exchanges!(0, 5, 5, true)),
    stay!(
        exchanges!(0, 5, 6, false),
        exchanges!(0, 7, 5, true),
        [writes!(0, 7)],
        []
    ),
    swap!(exchanges!(0, 5, 6, false), exchanges!(0, 5, 7, false)),
    // at two addresses
    swap!(writes!(0, 5), reads!(1, 5)),
    swap!(writes!(0, 5), writes!(1, 6)),
    swap!(exchanges!(0, 5, 6, true), exchanges!(1, 6, 7, true)),
];

/// Each pair of two of the six forms at one key, which are the three calls with either result, and
/// a pair at two keys.
const KEY_SET: [Pair; 37] = [
    // an addition of a key that was not in
    swap!(adds!(4, true), adds!(4, true)),
    stay!(adds!(4, true), adds!(4, false), [], []),
    stay!(adds!(4, true), removes!(4, true), [], []),
    swap!(adds!(4, true), removes!(4, false)),
    stay!(adds!(4, true), contains!(4, true), [], []),
    swap!(adds!(4, true), contains!(4, false)),
    // an addition of a key that was in
    swap!(adds!(4, false), adds!(4, true)),
    swap!(adds!(4, false), adds!(4, false)),
    stay!(adds!(4, false), removes!(4, true), [adds!(4, true)], []),
    swap!(adds!(4, false), removes!(4, false)),
    swap!(adds!(4, false), contains!(4, true)),
    swap!(adds!(4, false), contains!(4, false)),
    // a removal of a key that was in
    stay!(removes!(4, true), adds!(4, true), [adds!(4, true)], []),
    swap!(removes!(4, true), adds!(4, false)),
    swap!(removes!(4, true), removes!(4, true)),
    stay!(removes!(4, true), removes!(4, false), [adds!(4, true)], []),
    swap!(removes!(4, true), contains!(4, true)),
    stay!(removes!(4, true), contains!(4, false), [adds!(4, true)], []),
    // a removal of a key that was not in
    stay!(removes!(4, false), adds!(4, true), [], []),
    swap!(removes!(4, false), adds!(4, false)),
    swap!(removes!(4, false), removes!(4, true)),
    swap!(removes!(4, false), removes!(4, false)),
    swap!(removes!(4, false), contains!(4, true)),
    swap!(removes!(4, false), contains!(4, false)),
    // a question for a key that is in
    swap!(contains!(4, true), adds!(4, true)),
    swap!(contains!(4, true), adds!(4, false)),
    stay!(contains!(4, true), removes!(4, true), [adds!(4, true)], []),
    swap!(contains!(4, true), removes!(4, false)),
    swap!(contains!(4, true), contains!(4, true)),
    swap!(contains!(4, true), contains!(4, false)),
    // a question for a key that is not in
    stay!(contains!(4, false), adds!(4, true), [], []),
    swap!(contains!(4, false), adds!(4, false)),
    swap!(contains!(4, false), removes!(4, true)),
    swap!(contains!(4, false), removes!(4, false)),
    swap!(contains!(4, false), contains!(4, true)),
    swap!(contains!(4, false), contains!(4, false)),
    // at two keys
    swap!(adds!(4, true), contains!(5, true)),
];

/// Each pair of two of the six forms at one key, which are the three calls on a key that is absent
/// or present, and a pair at two keys.
const KEY_MAP: [Pair; 49] = [
    // a put on an absent key
    swap!(puts!(1, 5, None), puts!(1, 6, None)),
    swap!(puts!(1, 5, None), puts!(1, 7, Some(6))),
    stay!(puts!(1, 5, None), puts!(1, 7, Some(5)), [], []),
    swap!(puts!(1, 5, None), gets!(1, None)),
    swap!(puts!(1, 5, None), gets!(1, Some(6))),
    stay!(puts!(1, 5, None), gets!(1, Some(5)), [], []),
    swap!(puts!(1, 5, None), takes!(1, None)),
    swap!(puts!(1, 5, None), takes!(1, Some(6))),
    stay!(puts!(1, 5, None), takes!(1, Some(5)), [], []),
    // a put on a present key
    swap!(puts!(1, 6, Some(5)), puts!(1, 7, None)),
    swap!(puts!(1, 6, Some(5)), puts!(1, 8, Some(7))),
    swap!(puts!(1, 6, Some(6)), puts!(1, 6, Some(6))),
    stay!(
        puts!(1, 6, Some(5)),
        puts!(1, 7, Some(6)),
        [puts!(1, 5, None)],
        []
    ),
    stay!(
        puts!(1, 6, Some(6)),
        puts!(1, 7, Some(6)),
        [puts!(1, 6, None)],
        []
    ),
    swap!(puts!(1, 6, Some(5)), gets!(1, None)),
    swap!(puts!(1, 6, Some(5)), gets!(1, Some(7))),
    swap!(puts!(1, 6, Some(6)), gets!(1, Some(6))),
    stay!(
        puts!(1, 6, Some(5)),
        gets!(1, Some(6)),
        [puts!(1, 5, None)],
        []
    ),
    swap!(puts!(1, 6, Some(5)), takes!(1, None)),
    swap!(puts!(1, 6, Some(5)), takes!(1, Some(7))),
    stay!(
        puts!(1, 6, Some(5)),
        takes!(1, Some(6)),
        [puts!(1, 5, None)],
        []
    ),
    // a get that finds nothing
    stay!(gets!(1, None), puts!(1, 5, None), [], []),
    swap!(gets!(1, None), puts!(1, 6, Some(5))),
    swap!(gets!(1, None), gets!(1, None)),
    swap!(gets!(1, None), gets!(1, Some(5))),
    swap!(gets!(1, None), takes!(1, None)),
    swap!(gets!(1, None), takes!(1, Some(5))),
    // a get that finds a value
    swap!(gets!(1, Some(5)), puts!(1, 6, None)),
    swap!(gets!(1, Some(5)), puts!(1, 7, Some(6))),
    swap!(gets!(1, Some(5)), puts!(1, 5, Some(5))),
    stay!(
        gets!(1, Some(5)),
        puts!(1, 6, Some(5)),
        [puts!(1, 5, None)],
        []
    ),
    swap!(gets!(1, Some(5)), gets!(1, None)),
    swap!(gets!(1, Some(5)), gets!(1, Some(5))),
    swap!(gets!(1, Some(5)), takes!(1, None)),
    swap!(gets!(1, Some(5)), takes!(1, Some(6))),
    stay!(
        gets!(1, Some(5)),
        takes!(1, Some(5)),
        [puts!(1, 5, None)],
        []
    ),
    // a removal of an absent key
    stay!(takes!(1, None), puts!(1, 5, None), [], []),
    swap!(takes!(1, None), puts!(1, 6, Some(5))),
    swap!(takes!(1, None), gets!(1, None)),
    swap!(takes!(1, None), gets!(1, Some(5))),
    swap!(takes!(1, None), takes!(1, None)),
    swap!(takes!(1, None), takes!(1, Some(5))),
    // a removal of a present key
    stay!(
        takes!(1, Some(5)),
        puts!(1, 6, None),
        [puts!(1, 5, None)],
        []
    ),
    swap!(takes!(1, Some(5)), puts!(1, 6, Some(5))),
    stay!(takes!(1, Some(5)), gets!(1, None), [puts!(1, 5, None)], []),
    swap!(takes!(1, Some(5)), gets!(1, Some(5))),
    stay!(takes!(1, Some(5)), takes!(1, None), [puts!(1, 5, None)], []),
    swap!(takes!(1, Some(5)), takes!(1, Some(5))),
    // at two keys
    swap!(puts!(1, 5, None), gets!(2, Some(5))),
];

/// Each pair of an addition, a reading and an addition that reads.
const COUNTER: [Pair; 26] = [
    // an addition
    swap!(increases!(2), increases!(3)),
    swap!(increases!(0), counts!(5)),
    stay!(increases!(2), counts!(5), [increases!(3)], []),
    stay!(increases!(5), counts!(5), [], []),
    stay!(
        increases!(-1),
        counts!(MOST),
        [increases!(MOST), increases!(1)],
        []
    ),
    stay!(
        increases!(MOST),
        counts!(-MOST),
        [increases!(-MOST), increases!(-MOST)],
        []
    ),
    swap!(increases!(0), fetches!(3, 5)),
    stay!(increases!(2), fetches!(3, 5), [increases!(3)], []),
    stay!(
        increases!(1),
        fetches!(3, -MOST),
        [increases!(-MOST), increases!(-1)],
        []
    ),
    // a reading
    swap!(counts!(5), increases!(0)),
    stay!(counts!(5), increases!(2), [increases!(5)], []),
    stay!(counts!(0), increases!(2), [], []),
    swap!(counts!(5), counts!(5)),
    swap!(counts!(5), counts!(6)),
    swap!(counts!(5), fetches!(2, 6)),
    swap!(counts!(5), fetches!(0, 5)),
    stay!(counts!(5), fetches!(2, 5), [increases!(5)], []),
    // an addition that reads
    swap!(fetches!(2, 5), increases!(0)),
    stay!(fetches!(2, 5), increases!(3), [increases!(5)], []),
    swap!(fetches!(2, 5), counts!(6)),
    swap!(fetches!(0, 5), counts!(5)),
    stay!(fetches!(2, 5), counts!(7), [increases!(5)], []),
    swap!(fetches!(2, 5), fetches!(3, 6)),
    swap!(fetches!(0, 5), fetches!(0, 5)),
    stay!(fetches!(2, 5), fetches!(3, 7), [increases!(5)], []),
    stay!(fetches!(2, 0), fetches!(-2, 2), [], []),
];

/// Each pair of an enqueue, a dequeue of an item and a dequeue that finds none.
const QUEUE: [Pair; 12] = [
    // an enqueue
    swap!(enqueues!(5), enqueues!(5)),
    stay!(enqueues!(5), enqueues!(6), [], [dequeues!(Some(5))]),
    swap!(enqueues!(5), dequeues!(Some(6))),
    stay!(enqueues!(5), dequeues!(Some(5)), [], []),
    swap!(enqueues!(5), dequeues!(None)),
    // a dequeue of an item
    swap!(dequeues!(Some(5)), enqueues!(5)),
    swap!(dequeues!(Some(5)), dequeues!(Some(5))),
    stay!(
        dequeues!(Some(5)),
        dequeues!(Some(6)),
        [enqueues!(5), enqueues!(6)],
        []
    ),
    stay!(dequeues!(Some(5)), dequeues!(None), [enqueues!(5)], []),
    // a dequeue that finds none
    stay!(dequeues!(None), enqueues!(5), [], []),
    swap!(dequeues!(None), dequeues!(Some(5))),
    swap!(dequeues!(None), dequeues!(None)),
];

/// Each pair of a push, a pop of an item and a pop that finds none.
const STACK: [Pair; 13] = [
    // a push
    swap!(pushes!(5), pushes!(5)),
    stay!(pushes!(5), pushes!(6), [], [pops!(Some(6))]),
    swap!(pushes!(5), pops!(Some(6))),
    stay!(pushes!(5), pops!(Some(5)), [], []),
    swap!(pushes!(5), pops!(None)),
    // a pop of an item
    swap!(pops!(Some(5)), pushes!(5)),
    stay!(pops!(Some(5)), pushes!(6), [pushes!(5)], []),
    swap!(pops!(Some(5)), pops!(Some(5))),
    stay!(pops!(Some(5)), pops!(Some(6)), [pushes!(6), pushes!(5)], []),
    stay!(pops!(Some(5)), pops!(None), [pushes!(5)], []),
    // a pop that finds none
    stay!(pops!(None), pushes!(5), [], []),
    swap!(pops!(None), pops!(Some(5))),
    swap!(pops!(None), pops!(None)),
];

/// Each pair of an insertion, a removal, a question that finds an item, and either that finds none.
const PRIORITY_QUEUE: [Pair; 34] = [
    // an insertion
    swap!(inserts!(5), inserts!(5)),
    swap!(inserts!(6), inserts!(5)),
    swap!(inserts!(5), extracts!(Some(6))),
    stay!(inserts!(5), extracts!(Some(5)), [], []),
    swap!(inserts!(5), least!(Some(6))),
    stay!(inserts!(5), least!(Some(5)), [], []),
    swap!(inserts!(5), extracts!(None)),
    swap!(inserts!(5), least!(None)),
    // a removal
    swap!(extracts!(Some(5)), inserts!(5)),
    swap!(extracts!(Some(5)), inserts!(6)),
    stay!(extracts!(Some(5)), inserts!(4), [inserts!(5)], []),
    swap!(extracts!(Some(5)), extracts!(Some(5))),
    swap!(extracts!(Some(5)), extracts!(Some(4))),
    stay!(
        extracts!(Some(5)),
        extracts!(Some(6)),
        [inserts!(5), inserts!(6)],
        []
    ),
    swap!(extracts!(Some(5)), least!(Some(5))),
    swap!(extracts!(Some(5)), least!(Some(4))),
    stay!(
        extracts!(Some(5)),
        least!(Some(6)),
        [inserts!(5), inserts!(6)],
        []
    ),
    stay!(extracts!(Some(5)), extracts!(None), [inserts!(5)], []),
    stay!(extracts!(Some(5)), least!(None), [inserts!(5)], []),
    // a question that finds an item
    swap!(least!(Some(5)), inserts!(5)),
    swap!(least!(Some(5)), inserts!(6)),
    stay!(least!(Some(5)), inserts!(4), [inserts!(5)], []),
    swap!(least!(Some(5)), extracts!(Some(6))),
    stay!(least!(Some(5)), extracts!(Some(5)), [inserts!(5)], []),
    swap!(least!(Some(5)), least!(Some(5))),
    swap!(least!(Some(5)), least!(Some(6))),
    swap!(least!(Some(5)), extracts!(None)),
    swap!(least!(Some(5)), least!(None)),
    // a removal or a question that finds none
    stay!(extracts!(None), inserts!(5), [], []),
    stay!(least!(None), inserts!(5), [], []),
    swap!(extracts!(None), extracts!(Some(5))),
    swap!(least!(None), extracts!(Some(5))),
    swap!(extracts!(None), least!(Some(5))),
    swap!(extracts!(None), extracts!(None)),
];

/// The pairs of each kind: every cell of its table, and some at other numbers.
pub const CELLS: [&[Pair]; 7] = [
    &MEMORY,
    &KEY_SET,
    &KEY_MAP,
    &COUNTER,
    &QUEUE,
    &STACK,
    &PRIORITY_QUEUE,
];

/// Calls whose results were worked out by hand.
pub const WORKED: [Pair; 10] = [
    stay!(reads!(0, 5), writes!(0, 6), [writes!(0, 5)], []),
    swap!(writes!(0, 5), reads!(0, 6)),
    stay!(adds!(4, true), contains!(4, true), [], []),
    stay!(
        increases!(-MOST),
        counts!(MOST),
        [increases!(MOST), increases!(MOST)],
        []
    ),
    stay!(fetches!(2, 5), counts!(7), [increases!(5)], []),
    swap!(fetches!(2, 5), counts!(6)),
    stay!(
        dequeues!(Some(3)),
        dequeues!(Some(4)),
        [enqueues!(3), enqueues!(4)],
        []
    ),
    stay!(
        puts!(1, 70, Some(100)),
        gets!(1, Some(70)),
        [puts!(1, 100, None)],
        []
    ),
    stay!(pushes!(4), pushes!(5), [], [pops!(Some(5))]),
    stay!(extracts!(Some(3)), inserts!(2), [inserts!(3)], []),
];
