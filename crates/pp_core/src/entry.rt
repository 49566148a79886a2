//! Entries of logs, and lists of operations.
use crate::name::Name;
use crate::sequence::Sequence;

/// The mark of an entry of a local log.
#[derive(Clone, Copy, Debug, PartialEq, Eq)]
pub enum Mark {
    /// The transaction's own, and not in the shared log.
    Unpushed,
    /// The transaction's own, and in the shared log.
    Pushed,
    /// Another transaction's.
    Pulled,
}

/// An entry of a local log.
#[derive(Clone, Copy)]
pub struct LocalEntry<O> {
    pub id: u32,
    pub owner: Name,
    pub mark: Mark,
    pub op: O,
}

/// An entry of the shared log.
#[derive(Clone, Copy)]
pub struct SharedEntry<O> {
    pub id: u32,
    pub owner: Name,
    pub committed: bool,
    pub op: O,
}

/// An operation with its id, which is unique in a run.
#[derive(Clone, Copy)]
pub struct Item<O> {
    pub id: u32,
    pub op: O,
}

/// Operations with their ids.
pub type Items<O> = Sequence<Item<O>>;

/// Operations.
pub type Ops<O> = Sequence<O>;

/// A committed transaction, with its own operations in the order of its local log.
#[derive(Drop)]
pub struct CommittedTx<O: Copy> {
    pub name: Name,
    pub entries: Items<O>,
}

/// The committed transactions, in commit order.
pub type Committed<O> = Sequence<CommittedTx<O>>;
