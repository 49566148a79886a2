//! What a `Quick` keeps.
use crate::seen::Seen;
use crate::slots::Slots;
use indexmap::IndexSet;
use pp_body::Walk;
use pp_core::{Committed, IdSet, Name, Sequence};
use std::alloc::Global;

/// An open transaction: its own operations, of type `W`, its progress in its body, and how many
/// commits it has seen at each place of an own operation.
#[derive(Drop)]
pub struct OpenTx<W> {
    pub thread: Name,
    pub walk: Walk,
    pub own: W,
    pub seen: Seen,
}

/// The ids of the commits: a list for each place, in commit order. The operations are in the
/// shared log, which finds each by its id.
pub type Commits = Vec<Sequence<u32>>;

/// All that a `Quick` keeps. The shared log has type `T`, and own operations have type `W`.
#[derive(Drop)]
pub struct Parts<H, O: Copy, T, W> {
    pub alloc: Global,
    pub shape: H,
    /// The transactions that have begun, by name.
    pub slots: Slots<OpenTx<W>>,
    /// The threads of the open transactions.
    pub threads: IndexSet<Name>,
    pub ids: IdSet,
    pub shared: T,
    pub committed: Committed<O>,
    pub commits: Commits,
    /// How many records were taken.
    pub count: u32,
}
