//! What decides an optimistic run.
use crate::by_part::ByPart;
use crate::past::Past;
use indexmap::IndexSet;
use pp_core::{Committed, IdSet, Items, Name};
use pp_summary::{OpenTx, Slots};
use std::alloc::Global;

/// All that is kept of an optimistic run. The operations that took effect are those of the committed
/// transactions, in commit order.
#[derive(Drop)]
pub struct Parts<H, T: Drop, O: Copy, U: Drop> {
    pub alloc: Global,
    pub shape: H,
    /// The transactions that have begun. Of each open one: for each place where it has a snapshot,
    /// how many of the commits there are in it.
    pub slots: Slots<OpenTx<Items<O>>>,
    /// The threads of the open transactions.
    pub threads: IndexSet<Name>,
    pub ids: IdSet,
    pub past: Past<T, O, U>,
    /// What was applied, part by part.
    pub by_part: ByPart<O>,
    pub committed: Committed<O>,
    /// How many records were taken.
    pub count: u64,
}
