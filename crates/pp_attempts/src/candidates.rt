//! Peaks in the order in which they are tried.
ghost use Rattle.std.specs.Prelude.{◌≡◌, ◌++◌, [], IfOk, OnOk, length};
ghost use Rattle.pp_model.specs.Object.{ops};
ghost use Rattle.pp_attempts.specs.Trying.{AreCandidates, HaveNoNumber};

use crate::peak::Peak;
use crate::view::View;
use pp_core::{Item, OutOfMemory};
use std::alloc::Global;

/// A peak that is tried.
#[derive(Clone, Copy)]
pub(crate) struct Candidate {
    /// The position of the peak among all.
    pub(crate) position: usize,
    /// How many operations, from the first on, it has in common with the candidate before it. They
    /// may have more.
    pub(crate) shared: usize,
    /// The start of its other operations in `ops`.
    pub(crate) from: usize,
    /// The end of them.
    pub(crate) to: usize,
}

/// Candidates in the order in which they are tried, with the operations that each does not share
/// with the one before it, in the same order, so that a round reads them in a row.
#[derive(Drop)]
pub(crate) struct Candidates<O: Copy> {
    pub(crate) list: Vec<Candidate>,
    pub(crate) ops: Vec<O>,
}

impl<O: Copy> Candidates<O> {
    /// No candidate.
    pub(crate) fn new(alloc: Global) -> Candidates<O>
        ensures candidates { result.list.items ≡ [] }
        ensures ops { result.ops.items ≡ [] }
    {
        Candidates {
            list: Vec::new(alloc),
            ops: Vec::new(alloc),
        }
    }
}

/// Adds the operations of the items.
pub(crate) fn add_ops<O: Copy>(list: &mut Vec<O>, items: &[Item<O>]) -> Result<(), OutOfMemory>
    ensures { OnOk result (list.new.items ≡ list.old.items ++ ops items.now) }
{
    for item in items {
        list.push(item.op)?;
    }
    Ok(())
}

/// The candidates whose views have no number. One that stays shares with the one that stays before
/// it the least that it and those left out between them shared. What it did not share before is
/// copied from `ops`, as a round reads them, and not from the peak, which lies elsewhere.
pub(crate) fn without_numbered<O: Copy>(
    alloc: Global,
    peaks: &[Peak<O>],
    views: &[View],
    candidates: &Candidates<O>,
) -> Result<Candidates<O>, OutOfMemory>
    requires long { length views.now ≡ length peaks.now }
    requires candidates { AreCandidates peaks.now views.now candidates.now }
    ensures candidates { IfOk result (λ left. AreCandidates peaks.now views.now left) }
    ensures unnumbered { IfOk result (λ left. HaveNoNumber views.now left) }
{
    let mut left = Candidates::new(alloc);
    let mut alike = 0usize;
    for candidate in &candidates.list {
        alike = alike.min(candidate.shared);
        if views[candidate.position].after.is_none() {
            let items = peaks[candidate.position].ops.as_slice();
            let from = left.ops.len();
            add_ops(&mut left.ops, &items[alike..candidate.shared])?;
            left.ops
                .extend_from_slice(&candidates.ops[candidate.from..candidate.to])?;
            left.list.push(Candidate {
                position: candidate.position,
                shared: alike,
                from,
                to: left.ops.len(),
            })?;
            alike = items.len();
        }
    }
    Ok(left)
}
