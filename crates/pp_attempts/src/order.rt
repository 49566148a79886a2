//! In which order peaks are tried: those that begin alike are together.
ghost use Rattle.std.specs.Prelude.{◌≡◌, ◌≤◌, [], IfOk, length, map};
ghost use Rattle.pp_core.specs.declared.entry.Item.{Item as ItemOf};
ghost use Rattle.pp_model.specs.Lists.{In};
ghost use Rattle.pp_attempts.specs.Peaks.{IdsTell};
ghost use Rattle.pp_attempts.specs.Trying.{ArePositions, AreAllCandidates, Share};

use crate::candidates::{Candidate, Candidates, add_ops};
use crate::peak::Peak;
use pp_core::{Item, OutOfMemory};
use std::alloc::Global;

/// How many operations two lists have in common, from the first on.
fn common<O: Copy>(a: &[Item<O>], b: &[Item<O>]) -> usize
    requires { (i j : ItemOf O) → In i a.now → In j b.now → i.id ≡ j.id → i ≡ j }
    ensures share { Share result a.now b.now }
    ensures within { result ≤ length b.now }
{
    let mut count = 0;
    while count < a.len() && count < b.len() && a[count].id == b[count].id {
        count += 1;
    }
    count
}

/// The positions of the peaks, each after the id of its first operation, in the order of these ids,
/// and of the positions if these are the same. Of a peak without operations the id is taken as 0.
fn by_first_id<O: Copy>(alloc: Global, peaks: &[Peak<O>]) -> Result<Vec<(u32, usize)>, OutOfMemory>
    ensures { IfOk result (λ order. ArePositions peaks.now (length peaks.now)
        (map (λ o. o.1) order.items)) }
{
    let mut order = Vec::new(alloc);
    for (position, peak) in peaks.iter().enumerate() {
        let first = peak.ops.as_slice().first().map_or(0, |item| item.id);
        order.push((first, position))?;
    }
    order.sort()?;
    Ok(order)
}

/// All peaks as candidates. Those with the same first operation are together, in their own order:
/// so each begins as the one before it, as far as its transaction did not take that back.
pub(crate) fn line_up<O: Copy>(
    alloc: Global,
    peaks: &[Peak<O>],
) -> Result<Candidates<O>, OutOfMemory>
    requires { IdsTell peaks.now }
    ensures { IfOk result (λ candidates. AreAllCandidates peaks.now candidates) }
{
    let order = by_first_id(alloc, peaks)?;
    let mut candidates = Candidates::new(alloc);
    let mut before: &[Item<O>] = &[];
    for (_, position) in &order {
        let items = peaks[*position].ops.as_slice();
        let shared = common(before, items);
        let from = candidates.ops.len();
        add_ops(&mut candidates.ops, &items[shared..])?;
        candidates.list.push(Candidate {
            position: *position,
            shared,
            from,
            to: candidates.ops.len(),
        })?;
        before = items;
    }
    Ok(candidates)
}
