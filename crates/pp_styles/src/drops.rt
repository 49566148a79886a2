//! What a transaction drops: the entries that it pulled from a source.
ghost use Rattle.std.specs.Prelude.{◌≡◌, ◌++◌, IfOk, IsSorted, OnOk};
ghost use Rattle.std.specs.Ordering.{nat_cmp};
ghost use Rattle.pp_records.specs.Expansions.{unpulls};
ghost use Rattle.pp_styles.specs.Dropping.{HoldsLocal, HoldsPulled, IsPulledBut};
ghost use Rattle.pp_styles.specs.Meanings.{meanings};

use crate::step_list::StepList;
use crate::walks::unpull_one;
use pp_core::{LocalEntry, Name, OutOfMemory};
use pp_kind::Parted;
use pp_log_local::Local;
use std::alloc::Global;

/// The positions in the local log at which these ids are, in ascending order.
fn positions<S: Parted>(
    alloc: Global,
    local: &Local<S>,
    ids: &[u32],
) -> Result<Vec<usize>, OutOfMemory>
    ensures { IfOk result (λ at. IsSorted nat_cmp at.items
        × HoldsLocal ids.now local.now.1 at.items) }
{
    // It stands here for what its clauses say of each log.
    let _distinct = local.len();
    let mut at = Vec::new(alloc);
    for id in ids {
        if let Some(position) = local.find(*id) {
            at.push(position)?;
        }
    }
    at.sort()?;
    Ok(at)
}

/// Adds UNPULL of the entries at these positions that were pulled from this source, from the end.
fn unpull_at<O: Copy>(
    list: &mut StepList<O>,
    tx: &Name,
    source: &Name,
    at: &[usize],
    entries: &[LocalEntry<O>],
) -> Result<(), OutOfMemory>
    requires sorted { IsSorted nat_cmp at.now }
    requires all { HoldsPulled source.now entries.now at.now }
    ensures { OnOk result (meanings list.new
        ≡ meanings list.old ++ unpulls tx.now source.now entries.now) }
{
    let mut from = entries.len();
    let mut rest = at.len();
    'walk: while rest > 0 {
        rest -= 1;
        let position = at[rest];
        // No position counts twice.
        if position < from {
            unpull_one(list, tx, source, &entries[position])?;
            from = position;
        }
    }
    Ok(())
}

/// As `unpull_all`. It is told ids of entries that were pulled from this source, and looks at no
/// others.
pub fn unpull_ids<S: Parted>(
    alloc: Global,
    list: &mut StepList<S::Op>,
    tx: &Name,
    source: &Name,
    ids: &[u32],
    local: &Local<S>,
) -> Result<(), OutOfMemory>
    requires { IsPulledBut source.now local.now.1 ids.now }
    ensures { OnOk result (meanings list.new
        ≡ meanings list.old ++ unpulls tx.now source.now local.now.1) }
{
    let at = positions(alloc, local, ids)?;
    unpull_at(list, tx, source, &at, local.entries())
}
