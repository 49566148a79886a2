//! How many others each entry passes on its way to its position.
ghost use Rattle.std.specs.Prelude.{◌≡◌, ◌<◌, IfOk, Some, length};
ghost use Rattle.std.specs.Ordering.{nat_cmp};
ghost use Rattle.std.specs.BTreeMap.{get};
ghost use Rattle.pp_model.specs.Lists.{In};
ghost use Rattle.pp_model.specs.Object.{HasDistinctIds};
ghost use Rattle.pp_certificate_exchanges.specs.Exchanges.{Permutes, position};
ghost use Rattle.pp_certificate_exchanges.specs.Passes.{passes};

use crate::tower::{take_one, tower_over};
use pp_core::Item;
use std::alloc::{AllocError, Global};
use std::collections::BTreeMap;

/// The position of each entry, by its id.
fn positions_of<O: Copy>(alloc: Global, log: &[Item<O>]) -> Result<BTreeMap<u32, u32>, AllocError>
    requires distinct { HasDistinctIds log.now }
    requires few { length log.now < 1_000_000 }
    ensures { IfOk result (λ m. (e : Item O) → In e log.now
        → get nat_cmp m e.id ≡ Some (position e.id log.now)) }
{
    let mut positions = BTreeMap::new(alloc);
    let mut position = 0u32;
    for item in log {
        positions.insert(item.id, position)?;
        position += 1;
    }
    Ok(positions)
}

/// For each entry of the target in turn, how many entries it passes on its way to its position. It
/// takes the time of a sort.
pub(crate) fn passed<O: Copy>(
    alloc: Global,
    log: &[Item<O>],
    target: &[Item<O>],
) -> Result<Vec<u32>, AllocError>
    requires permutes { Permutes log.now target.now }
    requires few { length log.now < 1_000_000 }
    ensures { IfOk result (λ v. v.items ≡ passes log.now target.now) }
{
    let mut counts = Vec::new(alloc);
    if log.is_empty() {
        return Ok(counts);
    }
    let positions = positions_of(alloc, log)?;
    let mut present = tower_over(alloc, vec![in alloc; 1u32; log.len()]?)?;
    for item in target {
        match positions.get(&item.id) {
            Some(position) => counts.push(take_one(&mut present, *position as usize))?,
            None => unreachable!(),
        }
    }
    Ok(counts)
}
