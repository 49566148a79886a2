//! A row of counts, with the sum of the counts before each position.
ghost use Rattle.std.specs.Prelude.{◌≡◌, ◌^◌, ◌<◌, IfOk, length, sum, take, slice_index};
ghost use Rattle.pp_certificate_exchanges.specs.Towers.{base, IsSummed, pairs, one_less};

use std::alloc::{AllocError, Global};

/// Counts in a row; above them the sums of neighbours, and so on up to one sum.
#[derive(Drop)]
pub(crate) enum Tower {
    /// One count.
    Top(u32),
    /// A row of counts, and the tower over the sums of neighbours.
    Level(Vec<u32>, Box<Tower>),
}

/// The sums of neighbours. A last count without a neighbour stays.
fn sums(alloc: Global, counts: &[u32]) -> Result<Vec<u32>, AllocError>
    requires small { sum counts.now < 2 ^ 32 }
    ensures { IfOk result (λ v. v.items ≡ pairs counts.now) }
{
    let mut row = Vec::new(alloc);
    let mut i = 0;
    while counts.len() - i >= 2 {
        row.push(counts[i] + counts[i + 1])?;
        i += 2;
    }
    if i < counts.len() {
        row.push(counts[i])?;
    }
    Ok(row)
}

/// The tower over these counts.
pub(crate) fn tower_over(alloc: Global, counts: Vec<u32>) -> Result<Tower, AllocError>
    requires some { 0 < length counts.items }
    requires small { sum counts.items < 2 ^ 32 }
    ensures base { IfOk result (λ t. base t ≡ counts.items) }
    ensures summed { IfOk result IsSummed }
{
    if counts.len() == 1 {
        return Ok(Tower::Top(counts[0]));
    }
    let above = tower_over(alloc, sums(alloc, &counts)?)?;
    Ok(Tower::Level(counts, Box::new(alloc, above)?))
}

/// Takes one from the count at a place of the row, and says how much the counts before that place
/// are together.
pub(crate) fn take_one(tower: &mut Tower, i: usize) -> u32
    requires summed { IsSummed tower.old }
    requires small { sum (base tower.old) < 2 ^ 32 }
    requires there { i < length (base tower.old) }
    requires some { 0 < slice_index (base tower.old) i }
    ensures before { result ≡ sum (take i (base tower.old)) }
    ensures base { base tower.new ≡ one_less (base tower.old) i }
    ensures summed { IsSummed tower.new }
{
    match tower {
        Tower::Top(count) => {
            *count -= 1;
            0
        }
        Tower::Level(counts, above) => {
            counts[i] -= 1;
            let before = take_one(above, i / 2);
            if i % 2 == 0 {
                before
            } else {
                before + counts[i - 1]
            }
        }
    }
}
