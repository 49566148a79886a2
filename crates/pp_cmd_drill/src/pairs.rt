//! The steps of the run, pair by pair.
ghost use Rattle.std.specs.Prelude.{◌≡◌, ◌≤◌, ◌+◌, ◌*◌, ◌/◌, ◌%◌, IfOk, OnOk};
ghost use Rattle.pp_styles.specs.Meanings.{meanings};
ghost use Rattle.pp_cmd_drill.specs.Drill.{drill_steps, left_over, pair, pairs, pulls, unpaired};
ghost use Rattle.pp_cmd_drill.specs.Transactions.{Adds, IsNumbered};

use crate::steps::{begin_first, begin_second, ending, endings, first_apps, pull, second_apps};
use crate::transaction::{Transaction, transaction_of};
use pp_core::{OutOfMemory, Step};
use pp_objects::Op;
use std::alloc::Global;

/// Adds further steps.
fn add_all<const N: usize>(
    steps: &mut Vec<Step<Op>>,
    more: [Step<Op>; N],
) -> Result<(), OutOfMemory>
    requires { N ≤ 8 }
    ensures { OnOk result (Adds steps.old.items steps.new.items (meanings more.entry)) }
{
    for step in more {
        steps.push(step)?;
    }
    Ok(())
}

/// Adds the PULL of the first transaction of a pair, if there are pairs before it.
fn add_pull(steps: &mut Vec<Step<Op>>, before: u32, a: &Transaction) -> Result<(), OutOfMemory>
    requires numbered { IsNumbered a.now }
    requires number { a.now.number ≡ 2 * before + 1 }
    ensures { OnOk result (Adds steps.old.items steps.new.items (pulls before a.now.number)) }
{
    if before == 0 {
        return Ok(());
    }
    add_all(steps, [pull(before, a)])
}

/// Adds the pair that comes after `before` pairs.
fn add_pair(alloc: Global, steps: &mut Vec<Step<Op>>, before: u32) -> Result<(), OutOfMemory>
    requires { 2 * before + 2 ≤ 20_000 }
    ensures { OnOk result (Adds steps.old.items steps.new.items
        (pair before (2 * before + 1) (2 * before + 2))) }
{
    let a = transaction_of(alloc, 2 * before + 1)?;
    let b = transaction_of(alloc, 2 * before + 2)?;
    add_all(steps, [begin_first(&a), begin_second(&b)])?;
    add_pull(steps, before, &a)?;
    add_all(steps, first_apps(before, &a))?;
    add_all(steps, second_apps(&b))?;
    add_all(steps, endings(&a, &b))
}

/// Adds a single transaction after `before` pairs.
fn add_unpaired(alloc: Global, steps: &mut Vec<Step<Op>>, before: u32) -> Result<(), OutOfMemory>
    requires { 2 * before + 1 ≤ 20_000 }
    ensures { OnOk result (Adds steps.old.items steps.new.items
        (unpaired before (2 * before + 1))) }
{
    let a = transaction_of(alloc, 2 * before + 1)?;
    add_all(steps, [begin_first(&a)])?;
    add_pull(steps, before, &a)?;
    add_all(steps, first_apps(before, &a))?;
    add_all(steps, ending(&a))
}

/// Adds the single transaction after the pairs, if the number of transactions is odd.
fn add_left_over(alloc: Global, steps: &mut Vec<Step<Op>>, n: u32) -> Result<(), OutOfMemory>
    requires { n ≤ 20_000 }
    ensures { OnOk result (Adds steps.old.items steps.new.items (left_over (n % 2) (n / 2))) }
{
    if n % 2 == 0 {
        return Ok(());
    }
    add_unpaired(alloc, steps, n / 2)
}

/// The steps of the first pairs.
#[tactic(auto, using(crate::proofs::Listing::one_more_pair))]
fn pairs_of(alloc: Global, count: u32) -> Result<Vec<Step<Op>>, OutOfMemory>
    requires { 2 * count ≤ 20_000 }
    ensures { IfOk result (λ steps. meanings steps.items ≡ pairs count) }
{
    let mut steps = Vec::new(alloc);
    for before in 0..count {
        add_pair(alloc, &mut steps, before)?;
    }
    Ok(steps)
}

/// The steps of the run of n transactions. The only error is out of memory.
#[tactic(auto, using(crate::proofs::Listing::whole))]
pub(crate) fn drill_steps(alloc: Global, n: u32) -> Result<Vec<Step<Op>>, OutOfMemory>
    requires { n ≤ 20_000 }
    ensures { IfOk result (λ steps. meanings steps.items ≡ drill_steps n) }
{
    let mut steps = pairs_of(alloc, n / 2)?;
    add_left_over(alloc, &mut steps, n)?;
    Ok(steps)
}
