//! The tests.
use crate::effects::{EFFECTS, try_effect};
use crate::pairs::try_pairs;
use crate::tables::{CELLS, WORKED};
use std::marker::Brand;
use std::sync::ledger::Blank;
use std::test::Fail;

/// Each pair of forms of each kind swaps, or has its context.
#[test]
fn each_cell_of_each_table(rt: HostRuntime) -> Result<(), Fail> {
    for pairs in &CELLS {
        try_pairs(&rt, rt.alloc(), pairs)?;
    }
    Ok(())
}

/// Single calls have the results that were worked out for them.
#[test]
fn contexts_of_worked_calls(rt: HostRuntime) -> Result<(), Fail> {
    try_pairs(&rt, rt.alloc(), &WORKED)
}

/// With enough memory, no call returns out of memory.
#[test]
fn effects_are_taken_back(rt: HostRuntime) -> Result<(), Fail> {
    for effect in &EFFECTS {
        try_effect::<Brand>(&rt, rt.alloc(), effect, Blank::new(1))?;
    }
    Ok(())
}
