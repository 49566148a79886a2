//! The verdict that a certificate shows.
ghost use Rattle.std.specs.Prelude.{◌≡◌, ◌+◌, ◌<◌, ◌≤◌, IfOk, OnOk, length};
ghost use Rattle.pp_model.specs.Object.{ops};
ghost use Rattle.pp_kind.specs.Object.{IsAllowed, AllRanged};
ghost use Rattle.pp_certificate_checker.specs.Certificates.{shown};
ghost use Rattle.pp_certificate_checker.specs.Laws.{ShowsAllowed};

use crate::held::Turned;
use pp_core::{Items, OutOfMemory, Ticks};
use pp_kind::{Spec, state_after};
use std::alloc::Global;
use std::sync::ledger::Ledger;

/// The verdict of a certificate whose lines were all taken.
#[derive(Drop)]
pub struct Shown<H: Drop, T: Drop, O: Copy> {
    /// The objects that the first line names.
    pub shape: H,
    /// How many entries there are.
    pub operations: u32,
    /// How many exchanges there were.
    pub swaps: u32,
    /// The entries of the serial run.
    pub serial: Items<O>,
    /// The state after them.
    pub state: T,
}

/// The verdict that the first entries of the list show, as many as the serial number says. The only
/// error is out of memory.
pub(crate) fn show<S: Spec, L: Ledger>(
    alloc: Global,
    turned: Turned<S::Shape, S::Op>,
    serial: u32,
    ticks: &mut Ticks<L>,
) -> Result<Shown<S::Shape, S::State, S::Op>, OutOfMemory>
    requires allowed { IsAllowed S.object turned.shape (ops turned.list.items) }
    requires ranged { AllRanged S.object (ops turned.list.items) }
    requires few { length turned.list.items < 1_000_000 }
    requires there { serial ≤ length turned.list.items }
    ensures shown { IfOk result
        (λ h. h ≡ shown S.object turned.shape turned.list.items turned.count serial) }
    ensures allowed { IfOk result (ShowsAllowed S.object) }
    ensures cost { OnOk result (ticks.new ≡ ticks.old + serial) }
    ensures rises { ticks.old ≤ ticks.new }
    ensures bound { ticks.new ≤ ticks.old + serial }
{
    let Turned {
        shape,
        mut list,
        count,
    } = turned;
    let operations = list.len() as u32;
    list.truncate(serial as usize);
    let state = state_after::<S, L>(alloc, &shape, &list, ticks)?;
    Ok(Shown {
        shape,
        operations,
        swaps: count,
        serial: Items::from(list),
        state,
    })
}
