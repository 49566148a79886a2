//! The criteria of the PULLs of an operation and of a refresh.
ghost use Rattle.std.specs.Prelude.{◌≡◌, ◌≤◌, ◌<◌, ◌+◌, IfOk, Some, length};
ghost use Rattle.pp_model.specs.Names.{Name as NameOf};
ghost use Rattle.pp_model.specs.Object.{ops};
ghost use Rattle.pp_snapshots.specs.Shown.{Keeps};
ghost use Rattle.pp_summary.specs.Shown.{open_in};
ghost use Rattle.pp_violations.specs.Searches.{AreEntriesAsked, SearchesPulls};
ghost use Rattle.pp_conflicts.specs.Searches.{view_items};

use crate::view::make_view;
use pp_core::{Item, Items, OutOfMemory, SharedEntry, Ticks};
use pp_kind::Parted;
use pp_snapshots::Parts;
use pp_summary::{OpenTx, Own};
use pp_violations::{Violation, search_pulls};
use std::alloc::Global;
use std::sync::ledger::Ledger;

/// The operations, in the form in which `search_pulls` asks them.
fn make_own<S: Parted>(alloc: Global, items: &[Item<S::Op>]) -> Result<Own<S>, OutOfMemory>
    ensures { IfOk result (λ own. own ≡ items.now) }
{
    let mut own = Own::new(alloc);
    for item in items {
        own.add(*item)?;
    }
    Ok(own)
}

/// The first PULL of these entries by an open transaction that violates a criterion, or else the
/// state after what the transaction has of the place and after these.
pub(crate) fn search_missing<S: Parted, L: Ledger>(
    alloc: Global,
    parts: &Parts<S::Shape, S::State, S::Op, S::Undo>,
    it: &OpenTx<Items<S::Op>>,
    place: u16,
    entries: &[SharedEntry<S::Op>],
    ticks: &mut Ticks<L>,
) -> Result<Result<S::State, Violation<S::Op>>, OutOfMemory>
    requires keeps { Keeps S.object S.place_of parts.now }
    requires found { (t : NameOf) × (open_in t parts.now.slots.entries ≡ Some it.now) }
    requires asked { AreEntriesAsked S.object parts.now.shape entries.now }
    requires room { length (view_items S.place_of place parts.now it.now) + length entries.now
        ≤ parts.now.count + 256 }
    requires few { parts.now.count < 4_294_967_295 }
    ensures searches { IfOk result (SearchesPulls S.object S.place_of parts.now.shape
        (ops (view_items S.place_of place parts.now it.now)) it.now.own entries.now) }
    ensures rises { ticks.old ≤ ticks.new }
    ensures bound { ticks.new ≤ ticks.old + (parts.now.count + 256) }
{
    let own = make_own::<S>(alloc, it.own.as_slice())?;
    let view = make_view::<S>(parts, it, place)?;
    search_pulls(alloc, &parts.shape, &own, &view, entries, ticks)
}
