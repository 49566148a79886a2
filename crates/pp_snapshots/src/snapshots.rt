//! An optimistic run, decided without a log.
ghost use Rattle.std.specs.Prelude.{◌≡◌, ◌+◌, ◌*◌, ◌≤◌, ◌<◌, ◌∷◌, [], None, IfOk, IsTrue, length};
ghost use Rattle.std.specs.List.{All};
ghost use Rattle.pp_core.specs.declared.call.Style.TheVariants.{Optimistic};
ghost use Rattle.pp_model.specs.Config.{start_with};
ghost use Rattle.pp_model.specs.Object.{HasDistinctIds};
ghost use Rattle.pp_model.specs.Sound.{serial_ops};
ghost use Rattle.pp_kind.specs.Object.{AllRanged, IsAllowed, state_after};
ghost use Rattle.pp_records.specs.Expansions.{IsOfStyle};
ghost use Rattle.pp_records.specs.Fronts.{Front};
ghost use Rattle.pp_records.specs.Records.{record_meaning};
ghost use Rattle.pp_records.specs.Runs.{Standing};
ghost use Rattle.pp_summary.specs.Held.{IsItemAsked, IsRecordAsked};
ghost use Rattle.pp_summary.specs.Sums.{count_ops};
ghost use Rattle.pp_snapshots.specs.Costs.{take_most};
ghost use Rattle.pp_snapshots.specs.Held.{HasStepCount, IsTakenOf, Starts, Takes};
ghost use Rattle.pp_snapshots.specs.Held.{first_taken, summary_taken};
ghost use Rattle.pp_snapshots.specs.Moving.{as_taken};
ghost use Rattle.pp_snapshots.specs.Shown.{Keeps};

use crate::parts::Parts;
use crate::{start, steps, take};
use pp_core::{Committed, Items, Name, OutOfMemory, Ticks};
use pp_kind::Parted;
use pp_kind_parts::PartByPart;
use pp_records::RunRecord;
use std::alloc::Global;
use std::marker::Model;
use std::sync::ledger::Ledger;

/// What decides an optimistic run, record by record: the names and ids that were used, the threads
/// that are busy, the serial state with what takes back its operations at each place, the committed
/// transactions, and of each open transaction its own operations, how far they have come in its body,
/// and its snapshots.
#[derive(Drop)]
pub struct Snapshots<S: Parted> {
    parts: Box<Parts<S::Shape, S::State, S::Op, S::Undo>>,
}

impl<S: Parted> Model for Snapshots<S> {
    ghost use Rattle.pp_core.specs.TreeCodes.{tree_code};
    ghost use Rattle.pp_snapshots.specs.ByPart.{IsListed, ops_in};
    ghost use Rattle.pp_snapshots.specs.Held.{Taken};
    ghost use Rattle.pp_snapshots.specs.Moving.{as_taken};
    ghost use Rattle.pp_snapshots.specs.Shown.{Keeps};
    ghost use Rattle.std.specs.Coded.{codes};

    ghost Value = { Taken S.Shape S.Op };

    ghost coded = { Prim.hlevel (codes, tree_code, S.Shape.code, S.Op.code) };

    ghost view = { λ a. as_taken a.parts.value };

    ghost invariant = { λ a. Keeps S.object S.place_of a.parts.value
        × IsListed S.place_of S.part_of a.parts.value.by_part (ops_in a.parts.value.past) };
}

impl<S: Parted> Snapshots<S> {
    /// A run with no transaction. The only error is out of memory.
    pub fn new(alloc: Global, shape: S::Shape) -> Result<Self, OutOfMemory>
        ensures { IfOk result (λ s. s ≡ first_taken shape None) }
    {
        let parts = start::no_run::<S>(alloc, shape)?;
        Ok(Snapshots {
            parts: Box::new(alloc, parts)?,
        })
    }

    /// Commits operations before the first record, in Snapshots that are as `new` made them, if their
    /// ids are distinct and they are allowed. Otherwise it returns the Snapshots as they were, with
    /// false. The transaction has the name and the operations. It has ended, and is the first one that
    /// is committed. The only error is out of memory, and the Snapshots are then lost.
    pub fn start<L: Ledger>(
        self,
        tx: Name,
        items: &Items<S::Op>,
        ticks: &mut Ticks<L>,
    ) -> Result<(Self, bool), OutOfMemory>
        requires new { self ≡ first_taken self.shape None }
        requires asked { All (IsItemAsked S.object self.shape) items.now }
        requires few { length items.now ≤ 256 }
        ensures starts { IfOk result (λ r.
            Starts S.object S.place_of self (start_with tx items.now) r.1 r.0) }
        ensures cost { IfOk result (λ r.
            IsTrue r.1 → ticks.new ≤ ticks.old + length items.now) }
        ensures repeated { (HasDistinctIds items.now → ⊥) → ticks.new ≡ ticks.old }
        ensures rises { ticks.old ≤ ticks.new }
        ensures bound { ticks.new ≤ ticks.old + 2 * length items.now }
    {
        let Snapshots { mut parts } = self;
        let good = start::start::<S, L>(&mut *parts, &tx, items, ticks)?;
        Ok((Snapshots { parts }, good))
    }

    /// What is kept.
    pub fn parts(&self) -> &Parts<S::Shape, S::State, S::Op, S::Undo>
        ensures taken { self.now ≡ as_taken result.now }
        ensures keeps { Keeps S.object S.place_of result.now }
    {
        &*self.parts
    }

    /// How many steps the record has, good or not.
    pub fn steps(&self, recorded: &RunRecord<S::Op>) -> u64
        requires style { IsOfStyle Optimistic (record_meaning recorded.now) }
        requires few { self.now.count < 4_294_967_295 }
        ensures count { HasStepCount S.object S.place_of self.now (record_meaning recorded.now)
            result }
        ensures bound { result ≤ self.now.count + 257 }
    {
        steps::steps::<S>(&*self.parts, recorded)
    }

    /// How many records were taken. It is always the summary of some optimistic configuration.
    pub fn count(&self) -> u64
        ensures count { result ≡ self.now.count }
        ensures held { (p : Standing Front S.Op) × IsTakenOf S.object S.place_of self.now p }
    {
        self.parts.count
    }

    /// The committed transactions, in commit order. Their operations, joined, are allowed, in the
    /// range of records, and at most 256 more than records were taken.
    pub fn committed(&self) -> &Committed<S::Op>
        ensures done { result.now ≡ self.now.done }
        ensures allowed { IsAllowed S.object self.now.shape (serial_ops self.now.done) }
        ensures ranged { AllRanged S.object (serial_ops self.now.done) }
        ensures few { length (serial_ops self.now.done) ≤ self.now.count + 256 }
    {
        &self.parts.committed
    }

    /// The objects after the serial run.
    pub fn state(&self) -> &S::State
        ensures { result.now ≡ state_after S.object self.now.shape (serial_ops self.now.done) }
    {
        &self.parts.past.state
    }
}

impl<S: PartByPart> Snapshots<S> {
    /// Takes a record if it is good, and else gives the Snapshots back with the same summary, with
    /// false. The only error is out of memory, and the Snapshots are then lost.
    pub fn take<L: Ledger>(
        self,
        recorded: &RunRecord<S::Op>,
        ticks: &mut Ticks<L>,
    ) -> Result<(Self, bool), OutOfMemory>
        requires style { IsOfStyle Optimistic (record_meaning recorded.now) }
        requires asked { IsRecordAsked S.object self.shape (record_meaning recorded.now) }
        requires few { self.count < 4_294_967_295 }
        ensures takes { IfOk result (λ r.
            Takes S.object S.place_of self (record_meaning recorded.now) r.1 r.0) }
        ensures rises { ticks.old ≤ ticks.new }
        ensures bound { ticks.new
            ≤ ticks.old
            + take_most S.place_of S.part_of S.silent_of (summary_taken [] self)
            (record_meaning recorded.now) }
        ensures least { IfOk result (λ r. IsTrue r.1 →
            ticks.old + count_ops (record_meaning recorded.now ∷ []) ≤ ticks.new) }
    {
        let Snapshots { mut parts } = self;
        let good = take::take::<S, L>(&mut *parts, recorded, ticks)?;
        Ok((Snapshots { parts }, good))
    }
}
