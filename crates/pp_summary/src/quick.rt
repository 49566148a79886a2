//! A boosted run, decided without its local logs.
ghost use Rattle.std.specs.Prelude.{◌≡◌, ◌+◌, ◌*◌, ◌≤◌, ◌<◌, IfOk, IsTrue, None, length};
ghost use Rattle.std.specs.List.{All};
ghost use Rattle.pp_records.specs.Records.{record_meaning};
ghost use Rattle.pp_model.specs.Config.{Config, start_with};
ghost use Rattle.pp_model.specs.Object.{HasDistinctIds};
ghost use Rattle.pp_model.specs.Sound.{serial_ops};
ghost use Rattle.pp_summary.specs.Held.{HasSteps, IsItemAsked, IsRecordAsked, Starts, TakeCosts};
ghost use Rattle.pp_summary.specs.Held.{IsHeldOf, Takes, held_first, take_most};
ghost use Rattle.pp_summary.specs.Runs.{IsBoosted};
ghost use Rattle.pp_summary.specs.Shown.{KeepsQuick, as_held};
ghost use Rattle.pp_kind.specs.Object.{AllRanged, IsAllowed};

use crate::own::Own;
use crate::parts::Parts;
use crate::{start, steps, take};
use indexmap::{IndexMap, IndexSet};
use pp_core::{Committed, IdSet, Items, Name, OutOfMemory, Ticks};
use pp_kind::{Parted, TakesBack};
use pp_log_shared::Shared;
use pp_records::RunRecord;
use std::alloc::Global;
use std::marker::Model;
use std::sync::ledger::Ledger;

/// What decides a boosted run, record by record: the names and ids that were used, the busy
/// threads, the shared log, the committed transactions, and the ids of the commits at each place.
/// Each open transaction has its own operations, its progress in its body, and how many commits it
/// has seen at its places. A Quick is a single pointer, since each record takes it and returns it.
#[derive(Drop)]
pub struct Quick<S: Parted> {
    parts: Box<Parts<S::Shape, S::Op, Shared<S>, Own<S>>>,
}

impl<S: Parted> Model for Quick<S> {
    ghost use Rattle.pp_core.specs.TreeCodes.{tree_code};
    ghost use Rattle.pp_summary.specs.Held.{Held};
    ghost use Rattle.pp_summary.specs.Shown.{KeepsQuick, as_held};
    ghost use Rattle.std.specs.Coded.{codes};

    ghost Value = { Held S.Shape S.Op };

    ghost coded = { Prim.hlevel (codes, tree_code, S.Shape.code, S.Op.code) };

    ghost view = { λ a. as_held S.place_of a.parts.value };

    ghost invariant = { λ a. KeepsQuick S.object S.place_of a.parts.value };
}

impl<S: Parted> Quick<S> {
    /// Makes a Quick for a run without transactions. The only error is out of memory.
    pub fn new(alloc: Global, shape: S::Shape) -> Result<Self, OutOfMemory>
        ensures { IfOk result (λ q. q ≡ held_first S.object S.place_of shape None) }
    {
        let shared = Shared::new(alloc, &shape)?;
        let parts = Parts {
            alloc,
            shape,
            slots: IndexMap::new(alloc),
            threads: IndexSet::new(alloc),
            ids: IdSet::new(alloc),
            shared,
            committed: Committed::new(alloc),
            commits: Vec::new(alloc),
            count: 0,
        };
        let parts = Box::new(alloc, parts)?;
        Ok(Quick { parts })
    }

    /// Commits operations before the first record, in a Quick that is as `new` made it. It does so
    /// if the ids of the operations differ and the operations are allowed. Otherwise it returns
    /// the Quick unchanged, with false. The operations become the first committed transaction,
    /// which has this name. The only error is out of memory, and the Quick is then lost.
    pub fn start<L: Ledger>(
        self,
        tx: Name,
        items: &Items<S::Op>,
        ticks: &mut Ticks<L>,
    ) -> Result<(Self, bool), OutOfMemory>
        requires new { self ≡ held_first S.object S.place_of self.shape None }
        requires asked { All (IsItemAsked S.object self.shape) items.now }
        requires few { length items.now ≤ 256 }
        ensures starts { IfOk result (λ r.
            Starts S.object S.place_of self (start_with tx items.now) r.1 r.0) }
        ensures cost { IfOk result (λ r.
            IsTrue r.1 → ticks.new ≡ ticks.old + length items.now) }
        ensures repeated { (HasDistinctIds items.now → ⊥) → ticks.new ≡ ticks.old }
        ensures rises { ticks.old ≤ ticks.new }
        ensures bound { ticks.new ≤ ticks.old + length items.now }
    {
        let Quick { mut parts } = self;
        let good = start::start(&mut *parts, &tx, items, ticks)?;
        Ok((Quick { parts }, good))
    }

    /// All that the Quick keeps.
    pub fn parts(&self) -> &Parts<S::Shape, S::Op, Shared<S>, Own<S>>
        ensures held { self.now ≡ as_held S.place_of result.now }
        ensures keeps { KeepsQuick S.object S.place_of result.now }
    {
        &*self.parts
    }

    /// How many steps the record means, whether it is good or not.
    pub fn steps(&self, recorded: &RunRecord<S::Op>) -> u64
        requires style { IsBoosted (record_meaning recorded.now) }
        requires few { self.now.count < 4_294_967_295 }
        ensures count { HasSteps S.object S.place_of self.now (record_meaning recorded.now) result }
        ensures bound { result ≤ 3 * (self.now.count + 256) + 1 }
    {
        steps::steps::<S>(&*self.parts, recorded)
    }

    /// How many records were taken. A Quick is always the brief of some boosted configuration.
    pub fn count(&self) -> u32
        ensures count { result ≡ self.now.count }
        ensures boosted { (c : Config S.Op) × IsHeldOf S.object S.place_of self.now c }
    {
        self.parts.count
    }

    /// The committed transactions, in commit order. Their operations, joined, are allowed and in
    /// the range of records. There are at most 256 more of them than records that were taken.
    pub fn committed(&self) -> &Committed<S::Op>
        ensures done { result.now ≡ self.now.brief.done }
        ensures allowed { IsAllowed S.object self.now.shape (serial_ops self.now.brief.done) }
        ensures ranged { AllRanged S.object (serial_ops self.now.brief.done) }
        ensures few { length (serial_ops self.now.brief.done) ≤ self.now.count + 256 }
    {
        &self.parts.committed
    }
}

impl<S: Parted + TakesBack> Quick<S> {
    /// Takes a record if it is good. Otherwise it returns the Quick unchanged, with false. The
    /// only error is out of memory, and the Quick is then lost.
    pub fn take<L: Ledger>(
        self,
        recorded: &RunRecord<S::Op>,
        ticks: &mut Ticks<L>,
    ) -> Result<(Self, bool), OutOfMemory>
        requires style { IsBoosted (record_meaning recorded.now) }
        requires asked { IsRecordAsked S.object self.shape (record_meaning recorded.now) }
        requires few { self.count < 4_294_967_295 }
        ensures takes { IfOk result (λ r.
            Takes S.object S.place_of self (record_meaning recorded.now) r.1 r.0) }
        ensures shape { IfOk result (λ r. r.0.shape ≡ self.shape) }
        ensures cost { IfOk result (λ r. TakeCosts self.brief
            (record_meaning recorded.now) r.1 ticks.old ticks.new) }
        ensures rises { ticks.old ≤ ticks.new }
        ensures bound { ticks.new
            ≤ ticks.old + take_most self.brief (record_meaning recorded.now) }
    {
        let Quick { parts } = self;
        let (parts, good) = take::take(parts, recorded, ticks)?;
        Ok((Quick { parts }, good))
    }
}
