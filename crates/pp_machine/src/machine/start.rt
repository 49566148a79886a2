//! The start of a run: its criteria and its effect.
ghost use Rattle.std.specs.Prelude.{◌≡◌, ◌≤◌, ◌+◌, [], length, map, reverse, IfOk, OnOk, None};
ghost use Rattle.std.specs.Prelude.{Some};
ghost use Rattle.std.specs.List.{All};
ghost use Rattle.pp_model.specs.Config.{first, start_with};
ghost use Rattle.pp_model.specs.Object.{HasDistinctIds};
ghost use Rattle.pp_model.specs.Rules.{StartMeets};
ghost use Rattle.pp_kind.specs.Object.{rules_of};
ghost use Rattle.pp_machine.specs.Starting.{JudgesStart, Posts, entry_told, posted};
ghost use Rattle.pp_machine.specs.StartAnswers.{IsAskedItem, IsStartShown, Started};
ghost use Rattle.pp_machine.specs.Starts.{first_repeated, has_id};

use crate::detail::{Detail, Judged, told};
use crate::machine::{Machine, Outcome, refused};
use pp_core::{CommittedTx, IdSet, Item, Items, Name, OutOfMemory, SharedEntry, Ticks};
use pp_kind::Parted;
use pp_log_shared::Shared;
use std::alloc::Global;
use std::sync::ledger::Ledger;

/// Whether one of the items has this id.
fn has_id<O: Copy>(items: &[Item<O>], id: u32) -> bool
    ensures { result ≡ has_id id items.now }
{
    items.iter().any(|item| item.id == id)
}

/// The id of the first item whose id is before it.
fn first_repeated<O: Copy>(items: &[Item<O>]) -> Option<u32>
    ensures { entry_told result ≡ first_repeated [] items.now }
{
    for k in 0..items.len() {
        let item = &items[k];
        if has_id(&items[..k], item.id) {
            return Some(item.id);
        }
    }
    None
}

/// The log with the items as uncommitted entries, or the refusal by the first of them whose result
/// differs. The only error is out of memory.
fn posted<S: Parted, L: Ledger>(
    alloc: Global,
    shape: &S::Shape,
    tx: &Name,
    items: &[Item<S::Op>],
    ticks: &mut Ticks<L>,
) -> Judged<Shared<S>, S::Op>
    requires asked { All (IsAskedItem S.object shape.now) items.now }
    requires few { length items.now ≤ 256 }
    requires distinct { HasDistinctIds items.now }
    ensures posts { IfOk result (Posts S.object shape.now tx.now items.now) }
    ensures cost { IfOk result (λ r. OnOk r (ticks.new ≡ ticks.old + length items.now)) }
    ensures rises { ticks.old ≤ ticks.new }
    ensures bound { ticks.new ≤ ticks.old + length items.now }
{
    let mut shared = Shared::new(alloc, shape)?;
    for k in 0..items.len() {
        let item = &items[k];
        if !shared.legal(&item.op) {
            let id = item.id;
            let answer = shared.gives(&item.op);
            return Ok(Err(told(2, Detail::Gives { id, answer })));
        }
        let entry = SharedEntry {
            id: item.id,
            owner: *tx,
            committed: false,
            op: item.op,
        };
        shared.push(entry, ticks)?;
    }
    Ok(Ok(shared))
}

/// The ids of the items, the last first.
fn used_ids<O: Copy>(alloc: Global, items: &[Item<O>]) -> Result<IdSet, OutOfMemory>
    requires { HasDistinctIds items.now }
    ensures { IfOk result (λ ids. reverse ids ≡ map (λ p. p.id) items.now) }
{
    let mut ids = IdSet::new(alloc);
    let mut left = items.len();
    while left > 0 {
        left -= 1;
        let item = &items[left];
        ids.insert(item.id)?;
    }
    Ok(ids)
}

impl<S: Parted> Machine<S> {
    /// The log that the start makes, or the refusal by its first false criterion.
    fn judge_start<L: Ledger>(
        &self,
        tx: &Name,
        items: &Items<S::Op>,
        ticks: &mut Ticks<L>,
    ) -> Judged<Shared<S>, S::Op>
        requires asked { All (IsAskedItem S.object self.now.shape) items.now }
        requires few { length items.now ≤ 256 }
        ensures judges { IfOk result
            (JudgesStart S.object self.now.shape (start_with tx.now items.now)) }
        ensures cost { IfOk result (λ r. OnOk r (ticks.new ≡ ticks.old + length items.now)) }
        ensures rises { ticks.old ≤ ticks.new }
        ensures bound { ticks.new ≤ ticks.old + length items.now }
    {
        let items = items.as_slice();
        if let Some(id) = first_repeated(items) {
            return Ok(Err(told(1, Detail::Entry { id })));
        }
        let parts = &*self.parts;
        posted(parts.alloc, &parts.shape, tx, items, ticks)
    }

    /// The machine in which the operations are committed, as those of a transaction of this name
    /// that has begun and ended, in the log that they make.
    fn with_start(
        mut self,
        tx: Name,
        items: &[Item<S::Op>],
        mut shared: Shared<S>,
    ) -> Result<Self, OutOfMemory>
        requires empty { self.config ≡ first None }
        requires uncounted { self.count ≡ 0 }
        requires asked { All (IsAskedItem S.object self.shape) items.now }
        requires few { length items.now ≤ 256 }
        requires meets { StartMeets (rules_of S.object self.shape)
            (Some (start_with tx items.now)) }
        requires log { shared ≡ (self.shape, posted tx items.now) }
        ensures { IfOk result (λ m. m ≡ record {
          shape = self.shape;
          config = first (Some (start_with tx items.now));
          count = 0;
        }) }
    {
        let parts = &mut *self.parts;
        let entries = Items::copy_of(items, parts.alloc)?;
        shared.commit(&tx, &entries);
        parts.shared = shared;
        parts.committed.push(CommittedTx { name: tx, entries })?;
        parts.transactions.use_name(&tx)?;
        let ids = used_ids(parts.alloc, items)?;
        parts.ids = ids;
        Ok(self)
    }

    /// Commits operations before the first step, in a machine that is as `new` made it, if no id
    /// occurs twice and they are allowed. Otherwise it returns the machine as it was, with what
    /// shows that a criterion is false. The transaction has the name and the operations, and is the
    /// first committed one. The only error is out of memory, and the machine is then lost.
    pub fn start<L: Ledger>(
        self,
        tx: Name,
        items: &Items<S::Op>,
        ticks: &mut Ticks<L>,
    ) -> Result<(Self, Outcome<S::Op>), OutOfMemory>
        requires empty { self.config ≡ first None }
        requires uncounted { self.count ≡ 0 }
        requires asked { All (IsAskedItem S.object self.shape) items.now }
        requires few { length items.now ≤ 256 }
        ensures effect { IfOk result (λ r.
            Started S.object self (start_with tx items.now) r.1 r.0) }
        ensures shown { IfOk result (λ r.
            IsStartShown S.object self (start_with tx items.now) r.1) }
        ensures cost { IfOk result (λ r.
            r.1 ≡ Outcome.Done → ticks.new ≡ ticks.old + length items.now) }
        ensures rises { ticks.old ≤ ticks.new }
        ensures bound { ticks.new ≤ ticks.old + length items.now }
    {
        let judged = self.judge_start(&tx, items, ticks)?;
        match judged {
            Ok(shared) => {
                let machine = self.with_start(tx, items.as_slice(), shared)?;
                Ok((machine, Outcome::Done))
            }
            Err(refusal) => Ok((self, refused(refusal))),
        }
    }
}
