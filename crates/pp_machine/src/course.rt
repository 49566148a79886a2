//! The course of an open transaction: its local log, and how far it has come in its body.
ghost use Rattle.std.specs.Prelude.{◌≡◌, ◌≢◌, false, ◌+◌, ◌≤◌, ◌↔◌, ◌++◌, ◌∷◌, [], Some, true};
ghost use Rattle.std.specs.Prelude.{option_map, slice_get, IsTrue, IfOk, OnOk, OnErr};
ghost use Rattle.pp_core.specs.declared.entry.LocalEntry.{LocalEntry};
ghost use Rattle.pp_core.specs.declared.entry.Mark.TheVariants.{Pulled};
ghost use Rattle.pp_core.specs.Trees.{IsWithinLimits, tree};
ghost use Rattle.pp_model.specs.Body.{IsWord};
ghost use Rattle.pp_log.specs.Logs.{RemovesEntry};
ghost use Rattle.pp_model.specs.Config.{is_own, item, local_ops, set_mark};
ghost use Rattle.pp_body.specs.Walks.{HasTaken, MayGoBack};
ghost use Rattle.pp_machine.specs.Removals.{CostsRemoval, answer_of};
ghost use Rattle.pp_machine.specs.Courses.{own_calls, FollowsIfOwn, IsGivenBack, MayFollow};
ghost use Rattle.pp_machine.specs.Transactions.{Takes, HasOwn, MayLeave};

use crate::find::{is_own, is_own_at};
use pp_body::Walk;
use pp_core::{Body, LocalEntry, Mark, OutOfMemory, Ticks};
use pp_kind::Parted;
use pp_log_local::{Local, Removed};
use std::alloc::Global;
use std::marker::Model;
use std::sync::ledger::Ledger;

/// A log, and the walk of its own calls.
#[derive(Drop)]
struct Walked<T> {
    walk: Walk,
    log: T,
}

/// The local log of an open transaction, and how far its own calls have come in its body.
#[derive(Drop)]
pub struct Course<S: Parted> {
    walked: Walked<Local<S>>,
}

impl<S: Parted> Model for Course<S> {
    ghost use Rattle.pp_core.specs.TreeCodes.{tree_code};
    ghost use Rattle.std.specs.Coded.{codes};
    ghost use Rattle.pp_body.specs.Walks.{HasTaken};
    ghost use Rattle.pp_machine.specs.Courses.{Guided, own_calls};

    ghost Value = { Guided S.Shape S.Op };

    ghost coded = { Prim.hlevel (codes, tree_code, S.Shape.code, S.Op.code) };

    ghost view = { λ a. record { body = a.walked.walk.body; local = a.walked.log } };

    ghost invariant = { λ a. HasTaken a.walked.walk (own_calls S.object a.walked.log.1) };
}

/// Adds an own entry at the end of a local log, and its call to the walk.
fn append_own<S: Parted, L: Ledger>(
    walked: &mut Walked<Local<S>>,
    entry: LocalEntry<S::Op>,
    ticks: &mut Ticks<L>,
) -> Result<(), OutOfMemory>
    requires own { is_own entry.mark ≡ true }
    requires takes { Takes S.object walked.old.log entry }
    requires taken { HasTaken walked.old.walk (own_calls S.object walked.old.log.1) }
    requires follows { MayFollow S.object walked.old.walk.body walked.old.log.1 entry.op }
    ensures ok { OnOk result (walked.new.log ≡ (walked.old.log.0, walked.old.log.1 ++ entry ∷ [])) }
    ensures err { OnErr result (walked.new.log ≡ walked.old.log) }
    ensures body { walked.new.walk.body ≡ walked.old.walk.body }
    ensures taken { HasTaken walked.new.walk (own_calls S.object walked.new.log.1) }
    ensures cost { OnOk result (ticks.new ≡ ticks.old + 1) }
    ensures bound { ticks.new ≤ ticks.old + 1 }
{
    walked.walk.follow(&S::call(&entry.op))?;
    let appended = walked.log.append(entry, ticks);
    if appended.is_err() {
        walked.walk.retreat();
    }
    appended
}

/// The walk, with its last call taken back if required.
fn given_back(walk: Walk, asked: bool) -> Walk
    requires { IsTrue asked → MayGoBack walk }
    ensures body { result.body ≡ walk.body }
    ensures same { asked ≡ false → result ≡ walk }
    ensures back { IsTrue asked → IsGivenBack walk result }
{
    if asked { walk.back() } else { walk }
}

impl<S: Parted> Course<S> {
    /// The course of a transaction that begins.
    pub fn start(alloc: Global, shape: &S::Shape, body: &Option<Body>) -> Result<Self, OutOfMemory>
        requires { IsWithinLimits (option_map tree body.now) }
        ensures { IfOk result (λ course. course
            ≡ record { body = option_map tree body.now; local = (shape.now, []) }) }
    {
        let body = Body::copy_if_any(body, alloc)?;
        let walk = Walk::start(alloc, body)?;
        let log = Local::new(alloc, shape)?;
        Ok(Course {
            walked: Walked { walk, log },
        })
    }

    /// The local log.
    pub fn local(&self) -> &Local<S>
        ensures { result.now ≡ self.now.local }
    {
        &self.walked.log
    }

    /// Whether the call of the operation may follow the own calls.
    pub fn can(&self, op: &S::Op) -> bool
        ensures { IsTrue result ↔ MayFollow S.object self.now.body self.now.local.1 op.now }
    {
        self.walked.walk.can(&S::call(op))
    }

    /// Whether the own calls are a word of the body.
    pub fn complete(&self) -> bool
        ensures { IsTrue result ↔ IsWord self.now.body (own_calls S.object self.now.local.1) }
    {
        self.walked.walk.complete()
    }

    /// Adds an entry at the end of the local log. After a refusal of memory the course is as it
    /// was.
    pub fn append<L: Ledger>(
        &mut self,
        entry: LocalEntry<S::Op>,
        ticks: &mut Ticks<L>,
    ) -> Result<(), OutOfMemory>
        requires takes { Takes S.object self.old.local entry }
        requires follows { FollowsIfOwn S.object self.old.body self.old.local.1 entry }
        ensures ok { OnOk result (self.new ≡ record {
          body = self.old.body;
          local =
              (self.old.local.0, self.old.local.1 ++ entry ∷ []);
        }) }
        ensures err { OnErr result (self.new ≡ self.old) }
        ensures cost { OnOk result (ticks.new ≡ ticks.old + 1) }
        ensures bound { ticks.new ≤ ticks.old + 1 }
    {
        if is_own(entry.mark) {
            append_own(&mut self.walked, entry, ticks)
        } else {
            self.walked.log.append(entry, ticks)
        }
    }

    /// Marks an own entry of the local log.
    pub fn mark(&mut self, i: usize, mark: Mark)
        requires own { HasOwn self.old.local.1 i }
        requires to_own { mark ≢ Pulled }
        ensures { (e : LocalEntry S.Op) → slice_get self.old.local.1 i ≡ Some e →
            self.new ≡ record {
              body = self.old.body;
              local =
                  (self.old.local.0, set_mark e.id mark self.old.local.1);
            } }
    {
        // It is here for what its clauses say of each log.
        let _distinct = self.walked.log.len();
        self.walked.log.mark(i, mark);
    }

    /// The course without an entry of its local log, unless the list without it is not allowed. The
    /// walk returns to the position before the call if the entry is own. The only error is out of
    /// memory, and the course is then lost.
    pub fn without<L: Ledger>(
        self,
        i: usize,
        ticks: &mut Ticks<L>,
    ) -> Result<(Self, Removed), OutOfMemory>
        requires { MayLeave self.local.1 i }
        ensures body { IfOk result (λ r. r.0.body ≡ self.body) }
        ensures removes { IfOk result (λ r. RemovesEntry S.object item self.local i r.0.local r.1) }
        ensures cost { CostsRemoval S.place_of (local_ops self.local.1) i
            (answer_of result) ticks.old ticks.new }
    {
        let Course { walked } = self;
        let Walked { walk, log } = walked;
        // An own entry is the last, and without it the list is always allowed.
        let _allowed = log.len();
        let own = is_own_at(log.entries(), i);
        let (log, removed) = log.remove(i, ticks)?;
        let walk = given_back(walk, own);
        Ok((
            Course {
                walked: Walked { walk, log },
            },
            removed,
        ))
    }
}
