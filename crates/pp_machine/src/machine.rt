//! The machine, what contracts see of it, and which file does which step.
ghost use Rattle.std.specs.Prelude.{◌≡◌, ◌+◌, ◌<◌, ◌≤◌, IfOk, IsOk, None, is_some, option_map};
ghost use Rattle.std.specs.Prelude.{length};
ghost use Rattle.std.specs.Option.{option_copied};
ghost use Rattle.pp_model.specs.AsWritten.{AsWritten};
ghost use Rattle.pp_model.specs.Config.{first, tx as open_tx};
ghost use Rattle.pp_model.specs.Laws.{HasViews};
ghost use Rattle.pp_core.specs.Steps.{meaning};
ghost use Rattle.pp_model.specs.Sound.{HasSerialState, MayRunSerially, Sound, serial_ops};
ghost use Rattle.pp_kind.specs.Object.{AllRanged, IsAllowed, rules_of};
ghost use Rattle.pp_machine.specs.Costs.{Costs, at_most};
ghost use Rattle.pp_machine.specs.Shown.{IsShown};
ghost use Rattle.pp_machine.specs.Stepping.{IsAsked, NeedsNoMemory, Stepped};

mod app;
mod begin;
mod cmt;
mod note;
mod pull;
mod push;
mod quit;
mod start;
mod unapp;
mod unpull;
mod unpush;

use crate::detail::{Detail, Refusal};
use crate::transactions::{OpenTx, Transactions};
use pp_core::{Committed, IdSet, Name, OutOfMemory, Step, Ticks};
use pp_kind::Parted;
use pp_log_local::Local;
use pp_log_shared::Shared;
use std::alloc::Global;
use std::marker::Model;
use std::sync::ledger::Ledger;

/// The outcome of a step.
#[derive(Drop)]
pub enum Outcome<O> {
    /// Each criterion held, and the effect has happened.
    Done,
    /// The first false criterion, from 1, and what shows that it is false. Nothing has happened.
    False { criterion: u8, detail: Detail<O> },
}

/// The outcome of a step that is refused.
fn refused<O>(refusal: Refusal<O>) -> Outcome<O>
    ensures { result ≡ Outcome.False refusal.criterion refusal.detail }
{
    let Refusal { criterion, detail } = refusal;
    Outcome::False { criterion, detail }
}

/// All that a machine holds.
#[derive(Drop)]
struct Parts<S: Parted> {
    alloc: Global,
    shape: S::Shape,
    transactions: Transactions<S>,
    ids: IdSet,
    shared: Shared<S>,
    committed: Committed<S::Op>,
    count: u32,
}

/// The machine: the transactions with their local logs, the shared log, and the committed
/// transactions. It is one pointer, since each step takes it and returns it.
#[derive(Drop)]
pub struct Machine<S: Parted> {
    parts: Box<Parts<S>>,
}

impl<S: Parted> Model for Machine<S> {
    ghost use Rattle.pp_machine.specs.Machines.{Seen, Holds, config_of};
    ghost use Rattle.pp_core.specs.TreeCodes.{tree_code};
    ghost use Rattle.std.specs.Coded.{codes};

    ghost Value = { Seen S.Shape S.Op };

    ghost coded = { Prim.hlevel (codes, tree_code, S.Shape.code, S.Op.code) };

    ghost view = { λ a. let p = a.parts.value in record {
      shape = p.shape;
      config = config_of p.transactions p.ids p.shared.1 p.committed;
      count = p.count;
    } };

    ghost invariant = { λ a. let p = a.parts.value in
        Holds S.object p.shape p.transactions p.ids p.shared p.committed p.count };
}

impl<S: Parted> Machine<S> {
    /// A machine with no transaction and empty logs. The only error is out of memory.
    pub fn new(alloc: Global, shape: S::Shape) -> Result<Self, OutOfMemory>
        ensures { IfOk result (λ m. m ≡ record { shape = shape; config = first None; count = 0 }) }
    {
        let shared = Shared::new(alloc, &shape)?;
        let parts = Parts {
            alloc,
            shape,
            transactions: Transactions::new(alloc),
            ids: IdSet::new(alloc),
            shared,
            committed: Committed::new(alloc),
            count: 0,
        };
        let parts = Box::new(alloc, parts)?;
        Ok(Machine { parts })
    }

    /// How many steps were done. The configuration of each machine is sound, and the local log of
    /// each open transaction is allowed with what it pulled put before its own.
    pub fn count(&self) -> u32
        ensures count { result ≡ self.now.count }
        ensures short { length self.now.config.shared ≤ self.now.count + 256 }
        ensures sound { Sound (rules_of S.object self.now.shape) self.now.config }
        ensures written { AsWritten (rules_of S.object self.now.shape) self.now.config }
        ensures views { HasViews (rules_of S.object self.now.shape) self.now.config }
    {
        self.parts.count
    }

    /// Whether a transaction of this name is open.
    pub fn is_open(&self, tx: &Name) -> bool
        ensures { result ≡ is_some (open_tx tx.now self.now.config.opened) }
    {
        self.parts.transactions.local(tx).is_some()
    }

    /// The shared log.
    pub fn shared(&self) -> &Shared<S>
        ensures { result.now ≡ (self.now.shape, self.now.config.shared) }
    {
        &self.parts.shared
    }

    /// The local log of an open transaction.
    pub fn local(&self, tx: &Name) -> Option<&Local<S>>
        ensures { option_copied result ≡ option_map (λ x.
            (self.now.shape, x.local)) (open_tx tx.now self.now.config.opened) }
    {
        self.parts.transactions.local(tx)
    }

    /// The committed transactions, in commit order. Their operations, joined, are allowed, may be
    /// put for the committed entries of the shared log, and lead to the state of those.
    pub fn committed(&self) -> &Committed<S::Op>
        ensures done { result.now ≡ self.now.config.done }
        ensures allowed { IsAllowed S.object self.now.shape (serial_ops self.now.config.done) }
        ensures ranged { AllRanged S.object (serial_ops self.now.config.done) }
        ensures serial { MayRunSerially (rules_of S.object self.now.shape) self.now.config }
        ensures state { HasSerialState (rules_of S.object self.now.shape) self.now.config }
    {
        &self.parts.committed
    }

    /// Does a step if each of its criteria holds, and else returns the machine as it was, with what
    /// shows that a criterion is false. The only error is out of memory, and the machine is then
    /// lost.
    pub fn step<L: Ledger>(
        self,
        step: &Step<S::Op>,
        ticks: &mut Ticks<L>,
    ) -> Result<(Self, Outcome<S::Op>), OutOfMemory>
        requires asked { IsAsked S.object self.shape (meaning step.now) }
        requires few { self.count < 4_294_967_295 }
        ensures effect { IfOk result (λ r. Stepped S.object self (meaning step.now) r.1 r.0) }
        ensures shown { IfOk result (λ r. IsShown S.object self (meaning step.now) r.1) }
        ensures one_more { IfOk result (λ r. r.0.count ≤ self.count + 1) }
        ensures cost { Costs S.place_of self (meaning step.now) result ticks.old ticks.new }
        ensures bound { ticks.new ≤ ticks.old + at_most S.place_of self.config (meaning step.now) }
        ensures sure { NeedsNoMemory (meaning step.now) → IsOk result }
    {
        // It is here for what its clauses say of each machine.
        let _sound = self.count();
        match step {
            Step::Begin { tx, thread, body } => self.begin(tx, thread, body),
            Step::App { tx, id, op } => self.app(tx, *id, op, ticks),
            Step::Unapp { tx, id } => self.unapp(tx, *id, ticks),
            Step::Push { tx, id } => self.push(tx, *id, ticks),
            Step::Unpush { tx, id } => self.unpush(tx, *id, ticks),
            Step::Pull { tx, id } => self.pull(tx, *id, ticks),
            Step::Unpull { tx, id } => self.unpull(tx, *id, ticks),
            Step::Cmt { tx } => self.commit(tx),
            Step::Quit { tx } => Ok(self.quit(tx)),
            Step::Note { tx } => Ok(self.note(tx)),
        }
    }
}
