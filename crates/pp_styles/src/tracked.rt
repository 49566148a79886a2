//! A machine with notes.
ghost use Rattle.std.specs.Prelude.{◌≡◌, ◌≤◌, ◌<◌, ◌+◌, IfNone, IfOk, IfSome, OnOk, Some, is_some};
ghost use Rattle.std.specs.Prelude.{option_map};
ghost use Rattle.std.specs.Option.{option_copied};
ghost use Rattle.pp_core.specs.Steps.{Pull, Unpull, Unpush, meaning};
ghost use Rattle.pp_core.specs.declared.entry.SharedEntry.{SharedEntry as EntryOf};
ghost use Rattle.pp_records.specs.Expansions.{pushall};
ghost use Rattle.pp_model.specs.Config.{Tx, tx as open_tx};
ghost use Rattle.pp_model.specs.Lists.{In};
ghost use Rattle.pp_model.specs.Sound.{Sound};
ghost use Rattle.pp_machine.specs.Costs.{Costs, at_most};
ghost use Rattle.pp_machine.specs.Shown.{IsShown};
ghost use Rattle.pp_machine.specs.Stepping.{IsAsked, Stepped};
ghost use Rattle.pp_kind.specs.Object.{rules_of};
ghost use Rattle.pp_styles.specs.Dropping.{IsPulledBut, ListsPull, pullings};
ghost use Rattle.pp_styles.specs.Knowing.{ForgetsBefore, IsAllBut, IsFollowedBut, IsTrueOf};
ghost use Rattle.pp_styles.specs.Knowing.{ListsAfter};
ghost use Rattle.pp_styles.specs.Noting.{known};
ghost use Rattle.pp_styles.specs.Publishing.{ListsPushed, PassesBack, TellsTrue, UnpassesBefore};
ghost use Rattle.pp_styles.specs.Publishing.{publications};
ghost use Rattle.pp_styles.specs.Sources.{kept_sources};

use crate::notes::Notes;
use crate::published::Published;
use crate::pulled::Pulled;
use crate::source_set::SourceSet;
use pp_core::{LocalEntry, Name, OutOfMemory, SharedEntry, Step, Ticks};
use pp_kind::Parted;
use pp_log_local::Local;
use pp_log_shared::Shared;
use pp_machine::{Machine, Outcome};
use std::alloc::Global;
use std::marker::Model;
use std::sync::ledger::Ledger;

/// A machine, with notes on its open transactions: which committed entries they have, and which of
/// their entries are pushed. Contracts see the machine.
#[derive(Drop)]
pub struct Tracked<S: Parted> {
    machine: Machine<S>,
    notes: Box<Notes>,
    published: Box<Published>,
    pulled: Box<Pulled>,
}

impl<S: Parted> Model for Tracked<S> {
    ghost use Rattle.pp_machine.specs.Machines.{Seen};
    ghost use Rattle.pp_core.specs.TreeCodes.{tree_code};
    ghost use Rattle.std.specs.Coded.{codes};

    ghost Value = { Seen S.Shape S.Op };

    ghost coded = { Prim.hlevel (codes, tree_code, S.Shape.code, S.Op.code) };

    ghost use Rattle.pp_styles.specs.Knowing.{IsTrueOf};
    ghost use Rattle.pp_styles.specs.Noting.{known};

    ghost view = { λ a. a.machine };

    ghost use Rattle.pp_styles.specs.Publishing.{TellsTrue, publications};
    ghost use Rattle.pp_styles.specs.Dropping.{KnowsPulled, pullings};

    ghost invariant = { λ a. IsTrueOf S.place_of (known a.notes.value) a.machine.config
        × TellsTrue S.place_of (publications a.published.value) a.machine.config
        × KnowsPulled (pullings a.pulled.value) a.machine.config };
}

/// The entry of this id in the shared log.
fn entry_of<S: Parted>(shared: &Shared<S>, id: u32) -> Option<&SharedEntry<S::Op>>
    ensures some { IfSome result (λ e. (g : EntryOf S.Op) → In g shared.now.1 → g.id ≡ id →
        g ≡ e.now) }
    ensures none { IfNone result ((g : EntryOf S.Op) → In g shared.now.1 → g.id ≡ id → ⊥) }
    ensures there { IfSome result (λ e. In e.now shared.now.1 × (e.now.id ≡ id)) }
{
    // It is called for what its clauses say of each log.
    let _distinct = shared.len();
    let at = shared.find(id)?;
    let entry = shared.entry(at)?;
    Some(entry)
}

/// Takes back the note that an entry which an UNPUSH marks is not unpushed.
fn mark_unpushed<S: Parted>(notes: &mut Notes, tx: &Name, id: u32, machine: &Machine<S>)
    ensures { ForgetsBefore S.place_of (Unpush tx.now id) machine.now.config (known notes.old)
        (known notes.new) }
{
    let Some(local) = machine.local(tx) else {
        return;
    };
    let Some(at) = local.find(id) else {
        return;
    };
    notes.lower_pushed(tx, at);
}

/// Takes back the note that an entry which an UNPULL removes is in the local log of a transaction.
fn note_unpulled<S: Parted>(notes: &mut Notes, tx: &Name, id: u32, machine: &Machine<S>)
    ensures { ForgetsBefore S.place_of (Unpull tx.now id) machine.now.config (known notes.old)
        (known notes.new) }
{
    let most = notes.pushed(tx).saturating_sub(1);
    notes.lower_pushed(tx, most);
    let Some(entry) = entry_of(machine.shared(), id) else {
        return;
    };
    if !entry.committed {
        return;
    }
    notes.give_back(tx, S::place(&entry.op), id);
}

/// Takes back that a transaction has passed an entry which an UNPULL removes.
fn unpass_unpulled<S: Parted>(published: &mut Published, tx: &Name, id: u32, shared: &Shared<S>)
    ensures { PassesBack S.place_of shared.now.1 tx.now id (publications published.old)
        (publications published.new) }
{
    let Some(entry) = entry_of(shared, id) else {
        return;
    };
    published.give_back(tx, &entry.owner, S::place(&entry.op), id);
}

/// Lowers the count of an object whose entry an UNPUSH removes from the shared log.
fn count_unpushed<S: Parted>(published: &mut Published, id: u32, shared: &Shared<S>)
    ensures { publications published.new ≡ publications published.old }
{
    let Some(entry) = entry_of(shared, id) else {
        return;
    };
    published.count_less(S::place(&entry.op));
}

/// Lists an entry that a PULL takes over.
fn list_pulled<S: Parted>(pulled: &mut Pulled, tx: &Name, id: u32, shared: &Shared<S>)
    ensures { ListsPull (Pull tx.now id) shared.now.1 (pullings pulled.old) (pullings pulled.new) }
{
    let Some(entry) = entry_of(shared, id) else {
        return;
    };
    pulled.add(tx, &entry.owner, id);
}

/// Lists what a step takes over, and keeps no lists of a transaction that begins or ends.
fn list_before<S: Parted>(pulled: &mut Pulled, step: &Step<S::Op>, shared: &Shared<S>)
    ensures { ListsPull (meaning step.now) shared.now.1 (pullings pulled.old)
        (pullings pulled.new) }
{
    match step {
        Step::Begin { tx, .. } | Step::Cmt { tx } | Step::Quit { tx } => pulled.forget(tx),
        Step::Pull { tx, id } => list_pulled(pulled, tx, *id, shared),
        Step::App { .. }
        | Step::Unapp { .. }
        | Step::Push { .. }
        | Step::Unpush { .. }
        | Step::Unpull { .. }
        | Step::Note { .. } => {}
    }
}

/// Forgets what a step may make untrue: what is known of a transaction that begins or ends, and of
/// an entry that an UNPUSH marks or an UNPULL takes out. No note counts what an UNAPP takes out.
fn forget_before<S: Parted>(
    notes: &mut Notes,
    published: &mut Published,
    step: &Step<S::Op>,
    machine: &Machine<S>,
)
    ensures notes { ForgetsBefore S.place_of (meaning step.now) machine.now.config
        (known notes.old) (known notes.new) }
    ensures published { UnpassesBefore S.place_of (meaning step.now) machine.now.config.shared
        (publications published.old) (publications published.new) }
{
    match step {
        Step::Begin { tx, .. } | Step::Cmt { tx } | Step::Quit { tx } => {
            notes.forget(tx);
            published.forget(tx);
        }
        Step::Unpush { tx, id } => {
            mark_unpushed(notes, tx, *id, machine);
            count_unpushed(published, *id, machine.shared());
        }
        Step::Unpull { tx, id } => {
            note_unpulled(notes, tx, *id, machine);
            unpass_unpulled(published, tx, *id, machine.shared());
        }
        Step::App { .. }
        | Step::Unapp { .. }
        | Step::Push { .. }
        | Step::Pull { .. }
        | Step::Note { .. } => {}
    }
}

/// Notes what a step committed.
fn note_after<S: Parted>(
    notes: &mut Notes,
    step: &Step<S::Op>,
    machine: &Machine<S>,
) -> Result<(), OutOfMemory>
    ensures { OnOk result (ListsAfter S.place_of (meaning step.now) machine.now.config.done
        (known notes.old) (known notes.new)) }
{
    match step {
        Step::Cmt { .. } => notes.note_last::<S>(machine.committed()),
        Step::Begin { .. }
        | Step::App { .. }
        | Step::Unapp { .. }
        | Step::Push { .. }
        | Step::Unpush { .. }
        | Step::Pull { .. }
        | Step::Unpull { .. }
        | Step::Quit { .. }
        | Step::Note { .. } => Ok(()),
    }
}

/// Lists what a step published.
fn list_after<S: Parted>(
    published: &mut Published,
    step: &Step<S::Op>,
    machine: &Machine<S>,
) -> Result<(), OutOfMemory>
    ensures { OnOk result (ListsPushed S.place_of (meaning step.now) machine.now.config.shared
        (publications published.old) (publications published.new)) }
{
    match step {
        Step::Push { .. } => published.note_last(machine.shared()),
        Step::Begin { .. }
        | Step::App { .. }
        | Step::Unapp { .. }
        | Step::Unpush { .. }
        | Step::Pull { .. }
        | Step::Unpull { .. }
        | Step::Cmt { .. }
        | Step::Quit { .. }
        | Step::Note { .. } => Ok(()),
    }
}

/// A copy of these ids.
fn copied(alloc: Global, ids: &[u32]) -> Result<Vec<u32>, OutOfMemory>
    ensures { IfOk result (λ copy. copy.items ≡ ids.now) }
{
    let mut copy = Vec::new(alloc);
    copy.extend_from_slice(ids)?;
    Ok(copy)
}

/// As `Tracked::wanted`.
fn wanted_of<S: Parted>(
    alloc: Global,
    notes: &Notes,
    published: &mut Published,
    machine: &Machine<S>,
    tx: &Name,
    object: u16,
    sources: Option<&SourceSet>,
) -> Result<Option<Vec<u32>>, OutOfMemory>
    requires noted { IsTrueOf S.place_of (known notes.now) machine.now.config }
    requires listed { TellsTrue S.place_of (publications published.old) machine.now.config }
    ensures listed { TellsTrue S.place_of (publications published.new) machine.now.config }
    ensures ids { IfOk result (λ r. IfSome r (λ ids. (x : Tx S.Op) →
        open_tx tx.now machine.now.config.opened ≡ Some x → IsFollowedBut S.place_of object
        (kept_sources (option_copied sources.entry)) machine.now.config.shared x.local
        ids.items)) }
{
    // It is called for what its clauses say of each machine.
    let _sound = machine.count();
    let Some(local) = machine.local(tx) else {
        return Ok(None);
    };
    let Some(sources) = sources else {
        let ids = copied(alloc, notes.unknown(tx, object))?;
        return Ok(Some(ids));
    };
    let shared = machine.shared();
    published.keep(shared)?;
    if published.is_walk_shorter(object, sources) {
        return Ok(None);
    }
    let mut ids = copied(alloc, notes.unknown(tx, object))?;
    published.add_missing(&mut ids, tx, object, sources, shared, local)?;
    Ok(Some(ids))
}

impl<S: Parted> Tracked<S> {
    /// A machine of which nothing is known yet. The only error is out of memory.
    pub fn new(alloc: Global, machine: Machine<S>) -> Result<Self, OutOfMemory>
        ensures { IfOk result (λ tracked. tracked ≡ machine) }
    {
        let mut notes = Notes::new(alloc);
        notes.note_all::<S>(machine.committed())?;
        let notes = Box::new(alloc, notes)?;
        let published = Box::new(alloc, Published::new(alloc))?;
        let pulled = Box::new(alloc, Pulled::new(alloc))?;
        Ok(Tracked {
            machine,
            notes,
            published,
            pulled,
        })
    }

    /// How many steps were done. The configuration is sound, as that of each machine.
    pub fn count(&self) -> u32
        ensures count { result ≡ self.now.count }
        ensures sound { Sound (rules_of S.object self.now.shape) self.now.config }
    {
        self.machine.count()
    }

    /// Whether a transaction of this name is open.
    pub fn is_open(&self, tx: &Name) -> bool
        ensures { result ≡ is_some (open_tx tx.now self.now.config.opened) }
    {
        self.machine.is_open(tx)
    }

    /// The machine.
    pub fn machine(&self) -> &Machine<S>
        ensures { result.now ≡ self.now }
    {
        &self.machine
    }

    /// The machine itself.
    pub fn into_machine(self) -> Machine<S>
        ensures { result ≡ self }
    {
        self.machine
    }

    /// The shared log.
    pub fn shared(&self) -> &Shared<S>
        ensures { result.now ≡ (self.now.shape, self.now.config.shared) }
    {
        self.machine.shared()
    }

    /// The local log of an open transaction.
    pub fn local(&self, tx: &Name) -> Option<&Local<S>>
        ensures { option_copied result ≡ option_map (λ x.
            (self.now.shape, x.local)) (open_tx tx.now self.now.config.opened) }
    {
        self.machine.local(tx)
    }

    /// The local log of an open transaction, and the ids of committed entries on an object. Each
    /// such entry is in the local log, or its id is among these.
    pub fn local_on(&self, tx: &Name, object: u16) -> Option<(&Local<S>, &[u32])>
        ensures local { option_map (λ r. r.0.now) result ≡ option_map (λ x.
            (self.now.shape, x.local)) (open_tx tx.now self.now.config.opened) }
        ensures ids { IfSome result (λ r.
            IsAllBut S.place_of object self.now.config.shared r.0.now.1 r.1.now) }
    {
        // It is called for what its clauses say of each machine.
        let _sound = self.machine.count();
        let local = self.machine.local(tx)?;
        Some((local, self.notes.unknown(tx, object)))
    }

    /// Entries of the local log of an open transaction, with all those that are its own and
    /// unpushed among them.
    pub fn unpushed(&self, tx: &Name) -> Option<&[LocalEntry<S::Op>]>
        ensures { option_map (λ entries. pushall tx.now entries.now) result ≡ option_map (λ x.
            pushall tx.now x.local) (open_tx tx.now self.now.config.opened) }
    {
        // It is called for what its clauses say of each machine.
        let _sound = self.machine.count();
        let local = self.machine.local(tx)?;
        let entries = local.entries();
        let from = self.notes.pushed(tx).min(entries.len());
        Some(&entries[from..])
    }

    /// Looks which committed entries on an object an open transaction has.
    pub fn look_at_taken(&mut self, tx: &Name, object: u16)
        ensures { self.new ≡ self.old }
    {
        // It is called for what its clauses say of each machine.
        let _sound = self.machine.count();
        let Some(local) = self.machine.local(tx) else {
            return;
        };
        self.notes.look_at_taken(tx, object, local);
    }

    /// Ids of entries on an object: each entry that is committed or owned by one of these sources is
    /// in the local log of the open transaction, or its id is among these. It returns none if a walk
    /// over the shared log is shorter.
    pub fn wanted(
        &mut self,
        alloc: Global,
        tx: &Name,
        object: u16,
        sources: Option<&SourceSet>,
    ) -> Result<Option<Vec<u32>>, OutOfMemory>
        ensures same { self.new ≡ self.old }
        ensures ids { IfOk result (λ r. IfSome r (λ ids. (x : Tx S.Op) →
            open_tx tx.now self.old.config.opened ≡ Some x → IsFollowedBut S.place_of object
            (kept_sources (option_copied sources.entry)) self.old.config.shared x.local
            ids.items)) }
    {
        wanted_of(
            alloc,
            &self.notes,
            &mut self.published,
            &self.machine,
            tx,
            object,
            sources,
        )
    }

    /// Looks which entries of an open transaction are pushed.
    pub fn look_at_pushed(&mut self, tx: &Name)
        ensures { self.new ≡ self.old }
    {
        // It is called for what its clauses say of each machine.
        let _sound = self.machine.count();
        let Some(local) = self.machine.local(tx) else {
            return;
        };
        self.notes.look_at_pushed(tx, local);
    }

    /// Begins to list what an open transaction pulled, unless it is listed.
    pub fn look_at_pulled(&mut self, tx: &Name)
        ensures { self.new ≡ self.old }
    {
        // It is called for what its clauses say of each machine.
        let _sound = self.machine.count();
        let Some(local) = self.machine.local(tx) else {
            return;
        };
        self.pulled.look(tx, local.entries());
    }

    /// Takes out of what is listed of a source the ids that an open transaction no longer has.
    pub fn trim_pulled(&mut self, tx: &Name, source: &Name)
        ensures { self.new ≡ self.old }
    {
        // It is called for what its clauses say of each machine.
        let _sound = self.machine.count();
        let Some(local) = self.machine.local(tx) else {
            return;
        };
        self.pulled.trim(tx, source, local);
    }

    /// Ids of entries that an open transaction pulled from a source: each such entry of its local log
    /// has its id among these. It returns none if they are not listed.
    pub fn pulled_from(&self, tx: &Name, source: &Name) -> Option<&[u32]>
        ensures { IfSome result (λ ids. (x : Tx S.Op) →
            open_tx tx.now self.now.config.opened ≡ Some x →
            IsPulledBut source.now x.local ids.now) }
    {
        self.pulled.ids(tx, source)
    }

    /// As `Machine::step`.
    pub fn step<L: Ledger>(
        self,
        step: &Step<S::Op>,
        ticks: &mut Ticks<L>,
    ) -> Result<(Self, Outcome<S::Op>), OutOfMemory>
        requires asked { IsAsked S.object self.shape (meaning step.now) }
        requires few { self.count < 4_294_967_295 }
        ensures effect { IfOk result (λ r. Stepped S.object self (meaning step.now) r.1 r.0) }
        ensures shown { IfOk result (λ r. IsShown S.object self (meaning step.now) r.1) }
        ensures cost { Costs S.place_of self (meaning step.now) result ticks.old ticks.new }
        ensures bound { ticks.new ≤ ticks.old + at_most S.place_of self.config (meaning step.now) }
    {
        let Tracked {
            machine,
            mut notes,
            mut published,
            mut pulled,
        } = self;
        // It is called for what its clauses say of each machine.
        let _sound = machine.count();
        forget_before(&mut notes, &mut published, step, &machine);
        list_before(&mut pulled, step, machine.shared());
        let (machine, outcome) = machine.step(step, ticks)?;
        note_after(&mut notes, step, &machine)?;
        list_after(&mut published, step, &machine)?;
        Ok((
            Tracked {
                machine,
                notes,
                published,
                pulled,
            },
            outcome,
        ))
    }
}
