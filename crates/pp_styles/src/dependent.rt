//! Style dependent: a transaction may read what others published and have not committed.
ghost use Rattle.std.specs.Prelude.{◌≡◌, ◌++◌, ◌∷◌, [], IfOk, IfSome, List, OnOk};
ghost use Rattle.std.specs.Option.{option_copied};
ghost use Rattle.pp_core.specs.Steps.{App, Note};
ghost use Rattle.pp_core.specs.declared.call.Kind.{Kind};
ghost use Rattle.pp_core.specs.declared.call.Style.TheVariants as styles;
ghost use Rattle.pp_records.specs.Expansions.{changed_where_open, dependent_op, follow, unpulls};
ghost use Rattle.pp_records.specs.Expansions.{where_open};
ghost use Rattle.pp_records.specs.Fronts.{at_name, has_name, new_front, with_source, with_sources};
ghost use Rattle.pp_records.specs.Fronts.{without_source};
ghost use Rattle.pp_model.specs.Names.{Name as NameOf};
ghost use Rattle.pp_styles.specs.Meanings.{meanings};
ghost use Rattle.pp_styles.specs.Dropping.{IsPulledBut};
ghost use Rattle.pp_styles.specs.Knowing.{IsFollowedBut};
ghost use Rattle.pp_styles.specs.SameFronts.{SameFront};
ghost use Rattle.pp_styles.specs.Sources.{kept_sources, sources_in};

use crate::drops::unpull_ids;
use crate::front::Front;
use crate::pulls::{follow, follow_ids};
use crate::recorded::{abort, back_to, commit, publish, unopened};
use crate::source_set::{SourceSet, add_source, remove_source};
use crate::step_list::{StepList, add, only, only_copied};
use crate::tracked::Tracked;
use crate::walks::unpull_all;
use indexmap::IndexMap;
use pp_core::{Name, OutOfMemory, Step};
use pp_kind::Parted;
use pp_log_local::Local;
use pp_log_shared::Shared;
use pp_records::RunRecord;
use std::alloc::Global;

/// The sources of each transaction that has some.
type Sources = IndexMap<Name, SourceSet>;

/// The front of style dependent, which keeps the sources.
#[derive(Drop)]
pub struct Dependent {
    alloc: Global,
    sources: Sources,
}

/// Gives a transaction one more source.
fn depend(alloc: Global, sources: &mut Sources, tx: &Name, source: &Name) -> Result<(), OutOfMemory>
    ensures { OnOk result ((u : NameOf) → sources_in u sources.new.entries
        ≡ at_name tx.now (with_source source.now (sources_in tx.now sources.old.entries))
        (λ v. sources_in v sources.old.entries) u) }
{
    let mut kept = match sources.swap_remove(tx) {
        Some(kept) => kept,
        None => SourceSet::new(alloc),
    };
    add_source(&mut kept, source)?;
    sources.insert(*tx, kept)?;
    Ok(())
}

/// Takes one source from a transaction.
fn give_up(sources: &mut Sources, tx: &Name, source: &Name) -> Result<(), OutOfMemory>
    ensures { OnOk result ((u v : NameOf) → has_name v (sources_in u sources.new.entries)
        ≡ has_name v (at_name tx.now
        (without_source source.now (sources_in tx.now sources.old.entries))
        (λ w. sources_in w sources.old.entries) u)) }
{
    let Some(mut kept) = sources.swap_remove(tx) else {
        return Ok(());
    };
    remove_source(&mut kept, source);
    sources.insert(*tx, kept)?;
    Ok(())
}

/// Takes all sources from a transaction.
fn forget(sources: &mut Sources, tx: &Name)
    ensures { (u : NameOf) → sources_in u sources.new.entries
        ≡ at_name tx.now [] (λ v. sources_in v sources.old.entries) u }
{
    sources.swap_remove(tx);
}

/// Adds UNPULL of what was pulled from a source, from the end. If it is told ids of entries, it looks
/// at no others.
fn unpull_from<S: Parted>(
    alloc: Global,
    list: &mut StepList<S::Op>,
    tx: &Name,
    source: &Name,
    ids: Option<&[u32]>,
    local: &Local<S>,
) -> Result<(), OutOfMemory>
    requires { IfSome ids (λ ids. IsPulledBut source.now local.now.1 ids.now) }
    ensures { OnOk result (meanings list.new
        ≡ meanings list.old ++ unpulls tx.now source.now local.now.1) }
{
    match ids {
        Some(ids) => unpull_ids(alloc, list, tx, source, ids, local),
        None => unpull_all(list, tx, source, local.entries()),
    }
}

/// The steps of a record that gives up a source.
fn drop_steps<S: Parted>(
    alloc: Global,
    machine: &mut Tracked<S>,
    tx: &Name,
    source: &Name,
) -> Result<StepList<S::Op>, OutOfMemory>
    ensures steps { IfOk result (λ list. meanings list ≡ where_open machine.old.config tx.now
        (Note tx.now) (λ l. Note tx.now ∷ unpulls tx.now source.now l)) }
    ensures machine { machine.new ≡ machine.old }
{
    let mut list = only(alloc, Step::Note { tx: *tx })?;
    machine.look_at_pulled(tx);
    machine.trim_pulled(tx, source);
    let Some(local) = machine.local(tx) else {
        return Ok(list);
    };
    unpull_from(
        alloc,
        &mut list,
        tx,
        source,
        machine.pulled_from(tx, source),
        local,
    )?;
    Ok(list)
}

/// Adds PULL of what a transaction with these sources takes over of an object. If it is told ids of
/// entries, it looks at no others.
fn take_over<S: Parted>(
    alloc: Global,
    list: &mut StepList<S::Op>,
    tx: &Name,
    object: u16,
    sources: Option<&SourceSet>,
    ids: Option<&Vec<u32>>,
    shared: &Shared<S>,
    local: &Local<S>,
) -> Result<(), OutOfMemory>
    requires { IfSome (option_copied ids) (λ ids. IsFollowedBut S.place_of object
        (kept_sources (option_copied sources)) shared.now.1 local.now.1 ids.items) }
    ensures { OnOk result (meanings list.new ≡ meanings list.old
        ++ follow S.place_of tx.now object (kept_sources (option_copied sources.entry)) shared.now.1
        local.now.1) }
{
    match ids {
        Some(ids) => follow_ids(alloc, list, tx, object, sources, ids, shared, local),
        None => follow(list, tx, object, sources, shared, local),
    }
}

impl Dependent {
    ghost use Rattle.pp_styles.specs.States.{dependent_state};

    /// No transaction has a source.
    pub fn new(alloc: Global) -> Dependent
        ensures { (kinds : List Kind) → dependent_state kinds result ≡ new_front kinds }
    {
        Dependent {
            alloc,
            sources: IndexMap::new(alloc),
        }
    }

    /// The sources of a transaction, where any are kept.
    fn sources(&self, tx: &Name) -> Option<&SourceSet>
        ensures { kept_sources (option_copied result) ≡ sources_in tx.now self.now.sources.entries }
    {
        self.sources.get(tx)
    }

    /// The steps of an operation.
    fn op_steps<S: Parted>(
        &self,
        machine: &mut Tracked<S>,
        tx: &Name,
        id: u32,
        op: &S::Op,
    ) -> Result<StepList<S::Op>, OutOfMemory>
        ensures steps { IfOk result (λ list. meanings list ≡ where_open machine.old.config tx.now
            (App tx.now id op.now) (λ l. dependent_op S.place_of
            (sources_in tx.now self.now.sources.entries) machine.old.config.shared l tx.now id
            op.now)) }
        ensures machine { machine.new ≡ machine.old }
    {
        let object = S::place(op);
        machine.look_at_taken(tx, object);
        let sources = self.sources(tx);
        let ids = machine.wanted(self.alloc, tx, object, sources)?;
        let Some(local) = machine.local(tx) else {
            return unopened(self.alloc, tx, id, op);
        };
        let mut list = StepList::new(self.alloc);
        take_over(
            self.alloc,
            &mut list,
            tx,
            object,
            sources,
            ids.as_ref(),
            machine.shared(),
            local,
        )?;
        add(
            &mut list,
            Step::App {
                tx: *tx,
                id,
                op: *op,
            },
        )?;
        Ok(list)
    }

    /// Gives an open transaction one more source.
    fn depend<S: Parted>(
        &mut self,
        machine: &Tracked<S>,
        tx: &Name,
        source: &Name,
    ) -> Result<(), OutOfMemory>
        ensures { (kinds : List Kind) → OnOk result (dependent_state kinds self.new
            ≡ changed_where_open machine.now.config tx.now (dependent_state kinds self.old)
            (λ l. with_sources (dependent_state kinds self.old) tx.now
            (with_source source.now ((dependent_state kinds self.old).sources tx.now)))) }
    {
        if machine.is_open(tx) {
            depend(self.alloc, &mut self.sources, tx, source)?;
        }
        Ok(())
    }

    /// Takes one source from an open transaction.
    fn give_up<S: Parted>(
        &mut self,
        machine: &Tracked<S>,
        tx: &Name,
        source: &Name,
    ) -> Result<(), OutOfMemory>
        ensures { (kinds : List Kind) → OnOk result (SameFront (dependent_state kinds self.new)
            (changed_where_open machine.now.config tx.now (dependent_state kinds self.old)
            (λ l. with_sources (dependent_state kinds self.old) tx.now
            (without_source source.now ((dependent_state kinds self.old).sources tx.now))))) }
    {
        if machine.is_open(tx) {
            give_up(&mut self.sources, tx, source)?;
        }
        Ok(())
    }

    /// Takes all sources from an open transaction.
    fn forget<S: Parted>(&mut self, machine: &Tracked<S>, tx: &Name)
        ensures { (kinds : List Kind) → dependent_state kinds self.new
            ≡ changed_where_open machine.now.config tx.now (dependent_state kinds self.old)
            (λ l. with_sources (dependent_state kinds self.old) tx.now []) }
    {
        if machine.is_open(tx) {
            forget(&mut self.sources, tx);
        }
    }
}

impl<S: Parted> Front<S> for Dependent {
    ghost use Rattle.pp_styles.specs.States.{dependent_state};

    ghost style = { λ f. styles.Dependent };

    ghost state = { λ kinds f. dependent_state kinds f };

    fn expand(
        &mut self,
        recorded: &RunRecord<S::Op>,
        machine: &mut Tracked<S>,
    ) -> Result<StepList<S::Op>, OutOfMemory> {
        match recorded {
            RunRecord::Plain(step) => only_copied(self.alloc, step),
            RunRecord::Op { tx, id, op } => self.op_steps(machine, tx, *id, op),
            RunRecord::Commit { tx } => commit(self.alloc, machine, tx),
            RunRecord::Abort { tx } => abort(self.alloc, machine, tx),
            RunRecord::Retry { tx } => {
                let list = back_to(self.alloc, machine, tx, 0)?;
                self.forget(machine, tx);
                Ok(list)
            }
            RunRecord::Depend { tx, source } => {
                self.depend(machine, tx, source)?;
                only(self.alloc, Step::Note { tx: *tx })
            }
            RunRecord::Publish { tx } => publish(self.alloc, machine, tx),
            RunRecord::DropSource { tx, source } => {
                self.give_up(machine, tx, source)?;
                drop_steps(self.alloc, machine, tx, source)
            }
            RunRecord::Refresh { .. }
            | RunRecord::XBegin { .. }
            | RunRecord::XEnd { .. }
            | RunRecord::XAbort { .. } => unreachable!(),
        }
    }
}
