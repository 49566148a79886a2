//! Style hardware: in a section, operations on memories wait for its end.
ghost use Rattle.std.specs.Prelude.{◌≡◌, ◌∷◌, [], IfOk, OnOk, None};
ghost use Rattle.std.specs.Prelude.{if◌then◌else◌, length, slice_get};
ghost use Rattle.std.specs.Map.{lookup};
ghost use Rattle.std.specs.Str.{bytes_eq};
ghost use Rattle.pp_core.specs.Steps.{App, Note};
ghost use Rattle.pp_core.specs.declared.call.Style.TheVariants as styles;
ghost use Rattle.pp_records.specs.Expansions.{changed_where_open, hardware_op, where_open};
ghost use Rattle.pp_records.specs.Fronts.{at_name, is_mem, is_memory, mark_of, new_front, opened_at};
ghost use Rattle.pp_records.specs.Fronts.{with_section};
ghost use Rattle.pp_model.specs.Names.{Name as NameOf};
ghost use Rattle.pp_styles.specs.Meanings.{meanings};

use crate::front::Front;
use crate::recorded::{abort, at_once, back_to, commit, later, publish, unopened};
use crate::step_list::{StepList, only, only_copied};
use crate::tracked::Tracked;
use indexmap::IndexMap;
use pp_core::{Kind, Kinds, Name, OutOfMemory, Step};
use pp_kind::Parted;
use pp_records::RunRecord;
use std::alloc::Global;

/// How long the local log of each transaction in a section was where the section began.
type Sections = IndexMap<Name, usize>;

/// The front of style hardware, which keeps the open sections.
#[derive(Drop)]
pub struct Hardware {
    alloc: Global,
    kinds: Kinds,
    sections: Sections,
}

/// Whether the object is a memory.
fn is_memory(kinds: &Kinds, object: u16) -> bool
    ensures { result ≡ is_memory (slice_get kinds.now object) }
{
    let Some(kind) = kinds.get(usize::from(object)) else {
        return false;
    };
    match kind {
        Kind::Memory => true,
        Kind::KeySet | Kind::KeyMap | Kind::Counter => false,
        Kind::Queue | Kind::Stack | Kind::PriorityQueue => false,
    }
}

/// Opens a section at this mark, unless one is open.
fn begin_section(sections: &mut Sections, tx: &Name, mark: usize) -> Result<(), OutOfMemory>
    ensures { OnOk result ((u : NameOf) → lookup (bytes_eq u) sections.new.entries
        ≡ at_name tx.now (opened_at mark (lookup (bytes_eq tx.now) sections.old.entries))
        (λ v. lookup (bytes_eq v) sections.old.entries) u) }
{
    if !sections.contains_key(tx) {
        sections.insert(*tx, mark)?;
    }
    Ok(())
}

/// Ends the section, if one is open.
fn end_section(sections: &mut Sections, tx: &Name)
    ensures { (u : NameOf) → lookup (bytes_eq u) sections.new.entries
        ≡ at_name tx.now None (λ v. lookup (bytes_eq v) sections.old.entries) u }
{
    sections.swap_remove(tx);
}

impl Hardware {
    ghost use Rattle.pp_styles.specs.States.{hardware_state};

    /// No section, over objects of these kinds.
    pub fn new(alloc: Global, kinds: Kinds) -> Hardware
        ensures { hardware_state result ≡ new_front kinds }
    {
        Hardware {
            alloc,
            kinds,
            sections: IndexMap::new(alloc),
        }
    }

    /// The mark of the section, and 0 where none is open.
    fn mark(&self, tx: &Name) -> usize
        ensures { result ≡ mark_of ((hardware_state self.now).section tx.now) }
    {
        self.sections.get(tx).copied().unwrap_or(0)
    }

    /// The mark of the section in which an operation on the object waits.
    fn mark_on(&self, tx: &Name, object: u16) -> Option<usize>
        ensures { result ≡ (if is_mem (hardware_state self.now) object
            then (hardware_state self.now).section tx.now else None) }
    {
        if !is_memory(&self.kinds, object) {
            return None;
        }
        self.sections.get(tx).copied()
    }

    /// The steps of an operation.
    fn op_steps<S: Parted>(
        &self,
        machine: &mut Tracked<S>,
        tx: &Name,
        id: u32,
        op: &S::Op,
    ) -> Result<StepList<S::Op>, OutOfMemory>
        ensures steps { IfOk result (λ list. meanings list ≡ where_open machine.old.config tx.now
            (App tx.now id op.now)
            (λ l. hardware_op S.place_of (is_mem (hardware_state self.now) (S.place_of op.now))
            ((hardware_state self.now).section tx.now) machine.old.config.shared l tx.now id
            op.now)) }
        ensures machine { machine.new ≡ machine.old }
    {
        let object = S::place(op);
        machine.look_at_taken(tx, object);
        let Some((local, ids)) = machine.local_on(tx, object) else {
            return unopened(self.alloc, tx, id, op);
        };
        let shared = machine.shared();
        match self.mark_on(tx, object) {
            Some(mark) => later(self.alloc, mark, ids, shared, local, tx, id, op),
            None => at_once(self.alloc, ids, shared, local, tx, id, op),
        }
    }

    /// Opens a section where the transaction is open, unless one is open.
    fn begin<S: Parted>(&mut self, machine: &Tracked<S>, tx: &Name) -> Result<(), OutOfMemory>
        ensures { OnOk result (hardware_state self.new ≡ changed_where_open machine.now.config
            tx.now (hardware_state self.old) (λ l. with_section (hardware_state self.old) tx.now
            (opened_at (length l) ((hardware_state self.old).section tx.now)))) }
    {
        let Some(local) = machine.local(tx) else {
            return Ok(());
        };
        begin_section(&mut self.sections, tx, local.len())
    }

    /// Ends the section where the transaction is open.
    fn end<S: Parted>(&mut self, machine: &Tracked<S>, tx: &Name)
        ensures { hardware_state self.new ≡ changed_where_open machine.now.config
            tx.now (hardware_state self.old) (λ l. with_section (hardware_state self.old) tx.now
            None) }
    {
        if machine.is_open(tx) {
            end_section(&mut self.sections, tx);
        }
    }
}

impl<S: Parted> Front<S> for Hardware {
    ghost use Rattle.pp_styles.specs.States.{hardware_state};

    ghost style = { λ f. styles.Hardware };

    ghost state = { λ kinds f. hardware_state f };

    fn expand(
        &mut self,
        recorded: &RunRecord<S::Op>,
        machine: &mut Tracked<S>,
    ) -> Result<StepList<S::Op>, OutOfMemory> {
        match recorded {
            RunRecord::Plain(step) => only_copied(self.alloc, step),
            RunRecord::Op { tx, id, op } => self.op_steps(machine, tx, *id, op),
            RunRecord::Commit { tx } => commit(self.alloc, machine, tx),
            RunRecord::Abort { tx } => abort(self.alloc, machine, tx),
            RunRecord::Retry { tx } => {
                let list = back_to(self.alloc, machine, tx, 0)?;
                self.end(machine, tx);
                Ok(list)
            }
            RunRecord::XBegin { tx } => {
                self.begin(machine, tx)?;
                only(self.alloc, Step::Note { tx: *tx })
            }
            RunRecord::XEnd { tx } => {
                let list = publish(self.alloc, machine, tx)?;
                self.end(machine, tx);
                Ok(list)
            }
            RunRecord::XAbort { tx } => {
                let list = back_to(self.alloc, machine, tx, self.mark(tx))?;
                self.end(machine, tx);
                Ok(list)
            }
            RunRecord::Refresh { .. }
            | RunRecord::Depend { .. }
            | RunRecord::Publish { .. }
            | RunRecord::DropSource { .. } => unreachable!(),
        }
    }
}
