//! Style optimistic: operations wait for their push at the commit.
ghost use Rattle.std.specs.Prelude.{◌≡◌, ◌∷◌, IfOk};
ghost use Rattle.pp_core.specs.Steps.{App, Note};
ghost use Rattle.pp_core.specs.declared.call.Style.TheVariants as styles;
ghost use Rattle.pp_records.specs.Expansions.{op_later, refresh, where_open};
ghost use Rattle.pp_records.specs.Fronts.{new_front};
ghost use Rattle.pp_styles.specs.Meanings.{meanings};

use crate::front::Front;
use crate::pulls::refresh;
use crate::recorded::{abort, back_to, commit, later, unopened};
use crate::step_list::{StepList, only, only_copied};
use crate::tracked::Tracked;
use pp_core::{Name, OutOfMemory, Step};
use pp_kind::Parted;
use pp_records::RunRecord;
use std::alloc::Global;

/// The front of style optimistic, which keeps nothing.
#[derive(Drop)]
pub struct Optimistic {
    alloc: Global,
}

impl Optimistic {
    pub fn new(alloc: Global) -> Optimistic {
        Optimistic { alloc }
    }
}

/// The steps of an operation.
fn op_steps<S: Parted>(
    alloc: Global,
    machine: &mut Tracked<S>,
    tx: &Name,
    id: u32,
    op: &S::Op,
) -> Result<StepList<S::Op>, OutOfMemory>
    ensures steps { IfOk result (λ list. meanings list ≡ where_open machine.old.config tx.now
        (App tx.now id op.now)
        (λ l. op_later S.place_of l machine.old.config.shared l tx.now id op.now)) }
    ensures machine { machine.new ≡ machine.old }
{
    let object = S::place(op);
    machine.look_at_taken(tx, object);
    let Some((local, ids)) = machine.local_on(tx, object) else {
        return unopened(alloc, tx, id, op);
    };
    later(alloc, 0, ids, machine.shared(), local, tx, id, op)
}

/// The steps of a refresh.
fn refresh_steps<S: Parted>(
    alloc: Global,
    machine: &mut Tracked<S>,
    tx: &Name,
    object: u16,
) -> Result<StepList<S::Op>, OutOfMemory>
    ensures steps { IfOk result (λ list. meanings list ≡ where_open machine.old.config tx.now
        (Note tx.now)
        (λ l. Note tx.now ∷ refresh S.place_of tx.now object machine.old.config.shared l)) }
    ensures machine { machine.new ≡ machine.old }
{
    let mut list = only(alloc, Step::Note { tx: *tx })?;
    machine.look_at_taken(tx, object);
    let Some((local, ids)) = machine.local_on(tx, object) else {
        return Ok(list);
    };
    let shared = machine.shared();
    refresh(alloc, &mut list, tx, object, ids, shared, local)?;
    Ok(list)
}

impl<S: Parted> Front<S> for Optimistic {
    ghost style = { λ f. styles.Optimistic };

    ghost state = { λ kinds f. new_front kinds };

    fn expand(
        &mut self,
        recorded: &RunRecord<S::Op>,
        machine: &mut Tracked<S>,
    ) -> Result<StepList<S::Op>, OutOfMemory> {
        match recorded {
            RunRecord::Plain(step) => only_copied(self.alloc, step),
            RunRecord::Op { tx, id, op } => op_steps(self.alloc, machine, tx, *id, op),
            RunRecord::Commit { tx } => commit(self.alloc, machine, tx),
            RunRecord::Abort { tx } => abort(self.alloc, machine, tx),
            RunRecord::Retry { tx } => back_to(self.alloc, machine, tx, 0),
            RunRecord::Refresh { tx, object } => { refresh_steps(self.alloc, machine, tx, *object) }
            RunRecord::XBegin { .. }
            | RunRecord::XEnd { .. }
            | RunRecord::XAbort { .. }
            | RunRecord::Depend { .. }
            | RunRecord::Publish { .. }
            | RunRecord::DropSource { .. } => unreachable!(),
        }
    }
}
