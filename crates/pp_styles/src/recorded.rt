//! The records that the recorded styles share.
ghost use Rattle.std.specs.Prelude.{◌≡◌, ◌++◌, ◌∷◌, [], IfOk, drop};
ghost use Rattle.pp_core.specs.Steps.{App, Cmt, Note, Quit};
ghost use Rattle.pp_records.specs.Expansions.{back, op_at_once, op_later, pushall, where_open};
ghost use Rattle.pp_styles.specs.Meanings.{meanings};
ghost use Rattle.pp_styles.specs.Knowing.{IsAllBut};

use crate::pulls::{refresh, touches};
use crate::step_list::{StepList, add, only};
use crate::tracked::Tracked;
use crate::walks::{back, pushall};
use pp_core::{Name, OutOfMemory, Step};
use pp_kind::Parted;
use pp_log_local::Local;
use pp_log_shared::Shared;
use std::alloc::Global;

/// The steps of an operation that is published at once. It is told the ids of the committed entries
/// on its object that the local log may lack.
pub fn at_once<S: Parted>(
    alloc: Global,
    ids: &[u32],
    shared: &Shared<S>,
    local: &Local<S>,
    tx: &Name,
    id: u32,
    op: &S::Op,
) -> Result<StepList<S::Op>, OutOfMemory>
    requires { IsAllBut S.place_of (S.place_of op.now) shared.now.1 local.now.1 ids.now }
    ensures { IfOk result (λ list. meanings list
        ≡ op_at_once S.place_of shared.now.1 local.now.1 tx.now id op.now) }
{
    let mut list = StepList::new(alloc);
    refresh(alloc, &mut list, tx, S::place(op), ids, shared, local)?;
    add(
        &mut list,
        Step::App {
            tx: *tx,
            id,
            op: *op,
        },
    )?;
    add(&mut list, Step::Push { tx: *tx, id })?;
    Ok(list)
}

/// The steps of an operation that waits for its push, where the entries from a position on are
/// seen. It is told the ids of the committed entries on its object that the local log may lack.
pub fn later<S: Parted>(
    alloc: Global,
    seen: usize,
    ids: &[u32],
    shared: &Shared<S>,
    local: &Local<S>,
    tx: &Name,
    id: u32,
    op: &S::Op,
) -> Result<StepList<S::Op>, OutOfMemory>
    requires { IsAllBut S.place_of (S.place_of op.now) shared.now.1 local.now.1 ids.now }
    ensures { IfOk result (λ list. meanings list ≡ op_later S.place_of (drop seen local.now.1)
        shared.now.1 local.now.1 tx.now id op.now) }
{
    let mut list = StepList::new(alloc);
    let object = S::place(op);
    if !touches(local, object, seen) {
        refresh(alloc, &mut list, tx, object, ids, shared, local)?;
    }
    add(
        &mut list,
        Step::App {
            tx: *tx,
            id,
            op: *op,
        },
    )?;
    Ok(list)
}

/// The step of an operation of a transaction that is not open.
pub fn unopened<O: Copy>(
    alloc: Global,
    tx: &Name,
    id: u32,
    op: &O,
) -> Result<StepList<O>, OutOfMemory>
    ensures { IfOk result (λ list. meanings list ≡ App tx.now id op.now ∷ []) }
{
    only(
        alloc,
        Step::App {
            tx: *tx,
            id,
            op: *op,
        },
    )
}

/// The steps of an operation that is published at once, wherever the transaction stands.
pub fn op_published<S: Parted>(
    alloc: Global,
    machine: &mut Tracked<S>,
    tx: &Name,
    id: u32,
    op: &S::Op,
) -> Result<StepList<S::Op>, OutOfMemory>
    ensures steps { IfOk result (λ list. meanings list ≡ where_open machine.old.config tx.now
        (App tx.now id op.now)
        (λ l. op_at_once S.place_of machine.old.config.shared l tx.now id op.now)) }
    ensures machine { machine.new ≡ machine.old }
{
    let object = S::place(op);
    machine.look_at_taken(tx, object);
    let Some((local, ids)) = machine.local_on(tx, object) else {
        return unopened(alloc, tx, id, op);
    };
    at_once(alloc, ids, machine.shared(), local, tx, id, op)
}

/// The steps of a commit that pushes what waits.
pub fn commit<S: Parted>(
    alloc: Global,
    machine: &mut Tracked<S>,
    tx: &Name,
) -> Result<StepList<S::Op>, OutOfMemory>
    ensures steps { IfOk result (λ list. meanings list
        ≡ where_open machine.old.config tx.now (Cmt tx.now)
        (λ l. pushall tx.now l ++ Cmt tx.now ∷ [])) }
    ensures machine { machine.new ≡ machine.old }
{
    machine.look_at_pushed(tx);
    let Some(entries) = machine.unpushed(tx) else {
        return only(alloc, Step::Cmt { tx: *tx });
    };
    let mut list = StepList::new(alloc);
    pushall(&mut list, tx, entries)?;
    add(&mut list, Step::Cmt { tx: *tx })?;
    Ok(list)
}

/// The steps of an abort.
pub fn abort<S: Parted>(
    alloc: Global,
    machine: &Tracked<S>,
    tx: &Name,
) -> Result<StepList<S::Op>, OutOfMemory>
    ensures { IfOk result (λ list. meanings list ≡ where_open machine.now.config tx.now
        (Quit tx.now) (λ l. back tx.now 0 l ++ Quit tx.now ∷ [])) }
{
    let Some(local) = machine.local(tx) else {
        return only(alloc, Step::Quit { tx: *tx });
    };
    let mut list = StepList::new(alloc);
    back(&mut list, tx, 0, local.entries())?;
    add(&mut list, Step::Quit { tx: *tx })?;
    Ok(list)
}

/// The steps of a record that takes a local log back to this length.
pub fn back_to<S: Parted>(
    alloc: Global,
    machine: &Tracked<S>,
    tx: &Name,
    to: usize,
) -> Result<StepList<S::Op>, OutOfMemory>
    ensures { IfOk result (λ list. meanings list ≡ where_open machine.now.config tx.now
        (Note tx.now) (λ l. Note tx.now ∷ back tx.now to l)) }
{
    let mut list = only(alloc, Step::Note { tx: *tx })?;
    let Some(local) = machine.local(tx) else {
        return Ok(list);
    };
    back(&mut list, tx, to, local.entries())?;
    Ok(list)
}

/// The steps of a record that publishes what waits.
pub fn publish<S: Parted>(
    alloc: Global,
    machine: &mut Tracked<S>,
    tx: &Name,
) -> Result<StepList<S::Op>, OutOfMemory>
    ensures steps { IfOk result (λ list. meanings list ≡ where_open machine.old.config tx.now
        (Note tx.now) (λ l. Note tx.now ∷ pushall tx.now l)) }
    ensures machine { machine.new ≡ machine.old }
{
    let mut list = only(alloc, Step::Note { tx: *tx })?;
    machine.look_at_pushed(tx);
    let Some(entries) = machine.unpushed(tx) else {
        return Ok(list);
    };
    pushall(&mut list, tx, entries)?;
    Ok(list)
}
