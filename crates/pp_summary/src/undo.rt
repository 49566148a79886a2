//! An abort record, and a retry record.
ghost use Rattle.std.specs.Prelude.{◌≡◌, ◌+◌, ◌<◌, ◌≤◌, IfOk};
ghost use Rattle.pp_summary.specs.Held.{TakeCosts, own_count};
ghost use Rattle.pp_summary.specs.Moving.{Answers};
ghost use Rattle.pp_summary.specs.Shown.{KeepsQuick, shown};
ghost use Rattle.pp_summary.specs.Undoing.{undo_record};

use crate::open_tx::begin_again;
use crate::own::Own;
use crate::parts::Parts;
use crate::slots::{put_back, take_out};
use pp_core::{Name, OutOfMemory, Ticks};
use pp_kind::{Parted, TakesBack};
use pp_log_shared::Shared;
use std::sync::ledger::Ledger;

/// What an open transaction does after its operations were taken back.
#[derive(Drop)]
pub enum Undoing {
    /// It aborts.
    Abort,
    /// It begins again.
    Retry,
}

/// Takes an abort or a retry record if the transaction is open. The only error is out
/// of memory.
fn undo_parts<S: Parted + TakesBack, L: Ledger>(
    parts: Parts<S::Shape, S::Op, Shared<S>, Own<S>>,
    how: Undoing,
    tx: &Name,
    ticks: &mut Ticks<L>,
) -> Result<(Parts<S::Shape, S::Op, Shared<S>, Own<S>>, bool), OutOfMemory>
    requires keeps { KeepsQuick S.object S.place_of parts }
    requires few { parts.count < 4_294_967_295 }
    ensures answers { IfOk result (λ r.
        Answers S.object S.place_of parts (undo_record how tx.now) r.1 r.0) }
    ensures cost { IfOk result (λ r. TakeCosts (shown S.place_of parts)
        (undo_record how tx.now) r.1 ticks.old ticks.new) }
    ensures rises { ticks.old ≤ ticks.new }
    ensures bound { ticks.new ≤ ticks.old + own_count tx.now (shown S.place_of parts) }
{
    let mut parts = parts;
    let Some(it) = take_out(&mut parts.slots, tx) else {
        return Ok((parts, false));
    };
    let shared = parts.shared.take_back(it.own.as_slice(), ticks)?;
    parts.shared = shared;
    match how {
        Undoing::Abort => {
            parts.threads.swap_remove(&it.thread);
        }
        Undoing::Retry => {
            put_back(&mut parts.slots, tx, begin_again::<S>(parts.alloc, it));
        }
    }
    parts.count += 1;
    Ok((parts, true))
}

/// Puts the parts into a box again. The only error is out of memory.
fn in_box<S: Parted>(
    parts: Parts<S::Shape, S::Op, Shared<S>, Own<S>>,
) -> Result<Box<Parts<S::Shape, S::Op, Shared<S>, Own<S>>>, OutOfMemory>
    ensures { IfOk result (λ b. b.value ≡ parts) }
{
    let alloc = parts.alloc;
    Ok(Box::new(alloc, parts)?)
}

/// Takes an abort or a retry record if it is good: the entries of the open transaction leave the
/// shared log, and it aborts or begins again. `take_back` consumes the shared log, so the parts
/// leave their box for that time. This is a function of its own so that `take` needs no room for
/// the parts on its stack. The only error is out of memory.
pub fn undo<S: Parted + TakesBack, L: Ledger>(
    parts: Box<Parts<S::Shape, S::Op, Shared<S>, Own<S>>>,
    how: Undoing,
    tx: &Name,
    ticks: &mut Ticks<L>,
) -> Result<(Box<Parts<S::Shape, S::Op, Shared<S>, Own<S>>>, bool), OutOfMemory>
    requires keeps { KeepsQuick S.object S.place_of parts.value }
    requires few { parts.value.count < 4_294_967_295 }
    ensures answers { IfOk result (λ r.
        Answers S.object S.place_of parts.value (undo_record how tx.now) r.1 r.0.value) }
    ensures cost { IfOk result (λ r. TakeCosts (shown S.place_of parts.value)
        (undo_record how tx.now) r.1 ticks.old ticks.new) }
    ensures rises { ticks.old ≤ ticks.new }
    ensures bound { ticks.new ≤ ticks.old + own_count tx.now (shown S.place_of parts.value) }
{
    let (parts, good) = undo_parts(Box::into_inner(parts), how, tx, ticks)?;
    Ok((in_box::<S>(parts)?, good))
}
