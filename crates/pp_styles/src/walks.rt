//! Walks over a local log: what pushes its entries, and what takes them out.
ghost use Rattle.std.specs.Prelude.{◌≡◌, ◌++◌, OnOk};
ghost use Rattle.pp_core.specs.declared.entry.Mark.TheVariants.{Unpushed};
ghost use Rattle.pp_model.specs.Config.{is_mark};
ghost use Rattle.pp_records.specs.Expansions.{back, is_pulled_from, pushall, taken_at, unpulls};
ghost use Rattle.pp_styles.specs.Meanings.{meanings};
ghost use Rattle.pp_styles.specs.Walking.{push_of, unpull_of};

use crate::step_list::{StepList, add};
use pp_core::{LocalEntry, Mark, Name, OutOfMemory, Step};

/// Whether two marks are one.
pub fn is_mark(mark: Mark, other: Mark) -> bool
    ensures { result ≡ is_mark mark other }
{
    mark == other
}

/// Adds PUSH of an entry that is own and unpushed.
fn push_one<O: Copy>(
    list: &mut StepList<O>,
    tx: &Name,
    entry: &LocalEntry<O>,
) -> Result<(), OutOfMemory>
    ensures { OnOk result (meanings list.new ≡ meanings list.old ++ push_of tx.now entry.now) }
{
    if !is_mark(entry.mark, Mark::Unpushed) {
        return Ok(());
    }
    add(
        list,
        Step::Push {
            tx: *tx,
            id: entry.id,
        },
    )
}

/// Adds the steps that publish all that a transaction has not published: PUSH of each entry of its
/// local log that is its own and unpushed, in the order of the log. The only error is that memory
/// was refused, and the list is then of no more use.
pub fn pushall<O: Copy>(
    list: &mut StepList<O>,
    tx: &Name,
    entries: &[LocalEntry<O>],
) -> Result<(), OutOfMemory>
    ensures { OnOk result (meanings list.new ≡ meanings list.old ++ pushall tx.now entries.now) }
{
    for entry in entries {
        push_one(list, tx, entry)?;
    }
    Ok(())
}

/// Adds what takes an entry of this mark out.
fn take_out<O: Copy>(
    list: &mut StepList<O>,
    tx: &Name,
    id: u32,
    mark: Mark,
) -> Result<(), OutOfMemory>
    ensures { OnOk result (meanings list.new ≡ meanings list.old ++ taken_at tx.now id mark) }
{
    match mark {
        Mark::Pulled => add(list, Step::Unpull { tx: *tx, id }),
        Mark::Pushed => {
            add(list, Step::Unpush { tx: *tx, id })?;
            add(list, Step::Unapp { tx: *tx, id })
        }
        Mark::Unpushed => add(list, Step::Unapp { tx: *tx, id }),
    }
}

/// Adds the steps that take the local log of a transaction back to this length, from its end: of an
/// entry that was pulled UNPULL, of one that is pushed UNPUSH and then UNAPP, of one that is
/// unpushed UNAPP. They are none where the log is no longer than this. The only error is that
/// memory was refused, and the list is then of no more use.
pub fn back<O: Copy>(
    list: &mut StepList<O>,
    tx: &Name,
    to: usize,
    entries: &[LocalEntry<O>],
) -> Result<(), OutOfMemory>
    ensures { OnOk result (meanings list.new ≡ meanings list.old ++ back tx.now to entries.now) }
{
    let to = to.min(entries.len());
    let mut at = entries.len();
    'walk: while at > to {
        at -= 1;
        let entry = &entries[at];
        take_out(list, tx, entry.id, entry.mark)?;
    }
    Ok(())
}

/// Whether an entry was pulled from this source.
fn is_pulled_from<O: Copy>(source: &Name, entry: &LocalEntry<O>) -> bool
    ensures { result ≡ is_pulled_from source.now entry.now }
{
    is_mark(entry.mark, Mark::Pulled) && entry.owner.same(source)
}

/// Adds UNPULL of an entry that was pulled from this source.
pub fn unpull_one<O: Copy>(
    list: &mut StepList<O>,
    tx: &Name,
    source: &Name,
    entry: &LocalEntry<O>,
) -> Result<(), OutOfMemory>
    ensures { OnOk result (meanings list.new
        ≡ meanings list.old ++ unpull_of tx.now source.now entry.now) }
{
    if !is_pulled_from(source, entry) {
        return Ok(());
    }
    add(
        list,
        Step::Unpull {
            tx: *tx,
            id: entry.id,
        },
    )
}

/// Adds UNPULL of each entry that was pulled from this source, from the end.
pub fn unpull_all<O: Copy>(
    list: &mut StepList<O>,
    tx: &Name,
    source: &Name,
    entries: &[LocalEntry<O>],
) -> Result<(), OutOfMemory>
    ensures { OnOk result (meanings list.new
        ≡ meanings list.old ++ unpulls tx.now source.now entries.now) }
{
    let mut at = entries.len();
    'walk: while at > 0 {
        at -= 1;
        let entry = &entries[at];
        unpull_one(list, tx, source, entry)?;
    }
    Ok(())
}
