//! What is known of the open transactions of a machine, so that no entry is looked at again.
ghost use Rattle.std.specs.Prelude.{◌≡◌, ◌≤◌, ◌<◌, ◌++◌, ◌∷◌, [], ℕ, OnOk, Some, false, length};
ghost use Rattle.std.specs.Prelude.{slice_get, true};
ghost use Rattle.pp_core.specs.declared.entry.LocalEntry.{LocalEntry as EntryOf};
ghost use Rattle.pp_core.specs.declared.entry.Mark.TheVariants.{Unpushed};
ghost use Rattle.pp_records.specs.Expansions.{stands_in};
ghost use Rattle.pp_model.specs.Config.{is_mark};
ghost use Rattle.pp_styles.specs.Knowing.{ids_on};
ghost use Rattle.pp_styles.specs.Noting.{at_object, ids_in};

use crate::places::{Places, add_places, place_in};
use crate::taken::Taken;
use crate::walks::is_mark;
use indexmap::IndexMap;
use pp_core::{Committed, Item, Mark, Name, OutOfMemory, Sequence};
use pp_kind::Parted;
use pp_log_local::Local;
use std::alloc::Global;

/// For each object the ids of the committed entries on it, in the order of the commits.
type CommittedIds = IndexMap<u16, Sequence<u32>>;

/// Notes on a machine.
#[derive(Drop)]
pub struct Notes {
    alloc: Global,
    committed: CommittedIds,
    /// The positions of ids in these lists. They are kept only once a note is lowered.
    places: Places,
    /// For an object: of so many of its ids, from the first on, the positions are kept.
    placed: Taken,
    /// For an open transaction and an object: so many of the committed entries on the object, from
    /// the first on, are in its local log, or are listed again after these.
    taken: IndexMap<Name, Taken>,
    /// For an open transaction: of so many entries of its local log, from the first on, none is its
    /// own and unpushed.
    pushed: IndexMap<Name, usize>,
}

/// Adds the id of an entry that was committed on an object.
fn add_id(
    alloc: Global,
    committed: &mut CommittedIds,
    object: u16,
    id: u32,
) -> Result<(), OutOfMemory>
    ensures { OnOk result ((o : ℕ) → ids_in o committed.new.entries
        ≡ at_object object (ids_in object committed.old.entries ++ id ∷ [])
        (λ p. ids_in p committed.old.entries) o) }
{
    let mut ids = match committed.swap_remove(&object) {
        Some(ids) => ids,
        None => Sequence::new(alloc),
    };
    ids.push(id)?;
    committed.insert(object, ids)?;
    Ok(())
}

/// Adds the ids of operations that were committed.
fn add_ids<S: Parted>(
    alloc: Global,
    committed: &mut CommittedIds,
    items: &[Item<S::Op>],
) -> Result<(), OutOfMemory>
    ensures { OnOk result ((o : ℕ) → ids_in o committed.new.entries
        ≡ ids_in o committed.old.entries ++ ids_on S.place_of o items.now) }
{
    for item in items {
        add_id(alloc, committed, S::place(&item.op), item.id)?;
    }
    Ok(())
}

/// The first position at `from` or after it whose id is not in the local log.
fn first_missing<S: Parted>(local: &Local<S>, ids: &[u32], from: usize) -> usize
    ensures within { result ≤ length ids.now }
    ensures there { (i id : ℕ) → from ≤ i → i < result → slice_get ids.now i ≡ Some id →
        stands_in local.now.1 id ≡ true }
{
    for at in from..ids.len() {
        if local.find(ids[at]).is_none() {
            return at;
        }
    }
    ids.len()
}

/// The first position at `from` or after it whose entry is own and unpushed.
fn first_unpushed<S: Parted>(local: &Local<S>, from: usize) -> usize
    ensures within { result ≤ length local.now.1 }
    ensures none { (i : ℕ) (e : EntryOf S.Op) → from ≤ i → i < result →
        slice_get local.now.1 i ≡ Some e → is_mark e.mark Unpushed ≡ false }
{
    let entries = local.entries();
    for at in from..entries.len() {
        if is_mark(entries[at].mark, Mark::Unpushed) {
            return at;
        }
    }
    entries.len()
}

impl Notes {
    ghost use Rattle.std.specs.Prelude.{◌≡◌, ◌⊎◌, ◌<◌, OnOk, Some, drop, slice_get};
    ghost use Rattle.pp_model.specs.Lists.{In};
    ghost use Rattle.pp_styles.specs.Knowing.{IsBlank, Forgets, Lists, ListsAll, LowersPushed};
    ghost use Rattle.pp_styles.specs.Knowing.{LowersTaken, PushesMore, ReplacesTaken, SetsPushed};
    ghost use Rattle.pp_styles.specs.Knowing.{SetsTaken, TakesMore, ids_of, last_of};
    ghost use Rattle.pp_styles.specs.Noting.{ids_in, known, pushed_in, taken_in};

    /// Notes on a machine in which nothing is committed and no transaction is known.
    pub fn new(alloc: Global) -> Notes
        ensures { IsBlank (known result) }
    {
        Notes {
            alloc,
            committed: IndexMap::new(alloc),
            places: Places::new(alloc),
            placed: Taken::new(alloc),
            taken: IndexMap::new(alloc),
            pushed: IndexMap::new(alloc),
        }
    }

    /// Notes what the last of the committed transactions committed.
    pub fn note_last<S: Parted>(&mut self, committed: &Committed<S::Op>) -> Result<(), OutOfMemory>
        ensures { OnOk result
            (Lists (λ o. ids_of S.place_of o (last_of committed.now)) (known self.old)
            (known self.new)) }
    {
        let Some(at) = committed.len().checked_sub(1) else {
            return Ok(());
        };
        let Some(last) = committed.get(at) else {
            return Ok(());
        };
        add_ids::<S>(self.alloc, &mut self.committed, last.entries.as_slice())
    }

    /// Notes what each of the committed transactions committed.
    pub fn note_all<S: Parted>(&mut self, committed: &Committed<S::Op>) -> Result<(), OutOfMemory>
        requires { IsBlank (known self.old) }
        ensures { OnOk result (ListsAll S.place_of committed.now (known self.new)) }
    {
        for done in committed.as_slice() {
            add_ids::<S>(self.alloc, &mut self.committed, done.entries.as_slice())?;
        }
        Ok(())
    }

    /// Forgets what is known of an open transaction.
    pub fn forget(&mut self, tx: &Name)
        ensures { Forgets tx.now (known self.old) (known self.new) }
    {
        self.taken.swap_remove(tx);
        self.pushed.swap_remove(tx);
    }

    /// How many of the committed ids on an object, from the first on, need no further look.
    fn taken(&self, tx: &Name, object: u16) -> usize
        ensures { result ≡ taken_in tx.now self.now.taken.entries object }
    {
        let Some(taken) = self.taken.get(tx) else {
            return 0;
        };
        taken.count(object)
    }

    /// How many entries of the local log, from the first on, are known not to be unpushed.
    pub fn pushed(&self, tx: &Name) -> usize
        ensures { result ≡ pushed_in tx.now self.now.pushed.entries }
    {
        self.pushed.get(tx).copied().unwrap_or(0)
    }

    /// The committed ids on an object that need a look. Each one that is missing in the local log is
    /// among these.
    pub fn unknown(&self, tx: &Name, object: u16) -> &[u32]
        ensures { result.now ≡ drop (taken_in tx.now self.now.taken.entries object)
            (ids_in object self.now.committed.entries) }
    {
        let Some(ids) = self.committed.get(&object) else {
            return &[];
        };
        let ids = ids.as_slice();
        let from = self.taken(tx, object).min(ids.len());
        &ids[from..]
    }

    /// Notes that so many of the committed ids on an object, from the first on, need no further
    /// look. Without memory nothing is known of the transaction.
    fn note_taken(&mut self, tx: &Name, object: u16, count: usize)
        ensures { SetsTaken tx.now object count (known self.old) (known self.new) }
    {
        let mut taken = match self.taken.swap_remove(tx) {
            Some(taken) => taken,
            None => Taken::new(self.alloc),
        };
        taken.set(object, count);
        let _ = self.taken.insert(*tx, taken);
    }

    /// Keeps the positions of the committed ids on an object. Without memory some are not kept.
    fn keep_places(&mut self, object: u16)
        ensures { known self.new ≡ known self.old }
    {
        let Some(ids) = self.committed.get(&object) else {
            return;
        };
        let from = self.placed.count(object);
        if add_places(&mut self.places, ids.as_slice(), from).is_ok() {
            self.placed.set(object, ids.len());
        }
    }

    /// The position of an id among the committed ids of an object, if it is kept, and else 0.
    fn position_of(&self, object: u16, id: u32) -> usize
        ensures { (result ≡ 0)
            ⊎ (slice_get ((known self.now).ids object) result ≡ Some id) }
    {
        let Some(ids) = self.committed.get(&object) else {
            return 0;
        };
        place_in(&self.places, ids.as_slice(), id)
    }

    /// Notes another number of committed ids on an object, if one is noted there.
    fn replace_taken(&mut self, tx: &Name, object: u16, count: usize)
        ensures each { ReplacesTaken tx.now object count (known self.old) (known self.new) }
        ensures here { ((known self.new).taken tx.now object ≡ 0)
            ⊎ ((known self.new).taken tx.now object ≡ count) }
    {
        if let Some(taken) = self.taken.get_mut(tx) {
            taken.replace(object, count);
        }
    }

    /// Notes that the id of a committed entry on an object needs a look again, before the entry
    /// leaves the local log of a transaction.
    pub fn give_back(&mut self, tx: &Name, object: u16, id: u32)
        ensures lowers { LowersTaken tx.now object (known self.old) (known self.new) }
        ensures again { ((known self.new).taken tx.now object ≡ 0)
            ⊎ In id (drop ((known self.new).taken tx.now object) ((known self.new).ids object)) }
    {
        let taken = self.taken(tx, object);
        if taken == 0 {
            return;
        }
        self.keep_places(object);
        let at = self.position_of(object, id);
        if at >= taken {
            return;
        }
        self.replace_taken(tx, object, at);
    }

    /// Notes that the entries of a local log from a position on need a look again: one of them may
    /// become unpushed.
    pub fn lower_pushed(&mut self, tx: &Name, most: usize)
        ensures { LowersPushed tx.now most (known self.old) (known self.new) }
    {
        if self.pushed(tx) > most {
            self.replace_pushed(tx, most);
        }
    }

    /// Notes another number of entries of a local log, if one is noted.
    fn replace_pushed(&mut self, tx: &Name, count: usize)
        requires { 0 < (known self.old).pushed tx.now }
        ensures { SetsPushed tx.now count (known self.old) (known self.new) }
    {
        if let Some(kept) = self.pushed.get_mut(tx) {
            *kept = count;
        }
    }

    /// Passes the committed ids on an object up to the first that is not in the local log. It begins
    /// at the first that needs a look.
    pub fn look_at_taken<S: Parted>(&mut self, tx: &Name, object: u16, local: &Local<S>)
        ensures { TakesMore tx.now local.now.1 (known self.old) (known self.new) }
    {
        let Some(ids) = self.committed.get(&object) else {
            return;
        };
        let from = self.taken(tx, object);
        let at = first_missing(local, ids.as_slice(), from);
        if at > from {
            self.note_taken(tx, object, at);
        }
    }

    /// Passes the entries of the local log up to the first that is own and unpushed. It begins at
    /// the first that needs a look.
    pub fn look_at_pushed<S: Parted>(&mut self, tx: &Name, local: &Local<S>)
        ensures { PushesMore tx.now local.now.1 (known self.old) (known self.new) }
    {
        let from = self.pushed(tx);
        let at = first_unpushed(local, from);
        if at > from {
            let _ = self.pushed.insert(*tx, at);
        }
    }
}
