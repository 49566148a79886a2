//! What transactions published, and how much of it others are known to have.
ghost use Rattle.std.specs.Prelude.{◌≡◌, ◌⊎◌, ◌≤◌, ◌<◌, ◌==◌, [], ℕ, IfOk, OnOk, Some, None};
ghost use Rattle.std.specs.Prelude.{drop, false, true, length, position, slice_get};
ghost use Rattle.pp_records.specs.Expansions.{stands_in};
ghost use Rattle.pp_records.specs.Fronts.{has_name};
ghost use Rattle.pp_model.specs.Lists.{In};
ghost use Rattle.pp_model.specs.Names.{Name as NameOf, ◌=ⁿ◌};
ghost use Rattle.pp_styles.specs.Noting.{taken_in};
ghost use Rattle.pp_styles.specs.Publishing.{Adds, SkipsAt, ids_by, ids_of, passed_by};

use crate::entries_on::{Counts, count_all, count_less, count_more, count_of};
use crate::id_lists::{Lists, Owners, add_on, list_all, listed};
use crate::looks::{first_missing, first_there, last_ids};
use crate::places::{Places, place_in};
use crate::source_set::{SourceSet, is_among};
use crate::taken_from::TakenFrom;
use indexmap::IndexMap;
use pp_core::{Name, OutOfMemory};
use pp_kind::Parted;
use pp_log_local::Local;
use pp_log_shared::Shared;
use std::alloc::Global;

/// So many entries of a walk cost as much as a look at one source.
const ENTRIES_PER_LOOK: usize = 32;

/// Lists of what each transaction pushed, and for each open transaction how much of them it is
/// known to have. No list is kept until one is wanted.
#[derive(Drop)]
pub struct Published {
    alloc: Global,
    /// Whether the lists are kept. If not, nothing here says anything.
    kept: bool,
    /// An id that left the shared log stays in its list, and is added again if it is pushed again.
    lists: Lists,
    places: Places,
    /// For an object: so many entries of the shared log are on it. Nothing is promised of it.
    counts: Counts,
    /// For an owner and an object: so many ids of their list, from the first on, are skipped. The id
    /// of each entry of the shared log is after them.
    gone: TakenFrom,
    /// For an open transaction, an owner and an object: so many ids of their list, from the first
    /// on, are skipped. The id of each entry of the shared log that is not in the local log is after
    /// them.
    passed: IndexMap<Name, TakenFrom>,
}

/// Keeps a number at an owner and an object if it is more than `from`. If memory runs out, no number
/// may be kept there.
fn raise_count(
    alloc: Global,
    counts: &mut TakenFrom,
    owner: &Name,
    object: u16,
    from: usize,
    at: usize,
)
    ensures { (v : NameOf) (o : ℕ) → (taken_in v counts.new o ≡ 0)
        ⊎ (taken_in v counts.new o ≡ taken_in v counts.old o)
        ⊎ (((v =ⁿ owner.now) ≡ true) × (o ≡ object) × (taken_in v counts.new o ≡ at)) }
{
    if at > from {
        counts.set(alloc, owner, object, at);
    }
}

/// Raises the number of ids of an owner and an object that are gone, and returns it.
fn skip_gone<S: Parted>(
    alloc: Global,
    gone: &mut TakenFrom,
    owner: &Name,
    object: u16,
    ids: &[u32],
    shared: &Shared<S>,
) -> usize
    ensures each { (v : NameOf) (o : ℕ) → (taken_in v gone.new o ≡ 0)
        ⊎ (taken_in v gone.new o ≡ taken_in v gone.old o)
        ⊎ (((v =ⁿ owner.now) ≡ true) × (o ≡ object) × (taken_in v gone.new o ≡ result)) }
    ensures within { result ≤ length ids.now }
    ensures gone { (i id : ℕ) → taken_in owner.now gone.old object ≤ i → i < result →
        slice_get ids.now i ≡ Some id → position (λ e. e.id == id) shared.now.1 ≡ None }
{
    let from = gone.count(owner, object);
    let at = first_there(shared, ids, from);
    raise_count(alloc, gone, owner, object, from, at);
    at
}

/// Nothing is passed.
fn none_passed(alloc: Global) -> IndexMap<Name, TakenFrom>
    ensures { (u v : NameOf) (o : ℕ) → passed_by u v o result.entries ≡ 0 }
{
    IndexMap::new(alloc)
}

/// Lowers the number of ids of an owner and an object that are passed.
fn pass_back(passed: &mut TakenFrom, owner: &Name, object: u16, most: usize)
    ensures each { (v : NameOf) (o : ℕ) → (taken_in v passed.new o ≡ taken_in v passed.old o)
        ⊎ (((v =ⁿ owner.now) ≡ true) × (o ≡ object)
        × (taken_in v passed.new o ≤ taken_in v passed.old o)) }
    ensures here { taken_in owner.now passed.new object ≤ most }
{
    if passed.count(owner, object) <= most {
        return;
    }
    passed.replace(owner, object, most);
}

/// Adds the ids of an owner and an object that are neither gone nor passed. It first raises both
/// numbers as far as the ids need no further look.
fn add_rest<S: Parted>(
    alloc: Global,
    ids: &mut Vec<u32>,
    passed: &mut TakenFrom,
    gone: &mut TakenFrom,
    owner: &Name,
    object: u16,
    owners: &Owners,
    shared: &Shared<S>,
    local: &Local<S>,
) -> Result<(), OutOfMemory>
    ensures gone { SkipsAt [] shared.now.1 object (λ v. ids_of v owners.now.entries)
        (λ v p. taken_in v gone.old p) (λ v p. taken_in v gone.old p)
        (λ v p. taken_in v gone.new p) }
    ensures passed { SkipsAt local.now.1 shared.now.1 object (λ v. ids_of v owners.now.entries)
        (λ v p. taken_in v gone.old p) (λ v p. taken_in v passed.old p)
        (λ v p. taken_in v passed.new p) }
    ensures kept { OnOk result ((i : ℕ) → In i ids.old.items → In i ids.new.items) }
    ensures added { OnOk result (Adds local.now.1 shared.now.1 (ids_of owner.now owners.now.entries)
        (taken_in owner.now gone.old object) (taken_in owner.now passed.old object)
        ids.new.items) }
{
    let listed = listed(owners, owner);
    let from = passed.count(owner, object);
    if from >= listed.len() {
        return Ok(());
    }
    let least = skip_gone(alloc, gone, owner, object, listed, shared);
    let at = first_missing(shared, local, listed, from.max(least));
    raise_count(alloc, passed, owner, object, from, at);
    ids.extend_from_slice(last_ids(listed, at))?;
    Ok(())
}

/// Adds what `add_rest` adds, for each of these owners.
fn add_rests<S: Parted>(
    alloc: Global,
    ids: &mut Vec<u32>,
    passed: &mut TakenFrom,
    gone: &mut TakenFrom,
    sources: &[Name],
    object: u16,
    owners: &Owners,
    shared: &Shared<S>,
    local: &Local<S>,
) -> Result<(), OutOfMemory>
    ensures gone { SkipsAt [] shared.now.1 object (λ v. ids_of v owners.now.entries)
        (λ v p. taken_in v gone.old p) (λ v p. taken_in v gone.old p)
        (λ v p. taken_in v gone.new p) }
    ensures passed { SkipsAt local.now.1 shared.now.1 object (λ v. ids_of v owners.now.entries)
        (λ v p. taken_in v gone.old p) (λ v p. taken_in v passed.old p)
        (λ v p. taken_in v passed.new p) }
    ensures kept { OnOk result ((i : ℕ) → In i ids.old.items → In i ids.new.items) }
    ensures added { OnOk result ((v : NameOf) → In v sources.now →
        Adds local.now.1 shared.now.1 (ids_of v owners.now.entries) (taken_in v gone.old object)
        (taken_in v passed.old object) ids.new.items) }
{
    for source in sources {
        add_rest(
            alloc, ids, passed, gone, source, object, owners, shared, local,
        )?;
    }
    Ok(())
}

/// Adds the name of an owner, if it is a source.
fn add_name(names: &mut Vec<Name>, sources: &SourceSet, owner: &Name) -> Result<(), OutOfMemory>
    ensures kept { OnOk result ((v : NameOf) → In v names.old.items → In v names.new.items) }
    ensures added { OnOk result (has_name owner.now sources.now.keys ≡ true →
        In owner.now names.new.items) }
{
    if is_among(Some(sources), owner) {
        names.push(*owner)?;
        return Ok(());
    }
    Ok(())
}

/// The sources that have a list.
fn listed_sources(
    alloc: Global,
    sources: &SourceSet,
    owners: &Owners,
) -> Result<Vec<Name>, OutOfMemory>
    ensures { IfOk result (λ names. (v : NameOf) → In v sources.now.keys →
        In v names.items ⊎ (ids_of v owners.now.entries ≡ [])) }
{
    let mut names = Vec::new(alloc);
    for owner in owners.keys().as_slice() {
        add_name(&mut names, sources, owner)?;
    }
    Ok(names)
}

/// Adds what `add_rest` adds, for each source. It goes over the sources, or over the owners if they
/// are fewer.
fn add_fewer<S: Parted>(
    alloc: Global,
    ids: &mut Vec<u32>,
    passed: &mut TakenFrom,
    gone: &mut TakenFrom,
    sources: &SourceSet,
    object: u16,
    owners: &Owners,
    shared: &Shared<S>,
    local: &Local<S>,
) -> Result<(), OutOfMemory>
    ensures gone { SkipsAt [] shared.now.1 object (λ v. ids_of v owners.now.entries)
        (λ v p. taken_in v gone.old p) (λ v p. taken_in v gone.old p)
        (λ v p. taken_in v gone.new p) }
    ensures passed { SkipsAt local.now.1 shared.now.1 object (λ v. ids_of v owners.now.entries)
        (λ v p. taken_in v gone.old p) (λ v p. taken_in v passed.old p)
        (λ v p. taken_in v passed.new p) }
    ensures kept { OnOk result ((i : ℕ) → In i ids.old.items → In i ids.new.items) }
    ensures added { OnOk result ((v : NameOf) → In v sources.now.keys →
        Adds local.now.1 shared.now.1 (ids_of v owners.now.entries) (taken_in v gone.old object)
        (taken_in v passed.old object) ids.new.items) }
{
    if sources.len() <= owners.len() {
        let names = sources.as_slice();
        return add_rests(
            alloc, ids, passed, gone, names, object, owners, shared, local,
        );
    }
    let names = listed_sources(alloc, sources, owners)?;
    add_rests(
        alloc, ids, passed, gone, &names, object, owners, shared, local,
    )
}

/// Adds what `add_rest` adds, for each source, by the lists at the object.
fn add_on_object<S: Parted>(
    alloc: Global,
    ids: &mut Vec<u32>,
    passed: &mut TakenFrom,
    gone: &mut TakenFrom,
    sources: &SourceSet,
    object: u16,
    lists: &Lists,
    shared: &Shared<S>,
    local: &Local<S>,
) -> Result<(), OutOfMemory>
    ensures gone { SkipsAt [] shared.now.1 object (λ v. ids_by v object lists.now.entries)
        (λ v p. taken_in v gone.old p) (λ v p. taken_in v gone.old p)
        (λ v p. taken_in v gone.new p) }
    ensures passed { SkipsAt local.now.1 shared.now.1 object
        (λ v. ids_by v object lists.now.entries) (λ v p. taken_in v gone.old p)
        (λ v p. taken_in v passed.old p) (λ v p. taken_in v passed.new p) }
    ensures kept { OnOk result ((i : ℕ) → In i ids.old.items → In i ids.new.items) }
    ensures added { OnOk result ((v : NameOf) → In v sources.now.keys →
        Adds local.now.1 shared.now.1 (ids_by v object lists.now.entries)
        (taken_in v gone.old object) (taken_in v passed.old object) ids.new.items) }
{
    let Some(owners) = lists.get(&object) else {
        return Ok(());
    };
    add_fewer(
        alloc, ids, passed, gone, sources, object, owners, shared, local,
    )
}

impl Published {
    ghost use Rattle.std.specs.Prelude.{◌≡◌, ◌⊎◌, ◌≤◌, ℕ, OnOk, Some, drop, false, slice_get};
    ghost use Rattle.std.specs.Prelude.{if◌then◌else◌, true};
    ghost use Rattle.pp_model.specs.Lists.{In};
    ghost use Rattle.pp_model.specs.Names.{Name as NameOf, ◌=ⁿ◌};
    ghost use Rattle.pp_styles.specs.Noting.{taken_in};
    ghost use Rattle.pp_styles.specs.Publishing.{Adds, Keeps, ListsLast, LooksFurther};
    ghost use Rattle.pp_styles.specs.Publishing.{LowersPassed, Unpasses, publications};

    /// No list is kept.
    pub fn new(alloc: Global) -> Published
        ensures { (publications result).kept ≡ false }
    {
        Published {
            alloc,
            kept: false,
            lists: IndexMap::new(alloc),
            places: Places::new(alloc),
            counts: Counts::new(alloc),
            gone: TakenFrom::new(alloc),
            passed: IndexMap::new(alloc),
        }
    }

    /// How many transactions pushed on an object.
    fn owners_on(&self, object: u16) -> usize {
        match self.lists.get(&object) {
            Some(owners) => owners.len(),
            None => 0,
        }
    }

    /// Whether a walk over the entries on an object is shorter than a look at each of these sources.
    /// Nothing is promised of it.
    pub fn is_walk_shorter(&self, object: u16, sources: &SourceSet) -> bool {
        let looks = self.owners_on(object).min(sources.len());
        looks.saturating_mul(ENTRIES_PER_LOOK) > count_of(&self.counts, object)
    }

    /// Lowers the count of entries on an object, one of which leaves the shared log.
    pub fn count_less(&mut self, object: u16)
        ensures { publications self.new ≡ publications self.old }
    {
        count_less(&mut self.counts, object);
    }

    /// Adds the last entry of the shared log to the lists, if they are kept.
    pub fn note_last<S: Parted>(&mut self, shared: &Shared<S>) -> Result<(), OutOfMemory>
        ensures { OnOk result
            (ListsLast S.place_of shared.now.1 (publications self.old) (publications self.new)) }
    {
        if !self.kept {
            return Ok(());
        }
        let Some(at) = shared.len().checked_sub(1) else {
            return Ok(());
        };
        let Some(last) = shared.entry(at) else {
            return Ok(());
        };
        count_more(&mut self.counts, S::place(&last.op));
        add_on(
            self.alloc,
            &mut self.lists,
            &mut self.places,
            &last.owner,
            S::place(&last.op),
            last.id,
        )
    }

    /// Begins to keep lists, of all entries of the shared log. Nothing is passed then.
    pub fn keep<S: Parted>(&mut self, shared: &Shared<S>) -> Result<(), OutOfMemory>
        ensures kept { OnOk result ((publications self.new).kept ≡ true) }
        ensures lists { Keeps S.place_of shared.now.1 (publications self.old)
            (publications self.new) }
    {
        if self.kept {
            return Ok(());
        }
        self.lists = IndexMap::new(self.alloc);
        self.places = Places::new(self.alloc);
        list_all(self.alloc, &mut self.lists, &mut self.places, shared)?;
        self.counts = count_all(self.alloc, shared);
        self.gone = TakenFrom::new(self.alloc);
        self.passed = none_passed(self.alloc);
        self.kept = true;
        Ok(())
    }

    /// Forgets what is known of an open transaction.
    pub fn forget(&mut self, tx: &Name)
        ensures { Unpasses tx.now (publications self.old) (publications self.new) }
    {
        self.passed.swap_remove(tx);
    }

    /// Takes out what is known of an open transaction.
    fn take(&mut self, tx: &Name) -> TakenFrom
        ensures taken { (v : NameOf) (o : ℕ) → taken_in v result o
            ≡ (publications self.old).passed tx.now v o }
        ensures rest { Unpasses tx.now (publications self.old) (publications self.new) }
    {
        match self.passed.swap_remove(tx) {
            Some(passed) => passed,
            None => TakenFrom::new(self.alloc),
        }
    }

    /// Puts back what is known of an open transaction. If memory runs out, nothing is known of it.
    fn put(&mut self, tx: &Name, passed: TakenFrom)
        ensures kept { (publications self.new).kept ≡ (publications self.old).kept }
        ensures ids { (v : NameOf) (o : ℕ) → (publications self.new).ids v o
            ≡ (publications self.old).ids v o }
        ensures gone { (v : NameOf) (o : ℕ) → (publications self.new).gone v o
            ≡ (publications self.old).gone v o }
        ensures passed { (u v : NameOf) (o : ℕ) →
            ((publications self.new).passed u v o ≡ (publications self.old).passed u v o)
            ⊎ (((u =ⁿ tx.now) ≡ true)
            × ((publications self.new).passed u v o ≡ taken_in v passed o)) }
    {
        let _ = self.passed.insert(*tx, passed);
    }

    /// The position of an id in the list of an owner and an object, if it is known, and else 0.
    fn position_of(&self, owner: &Name, object: u16, id: u32) -> usize
        ensures { (result ≡ 0)
            ⊎ (slice_get ((publications self.now).ids owner.now object) result ≡ Some id) }
    {
        let Some(owners) = self.lists.get(&object) else {
            return 0;
        };
        place_in(&self.places, listed(owners, owner), id)
    }

    /// Lowers the number of ids of an owner and an object that an open transaction has passed.
    fn lower(&mut self, tx: &Name, owner: &Name, object: u16, most: usize)
        ensures kept { (publications self.new).kept ≡ (publications self.old).kept }
        ensures ids { (v : NameOf) (o : ℕ) → (publications self.new).ids v o
            ≡ (publications self.old).ids v o }
        ensures gone { (v : NameOf) (o : ℕ) → (publications self.new).gone v o
            ≡ (publications self.old).gone v o }
        ensures passed { LowersPassed tx.now owner.now object (publications self.old)
            (publications self.new) }
        ensures here { (publications self.new).passed tx.now owner.now object ≤ most }
    {
        if let Some(passed) = self.passed.get_mut(tx) {
            pass_back(passed, owner, object, most);
        }
    }

    /// Takes back that an open transaction has passed an id of an owner and an object.
    pub fn give_back(&mut self, tx: &Name, owner: &Name, object: u16, id: u32)
        ensures kept { (publications self.new).kept ≡ (publications self.old).kept }
        ensures ids { (v : NameOf) (o : ℕ) → (publications self.new).ids v o
            ≡ (publications self.old).ids v o }
        ensures gone { (v : NameOf) (o : ℕ) → (publications self.new).gone v o
            ≡ (publications self.old).gone v o }
        ensures passed { LowersPassed tx.now owner.now object (publications self.old)
            (publications self.new) }
        ensures again { (publications self.old).kept ≡ true →
            ((publications self.new).passed tx.now owner.now object ≡ 0)
            ⊎ In id (drop ((publications self.new).passed tx.now owner.now object)
            ((publications self.old).ids owner.now object)) }
    {
        if !self.kept {
            return;
        }
        let at = self.position_of(owner, object, id);
        self.lower(tx, owner, object, at);
    }

    /// Adds ids of what these sources published on an object: each such entry of the shared log is
    /// in the local log, or its id is among these.
    pub fn add_missing<S: Parted>(
        &mut self,
        ids: &mut Vec<u32>,
        tx: &Name,
        object: u16,
        sources: &SourceSet,
        shared: &Shared<S>,
        local: &Local<S>,
    ) -> Result<(), OutOfMemory>
        ensures passed { LooksFurther tx.now object local.now.1 shared.now.1
            (publications self.old) (publications self.new) }
        ensures kept { OnOk result ((i : ℕ) → In i ids.old.items → In i ids.new.items) }
        ensures added { OnOk result ((v : NameOf) → In v sources.now.keys →
            Adds local.now.1 shared.now.1 ((publications self.old).ids v object)
            ((publications self.old).gone v object)
            ((publications self.old).passed tx.now v object) ids.new.items) }
    {
        let mut passed = self.take(tx);
        let added = add_on_object(
            self.alloc,
            ids,
            &mut passed,
            &mut self.gone,
            sources,
            object,
            &self.lists,
            shared,
            local,
        );
        self.put(tx, passed);
        added
    }
}
