//! The attempts that the open transactions are in, while the steps of a run are read.
ghost use Rattle.std.specs.Prelude.{◌≡◌, ◌≢◌, ◌⊎◌, ◌++◌, ◌∷◌, ◌-◌, [], false, cond, OnOk, length};
ghost use Rattle.std.specs.Prelude.{take};
ghost use Rattle.pp_model.specs.Names.{Name as NameOf, ◌=ⁿ◌};
ghost use Rattle.pp_opacity.specs.Attempts.{excluded_in, excludes_none, least_in, own_in};

use indexmap::IndexMap;
use pp_core::{Item, Name, OutOfMemory};
use std::alloc::Global;

/// Numbers of commits: those after the one, up to the other.
#[derive(Clone, Copy)]
pub(crate) struct Excluded {
    pub(crate) after: usize,
    pub(crate) up_to: usize,
}

/// The attempt that a transaction is in.
#[derive(Drop)]
pub(crate) struct OpenAttempt<O: Copy> {
    /// How many transactions had committed when it began.
    pub(crate) least: usize,
    /// What it applied and did not take back.
    pub(crate) own: Vec<Item<O>>,
    /// Numbers of commits that do not explain its own list.
    pub(crate) excluded: Excluded,
}

/// The attempt of each transaction that has begun.
pub(crate) type Attempts<O> = IndexMap<Name, OpenAttempt<O>>;

/// No numbers of commits.
fn none() -> Excluded
    ensures { result ≡ excludes_none }
{
    Excluded { after: 0, up_to: 0 }
}

/// The transaction begins an attempt after so many commits.
pub(crate) fn begin<O: Copy>(
    alloc: Global,
    attempts: &mut Attempts<O>,
    tx: &Name,
    count: usize,
) -> Result<(), OutOfMemory>
    ensures own { OnOk result ((t : NameOf) → own_in t attempts.new.entries
        ≡ cond (tx.now =ⁿ t) [] (own_in t attempts.old.entries)) }
    ensures least { OnOk result ((t : NameOf) → least_in t attempts.new.entries
        ≡ cond (tx.now =ⁿ t) count (least_in t attempts.old.entries)) }
    ensures excluded { OnOk result ((t : NameOf) → excluded_in t attempts.new.entries
        ≡ cond (tx.now =ⁿ t) excludes_none (excluded_in t attempts.old.entries)) }
{
    let attempt = OpenAttempt {
        least: count,
        own: Vec::new(alloc),
        excluded: none(),
    };
    attempts.insert(*tx, attempt)?;
    Ok(())
}

/// Adds an item to the own list of the transaction.
pub(crate) fn apply<O: Copy>(
    alloc: Global,
    attempts: &mut Attempts<O>,
    tx: &Name,
    item: Item<O>,
) -> Result<(), OutOfMemory>
    ensures own { OnOk result ((t : NameOf) → own_in t attempts.new.entries
        ≡ cond (tx.now =ⁿ t) (own_in t attempts.old.entries ++ item ∷ [])
        (own_in t attempts.old.entries)) }
    ensures least { OnOk result ((t : NameOf) → least_in t attempts.new.entries
        ≡ least_in t attempts.old.entries) }
    ensures excluded { OnOk result ((t : NameOf) → excluded_in t attempts.new.entries
        ≡ excluded_in t attempts.old.entries) }
{
    if let Some(attempt) = attempts.get_mut(tx) {
        attempt.own.push(item)?;
        return Ok(());
    }
    let mut own = Vec::new(alloc);
    own.push(item)?;
    let attempt = OpenAttempt {
        least: 0,
        own,
        excluded: none(),
    };
    attempts.insert(*tx, attempt)?;
    Ok(())
}

/// Takes the last item from the own list of the transaction. If none is left, the transaction
/// begins an attempt after so many commits.
pub(crate) fn unapply<O: Copy>(attempts: &mut Attempts<O>, tx: &Name, count: usize)
    ensures own { (t : NameOf) → own_in t attempts.new.entries ≡ cond (tx.now =ⁿ t)
        (take (length (own_in t attempts.old.entries) - 1) (own_in t attempts.old.entries))
        (own_in t attempts.old.entries) }
    ensures others { (t : NameOf) → (tx.now =ⁿ t) ≡ false
        → least_in t attempts.new.entries ≡ least_in t attempts.old.entries }
    ensures kept { own_in tx.now attempts.new.entries ≢ []
        → least_in tx.now attempts.new.entries ≡ least_in tx.now attempts.old.entries }
    ensures begins { own_in tx.now attempts.old.entries ≢ []
        → own_in tx.now attempts.new.entries ≡ []
        → least_in tx.now attempts.new.entries ≡ count }
    ensures excluded { (t : NameOf) → excluded_in t attempts.new.entries
        ≡ cond (tx.now =ⁿ t) excludes_none (excluded_in t attempts.old.entries) }
{
    if let Some(attempt) = attempts.get_mut(tx) {
        attempt.own.pop();
        attempt.excluded = none();
        if attempt.own.is_empty() {
            attempt.least = count;
        }
    }
}

/// The own list of the transaction, which is empty if it has not begun.
pub(crate) fn own<'a, O: Copy>(attempts: &'a Attempts<O>, tx: &Name) -> &'a [Item<O>]
    ensures { result.now ≡ own_in tx.now attempts.now.entries }
{
    match attempts.get(tx) {
        Some(attempt) => &attempt.own,
        None => &[],
    }
}

/// How many transactions had committed when the attempt of the transaction began.
pub(crate) fn least<O: Copy>(attempts: &Attempts<O>, tx: &Name) -> usize
    ensures { result ≡ least_in tx.now attempts.now.entries }
{
    match attempts.get(tx) {
        Some(attempt) => attempt.least,
        None => 0,
    }
}

/// The numbers of commits that are known not to explain the own list of the transaction.
pub(crate) fn excluded_of<O: Copy>(attempts: &Attempts<O>, tx: &Name) -> Excluded
    ensures { result ≡ excluded_in tx.now attempts.now.entries }
{
    match attempts.get(tx) {
        Some(attempt) => attempt.excluded,
        None => none(),
    }
}

/// Keeps that these numbers of commits do not explain the own list of the transaction.
pub(crate) fn exclude<O: Copy>(attempts: &mut Attempts<O>, tx: &Name, excluded: Excluded)
    ensures own { (t : NameOf) → own_in t attempts.new.entries ≡ own_in t attempts.old.entries }
    ensures least { (t : NameOf) → least_in t attempts.new.entries
        ≡ least_in t attempts.old.entries }
    ensures others { (t : NameOf) → (tx.now =ⁿ t) ≡ false
        → excluded_in t attempts.new.entries ≡ excluded_in t attempts.old.entries }
    ensures kept { own_in tx.now attempts.old.entries ≢ []
        → excluded_in tx.now attempts.new.entries ≡ excluded }
    ensures begun { (excluded_in tx.now attempts.new.entries ≡ excluded)
        ⊎ (excluded_in tx.now attempts.new.entries ≡ excludes_none) }
{
    if let Some(attempt) = attempts.get_mut(tx) {
        attempt.excluded = excluded;
    }
}
