//! The own operations of an open transaction, and what is known of them.
ghost use Rattle.std.specs.Prelude.{◌≡◌, [], ◌∷◌, ◌++◌, false, IsTrue, List, OnOk};
ghost use Rattle.pp_core.specs.declared.entry.Item.{Item as ItemOf};
ghost use Rattle.pp_summary.specs.Known.{Knows, KnowsAll, KnowsMany};
ghost use Rattle.pp_summary.specs.Filtered.{MayHaveAll};
ghost use Rattle.pp_summary.specs.Passing.{LetPass, Stops};
ghost use Rattle.pp_kind.specs.Object.{Swaps, SwapsNowhere};

use crate::part_filter::PartFilter;
use indexmap::IndexMap;
use pp_core::{Item, Items, OutOfMemory};
use pp_kind::{Part, Parted, Samples};
use std::alloc::Global;
use std::marker::Model;

/// Up to this many own operations are compared one by one. Only for more of them are samples kept.
const FEW_OPERATIONS: usize = 16;

/// Whether the own operation has the part and the place of the other, and does not swap with it.
/// The parts are compared first, since operations with different parts swap.
fn stops<S: Parted>(item: &Item<S::Op>, op: &S::Op, part: Part) -> bool
    requires { part ≡ S.part_of op.now }
    ensures yes { IsTrue result → (S.place_of item.now.op ≡ S.place_of op.now)
        × SwapsNowhere S.object item.now.op op.now }
    ensures no { result ≡ false → S.place_of item.now.op ≡ S.place_of op.now →
        Swaps S.object item.now.op op.now }
{
    S::part(&item.op) == part && S::place(&item.op) == S::place(op) && !S::swaps(&item.op, op)
}

/// Whether each of these operations at the place of another swaps with it.
fn all_swap<S: Parted>(own: &[Item<S::Op>], op: &S::Op) -> bool
    ensures yes { IsTrue result → LetPass S.object S.place_of own.now op.now }
    ensures no { result ≡ false → Stops S.object S.place_of own.now op.now }
{
    let part = S::part(op);
    for item in own {
        if stops::<S>(item, op, part) {
            return false;
        }
    }
    true
}

/// Adds an operation to the samples of its part. The only error is out of memory, and the samples
/// then cover at least what they covered before.
fn know<S: Parted>(
    alloc: Global,
    samples: &mut IndexMap<Part, Samples<S>>,
    op: &S::Op,
) -> Result<(), OutOfMemory>
    ensures keeps { (b : S.Op) → Knows S.object S.part_of samples.old.entries b →
        Knows S.object S.part_of samples.new.entries b }
    ensures knows { OnOk result (Knows S.object S.part_of samples.new.entries op.now) }
{
    let part = S::part(op);
    if let Some(known) = samples.get_mut(&part) {
        known.add(op);
        return Ok(());
    }
    let mut first = Samples::<S>::new(alloc);
    first.add(op);
    samples.insert(part, first)?;
    Ok(())
}

/// Adds all these operations to the samples. The only error is out of memory.
fn know_all<S: Parted>(
    alloc: Global,
    samples: &mut IndexMap<Part, Samples<S>>,
    items: &[Item<S::Op>],
) -> Result<(), OutOfMemory>
    ensures { OnOk result (KnowsAll S.object S.part_of samples.new.entries items.now) }
{
    for item in items {
        know::<S>(alloc, samples, &item.op)?;
    }
    Ok(())
}

/// Adds an operation to the samples if there are more than `FEW_OPERATIONS` with it. At the first
/// one that is too many, all of them are added. The only error is out of memory, and the samples
/// then cover at least what they covered before.
fn know_next<S: Parted>(
    alloc: Global,
    samples: &mut IndexMap<Part, Samples<S>>,
    items: &[Item<S::Op>],
    item: &Item<S::Op>,
) -> Result<(), OutOfMemory>
    requires { KnowsMany S.object S.part_of samples.old.entries items.now }
    ensures keeps { KnowsMany S.object S.part_of samples.new.entries items.now }
    ensures knows { OnOk result
        (KnowsMany S.object S.part_of samples.new.entries (items.now ++ item.now ∷ [])) }
{
    if items.len() < FEW_OPERATIONS {
        return Ok(());
    }
    if items.len() == FEW_OPERATIONS {
        know_all::<S>(alloc, samples, items)?;
    }
    know::<S>(alloc, samples, &item.op)
}

/// The own operations of an open transaction, in order, with a filter of their parts. If there are
/// more than `FEW_OPERATIONS`, each part also has samples, which decide for all operations of the
/// part. In contracts the value is the list of operations.
#[derive(Drop)]
pub struct Own<S: Parted> {
    alloc: Global,
    items: Items<S::Op>,
    filter: PartFilter,
    samples: IndexMap<Part, Samples<S>>,
}

impl<S: Parted> Model for Own<S> {
    ghost Value = { List (ItemOf S.Op) };

    ghost view = { λ a. a.items };

    ghost invariant = { λ a. MayHaveAll S.part_of a.filter a.items
        × KnowsMany S.object S.part_of a.samples.entries a.items };
}

impl<S: Parted> Own<S> {
    /// Makes an empty list. It takes no memory.
    pub fn new(alloc: Global) -> Self
        ensures { result ≡ [] }
    {
        Own {
            alloc,
            items: Items::new(alloc),
            filter: PartFilter::new(),
            samples: IndexMap::new(alloc),
        }
    }

    /// Adds an operation. The only error is out of memory.
    pub fn add(&mut self, item: Item<S::Op>) -> Result<(), OutOfMemory>
        ensures { OnOk result (self.new ≡ self.old ++ item ∷ []) }
    {
        know_next::<S>(self.alloc, &mut self.samples, self.items.as_slice(), &item)?;
        self.filter.add(&S::part(&item.op));
        self.items.push(item)
    }

    /// The operations with their ids, in order.
    pub fn as_slice(&self) -> &[Item<S::Op>]
        ensures { result.now ≡ self.now }
    {
        self.items.as_slice()
    }

    /// The operations with their ids, without the filter and the samples.
    pub fn into_items(self) -> Items<S::Op>
        ensures { result ≡ self }
    {
        self.items
    }

    /// Whether the samples show that each operation at the place of another swaps with it, or no
    /// operation has its part. False decides nothing: there are no samples if the operations are
    /// few.
    fn surely_swaps(&self, op: &S::Op) -> bool
        ensures { IsTrue result → LetPass S.object S.place_of self.now op.now }
    {
        let part = S::part(op);
        if !self.filter.may_have(&part) {
            return true;
        }
        if self.items.len() <= FEW_OPERATIONS {
            return false;
        }
        match self.samples.get(&part) {
            None => true,
            Some(known) => known.all_before(op),
        }
    }

    /// Whether each operation at the place of another swaps with it. It compares them one by one
    /// only if they are few, or if the samples do not decide.
    pub fn let_pass(&self, op: &S::Op) -> bool
        ensures yes { IsTrue result → LetPass S.object S.place_of self.now op.now }
        ensures no { result ≡ false → Stops S.object S.place_of self.now op.now }
    {
        if self.surely_swaps(op) {
            return true;
        }
        all_swap::<S>(self.items.as_slice(), op)
    }
}
