//! Operations that represent many others.
ghost use Rattle.std.specs.Prelude.{◌≡◌, All, IsTrue, List, []};
ghost use Rattle.pp_kind.specs.Object.{Swaps};
ghost use Rattle.pp_kind.specs.Parts.{Covers, KeepsClique, IsStoodForBy, first_and, no_samples};

use crate::parted::Parted;
use std::alloc::Global;
use std::marker::Model;

/// How many samples are kept at most.
pub const MOST_SAMPLES: usize = 64;

/// Operations that represent all that were added, and whether all of these are in the clique. Too
/// many different ones are not kept: then nothing but that is known. The first is kept apart, so
/// that one alone takes no memory.
#[derive(Drop)]
pub struct Samples<S: Parted> {
    first: Option<S::Op>,
    others: Vec<S::Op>,
    cut: bool,
    all_in_clique: bool,
}

impl<S: Parted> Model for Samples<S> {
    ghost use Rattle.pp_kind.specs.Parts.{SampleList, first_and};

    ghost Value = { SampleList S.Op };

    ghost view = { λ s. record {
      ops = first_and s.first s.others.items;
      cut = s.cut;
      all_in_clique = s.all_in_clique;
    } };
}

/// Whether one of the samples represents the operation.
fn some_stands_for<S: Parted>(samples: &[S::Op], op: &S::Op) -> bool
    ensures { IsTrue result → IsStoodForBy S.object samples.now op.now }
{
    for sample in samples {
        if S::stands_for(sample, op) {
            return true;
        }
    }
    false
}

/// Whether there is a first sample that represents the operation.
fn first_stands_for<S: Parted>(first: &Option<S::Op>, op: &S::Op) -> bool
    ensures { IsTrue result → (others : List S.Op) →
        IsStoodForBy S.object (first_and first.now others) op.now }
{
    match first {
        None => false,
        Some(first) => S::stands_for(first, op),
    }
}

/// Whether the first sample, if there is one, may be followed by the operation and change places
/// with it.
fn first_swaps_before<S: Parted>(first: &Option<S::Op>, op: &S::Op) -> bool
    ensures { IsTrue result → All (λ s. Swaps S.object s op.now) (first_and first.now []) }
{
    match first {
        None => true,
        Some(first) => S::swaps(first, op),
    }
}

/// Whether the first sample, if there is one, may be after the operation and change places with it.
fn first_swaps_behind<S: Parted>(first: &Option<S::Op>, op: &S::Op) -> bool
    ensures { IsTrue result → All (λ s. Swaps S.object op.now s) (first_and first.now []) }
{
    match first {
        None => true,
        Some(first) => S::swaps(op, first),
    }
}

/// Whether each of the samples may be followed by the operation and change places with it.
fn all_swap_before<S: Parted>(samples: &[S::Op], op: &S::Op) -> bool
    ensures { IsTrue result → All (λ s. Swaps S.object s op.now) samples.now }
{
    for sample in samples {
        if !S::swaps(sample, op) {
            return false;
        }
    }
    true
}

/// Whether each of the samples may be after the operation and change places with it.
fn all_swap_behind<S: Parted>(samples: &[S::Op], op: &S::Op) -> bool
    ensures { IsTrue result → All (λ s. Swaps S.object op.now s) samples.now }
{
    for sample in samples {
        if !S::swaps(op, sample) {
            return false;
        }
    }
    true
}

impl<S: Parted> Samples<S> {
    /// Nothing was added. It takes no memory.
    pub fn new(alloc: Global) -> Self
        ensures { result ≡ no_samples }
    {
        Samples {
            first: None,
            others: Vec::new(alloc),
            cut: false,
            all_in_clique: true,
        }
    }

    /// Whether the operation and all that were added are in the clique, and so swap. False says
    /// nothing.
    fn swaps_in_clique(&self, op: &S::Op) -> bool
        ensures before { IsTrue result →
            (b : S.Op) → Covers S.object self.now b → Swaps S.object b op.now }
        ensures behind { IsTrue result →
            (b : S.Op) → Covers S.object self.now b → Swaps S.object op.now b }
    {
        S::in_clique(op) && self.all_in_clique
    }

    /// Whether one of those that are kept represents the operation.
    fn has_one_for(&self, op: &S::Op) -> bool
        ensures { IsTrue result → IsStoodForBy S.object self.now.ops op.now }
    {
        first_stands_for::<S>(&self.first, op) || some_stands_for::<S>(&self.others, op)
    }

    /// Keeps an operation. If memory runs out, or too many are kept, from then on only the clique
    /// is known.
    fn keep(&mut self, op: &S::Op)
        requires { KeepsClique S.object self.old op.now }
        ensures keeps { (b : S.Op) → Covers S.object self.old b → Covers S.object self.new b }
        ensures covers { Covers S.object self.new op.now }
    {
        if self.first.is_none() {
            self.first = Some(*op);
            return;
        }
        if self.others.len() + 1 >= MOST_SAMPLES || self.others.push(*op).is_err() {
            self.cut = true;
        }
    }

    /// Adds an operation, which is kept if no kept one represents it. If memory runs out, or too
    /// many are kept, from then on only the clique is known.
    pub fn add(&mut self, op: &S::Op)
        ensures keeps { (b : S.Op) → Covers S.object self.old b → Covers S.object self.new b }
        ensures covers { Covers S.object self.new op.now }
    {
        self.all_in_clique = self.all_in_clique && S::in_clique(op);
        if self.cut || self.has_one_for(op) {
            return;
        }
        self.keep(op);
    }

    /// Whether each that was added may be followed by the operation and change places with it.
    /// False says nothing.
    pub fn all_before(&self, op: &S::Op) -> bool
        ensures { IsTrue result →
            (b : S.Op) → Covers S.object self.now b → Swaps S.object b op.now }
    {
        if self.swaps_in_clique(op) {
            return true;
        }
        if self.cut {
            return false;
        }
        first_swaps_before::<S>(&self.first, op) && all_swap_before::<S>(&self.others, op)
    }

    /// Whether each that was added may be after the operation and change places with it. False says
    /// nothing.
    pub fn all_behind(&self, op: &S::Op) -> bool
        ensures { IsTrue result →
            (b : S.Op) → Covers S.object self.now b → Swaps S.object op.now b }
    {
        if self.swaps_in_clique(op) {
            return true;
        }
        if self.cut {
            return false;
        }
        first_swaps_behind::<S>(&self.first, op) && all_swap_behind::<S>(&self.others, op)
    }

    /// Forgets all that was added.
    pub fn clear(&mut self)
        ensures { self.new ≡ no_samples }
    {
        self.first = None;
        self.others.clear();
        self.cut = false;
        self.all_in_clique = true;
    }
}
