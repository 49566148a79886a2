//! The bodies of transactions, and how large they are.
ghost use Rattle.std.specs.Prelude.{◌≡◌, ◌+◌, ◌≤◌, min, option_map, IfOk};
ghost use Rattle.pp_core.specs.Trees.{tree, trees_of, nodes, nodes_of_all, depth, depth_of_all};

use crate::answer::OutOfMemory;
use crate::call::Method;
use crate::limits::{MOST_BODY_NODES, MOST_DEPTH};
use crate::sequence::Sequence;
use std::alloc::Global;

/// A pattern of calls. No number given means any number, and an unused argument is `Some(0)`.
#[derive(Clone, Copy)]
pub struct Pattern {
    pub object: u16,
    pub method: Method,
    pub first: Option<i64>,
    pub second: Option<i64>,
    pub third: Option<i64>,
}

/// The parts of a body.
pub type Parts<T> = Sequence<T>;

/// Which calls a transaction may make.
#[derive(Drop)]
pub enum Body {
    /// No call.
    Skip,
    /// One call that the pattern matches.
    Step(Pattern),
    /// The parts, one after another.
    Seq(Parts<Body>),
    /// Any one of the parts.
    Alt(Parts<Body>),
    /// The body any number of times, none included.
    Star(Box<Body>),
}

/// How many nodes, or `u32::MAX` if that is fewer.
#[cycle(nodes)]
fn count_nodes(body: &Body) -> u32
    ensures { result ≡ min (nodes (tree body.now)) u32.MAX }
{
    match body {
        Body::Skip | Body::Step(_) => 1,
        Body::Seq(parts) => count_nodes_of_all(parts.as_slice()).saturating_add(1),
        Body::Alt(parts) => count_nodes_of_all(parts.as_slice()).saturating_add(1),
        Body::Star(inner) => count_nodes(inner).saturating_add(1),
    }
}

#[cycle(nodes)]
#[tactic(auto, using(crate::proofs::Items::none_left))]
fn count_nodes_of_all(parts: &[Body]) -> u32
    ensures { result ≡ min (nodes_of_all (trees_of parts.now)) u32.MAX }
{
    let mut total = 0u32;
    for part in parts {
        total = total.saturating_add(count_nodes(part));
    }
    total
}

/// How deep, or `u32::MAX` if that is less.
#[cycle(depth)]
fn measure_depth(body: &Body) -> u32
    ensures { result ≡ min (depth (tree body.now)) u32.MAX }
{
    match body {
        Body::Skip | Body::Step(_) => 1,
        Body::Seq(parts) => measure_depth_of_all(parts.as_slice()).saturating_add(1),
        Body::Alt(parts) => measure_depth_of_all(parts.as_slice()).saturating_add(1),
        Body::Star(inner) => measure_depth(inner).saturating_add(1),
    }
}

#[cycle(depth)]
#[tactic(auto, using(crate::proofs::Items::none_left))]
fn measure_depth_of_all(parts: &[Body]) -> u32
    ensures { result ≡ min (depth_of_all (trees_of parts.now)) u32.MAX }
{
    let mut deepest = 0u32;
    for part in parts {
        deepest = deepest.max(measure_depth(part));
    }
    deepest
}

#[cycle(copy)]
fn copy(body: &Body, alloc: Global) -> Result<Body, OutOfMemory>
    ensures { IfOk result (λ b. tree b ≡ tree body.now) }
{
    match body {
        Body::Skip => Ok(Body::Skip),
        Body::Step(pattern) => Ok(Body::Step(*pattern)),
        Body::Seq(parts) => Ok(Body::Seq(copy_all(parts.as_slice(), alloc)?)),
        Body::Alt(parts) => Ok(Body::Alt(copy_all(parts.as_slice(), alloc)?)),
        Body::Star(inner) => Ok(Body::Star(Box::new(alloc, copy(inner, alloc)?)?)),
    }
}

#[cycle(copy)]
fn copy_all(parts: &[Body], alloc: Global) -> Result<Parts<Body>, OutOfMemory>
    ensures { IfOk result (λ p. trees_of p ≡ trees_of parts.now) }
{
    let mut copies = Sequence::new(alloc);
    for part in parts {
        copies.push(copy(part, alloc)?)?;
    }
    Ok(copies)
}

impl Body {
    ghost use Rattle.std.specs.Prelude.{◌↔◌, IsTrue};
    ghost use Rattle.pp_core.specs.Trees.{IsWithin, is_within};

    /// An equal body. The only error is out of memory.
    pub fn copy(&self, alloc: Global) -> Result<Body, OutOfMemory>
        ensures { IfOk result (λ b. tree b ≡ tree self.now) }
    {
        copy(self, alloc)
    }

    /// An equal body, or none if there is none. The only error is out of memory.
    pub fn copy_if_any(body: &Option<Body>, alloc: Global) -> Result<Option<Body>, OutOfMemory>
        ensures { IfOk result (λ b. option_map tree b ≡ option_map tree body.now) }
    {
        match body {
            None => Ok(None),
            Some(body) => Ok(Some(copy(body, alloc)?)),
        }
    }

    /// Whether it has at most 64 nodes and is at most 16 deep.
    #[tactic(auto, unfolding(crate::specs::Trees::is_within))]
    pub fn within(&self) -> bool
        ensures value { result ≡ is_within (tree self.now) }
        ensures meaning { IsTrue result ↔ IsWithin (tree self.now) }
    {
        count_nodes(self) <= MOST_BODY_NODES && measure_depth(self) <= MOST_DEPTH
    }
}
