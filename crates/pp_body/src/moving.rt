//! The effect of one call on a set of positions, in one pass over the body.
ghost use Rattle.std.specs.Prelude.{◌≡◌, ◌+◌, ◌≤◌};
ghost use Rattle.pp_core.specs.declared.limits.TheConstants.{MOST_BODY_NODES};
ghost use Rattle.pp_core.specs.Trees.{tree, trees_of, nodes, nodes_of_all};
ghost use Rattle.pp_body.specs.Positions.{shift};
ghost use Rattle.pp_body.specs.Moves.{when, after, ends, passing, nowhere, first_then, either};
ghost use Rattle.pp_body.specs.Moves.{again};
ghost use Rattle.pp_body.specs.Moves.{moves, moves_in_turn_to, moves_of_some_to};

use crate::matching::matches;
use crate::position::has;
use pp_core::{Body, Call};

/// The effect of one call in a part of a body.
#[derive(Clone, Copy)]
struct Moves {
    /// The positions reached from the set.
    moved: u64,
    /// The positions reached if the part is entered.
    fresh: u64,
    /// Whether the end of the part is reached from the set.
    ended: bool,
    /// Whether the part has the empty word.
    skips: bool,
}

/// The effect of every call in a part that is passed with no call.
const PASSING: Moves = Moves {
    moved: 0,
    fresh: 0,
    ended: false,
    skips: true,
};

/// The effect of every call if there is no part.
const NOWHERE: Moves = Moves {
    moved: 0,
    fresh: 0,
    ended: false,
    skips: false,
};

fn when(flag: bool, set: u64) -> u64
    ensures { result ≡ when flag set }
{
    if flag { set } else { 0 }
}

impl Moves {
    /// The set after the call.
    fn after(self, entered: bool) -> u64
        ensures { result ≡ after entered self }
    {
        self.moved | when(entered, self.fresh)
    }

    /// The moves in this part, and then in that one.
    fn then(self, next: Moves) -> Moves
        ensures { result ≡ first_then self next }
    {
        Moves {
            moved: self.moved | next.after(self.ended),
            fresh: self.fresh | when(self.skips, next.fresh),
            ended: next.ended || (self.ended && next.skips),
            skips: self.skips && next.skips,
        }
    }

    /// The moves in one part or the other.
    fn or(self, other: Moves) -> Moves
        ensures { result ≡ either self other }
    {
        Moves {
            moved: self.moved | other.moved,
            fresh: self.fresh | other.fresh,
            ended: self.ended || other.ended,
            skips: self.skips || other.skips,
        }
    }

    /// The moves in a part that may come again and again.
    fn again(self) -> Moves
        ensures { result ≡ again self }
    {
        Moves {
            moved: self.after(self.ended),
            skips: true,
            ..self
        }
    }
}

/// The moves, and the place after the body.
#[cycle(moves)]
fn moves_of(body: &Body, at: u32, set: u64, call: &Call) -> (Moves, u32)
    requires { at + nodes (tree body.now) ≤ MOST_BODY_NODES }
    ensures { result ≡ (moves (tree body.now) at set call.now, at + nodes (tree body.now)) }
{
    match body {
        Body::Skip => (PASSING, at + 1),
        Body::Step(pattern) => {
            let here = Moves {
                fresh: when(matches(pattern, call), 1 << at),
                ended: has(set, at),
                ..NOWHERE
            };
            (here, at + 1)
        }
        Body::Seq(parts) => {
            let (all, next) = moves_in_turn(parts.as_slice(), at, set, call);
            (all, next + 1)
        }
        Body::Alt(parts) => {
            let (all, next) = moves_of_some(parts.as_slice(), at, set, call);
            (all, next + 1)
        }
        Body::Star(inner) => {
            let (once, next) = moves_of(inner, at, set, call);
            (once.again(), next + 1)
        }
    }
}

#[cycle(moves)]
#[tactic(auto, using(crate::proofs::Moves::passing_then))]
fn moves_in_turn(parts: &[Body], at: u32, set: u64, call: &Call) -> (Moves, u32)
    requires { at + nodes_of_all (trees_of parts.now) ≤ MOST_BODY_NODES }
    ensures { result ≡ moves_in_turn_to (trees_of parts.now) at set call.now }
{
    let mut at = at;
    let mut all = PASSING;
    for part in parts {
        let (here, next) = moves_of(part, at, set, call);
        all = all.then(here);
        at = next;
    }
    (all, at)
}

#[cycle(moves)]
fn moves_of_some(parts: &[Body], at: u32, set: u64, call: &Call) -> (Moves, u32)
    requires { at + nodes_of_all (trees_of parts.now) ≤ MOST_BODY_NODES }
    ensures { result ≡ moves_of_some_to (trees_of parts.now) at set call.now }
{
    let mut at = at;
    let mut all = NOWHERE;
    for part in parts {
        let (here, next) = moves_of(part, at, set, call);
        all = all.or(here);
        at = next;
    }
    (all, at)
}

/// The set after one more call.
pub(crate) fn shift(body: &Body, set: u64, entered: bool, call: &Call) -> u64
    requires { nodes (tree body.now) ≤ MOST_BODY_NODES }
    ensures { result ≡ shift (tree body.now) 0 set entered call.now }
{
    let (all, _) = moves_of(body, 0, set, call);
    all.after(entered)
}
