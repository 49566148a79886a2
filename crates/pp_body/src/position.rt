//! Sets of positions in a body, as bits.
ghost use Rattle.std.specs.Prelude.{◌≡◌, ◌+◌, ◌≤◌};
ghost use Rattle.pp_core.specs.declared.limits.TheConstants.{MOST_BODY_NODES};
ghost use Rattle.pp_core.specs.Trees.{tree, trees_of, nodes, nodes_of_all};
ghost use Rattle.pp_body.specs.Positions.{has, reaches, reaches_in_turn_to, reaches_some_to};

use pp_core::Body;

pub(crate) fn has(set: u64, at: u32) -> bool
    requires { at + 1 ≤ MOST_BODY_NODES }
    ensures { result ≡ has set at }
{
    (set >> at) & 1 == 1
}

/// Whether the end is reached, and the place after the body.
#[cycle(reaches)]
pub(crate) fn reaches(more: bool, body: &Body, at: u32, set: u64, entered: bool) -> (bool, u32)
    requires { at + nodes (tree body.now) ≤ MOST_BODY_NODES }
    ensures { result ≡ (reaches more (tree body.now) at set entered, at + nodes (tree body.now)) }
{
    match body {
        Body::Skip => (entered, at + 1),
        Body::Step(_) => (has(set, at) || (more && entered), at + 1),
        Body::Seq(parts) => {
            let (ends, next) = reaches_in_turn(more, parts.as_slice(), at, set, entered);
            (ends, next + 1)
        }
        Body::Alt(parts) => {
            let (ends, next) = reaches_some(more, parts.as_slice(), at, set, entered);
            (ends, next + 1)
        }
        Body::Star(inner) => {
            let (ends, next) = reaches(more, inner, at, set, false);
            (entered || ends, next + 1)
        }
    }
}

#[cycle(reaches)]
fn reaches_in_turn(more: bool, parts: &[Body], at: u32, set: u64, entered: bool) -> (bool, u32)
    requires { at + nodes_of_all (trees_of parts.now) ≤ MOST_BODY_NODES }
    ensures { result ≡ reaches_in_turn_to more (trees_of parts.now) at set entered }
{
    let mut at = at;
    let mut entered = entered;
    for part in parts {
        (entered, at) = reaches(more, part, at, set, entered);
    }
    (entered, at)
}

#[cycle(reaches)]
fn reaches_some(more: bool, parts: &[Body], at: u32, set: u64, entered: bool) -> (bool, u32)
    requires { at + nodes_of_all (trees_of parts.now) ≤ MOST_BODY_NODES }
    ensures { result ≡ reaches_some_to more (trees_of parts.now) at set entered }
{
    let mut at = at;
    let mut some = false;
    for part in parts {
        let (ends, next) = reaches(more, part, at, set, entered);
        some = some || ends;
        at = next;
    }
    (some, at)
}
