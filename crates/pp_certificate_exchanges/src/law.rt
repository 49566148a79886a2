//! Laws of exchanges. Each is a fact of the definitions, and does nothing.
ghost use Rattle.pp_kind.specs.Object.{rules_of};
ghost use Rattle.pp_certificate_exchanges.specs.Laws.{RouteLaw, ExchangeLaw, OrderLaw, TargetLaw};

use pp_kind::Spec;

/// A route ends in its target. Each of its exchanges turns an inverted pair, and there are as many
/// as `inverted` counts.
pub fn route_law<O>()
    ensures { RouteLaw O }
{}

/// If each exchange swaps, what is allowed after the first list is allowed after the last.
pub fn exchange_law<S: Spec>()
    ensures { (shape : S.Shape) → ExchangeLaw (rules_of S.object shape) }
{}

/// The shared log of a sound configuration may be put into commit order, with what is uncommitted
/// after.
pub fn order_law<S: Spec>()
    ensures { (shape : S.Shape) → OrderLaw (rules_of S.object shape) }
{}

/// The shared log and its target meet the precondition of `exchanges`.
pub fn target_law<S: Spec>()
    ensures { TargetLaw S.object }
{}
