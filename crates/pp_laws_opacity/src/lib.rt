//! Laws of opacity: which accepted runs are opaque, and what opacity is not. Each law is the
//! contract of an empty function, over every kind of objects or over two cells.
#![tactic(auto)]

ghost use Rattle.pp_kind.specs.Object.{rules_of};
ghost use Rattle.pp_laws_opacity.specs.Boosted.{BoostedLaw};
ghost use Rattle.pp_laws_opacity.specs.Examples.{EarlyLaw, OldLaw, OptimisticLaw, RetriedLaw};
ghost use Rattle.pp_laws_opacity.specs.Examples.{StaleLaw, TornLaw};
ghost use Rattle.pp_laws_opacity.specs.Laws.{AppLaw, BeganLaw, OpacityLaw, PrefixLaw, WholeLaw};
ghost use Rattle.pp_laws_opacity.specs.Questions.{QuestionLaw};
ghost use Rattle.pp_laws_opacity.specs.Sufficient.{EagerLaw, PushedLaw, SnapshotLaw};
ghost use Rattle.pp_laws_opacity.specs.Zombies.{ZombieLaw};

use pp_kind::Spec;

/// An accepted run is opaque if and only if, for each prefix of it, one sequence explains what all
/// transactions and all attempts saw. The sequence has the committed transactions in commit order
/// and respects real time.
pub fn opacity_law<S: Spec>()
    ensures { (shape : S.Shape) → OpacityLaw (rules_of S.object shape) }
{}

/// In an accepted run each open transaction is in one attempt, which began with one step.
pub fn began_law<S: Spec>()
    ensures { (shape : S.Shape) → BeganLaw (rules_of S.object shape) }
{}

/// Each prefix of an opaque run is opaque.
pub fn prefix_law<S: Spec>()
    ensures { (shape : S.Shape) → PrefixLaw (rules_of S.object shape) }
{}

/// An accepted run is opaque if and only if it is opaque right after each APP.
pub fn app_law<S: Spec>()
    ensures { (shape : S.Shape) → AppLaw (rules_of S.object shape) }
{}

/// The operations that an attempt sees may be read off the whole run, and the ends of its window
/// are counts of commits.
pub fn whole_law<S: Spec>()
    ensures { (shape : S.Shape) → WholeLaw (rules_of S.object shape) }
{}

/// An accepted run is opaque if and only if each of finitely many questions has an answer: one
/// question for each APP.
pub fn question_law<S: Spec>()
    ensures { (shape : S.Shape) → QuestionLaw (rules_of S.object shape) }
{}

/// An accepted run has one first own list at most that no number of commits in its window explains.
/// Then it is not opaque, and the list is there right after an APP of its transaction.
pub fn zombie_law<S: Spec>()
    ensures { (shape : S.Shape) → ZombieLaw (rules_of S.object shape) }
{}

/// An open transaction that has pushed all its own entries sees what all committed transactions
/// left.
pub fn pushed_law<S: Spec>()
    ensures { (shape : S.Shape) → PushedLaw (rules_of S.object shape) }
{}

/// An accepted run is opaque if a PUSH follows each APP at once, and an UNAPP each UNPUSH.
pub fn eager_law<S: Spec>()
    ensures { (shape : S.Shape) → EagerLaw (rules_of S.object shape) }
{}

/// An accepted run of style boosted is opaque.
pub fn boosted_law<S: Spec>()
    ensures { (shape : S.Shape) → BoostedLaw (rules_of S.object shape) }
{}

/// An accepted run is opaque if, at each APP, what its transaction has pulled is a snapshot of all
/// objects.
pub fn snapshot_law<S: Spec>()
    ensures { (shape : S.Shape) → SnapshotLaw (rules_of S.object shape) }
{}

/// An accepted run that pulls only committed entries need not be opaque.
pub fn torn_law()
    ensures { TornLaw }
{}

/// An accepted run need not be opaque if some number of commits explains c's own list: the number
/// may be too small. Here and below, c is a transaction of the example.
pub fn stale_law()
    ensures { StaleLaw }
{}

/// An accepted run need not be opaque if such a number is no smaller than when c began: its attempt
/// may have begun later.
pub fn retried_law()
    ensures { RetriedLaw }
{}

/// An accepted run need not be opaque if a number in the window explains c's own list in the end.
pub fn early_law()
    ensures { EarlyLaw }
{}

/// An accepted run of style optimistic need not be opaque, even if the transaction that saw an
/// inconsistent state aborts and never commits.
pub fn optimistic_law()
    ensures { OptimisticLaw }
{}

/// A snapshot may be older than what has committed, and the run is opaque.
pub fn old_law()
    ensures { OldLaw }
{}
