//! Looking for an own entry with which an operation may not change places.
ghost use Rattle.std.specs.Prelude.{◌≡◌, is_some, position};
ghost use Rattle.pp_model.specs.Config.{is_mark, is_own};
ghost use Rattle.pp_log_local.specs.Movers.{holds_back, stands_first, stays_behind};

use pp_core::{LocalEntry, Mark};
use pp_kind::Spec;

/// Whether two marks are one.
pub fn is_mark(mark: Mark, other: Mark) -> bool
    ensures { result ≡ is_mark mark other }
{
    mark == other
}

/// Whether an entry of this mark is own.
pub fn is_own(mark: Mark) -> bool
    ensures { result ≡ is_own mark }
{
    mark != Mark::Pulled
}

/// Whether the pair does not swap.
fn is_refuted<S: Spec>(a: &S::Op, b: &S::Op) -> bool
    ensures { result ≡ is_some (S.object.refuting a.now b.now) }
{
    !S::swaps(a, b)
}

/// Whether this is an own unpushed entry that the operation may not come before.
fn holds_back<S: Spec>(entry: &LocalEntry<S::Op>, op: &S::Op) -> bool
    ensures { result ≡ holds_back S.object op.now entry.now }
{
    is_mark(entry.mark, Mark::Unpushed) && is_refuted::<S>(op, &entry.op)
}

/// The position of the first own unpushed entry that holds the operation back.
pub fn first_holding_back<S: Spec>(entries: &[LocalEntry<S::Op>], op: &S::Op) -> Option<usize>
    ensures { result ≡ position (holds_back S.object op.now) entries.now }
{
    entries.iter().position(|entry| holds_back::<S>(entry, op))
}

/// Whether this is an own pushed entry that may not come before the operation.
fn stays_behind<S: Spec>(entry: &LocalEntry<S::Op>, op: &S::Op) -> bool
    ensures { result ≡ stays_behind S.object op.now entry.now }
{
    is_mark(entry.mark, Mark::Pushed) && is_refuted::<S>(&entry.op, op)
}

/// The position of the first own pushed entry that may not come before the operation.
pub fn first_staying_behind<S: Spec>(entries: &[LocalEntry<S::Op>], op: &S::Op) -> Option<usize>
    ensures { result ≡ position (stays_behind S.object op.now) entries.now }
{
    entries
        .iter()
        .position(|entry| stays_behind::<S>(entry, op))
}

/// Whether this is an own entry that may not come after the operation.
fn stands_first<S: Spec>(entry: &LocalEntry<S::Op>, op: &S::Op) -> bool
    ensures { result ≡ stands_first S.object op.now entry.now }
{
    is_own(entry.mark) && is_refuted::<S>(&entry.op, op)
}

/// The position of the first own entry that may not come after the operation.
pub fn first_not_before<S: Spec>(entries: &[LocalEntry<S::Op>], op: &S::Op) -> Option<usize>
    ensures { result ≡ position (stands_first S.object op.now) entries.now }
{
    entries
        .iter()
        .position(|entry| stands_first::<S>(entry, op))
}
