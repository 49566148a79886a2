//! How many entries of a local log are own, and what represents their operations.
ghost use Rattle.std.specs.Prelude.{◌≡◌, ◌<◌, ◌≤◌, ◌+◌, true, length, [], ◌∷◌};
ghost use Rattle.pp_model.specs.Config.{is_own, own};
ghost use Rattle.pp_kind.specs.declared.range.TheConstants.{MOST_OPERATIONS};
ghost use Rattle.pp_kind.specs.Parts.{Covers};

use crate::movers::is_own;
use pp_core::LocalEntry;
use pp_kind::{Parted, Samples};

/// Adds a new entry to the samples, if it is own. Returns the new count.
pub fn with<S: Parted>(samples: &mut Samples<S>, count: usize, entry: &LocalEntry<S::Op>) -> usize
    requires { count < MOST_OPERATIONS }
    ensures keeps { (b : S.Op) → Covers S.object samples.old b → Covers S.object samples.new b }
    ensures covers { is_own entry.now.mark ≡ true → Covers S.object samples.new entry.now.op }
    ensures count { result ≡ count + length (own (entry.now ∷ [])) }
{
    if !is_own(entry.mark) {
        return count;
    }
    samples.add(&entry.op);
    count + 1
}

/// Leaves an entry out, if it is own. With the last one all samples go. Returns the new count.
pub fn without<S: Parted>(
    samples: &mut Samples<S>,
    count: usize,
    entry: &LocalEntry<S::Op>,
) -> usize
    requires { length (own (entry.now ∷ [])) ≤ count }
    ensures keeps { 0 < result →
        (b : S.Op) → Covers S.object samples.old b → Covers S.object samples.new b }
    ensures count { result + length (own (entry.now ∷ [])) ≡ count }
{
    if !is_own(entry.mark) {
        return count;
    }
    if count == 1 {
        samples.clear();
        return 0;
    }
    count - 1
}
