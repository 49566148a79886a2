//! Looks at ids, one after another: which of their entries are in the shared log, and in a local log.
ghost use Rattle.std.specs.Prelude.{◌≡◌, ◌⊎◌, ◌≤◌, ◌<◌, ◌==◌, ℕ, Some, None};
ghost use Rattle.std.specs.Prelude.{drop, false, true, length, position, slice_get};
ghost use Rattle.pp_records.specs.Expansions.{stands_in};

use pp_kind::Parted;
use pp_log_local::Local;
use pp_log_shared::Shared;

/// Whether an entry of this id is in the shared log, and not in the local log.
fn is_missing<S: Parted>(shared: &Shared<S>, local: &Local<S>, id: u32) -> bool
    ensures { result ≡ false → (stands_in local.now.1 id ≡ true)
        ⊎ (position (λ e. e.id == id) shared.now.1 ≡ None) }
{
    if local.find(id).is_some() {
        return false;
    }
    shared.find(id).is_some()
}

/// The first position at `from` or after it whose entry is in the shared log, and not in the local
/// log.
pub(crate) fn first_missing<S: Parted>(
    shared: &Shared<S>,
    local: &Local<S>,
    ids: &[u32],
    from: usize,
) -> usize
    ensures within { result ≤ length ids.now }
    ensures there { (i id : ℕ) → from ≤ i → i < result → slice_get ids.now i ≡ Some id →
        (stands_in local.now.1 id ≡ true) ⊎ (position (λ e. e.id == id) shared.now.1 ≡ None) }
{
    for at in from..ids.len() {
        if is_missing(shared, local, ids[at]) {
            return at;
        }
    }
    ids.len()
}

/// The first position at `from` or after it whose entry is in the shared log.
pub(crate) fn first_there<S: Parted>(shared: &Shared<S>, ids: &[u32], from: usize) -> usize
    ensures within { result ≤ length ids.now }
    ensures gone { (i id : ℕ) → from ≤ i → i < result → slice_get ids.now i ≡ Some id →
        position (λ e. e.id == id) shared.now.1 ≡ None }
{
    for at in from..ids.len() {
        if shared.find(ids[at]).is_some() {
            return at;
        }
    }
    ids.len()
}

/// The ids from a position on.
pub(crate) fn last_ids(ids: &[u32], from: usize) -> &[u32]
    requires { from ≤ length ids.now }
    ensures { result.now ≡ drop from ids.now }
{
    &ids[from..]
}
