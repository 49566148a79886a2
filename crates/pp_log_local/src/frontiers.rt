//! The positions between which the unpushed and the pushed entries of a local log are.
ghost use Rattle.std.specs.Prelude.{◌≡◌, ◌<◌, ◌≤◌, ◌+◌, length};
ghost use Rattle.pp_log_local.specs.Known.{NonePushedBut, NonePushedFrom};
ghost use Rattle.pp_log_local.specs.Known.{NoneUnpushedBefore, NoneUnpushedBut};

use crate::movers::is_mark;
use pp_core::{LocalEntry, Mark};

/// How many entries a frontier passes over at once, at most. So no step moves one far.
const STRIDE: usize = 64;

/// Moves the first frontier on, past entries that are not unpushed.
fn moved_on<O: Copy>(entries: &[LocalEntry<O>], from: usize) -> usize
    requires within { from ≤ length entries.now }
    requires before { NoneUnpushedBefore entries.now from }
    ensures within { result ≤ length entries.now }
    ensures before { NoneUnpushedBefore entries.now result }
{
    let end = from + (entries.len() - from).min(STRIDE);
    for k in from..end {
        if is_mark(entries[k].mark, Mark::Unpushed) {
            return k;
        }
    }
    end
}

/// Moves the second frontier back, past entries that are not pushed.
fn moved_back<O: Copy>(entries: &[LocalEntry<O>], to: usize) -> usize
    requires within { to ≤ length entries.now }
    requires behind { NonePushedFrom entries.now to }
    ensures within { result ≤ length entries.now }
    ensures behind { NonePushedFrom entries.now result }
{
    let start = to - to.min(STRIDE);
    for k in (start..to).rev() {
        if is_mark(entries[k].mark, Mark::Pushed) {
            return k + 1;
        }
    }
    start
}

/// The first frontier, if the i-th entry is new or has another mark.
pub fn unpushed_from<O: Copy>(entries: &[LocalEntry<O>], i: usize, from: usize) -> usize
    requires inside { i < length entries.now }
    requires within { from ≤ length entries.now }
    requires others { NoneUnpushedBut i entries.now from }
    ensures within { result ≤ length entries.now }
    ensures before { NoneUnpushedBefore entries.now result }
{
    if is_mark(entries[i].mark, Mark::Unpushed) {
        return from.min(i);
    }
    moved_on(entries, from)
}

/// The second frontier, if the i-th entry is new or has another mark.
pub fn pushed_to<O: Copy>(entries: &[LocalEntry<O>], i: usize, to: usize) -> usize
    requires inside { i < length entries.now }
    requires within { to ≤ length entries.now }
    requires others { NonePushedBut i entries.now to }
    ensures within { result ≤ length entries.now }
    ensures behind { NonePushedFrom entries.now result }
{
    if is_mark(entries[i].mark, Mark::Pushed) {
        return to.max(i + 1);
    }
    moved_back(entries, to)
}

/// The position of a frontier after the i-th entry is taken out.
pub fn without(frontier: usize, i: usize) -> usize
    ensures behind { i < frontier → result + 1 ≡ frontier }
    ensures before { frontier ≤ i → result ≡ frontier }
{
    if i < frontier { frontier - 1 } else { frontier }
}
