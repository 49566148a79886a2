//! Undo values, carried after the operations that may move past theirs.
ghost use Rattle.std.specs.Prelude.{◌≡◌, ◌<◌, ◌≤◌, ◌+◌, IsTrue, false, length};
ghost use Rattle.pp_log.specs.Batches.{CanGather, CarriesAllOver, Gathers};
ghost use Rattle.pp_log.specs.Carries.{CarriesOut, CarriesOver};
ghost use Rattle.pp_log.specs.Leaves.{HasIdAt};

use pp_core::Item;
use pp_kind::TakesBack;

/// Carries an operation after the next one of its place. Its undo value is at a position, and the
/// undo value of the other one is right after that. If the two keep in turn, both values stay;
/// otherwise they are exchanged.
fn carry_over<S: TakesBack>(op: &S::Op, undos: &mut Vec<S::Undo>, at: usize)
    requires { at + 1 < length undos.old.items }
    ensures size { length undos.new.items ≡ length undos.old.items }
    ensures carries { CarriesOver S.object S.place_of op.now at
        undos.old.items undos.new.items }
{
    if !S::keep_in_turn(op, &undos[at + 1]) {
        undos.swap(at, at + 1);
    }
}

/// Carries the operation whose undo value is at `from` after all of its place that are after it,
/// and takes its undo value out there.
pub fn carry_out<S: TakesBack>(op: &S::Op, undos: &mut Vec<S::Undo>, from: usize) -> S::Undo
    requires { from < length undos.old.items }
    ensures { CarriesOut S.object S.place_of op.now from undos.old.items undos.new.items result }
{
    if S::keeps_alone(op) {
        return undos.remove(from);
    }
    for at in from..undos.len() - 1 {
        carry_over::<S>(op, undos, at);
    }
    let Some(undo) = undos.pop() else {
        unreachable!()
    };
    undo
}

/// Carries a batch of operations, whose undo values are together right before a position, after the
/// one that is there.
fn carry_all_over<S: TakesBack>(batch: &[Item<S::Op>], undos: &mut Vec<S::Undo>, at: usize)
    requires before { length batch.now ≤ at }
    requires within { at < length undos.old.items }
    ensures size { length undos.new.items ≡ length undos.old.items }
    ensures carries { CarriesAllOver S.object S.place_of batch.now at
        undos.old.items undos.new.items }
{
    let first = at - batch.len();
    let mut left = batch.len();
    while left > 0 {
        left -= 1;
        carry_over::<S>(&batch[left].op, undos, first + left);
    }
}

/// Whether the item at a position has this id.
pub fn has_id_at<O: Copy>(items: &[Item<O>], at: usize, id: u32) -> bool
    ensures yes { IsTrue result → HasIdAt items.now at id }
    ensures no { result ≡ false → HasIdAt items.now at id → ⊥ }
{
    at < items.len() && items[at].id == id
}

/// Carries a batch of operations of a place after all others there, in one walk over these. The
/// undo value of the first of them is at `from`.
pub fn gather<S: TakesBack>(
    batch: &[Item<S::Op>],
    ids: &[u32],
    undos: &mut Vec<S::Undo>,
    from: usize,
)
    requires { CanGather S.object S.place_of batch.now from ids.now undos.old.items }
    ensures size { length undos.new.items ≡ length undos.old.items }
    ensures gathers { Gathers S.object S.place_of batch.now from ids.now
        undos.old.items undos.new.items }
{
    let mut next = 0;
    for at in from..ids.len() {
        if has_id_at(batch, next, ids[at]) {
            next += 1;
        } else {
            carry_all_over::<S>(&batch[..next], undos, at);
        }
    }
}
