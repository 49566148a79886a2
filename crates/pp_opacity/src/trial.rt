//! Operations that are applied after others, and taken back.
ghost use Rattle.std.specs.Prelude.{◌+◌, ◌*◌, ◌≤◌, ◌++◌, [], IfOk, List, OnOk, cond, length};
ghost use Rattle.pp_model.specs.Object.{ops};
ghost use Rattle.pp_attempts.specs.Trying.{IsTrail, MayFollow};
ghost use Rattle.pp_opacity.specs.Trials.{IsAppliedIf, IsDecidedNext, IsTried};

use pp_core::{Item, OutOfMemory, Ticks};
use pp_kind::{Applied, Spec};
use std::sync::ledger::Ledger;

/// Applies operations after those that were applied, as long as each returns its recorded result.
/// It returns whether all did.
pub(crate) fn apply_list<S: Spec, L: Ledger>(
    state: &mut S::State,
    undos: &mut Vec<S::Undo>,
    items: &[Item<S::Op>],
    ticks: &mut Ticks<L>,
) -> Result<bool, OutOfMemory>
    requires { (s : S.State) × (x : List S.Op) × MayFollow S.object s (x ++ ops items.now)
        × IsTrail S.object s x undos.old.items state.old }
    ensures tried { IfOk result (λ all. (s : S.State) (x : List S.Op)
        → MayFollow S.object s (x ++ ops items.now)
        → IsTrail S.object s x undos.old.items state.old
        → IsTried S.object s x (ops items.now) all undos.new.items state.new) }
    ensures long { OnOk result (length undos.old.items ≤ length undos.new.items) }
    ensures within { OnOk result
        (length undos.new.items ≤ length undos.old.items + length items.now) }
    ensures rises { ticks.old ≤ ticks.new }
    ensures bound { ticks.new ≤ ticks.old + length items.now }
{
    for item in items {
        match S::apply(state, &item.op, ticks)? {
            Applied::Done(undo) => undos.push(undo)?,
            Applied::Differs => return Ok(false),
        }
    }
    Ok(true)
}

/// Takes operations back that were applied last, the last one first.
pub(crate) fn take_back<S: Spec, L: Ledger>(
    state: &mut S::State,
    undos: &mut Vec<S::Undo>,
    items: &[Item<S::Op>],
    ticks: &mut Ticks<L>,
) -> Result<(), OutOfMemory>
    requires { (s : S.State) × (x : List S.Op) × MayFollow S.object s (x ++ ops items.now)
        × IsTrail S.object s (x ++ ops items.now) undos.old.items state.old }
    ensures back { OnOk result ((s : S.State) (x : List S.Op)
        → MayFollow S.object s (x ++ ops items.now)
        → IsTrail S.object s (x ++ ops items.now) undos.old.items state.old
        → IsTrail S.object s x undos.new.items state.new) }
    ensures rises { ticks.old ≤ ticks.new }
    ensures bound { ticks.new ≤ ticks.old + length items.now }
{
    let mut left = items.len();
    while left > 0 {
        left -= 1;
        let Some(undo) = undos.pop() else {
            unreachable!()
        };
        let item = &items[left];
        S::undo(state, &item.op, undo, ticks)?;
    }
    Ok(())
}

/// Applies operations after those that were applied, if they are allowed there. It returns whether
/// they are.
pub(crate) fn apply_if_allowed<S: Spec, L: Ledger>(
    state: &mut S::State,
    undos: &mut Vec<S::Undo>,
    items: &[Item<S::Op>],
    ticks: &mut Ticks<L>,
) -> Result<bool, OutOfMemory>
    requires { (s : S.State) × (x : List S.Op) × MayFollow S.object s (x ++ ops items.now)
        × IsTrail S.object s x undos.old.items state.old }
    ensures applied { IfOk result (λ all. (s : S.State) (x : List S.Op)
        → MayFollow S.object s (x ++ ops items.now)
        → IsTrail S.object s x undos.old.items state.old
        → IsAppliedIf S.object s x (ops items.now) all undos.new.items state.new) }
    ensures rises { ticks.old ≤ ticks.new }
    ensures bound { ticks.new ≤ ticks.old + 2 * length items.now }
    ensures paid { IfOk result (λ all. ticks.new + length (cond all items.now [])
        ≤ ticks.old + 2 * length items.now) }
{
    let before = undos.len();
    let all = apply_list::<S, L>(state, undos, items, ticks)?;
    if all {
        return Ok(true);
    }
    let count = undos.len() - before;
    take_back::<S, L>(state, undos, &items[..count], ticks)?;
    Ok(false)
}

/// Whether operations are allowed after those that were applied. In the end only these are applied.
pub(crate) fn is_allowed_next<S: Spec, L: Ledger>(
    state: &mut S::State,
    undos: &mut Vec<S::Undo>,
    items: &[Item<S::Op>],
    ticks: &mut Ticks<L>,
) -> Result<bool, OutOfMemory>
    requires { (s : S.State) × (x : List S.Op) × MayFollow S.object s (x ++ ops items.now)
        × IsTrail S.object s x undos.old.items state.old }
    ensures decided { IfOk result (λ all. (s : S.State) (x : List S.Op)
        → MayFollow S.object s (x ++ ops items.now)
        → IsTrail S.object s x undos.old.items state.old
        → IsDecidedNext S.object s x (ops items.now) all undos.new.items state.new) }
    ensures rises { ticks.old ≤ ticks.new }
    ensures bound { ticks.new ≤ ticks.old + 2 * length items.now }
{
    let all = apply_if_allowed::<S, L>(state, undos, items, ticks)?;
    if !all {
        return Ok(false);
    }
    take_back::<S, L>(state, undos, items, ticks)?;
    Ok(true)
}
