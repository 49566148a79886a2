//! An entry of a certificate.
ghost use Rattle.std.specs.Prelude.{◌≡◌, ◌+◌, ◌<◌, ◌≤◌, IsTrue, IfOk, OnOk, length};
ghost use Rattle.pp_core.specs.declared.limits.TheConstants.{MOST_LINES};
ghost use Rattle.pp_model.specs.Object.{ops};
ghost use Rattle.pp_kind.specs.Object.{IsLog};
ghost use Rattle.pp_certificate_checker.specs.Certificates.{IsEntered, Entered, Entry};
ghost use Rattle.pp_certificate_checker.specs.Checking.{entry_cost};
ghost use Rattle.pp_certificate_checker.specs.Keeping.{step, stage_of, IsHeld, Moves};

use crate::held::Held;
use crate::refusal::Refusal;
use pp_core::{Item, OutOfMemory, Ticks};
use pp_kind::{Applied, Spec};
use std::sync::ledger::Ledger;

/// Adds an entry to the list if the object returns its result. The only error is out of memory.
fn try_entry<S: Spec, L: Ledger>(
    state: &mut S::State,
    list: &mut Vec<Item<S::Op>>,
    item: Item<S::Op>,
    ticks: &mut Ticks<L>,
) -> Result<Result<(), Refusal>, OutOfMemory>
    requires fits { IsTrue (S.object.fits (S.object.shape state.old) item.op) }
    requires ranged { IsTrue (S.object.ranged item.op) }
    requires log { IsLog S.object state.old (ops list.old.items) }
    requires few { length list.old.items < 1_000_000 }
    ensures tried { IfOk result (λ r.
        IsEntered S.object (S.object.shape state.old) list.old.items item
        (step (Entered (S.object.shape state.old) list.new.items) r)) }
    ensures log { OnOk result (IsLog S.object state.new (ops list.new.items)) }
    ensures shape { OnOk result (S.object.shape state.new ≡ S.object.shape state.old) }
    ensures short { OnOk result (length list.new.items ≤ length list.old.items + 1) }
    ensures cost { ticks.new ≡ ticks.old + 1 }
{
    let answer = S::gives(state, &item.op);
    match S::apply(state, &item.op, ticks)? {
        Applied::Done(_) => {
            list.push(item)?;
            Ok(Ok(()))
        }
        Applied::Differs => Ok(Err(Refusal::Gives {
            entry: item.id,
            answer,
        })),
    }
}

/// Takes an entry. The only error is out of memory.
pub(crate) fn enter<S: Spec, L: Ledger>(
    held: Held<S::Shape, S::State, S::Op>,
    item: Item<S::Op>,
    lines: u32,
    ticks: &mut Ticks<L>,
) -> Result<Result<Held<S::Shape, S::State, S::Op>, Refusal>, OutOfMemory>
    requires held { IsHeld S.object held lines }
    requires few { lines < MOST_LINES }
    requires ranged { IsTrue (S.object.ranged item.op) }
    ensures taken { IfOk result (λ next. Moves S.object held (Entry item) lines next) }
    ensures cost { ticks.new ≡ ticks.old + entry_cost S.object (stage_of held) item }
{
    let Held::Entries {
        shape,
        mut list,
        mut state,
    } = held
    else {
        return Ok(Err(Refusal::NotCertificate));
    };
    if !S::fits(&shape, &item.op) {
        return Ok(Err(Refusal::NotCertificate));
    }
    match try_entry::<S, L>(&mut state, &mut list, item, ticks)? {
        Ok(()) => Ok(Ok(Held::Entries { shape, list, state })),
        Err(why) => Ok(Err(why)),
    }
}
