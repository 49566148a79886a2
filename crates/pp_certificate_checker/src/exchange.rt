//! Exchanges of a certificate, and its serial number.
ghost use Rattle.std.specs.Prelude.{◌+◌, ◌<◌, ◌≤◌, ℕ, length};
ghost use Rattle.pp_core.specs.declared.limits.TheConstants.{MOST_LINES};
ghost use Rattle.pp_certificate_checker.specs.Certificates.{AreExchanged, Exchanged, Exchanges, Serial};
ghost use Rattle.pp_certificate_checker.specs.Keeping.{step, IsHeld, Moves};

use crate::held::{Held, going_on};
use crate::refusal::Refusal;
use pp_core::Item;
use pp_kind::Spec;

/// Lets the entries at these positions change places, one pair after another, until one is refused.
fn exchange_all<S: Spec>(list: &mut Vec<Item<S::Op>>, positions: &[u32]) -> Result<(), Refusal>
    ensures { (shape : S.Shape) (count : ℕ)
        → AreExchanged S.object shape list.old.items count positions.now
        (step (Exchanged shape list.new.items (count + length positions.now)) result) }
{
    for position in positions {
        let i = *position as usize;
        if i >= list.len() || list.len() - i < 2 {
            return Err(Refusal::Position);
        }
        let first = list[i];
        let second = list[i + 1];
        if !S::swaps(&first.op, &second.op) {
            return Err(Refusal::Pair {
                first: first.id,
                second: second.id,
            });
        }
        list.swap(i, i + 1);
    }
    Ok(())
}

/// Takes exchanges.
pub(crate) fn exchange<S: Spec>(
    held: Held<S::Shape, S::State, S::Op>,
    positions: &[u32],
    lines: u32,
) -> Result<Held<S::Shape, S::State, S::Op>, Refusal>
    requires held { IsHeld S.object held lines }
    requires few { lines < MOST_LINES }
    requires row { length positions.now ≤ 1000 }
    ensures { Moves S.object held (Exchanges positions.now) lines result }
{
    let Some(mut turned) = going_on::<S>(held, lines) else {
        return Err(Refusal::NotCertificate);
    };
    exchange_all::<S>(&mut turned.list, positions)?;
    turned.count += positions.len() as u32;
    Ok(Held::Exchanges(turned))
}

/// Takes the serial number.
pub(crate) fn end<S: Spec>(
    held: Held<S::Shape, S::State, S::Op>,
    serial: u32,
    lines: u32,
) -> Result<Held<S::Shape, S::State, S::Op>, Refusal>
    requires { IsHeld S.object held lines }
    ensures { Moves S.object held (Serial serial) lines result }
{
    let Some(turned) = going_on::<S>(held, lines) else {
        return Err(Refusal::NotCertificate);
    };
    if serial as usize > turned.list.len() {
        return Err(Refusal::Position);
    }
    Ok(Held::All(turned, serial))
}
