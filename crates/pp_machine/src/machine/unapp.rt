//! UNAPP: its criteria and its effect.
ghost use Rattle.std.specs.Prelude.{◌<◌, ◌≤◌, ◌+◌};
ghost use Rattle.pp_core.specs.Steps.{Unapp};
ghost use Rattle.pp_machine.specs.Costs.{Costs};
ghost use Rattle.pp_machine.specs.Sites.{OfEach};
ghost use Rattle.pp_machine.specs.Judges.{JudgesUnapp};
ghost use Rattle.pp_machine.specs.Stepping.{Does};

use crate::detail::{Refusal, bare};
use crate::find::last_unpushed;
use crate::machine::{Machine, Outcome, refused};
use pp_core::{Name, OutOfMemory, Ticks};
use pp_kind::Parted;
use pp_log_local::Local;
use std::sync::ledger::Ledger;

/// The position of the entry that UNAPP drops, or the refusal by its first false criterion after
/// the first one, that the transaction is open.
fn judge_unapp<S: Parted>(local: &Local<S>, id: u32) -> Result<usize, Refusal<S::Op>>
    ensures { OfEach S.object local.now (λ v t. JudgesUnapp S.object v t id result) }
{
    let Some(i) = last_unpushed(local.entries(), id) else {
        return Err(bare(2));
    };
    Ok(i)
}

impl<S: Parted> Machine<S> {
    /// Does UNAPP if its criteria hold.
    pub(super) fn unapp<L: Ledger>(
        mut self,
        tx: &Name,
        id: u32,
        ticks: &mut Ticks<L>,
    ) -> Result<(Self, Outcome<S::Op>), OutOfMemory>
        requires few { self.count < 4_294_967_295 }
        ensures effect { Does S.object self (Unapp tx.now id) result }
        ensures cost { Costs S.place_of self (Unapp tx.now id) result ticks.old ticks.new }
        ensures bound { ticks.new ≤ ticks.old + 1 }
    {
        let parts = &mut *self.parts;
        let Some((place, course)) = parts.transactions.course_at(tx) else {
            return Ok((self, refused(bare(1))));
        };
        let i = match judge_unapp(course.local(), id) {
            Ok(i) => i,
            Err(refusal) => return Ok((self, refused(refusal))),
        };
        // The list without its last entry is always allowed.
        let _done = parts.transactions.remove_at(place, i, ticks)?;
        parts.count += 1;
        Ok((self, Outcome::Done))
    }
}
