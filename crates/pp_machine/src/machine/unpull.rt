//! UNPULL: its criteria and its effect.
ghost use Rattle.std.specs.Prelude.{◌<◌, ◌≤◌, ◌+◌};
ghost use Rattle.pp_core.specs.Steps.{Unpull};
ghost use Rattle.pp_machine.specs.Costs.{Costs, at_most};
ghost use Rattle.pp_machine.specs.Finding.{AreDistinct};
ghost use Rattle.pp_machine.specs.Sites.{OfEach};
ghost use Rattle.pp_machine.specs.Judges.{JudgesUnpull};
ghost use Rattle.pp_machine.specs.Stepping.{Does};

use crate::detail::{Detail, Refusal, bare, told};
use crate::find::marked_at;
use crate::machine::{Machine, Outcome, refused};
use pp_core::{Mark, Name, OutOfMemory, Ticks};
use pp_kind::Parted;
use pp_log_local::{Local, Removed};
use std::sync::ledger::Ledger;

/// The position of the entry that UNPULL takes out, or the refusal by its first false criterion
/// after the first one, that the transaction is open. The last criterion, that the local log is
/// allowed without the entry, is not tested here.
fn judge_unpull<S: Parted>(local: &Local<S>, id: u32) -> Result<usize, Refusal<S::Op>>
    requires { AreDistinct local.now.1 }
    ensures { OfEach S.object local.now (λ v t. JudgesUnpull S.object v t id result) }
{
    let Some((i, _pulled)) = marked_at(local, id, Mark::Pulled) else {
        return Err(bare(2));
    };
    Ok(i)
}

impl<S: Parted> Machine<S> {
    /// Does UNPULL if its criteria hold. The removal decides the last.
    pub(super) fn unpull<L: Ledger>(
        mut self,
        tx: &Name,
        id: u32,
        ticks: &mut Ticks<L>,
    ) -> Result<(Self, Outcome<S::Op>), OutOfMemory>
        requires few { self.count < 4_294_967_295 }
        ensures effect { Does S.object self (Unpull tx.now id) result }
        ensures cost { Costs S.place_of self (Unpull tx.now id) result ticks.old ticks.new }
        ensures bound { ticks.new ≤ ticks.old + at_most S.place_of self.config (Unpull tx.now id) }
    {
        let parts = &mut *self.parts;
        let Some((place, course)) = parts.transactions.course_at(tx) else {
            return Ok((self, refused(bare(1))));
        };
        let i = match judge_unpull(course.local(), id) {
            Ok(i) => i,
            Err(refusal) => return Ok((self, refused(refusal))),
        };
        let removed = parts.transactions.remove_at(place, i, ticks)?;
        match removed {
            Removed::Done => {
                parts.count += 1;
                Ok((self, Outcome::Done))
            }
            Removed::Differs { entry, answer } => {
                let refusal = told(3, Detail::Gives { id: entry, answer });
                Ok((self, refused(refusal)))
            }
        }
    }
}
