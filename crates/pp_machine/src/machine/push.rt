//! PUSH: its criteria and its effect.
ghost use Rattle.std.specs.Prelude.{◌<◌, ◌≤◌, ◌+◌, IfOk};
ghost use Rattle.pp_core.specs.Steps.{Push};
ghost use Rattle.pp_machine.specs.Costs.{Costs};
ghost use Rattle.pp_machine.specs.Sites.{HoldsLocal, IsOfMachine, Rest, seen_with};
ghost use Rattle.pp_machine.specs.Judges.{JudgesPush};
ghost use Rattle.pp_machine.specs.Stepping.{Does};

use crate::detail::{Detail, Judged, bare, swap_detail, told};
use crate::find::marked_at;
use crate::machine::{Machine, Outcome, refused};
use pp_core::{LocalEntry, Mark, Name, OutOfMemory, SharedEntry, Ticks};
use pp_kind::Parted;
use pp_log_local::Local;
use pp_log_shared::Shared;
use std::alloc::Global;
use std::sync::ledger::Ledger;

/// The entry that PUSH publishes, and its position in the local log, or the refusal by its first
/// false criterion after the first one, that the transaction is open. The only error is out of
/// memory.
fn judge_push<S: Parted>(
    local: &Local<S>,
    shared: &Shared<S>,
    alloc: Global,
    tx: &Name,
    id: u32,
) -> Judged<(usize, LocalEntry<S::Op>), S::Op>
    requires { IsOfMachine S.object shared.now tx.now local.now }
    ensures { IfOk result (λ r. (m : Rest S.Shape S.Op) →
        HoldsLocal S.object m shared.now tx.now local.now →
        JudgesPush S.object (seen_with m shared.now) tx.now id r) }
{
    let Some((i, entry)) = marked_at(local, id, Mark::Unpushed) else {
        return Ok(Err(bare(2)));
    };
    let op = &entry.op;
    if let Some(k) = local.first_holding_back(i, op) {
        let own = &local.entries()[k];
        let detail = swap_detail::<S>(alloc, own.id, op, &own.op)?;
        return Ok(Err(told(3, detail)));
    }
    if let Some(k) = shared.blocking(tx, op) {
        let other = &shared.entries()[k];
        let detail = swap_detail::<S>(alloc, other.id, &other.op, op)?;
        return Ok(Err(told(4, detail)));
    }
    if !shared.legal(op) {
        let answer = shared.gives(op);
        return Ok(Err(told(5, Detail::Gives { id, answer })));
    }
    Ok(Ok((i, entry)))
}

impl<S: Parted> Machine<S> {
    /// Does PUSH if its criteria hold.
    pub(super) fn push<L: Ledger>(
        mut self,
        tx: &Name,
        id: u32,
        ticks: &mut Ticks<L>,
    ) -> Result<(Self, Outcome<S::Op>), OutOfMemory>
        requires few { self.count < 4_294_967_295 }
        ensures effect { Does S.object self (Push tx.now id) result }
        ensures cost { Costs S.place_of self (Push tx.now id) result ticks.old ticks.new }
        ensures bound { ticks.new ≤ ticks.old + 1 }
    {
        let parts = &mut *self.parts;
        let alloc = parts.alloc;
        let shared = &mut parts.shared;
        let Some(course) = parts.transactions.course_mut(tx) else {
            return Ok((self, refused(bare(1))));
        };
        let judged = judge_push(course.local(), shared, alloc, tx, id)?;
        let (i, entry) = match judged {
            Ok(found) => found,
            Err(refusal) => return Ok((self, refused(refusal))),
        };
        let posted = SharedEntry {
            id: entry.id,
            owner: *tx,
            committed: false,
            op: entry.op,
        };
        shared.push(posted, ticks)?;
        course.mark(i, Mark::Pushed);
        parts.count += 1;
        Ok((self, Outcome::Done))
    }
}
