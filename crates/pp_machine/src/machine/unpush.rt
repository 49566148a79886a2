//! UNPUSH: its criteria and its effect.
ghost use Rattle.std.specs.Prelude.{◌<◌, ◌≤◌, ◌+◌, IfOk};
ghost use Rattle.pp_core.specs.Steps.{Unpush};
ghost use Rattle.pp_machine.specs.Costs.{Costs, at_most};
ghost use Rattle.pp_machine.specs.Sites.{HoldsLocal, IsOfMachine, Rest, seen_with};
ghost use Rattle.pp_machine.specs.Judges.{FindsPushed, JudgesUnpush};
ghost use Rattle.pp_machine.specs.Stepping.{Does};

use crate::detail::{Detail, Judged, bare, swap_detail, told};
use crate::find::marked_at;
use crate::machine::{Machine, Outcome, refused};
use pp_core::{Mark, Name, OutOfMemory, Ticks};
use pp_kind::Parted;
use pp_log_local::Local;
use pp_log_shared::{Removed, Shared};
use std::alloc::Global;
use std::sync::ledger::Ledger;

/// The positions of the entry that UNPUSH takes back in the local and in the shared log, or the
/// refusal by its first false criterion after the first one, that the transaction is open. The last
/// criterion, that the shared log is allowed without the entry, is not tested here. The only error
/// is out of memory.
fn judge_unpush<S: Parted>(
    local: &Local<S>,
    shared: &Shared<S>,
    alloc: Global,
    tx: &Name,
    id: u32,
) -> Judged<(usize, usize), S::Op>
    requires { IsOfMachine S.object shared.now tx.now local.now }
    ensures { IfOk result (λ r. (m : Rest S.Shape S.Op) →
        HoldsLocal S.object m shared.now tx.now local.now →
        JudgesUnpush S.object (seen_with m shared.now) tx.now id r) }
{
    let Some((i, entry)) = marked_at(local, id, Mark::Pushed) else {
        return Ok(Err(bare(2)));
    };
    if let Some(k) = local.first_staying_behind(i, &entry.op) {
        let own = &local.entries()[k];
        let detail = swap_detail::<S>(alloc, own.id, &own.op, &entry.op)?;
        return Ok(Err(told(3, detail)));
    }
    // Each pushed entry is in the shared log.
    let Some(posted) = shared.find(id) else {
        unreachable!()
    };
    Ok(Ok((i, posted)))
}

impl<S: Parted> Machine<S> {
    /// Takes an entry out of the shared log and marks it in the local log, unless the shared log
    /// without it is not allowed, which is the last criterion of UNPUSH.
    fn take_back<L: Ledger>(
        self,
        tx: &Name,
        id: u32,
        i: usize,
        posted: usize,
        ticks: &mut Ticks<L>,
    ) -> Result<(Self, Outcome<S::Op>), OutOfMemory>
        requires few { self.count < 4_294_967_295 }
        requires found { FindsPushed S.object self tx.now id i posted }
        ensures effect { Does S.object self (Unpush tx.now id) result }
        ensures cost { Costs S.place_of self (Unpush tx.now id) result ticks.old ticks.new }
        ensures bound { ticks.new ≤ ticks.old + at_most S.place_of self.config (Unpush tx.now id) }
    {
        // A removal consumes the log, so the parts leave their box meanwhile.
        let mut parts = Box::into_inner(self.parts);
        let (shared, removed) = parts.shared.remove(posted, ticks)?;
        parts.shared = shared;
        let alloc = parts.alloc;
        let mut parts = Box::new(alloc, parts)?;
        match removed {
            Removed::Done => {
                let inside = &mut *parts;
                let Some(course) = inside.transactions.course_mut(tx) else {
                    unreachable!()
                };
                course.mark(i, Mark::Unpushed);
                inside.count += 1;
                Ok((Machine { parts }, Outcome::Done))
            }
            Removed::Differs { entry, answer } => {
                let refusal = told(4, Detail::Gives { id: entry, answer });
                Ok((Machine { parts }, refused(refusal)))
            }
        }
    }

    /// Does UNPUSH if its criteria hold.
    pub(super) fn unpush<L: Ledger>(
        self,
        tx: &Name,
        id: u32,
        ticks: &mut Ticks<L>,
    ) -> Result<(Self, Outcome<S::Op>), OutOfMemory>
        requires few { self.count < 4_294_967_295 }
        ensures effect { Does S.object self (Unpush tx.now id) result }
        ensures cost { Costs S.place_of self (Unpush tx.now id) result ticks.old ticks.new }
        ensures bound { ticks.new ≤ ticks.old + at_most S.place_of self.config (Unpush tx.now id) }
    {
        let parts = &*self.parts;
        let Some((_place, course)) = parts.transactions.course_at(tx) else {
            return Ok((self, refused(bare(1))));
        };
        let judged = judge_unpush(course.local(), &parts.shared, parts.alloc, tx, id)?;
        match judged {
            Ok((i, posted)) => self.take_back(tx, id, i, posted, ticks),
            Err(refusal) => Ok((self, refused(refusal))),
        }
    }
}
