//! PULL: its criteria and its effect.
ghost use Rattle.std.specs.Prelude.{◌<◌, ◌≤◌, ◌+◌, ◌≡◌, IfOk, List};
ghost use Rattle.pp_core.specs.declared.entry.SharedEntry.{SharedEntry as EntryOf};
ghost use Rattle.pp_core.specs.Steps.{Pull};
ghost use Rattle.pp_model.specs.Config.{of_other};
ghost use Rattle.pp_model.specs.Names.{Name as NameOf};
ghost use Rattle.pp_machine.specs.Costs.{Costs};
ghost use Rattle.pp_machine.specs.Sites.{HoldsLocal, IsOfMachine, Rest, seen_with};
ghost use Rattle.pp_machine.specs.Judges.{JudgesPull};
ghost use Rattle.pp_machine.specs.Stepping.{Does};

use crate::detail::{Detail, Judged, bare, swap_detail, told};
use crate::find::other_at;
use crate::machine::{Machine, Outcome, refused};
use pp_core::{LocalEntry, Mark, Name, OutOfMemory, SharedEntry, Ticks};
use pp_kind::Parted;
use pp_log_local::Local;
use std::alloc::Global;
use std::sync::ledger::Ledger;

/// The entry that PULL takes over, or the refusal by its first false criterion after the first one,
/// that the transaction is open. The entry of this id that another owns is given. The only error is
/// out of memory.
fn judge_pull<S: Parted>(
    local: &Local<S>,
    found: Option<SharedEntry<S::Op>>,
    alloc: Global,
    id: u32,
) -> Judged<SharedEntry<S::Op>, S::Op>
    requires { (shared : S.Shape × List (EntryOf S.Op)) × (t : NameOf)
        × (found ≡ of_other t id shared.1) × IsOfMachine S.object shared t local.now }
    ensures { IfOk result (λ r. (m : Rest S.Shape S.Op) (shared : S.Shape × List (EntryOf S.Op))
        (t : NameOf) → found ≡ of_other t id shared.1 → HoldsLocal S.object m shared t local.now →
        JudgesPull S.object (seen_with m shared) t id r) }
{
    let Some(post) = found else {
        return Ok(Err(bare(2)));
    };
    if local.find(id).is_some() {
        return Ok(Err(bare(3)));
    }
    if !local.legal(&post.op) {
        let answer = local.gives(&post.op);
        return Ok(Err(told(4, Detail::Gives { id, answer })));
    }
    if let Some(k) = local.first_not_before(&post.op) {
        let own = &local.entries()[k];
        let detail = swap_detail::<S>(alloc, own.id, &own.op, &post.op)?;
        return Ok(Err(told(5, detail)));
    }
    Ok(Ok(post))
}

impl<S: Parted> Machine<S> {
    /// Does PULL if its criteria hold.
    pub(super) fn pull<L: Ledger>(
        mut self,
        tx: &Name,
        id: u32,
        ticks: &mut Ticks<L>,
    ) -> Result<(Self, Outcome<S::Op>), OutOfMemory>
        requires few { self.count < 4_294_967_295 }
        ensures effect { Does S.object self (Pull tx.now id) result }
        ensures cost { Costs S.place_of self (Pull tx.now id) result ticks.old ticks.new }
        ensures bound { ticks.new ≤ ticks.old + 1 }
    {
        let parts = &mut *self.parts;
        let alloc = parts.alloc;
        // Looked up first: this is not possible while the course is lent.
        let found = other_at(&parts.shared, tx, id);
        let Some(course) = parts.transactions.course_mut(tx) else {
            return Ok((self, refused(bare(1))));
        };
        let judged = judge_pull(course.local(), found, alloc, id)?;
        let post = match judged {
            Ok(post) => post,
            Err(refusal) => return Ok((self, refused(refusal))),
        };
        let entry = LocalEntry {
            id: post.id,
            owner: post.owner,
            mark: Mark::Pulled,
            op: post.op,
        };
        course.append(entry, ticks)?;
        parts.count += 1;
        Ok((self, Outcome::Done))
    }
}
