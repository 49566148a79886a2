//! CMT: its criteria and its effect.
ghost use Rattle.std.specs.Prelude.{◌<◌};
ghost use Rattle.pp_core.specs.Steps.{Cmt};
ghost use Rattle.pp_model.specs.Names.{Name as NameOf};
ghost use Rattle.pp_machine.specs.Sites.{HoldsCourse, Rest, seen_with};
ghost use Rattle.pp_machine.specs.Judges.{Judges};
ghost use Rattle.pp_machine.specs.Stepping.{Does};

use crate::course::Course;
use crate::detail::{Detail, Refusal, bare, told};
use crate::find::{first_not_standing, first_unpushed, own_items};
use crate::machine::{Machine, Outcome, refused};
use pp_core::{CommittedTx, Name, OutOfMemory};
use pp_kind::Parted;
use pp_log_shared::Shared;

/// Whether CMT may be done, or the refusal by its first false criterion after the first one, that
/// the transaction is open.
fn judge_cmt<S: Parted>(course: &Course<S>, shared: &Shared<S>) -> Result<(), Refusal<S::Op>>
    ensures { (m : Rest S.Shape S.Op) (t : NameOf) →
        HoldsCourse S.object m shared.now t course.now →
        Judges S.object (seen_with m shared.now) (Cmt t) (λ _. Unit {0}) result }
{
    if !course.complete() {
        return Err(bare(2));
    }
    let entries = course.local().entries();
    if let Some(k) = first_unpushed(entries) {
        return Err(told(3, Detail::Entry { id: entries[k].id }));
    }
    if let Some(k) = first_not_standing(entries, shared) {
        return Err(told(4, Detail::Entry { id: entries[k].id }));
    }
    Ok(())
}

impl<S: Parted> Machine<S> {
    /// Does CMT if its criteria hold.
    pub(super) fn commit(mut self, tx: &Name) -> Result<(Self, Outcome<S::Op>), OutOfMemory>
        requires few { self.count < 4_294_967_295 }
        ensures { Does S.object self (Cmt tx.now) result }
    {
        let parts = &mut *self.parts;
        let Some((place, course)) = parts.transactions.course_at(tx) else {
            return Ok((self, refused(bare(1))));
        };
        if let Err(refusal) = judge_cmt(course, &parts.shared) {
            return Ok((self, refused(refusal)));
        }
        let entries = own_items(parts.alloc, course.local().entries())?;
        parts.shared.commit(tx, &entries);
        parts.committed.push(CommittedTx { name: *tx, entries })?;
        parts.transactions.end_at(place);
        parts.count += 1;
        Ok((self, Outcome::Done))
    }
}
