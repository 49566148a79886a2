//! APP: its criteria and its effect.
ghost use Rattle.std.specs.Prelude.{◌<◌, ◌≤◌, ◌+◌, IsTrue};
ghost use Rattle.pp_core.specs.Steps.{App};
ghost use Rattle.pp_machine.specs.Costs.{Costs};
ghost use Rattle.pp_machine.specs.Stepping.{Does};

use crate::detail::{Detail, bare, told};
use crate::machine::{Machine, Outcome, refused};
use pp_core::{LocalEntry, Mark, Name, OutOfMemory, Ticks};
use pp_kind::Parted;
use std::sync::ledger::Ledger;

impl<S: Parted> Machine<S> {
    /// Does APP if its criteria hold, and else refuses it by the first false one.
    pub(super) fn app<L: Ledger>(
        mut self,
        tx: &Name,
        id: u32,
        op: &S::Op,
        ticks: &mut Ticks<L>,
    ) -> Result<(Self, Outcome<S::Op>), OutOfMemory>
        requires fits { IsTrue (S.object.fits self.shape op.now) }
        requires ranged { IsTrue (S.object.ranged op.now) }
        requires few { self.count < 4_294_967_295 }
        ensures effect { Does S.object self (App tx.now id op.now) result }
        ensures cost { Costs S.place_of self (App tx.now id op.now) result ticks.old ticks.new }
        ensures bound { ticks.new ≤ ticks.old + 1 }
    {
        let parts = &mut *self.parts;
        // Looked up first: this is not possible while the course is lent.
        let used = parts.ids.contains(id);
        let Some(course) = parts.transactions.course_mut(tx) else {
            return Ok((self, refused(bare(1))));
        };
        if used {
            return Ok((self, refused(bare(2))));
        }
        if !course.can(op) {
            return Ok((self, refused(bare(3))));
        }
        let local = course.local();
        if !local.legal(op) {
            let answer = local.gives(op);
            return Ok((self, refused(told(4, Detail::Gives { id, answer }))));
        }
        let entry = LocalEntry {
            id,
            owner: *tx,
            mark: Mark::Unpushed,
            op: *op,
        };
        course.append(entry, ticks)?;
        parts.ids.insert(id)?;
        parts.count += 1;
        Ok((self, Outcome::Done))
    }
}
