//! BEGIN: its criteria and its effect.
ghost use Rattle.std.specs.Prelude.{◌<◌, option_map};
ghost use Rattle.pp_core.specs.Trees.{IsWithinLimits, tree};
ghost use Rattle.pp_machine.specs.Judges.{JudgesBegin, begin_of};
ghost use Rattle.pp_machine.specs.Stepping.{Does};

use crate::detail::{Refusal, bare};
use crate::machine::{Machine, Outcome, refused};
use pp_core::{Body, Name, OutOfMemory};
use pp_kind::Parted;

impl<S: Parted> Machine<S> {
    /// Whether BEGIN may be done, or the refusal by its first false criterion.
    fn judge_begin(&self, tx: &Name, thread: &Name) -> Result<(), Refusal<S::Op>>
        ensures { JudgesBegin S.object self.now tx.now thread.now result }
    {
        let parts = &*self.parts;
        if parts.transactions.is_begun(tx) {
            return Err(bare(1));
        }
        if parts.transactions.is_busy(thread) {
            return Err(bare(2));
        }
        Ok(())
    }

    /// Does BEGIN if its criteria hold.
    pub(super) fn begin(
        mut self,
        tx: &Name,
        thread: &Name,
        body: &Option<Body>,
    ) -> Result<(Self, Outcome<S::Op>), OutOfMemory>
        requires within { IsWithinLimits (option_map tree body.now) }
        requires few { self.count < 4_294_967_295 }
        ensures { Does S.object self (begin_of tx.now thread.now body.now) result }
    {
        if let Err(refusal) = self.judge_begin(tx, thread) {
            return Ok((self, refused(refusal)));
        }
        let parts = &mut *self.parts;
        parts
            .transactions
            .begin(parts.alloc, &parts.shape, tx, thread, body)?;
        parts.count += 1;
        Ok((self, Outcome::Done))
    }
}
