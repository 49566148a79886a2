//! NOTE: its criterion and its effect.
ghost use Rattle.std.specs.Prelude.{◌<◌};
ghost use Rattle.pp_core.specs.Steps.{Note};
ghost use Rattle.pp_machine.specs.Judges.{Judges};
ghost use Rattle.pp_machine.specs.Stepping.{Stepped};

use crate::detail::{Refusal, bare};
use crate::machine::{Machine, Outcome, refused};
use pp_core::Name;
use pp_kind::Parted;

impl<S: Parted> Machine<S> {
    /// Whether NOTE may be done, or the refusal by its criterion.
    fn judge_note(&self, tx: &Name) -> Result<(), Refusal<S::Op>>
        ensures { Judges S.object self.now (Note tx.now) (λ _. Unit {0}) result }
    {
        if !self.is_open(tx) {
            return Err(bare(1));
        }
        Ok(())
    }

    /// Does NOTE if its criterion holds. It takes no memory.
    pub(super) fn note(mut self, tx: &Name) -> (Self, Outcome<S::Op>)
        requires { self.count < 4_294_967_295 }
        ensures { Stepped S.object self (Note tx.now) result.1 result.0 }
    {
        if let Err(refusal) = self.judge_note(tx) {
            return (self, refused(refusal));
        }
        self.parts.count += 1;
        (self, Outcome::Done)
    }
}
