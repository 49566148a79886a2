//! QUIT: its criteria and its effect.
ghost use Rattle.std.specs.Prelude.{◌<◌};
ghost use Rattle.pp_core.specs.Steps.{Quit};
ghost use Rattle.pp_machine.specs.Sites.{OfEach};
ghost use Rattle.pp_machine.specs.Judges.{Judges};
ghost use Rattle.pp_machine.specs.Stepping.{Stepped};

use crate::detail::{Detail, Refusal, bare, told};
use crate::machine::{Machine, Outcome, refused};
use pp_core::Name;
use pp_kind::Parted;
use pp_log_local::Local;

/// Whether QUIT may be done, or the refusal by its first false criterion after the first one, that
/// the transaction is open.
fn judge_quit<S: Parted>(local: &Local<S>) -> Result<(), Refusal<S::Op>>
    ensures { OfEach S.object local.now
        (λ v t. Judges S.object v (Quit t) (λ _. Unit {0}) result) }
{
    if let Some(first) = local.entries().first() {
        return Err(told(2, Detail::Entry { id: first.id }));
    }
    Ok(())
}

impl<S: Parted> Machine<S> {
    /// Does QUIT if its criteria hold. It takes no memory.
    pub(super) fn quit(mut self, tx: &Name) -> (Self, Outcome<S::Op>)
        requires { self.count < 4_294_967_295 }
        ensures { Stepped S.object self (Quit tx.now) result.1 result.0 }
    {
        let parts = &mut *self.parts;
        let Some((place, course)) = parts.transactions.course_at(tx) else {
            return (self, refused(bare(1)));
        };
        if let Err(refusal) = judge_quit(course.local()) {
            return (self, refused(refusal));
        }
        parts.transactions.end_at(place);
        parts.count += 1;
        (self, Outcome::Done)
    }
}
