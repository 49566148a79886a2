//! Style boosted: each operation is published at once.
ghost use Rattle.pp_core.specs.declared.call.Style.TheVariants as styles;
ghost use Rattle.pp_records.specs.Fronts.{new_front};

use crate::front::Front;
use crate::recorded::{abort, back_to, op_published};
use crate::step_list::{StepList, only, only_copied};
use crate::tracked::Tracked;
use pp_core::{OutOfMemory, Step};
use pp_kind::Parted;
use pp_records::RunRecord;
use std::alloc::Global;

/// The front of style boosted, which keeps nothing.
#[derive(Drop)]
pub struct Boosted {
    alloc: Global,
}

impl Boosted {
    pub fn new(alloc: Global) -> Boosted {
        Boosted { alloc }
    }
}

impl<S: Parted> Front<S> for Boosted {
    ghost style = { λ f. styles.Boosted };

    ghost state = { λ kinds f. new_front kinds };

    fn expand(
        &mut self,
        recorded: &RunRecord<S::Op>,
        machine: &mut Tracked<S>,
    ) -> Result<StepList<S::Op>, OutOfMemory> {
        match recorded {
            RunRecord::Plain(step) => only_copied(self.alloc, step),
            RunRecord::Op { tx, id, op } => op_published(self.alloc, machine, tx, *id, op),
            RunRecord::Commit { tx } => only(self.alloc, Step::Cmt { tx: *tx }),
            RunRecord::Abort { tx } => abort(self.alloc, machine, tx),
            RunRecord::Retry { tx } => back_to(self.alloc, machine, tx, 0),
            RunRecord::Refresh { .. }
            | RunRecord::XBegin { .. }
            | RunRecord::XEnd { .. }
            | RunRecord::XAbort { .. }
            | RunRecord::Depend { .. }
            | RunRecord::Publish { .. }
            | RunRecord::DropSource { .. } => unreachable!(),
        }
    }
}
