//! Style rules: each record is its step.
ghost use Rattle.pp_core.specs.declared.call.Style.TheVariants as styles;
ghost use Rattle.pp_records.specs.Fronts.{new_front};

use crate::front::Front;
use crate::step_list::{StepList, only_copied};
use crate::tracked::Tracked;
use pp_core::OutOfMemory;
use pp_kind::Parted;
use pp_records::RunRecord;
use std::alloc::Global;

/// The front of style rules, which keeps nothing.
#[derive(Drop)]
pub struct Rules {
    alloc: Global,
}

impl Rules {
    pub fn new(alloc: Global) -> Rules {
        Rules { alloc }
    }
}

impl<S: Parted> Front<S> for Rules {
    ghost style = { λ f. styles.Rules };

    ghost state = { λ kinds f. new_front kinds };

    fn expand(
        &mut self,
        recorded: &RunRecord<S::Op>,
        _machine: &mut Tracked<S>,
    ) -> Result<StepList<S::Op>, OutOfMemory> {
        let RunRecord::Plain(step) = recorded else {
            unreachable!()
        };
        only_copied(self.alloc, step)
    }
}
