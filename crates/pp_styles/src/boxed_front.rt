//! The front of the style that a header names, behind a pointer.
use crate::any_front::AnyFront;
use crate::front::Front;
use crate::step_list::StepList;
use crate::tracked::Tracked;
use pp_core::{Kinds, OutOfMemory, Style};
use pp_kind::Parted;
use pp_records::RunRecord;
use std::alloc::Global;
use std::marker::Model;

/// The front of one of the styles, as one pointer: each line of a run takes it and gives it back.
/// Contracts see it as the front.
#[derive(Drop)]
pub struct BoxedFront {
    front: Box<AnyFront>,
}

impl Model for BoxedFront {
    ghost use Rattle.pp_styles.specs.contracts.any_front.AnyFront as any_front;
    ghost use Rattle.pp_styles.specs.declared.any_front.AnyFront.{AnyFront as AnyFrontOf};

    ghost Value = { AnyFrontOf };

    ghost coded = { any_front.the_row.coded };

    ghost view = { λ b. b.front.value };
}

impl BoxedFront {
    ghost use Rattle.std.specs.Prelude.{◌≡◌, IfOk};
    ghost use Rattle.pp_records.specs.Fronts.{new_front};
    ghost use Rattle.pp_styles.specs.AnyFronts.{any_state, any_style};

    /// The front of a style, over objects of these kinds. It keeps nothing yet. The only error is
    /// that memory was refused.
    pub fn new(alloc: Global, style: Style, kinds: Kinds) -> Result<BoxedFront, OutOfMemory>
        ensures style { IfOk result (λ front. any_style front ≡ style) }
        ensures state { IfOk result (λ front. any_state kinds front ≡ new_front kinds) }
    {
        let front = Box::new(alloc, AnyFront::new(alloc, style, kinds))?;
        Ok(BoxedFront { front })
    }
}

impl<S: Parted> Front<S> for BoxedFront {
    ghost use Rattle.pp_styles.specs.AnyFronts.{any_state, any_style};

    ghost style = { λ f. any_style f };

    ghost state = { λ kinds f. any_state kinds f };

    fn expand(
        &mut self,
        recorded: &RunRecord<S::Op>,
        machine: &mut Tracked<S>,
    ) -> Result<StepList<S::Op>, OutOfMemory> {
        let front = &mut *self.front;
        front.expand(recorded, machine)
    }
}
