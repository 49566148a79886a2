//! The front of the style that a header names.
use crate::boosted::Boosted;
use crate::dependent::Dependent;
use crate::front::Front;
use crate::hardware::Hardware;
use crate::optimistic::Optimistic;
use crate::rules::Rules;
use crate::step_list::StepList;
use crate::tracked::Tracked;
use pp_core::{Kinds, OutOfMemory, Style};
use pp_kind::Parted;
use pp_records::RunRecord;
use std::alloc::Global;

/// The front of one of the styles.
#[derive(Drop)]
pub enum AnyFront {
    Rules(Rules),
    Boosted(Boosted),
    Optimistic(Optimistic),
    Hardware(Hardware),
    Dependent(Dependent),
}

impl AnyFront {
    ghost use Rattle.std.specs.Prelude.{◌≡◌};
    ghost use Rattle.pp_records.specs.Fronts.{new_front};
    ghost use Rattle.pp_styles.specs.AnyFronts.{any_state, any_style};

    /// The front of a style, over objects of these kinds. It keeps nothing yet.
    pub fn new(alloc: Global, style: Style, kinds: Kinds) -> AnyFront
        ensures style { any_style result ≡ style }
        ensures state { any_state kinds result ≡ new_front kinds }
    {
        match style {
            Style::Rules => AnyFront::Rules(Rules::new(alloc)),
            Style::Boosted => AnyFront::Boosted(Boosted::new(alloc)),
            Style::Optimistic => AnyFront::Optimistic(Optimistic::new(alloc)),
            Style::Hardware => AnyFront::Hardware(Hardware::new(alloc, kinds)),
            Style::Dependent => AnyFront::Dependent(Dependent::new(alloc)),
        }
    }
}

impl<S: Parted> Front<S> for AnyFront {
    ghost use Rattle.pp_styles.specs.AnyFronts.{any_state, any_style};

    ghost style = { λ f. any_style f };

    ghost state = { λ kinds f. any_state kinds f };

    fn expand(
        &mut self,
        recorded: &RunRecord<S::Op>,
        machine: &mut Tracked<S>,
    ) -> Result<StepList<S::Op>, OutOfMemory> {
        match self {
            AnyFront::Rules(front) => front.expand(recorded, machine),
            AnyFront::Boosted(front) => front.expand(recorded, machine),
            AnyFront::Optimistic(front) => front.expand(recorded, machine),
            AnyFront::Hardware(front) => front.expand(recorded, machine),
            AnyFront::Dependent(front) => front.expand(recorded, machine),
        }
    }
}
