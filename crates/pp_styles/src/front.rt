//! What a style does with its records.
ghost use Rattle.std.specs.Prelude.{◌≡◌, IfOk, List, OnOk};
ghost use Rattle.pp_core.specs.declared.call.Kind.{Kind};
ghost use Rattle.pp_core.specs.declared.call.Style.{Style};
ghost use Rattle.pp_records.specs.Expansions.{IsOfStyle, expand, front_after};
ghost use Rattle.pp_records.specs.Fronts.{Front as FrontState};
ghost use Rattle.pp_records.specs.Records.{record_meaning};
ghost use Rattle.pp_styles.specs.Meanings.{meanings};
ghost use Rattle.pp_styles.specs.SameFronts.{SameFront};

use crate::step_list::StepList;
use crate::tracked::Tracked;
use pp_core::OutOfMemory;
use pp_kind::Parted;
use pp_records::RunRecord;

/// A style of recording: what it keeps of the records so far, and the steps of the next one.
pub trait Front<S: Parted> {
    /// Which style it is.
    ghost style: { Self → Style };

    /// What it keeps of the records so far, over objects of these kinds.
    ghost state: { List Kind → Self → FrontState };

    /// The steps that a record stands for, where the machine stands. The sources that are kept may be
    /// in another order than those of the definition. The only error is out of memory, and
    /// the front is then of no more use.
    fn expand(
        &mut self,
        recorded: &RunRecord<S::Op>,
        machine: &mut Tracked<S>,
    ) -> Result<StepList<S::Op>, OutOfMemory>
        requires { IsOfStyle (style self.old) (record_meaning recorded.now) }
        ensures steps { (kinds : List Kind) → IfOk result (λ list. meanings list
            ≡ expand S.place_of (style self.old) (state kinds self.old) machine.old.config
            (record_meaning recorded.now)) }
        ensures kept { (kinds : List Kind) → OnOk result (SameFront (state kinds self.new)
            (front_after (state kinds self.old) machine.old.config
            (record_meaning recorded.now))) }
        ensures same { style self.new ≡ style self.old }
        ensures machine { machine.new ≡ machine.old };
}
