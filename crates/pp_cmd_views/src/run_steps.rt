//! The steps of a run, kept.
ghost use Rattle.std.specs.Prelude.{◌≡◌, ◌++◌, OnOk};
ghost use Rattle.pp_styles.specs.Meanings.{meanings};

use pp_core::{OutOfMemory, Step};
use pp_format_read::Header;
use pp_judge::Observer;
use pp_objects::Op;
use pp_styles::StepList;
use std::alloc::Global;

/// The steps that were seen.
#[derive(Drop)]
pub(crate) struct RunSteps {
    pub(crate) steps: StepList<Op>,
}

/// Adds copies of these steps.
fn add_copies(alloc: Global, list: &mut StepList<Op>, steps: &[Step<Op>]) -> Result<(), OutOfMemory>
    ensures { OnOk result (meanings list.new ≡ meanings list.old ++ meanings steps.now) }
{
    for step in steps {
        list.push(step.copy(alloc)?)?;
    }
    Ok(())
}

impl Observer for RunSteps {
    ghost use Rattle.pp_cmd_views.specs.Taken.{HasSeenSteps};

    ghost HasSeen = { HasSeenSteps };

    fn begin(alloc: Global, _header: &Header) -> Result<RunSteps, OutOfMemory> {
        Ok(RunSteps {
            steps: StepList::new(alloc),
        })
    }

    fn see(
        self,
        alloc: Global,
        _header: &Header,
        _line: u32,
        more: &[Step<Op>],
    ) -> Result<RunSteps, OutOfMemory> {
        let RunSteps { mut steps } = self;
        add_copies(alloc, &mut steps, more)?;
        Ok(RunSteps { steps })
    }
}
