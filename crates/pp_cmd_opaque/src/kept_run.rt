//! The steps of a run and their lines, kept.
ghost use Rattle.std.specs.Prelude.{◌≡◌, ◌++◌, OnOk, map};
ghost use Rattle.pp_styles.specs.Meanings.{meanings};

use pp_core::{OutOfMemory, Sequence, Step};
use pp_format_read::Header;
use pp_judge::Observer;
use pp_objects::Op;
use pp_styles::StepList;
use std::alloc::Global;

/// The steps that were seen, and the line of each.
#[derive(Drop)]
pub(crate) struct KeptRun {
    pub(crate) steps: StepList<Op>,
    pub(crate) lines: Sequence<u32>,
}

/// Adds copies of these steps, which are on this line.
fn add_copies(
    alloc: Global,
    list: &mut StepList<Op>,
    lines: &mut Sequence<u32>,
    line: u32,
    steps: &[Step<Op>],
) -> Result<(), OutOfMemory>
    ensures steps { OnOk result (meanings list.new ≡ meanings list.old ++ meanings steps.now) }
    ensures lines { OnOk result
        (lines.new ≡ lines.old ++ map (λ _. line) steps.now) }
{
    for step in steps {
        list.push(step.copy(alloc)?)?;
        lines.push(line)?;
    }
    Ok(())
}

impl Observer for KeptRun {
    ghost use Rattle.pp_cmd_opaque.specs.Kept.{HasKept};

    ghost HasSeen = { HasKept };

    fn begin(alloc: Global, _header: &Header) -> Result<KeptRun, OutOfMemory> {
        Ok(KeptRun {
            steps: StepList::new(alloc),
            lines: Sequence::new(alloc),
        })
    }

    fn see(
        self,
        alloc: Global,
        _header: &Header,
        line: u32,
        more: &[Step<Op>],
    ) -> Result<KeptRun, OutOfMemory> {
        let KeptRun {
            mut steps,
            mut lines,
        } = self;
        add_copies(alloc, &mut steps, &mut lines, line, more)?;
        Ok(KeptRun { steps, lines })
    }
}
