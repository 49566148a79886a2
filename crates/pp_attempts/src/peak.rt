//! The peaks of a run.
ghost use Rattle.std.specs.Prelude.{◌≡◌, ◌≤◌, IfErr, IfOk, OnOk, length};
ghost use Rattle.pp_core.specs.declared.limits.TheConstants.{MOST_STEPS};
ghost use Rattle.pp_attempts.specs.Peaks.{IdsTell, IsFaultOf, IsOrderly, meanings, operations, peaks};

use crate::collect::collect;
use crate::top::tops;
use pp_core::{Items, Name, OutOfMemory, Sequence, Step};
use std::alloc::{AllocError, Global};

/// The operations that a transaction had applied when it went no further: its next step that
/// applies or undoes an operation undoes one, or it has no such step.
#[derive(Drop)]
pub struct Peak<O: Copy> {
    pub tx: Name,
    pub ops: Items<O>,
}

/// Peaks, in the order in which they were reached.
pub type Peaks<O> = Sequence<Peak<O>>;

/// Why there are no peaks.
#[derive(Drop)]
pub enum PeakFault {
    /// All peaks together have more operations than the limit, this many.
    TooMany { count: u64 },
    /// Out of memory.
    OutOfMemory,
}

impl From<OutOfMemory> for PeakFault {
    ghost use Rattle.pp_attempts.specs.declared.peak.PeakFault.TheVariants.{OutOfMemory};

    ghost from_gives = { λ _ fault. fault ≡ OutOfMemory };

    fn from(_: OutOfMemory) -> PeakFault {
        PeakFault::OutOfMemory
    }
}

impl From<AllocError> for PeakFault {
    ghost use Rattle.pp_attempts.specs.declared.peak.PeakFault.TheVariants.{OutOfMemory};

    ghost from_gives = { λ _ fault. fault ≡ OutOfMemory };

    fn from(_: AllocError) -> PeakFault {
        PeakFault::OutOfMemory
    }
}

/// The peaks of a run, unless all of them have more than `most` operations. At most `most`
/// operations are copied; after these the rest is only counted.
pub fn peaks_of<O: Copy>(
    alloc: Global,
    list: &Sequence<Step<O>>,
    most: u64,
) -> Result<Peaks<O>, PeakFault>
    requires few { length list.now ≤ MOST_STEPS }
    requires orderly { IsOrderly (meanings list.now) }
    ensures peaks { IfOk result (λ found. found ≡ peaks (meanings list.now)) }
    ensures ids { IfOk result (λ found. IdsTell found) }
    ensures few { OnOk result (operations (peaks (meanings list.now)) ≤ most) }
    ensures fault { IfErr result (IsFaultOf (operations (peaks (meanings list.now))) most) }
{
    let mut marks = tops(alloc, list.as_slice())?;
    marks.reverse();
    let found = collect(alloc, list.as_slice(), &marks, most)?;
    if found.total > most {
        return Err(PeakFault::TooMany { count: found.total });
    }
    Ok(found.peaks)
}
