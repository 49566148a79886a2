//! What is shown the steps of a run.
ghost use Rattle.std.specs.Prelude.{[], ◌++◌, IfOk};
ghost use Rattle.pp_format_read.specs.declared.header.Header.{Header as HeaderOf};
ghost use Rattle.pp_format_write.specs.Statable.{IsWritable, IsWritableStart};
ghost use Rattle.pp_model.specs.Lists.{Each};
ghost use Rattle.pp_objects.specs.declared.act.Op.{Op as OpOf};
ghost use Rattle.pp_records.specs.Runs.{LinedSteps, on_line};
ghost use Rattle.pp_styles.specs.Meanings.{meanings};

use pp_core::{OutOfMemory, Step};
use pp_format_read::Header;
use pp_objects::Op;
use std::alloc::Global;

/// What is shown the steps of a run, each with its line, one list after another: each step that the
/// run has, the one that fails included.
pub trait Observer: Drop {
    /// It has seen these steps of a run with this header, each on the line of its record.
    ghost HasSeen: { HeaderOf → LinedSteps OpOf → Self → Type 0 };

    /// It has seen no step. The only error is out of memory.
    fn begin(alloc: Global, header: &Header) -> Result<Self, OutOfMemory>
        requires { IsWritableStart header.now.catalog header.now.start }
        ensures { IfOk result (HasSeen header.now []) };

    /// It sees these steps of the record on this line after those that it has seen. The only error
    /// is out of memory.
    fn see(
        self,
        alloc: Global,
        header: &Header,
        line: u32,
        steps: &[Step<Op>],
    ) -> Result<Self, OutOfMemory>
        requires { Each (IsWritable header.now.catalog) (meanings steps.now) }
        ensures { IfOk result (λ next. (before : LinedSteps OpOf) →
            HasSeen header.now before self →
            HasSeen header.now (before ++ on_line line (meanings steps.now)) next) };
}

/// An observer that does nothing.
#[derive(Drop)]
pub struct Blind {}

impl Observer for Blind {
    ghost HasSeen = { λ _ _ _. Unit {0} };

    fn begin(_alloc: Global, _header: &Header) -> Result<Blind, OutOfMemory> {
        Ok(Blind {})
    }

    fn see(
        self,
        _alloc: Global,
        _header: &Header,
        _line: u32,
        _steps: &[Step<Op>],
    ) -> Result<Blind, OutOfMemory> {
        Ok(self)
    }
}
