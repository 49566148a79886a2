//! What takes the records of the runs of one style.
ghost use Rattle.std.specs.Prelude.{◌≡◌, ◌≤◌, ◌<◌, ◌+◌, ℕ, [], false, length, IfOk};
ghost use Rattle.pp_records.specs.Records.{record_meaning};
ghost use Rattle.pp_records.specs.Records.{RunRecord as RunRecordOf};
ghost use Rattle.pp_records.specs.Runs.{Records};
ghost use Rattle.pp_format_read.specs.declared.header.Header.{Header as HeaderOf};
ghost use Rattle.pp_format_read.specs.Starts.{IsReadableStart};
ghost use Rattle.pp_kind.specs.Object.{AllRanged, IsAllowed};
ghost use Rattle.pp_kind.specs.declared.range.TheConstants.{MOST_OPERATIONS};
ghost use Rattle.pp_model.specs.Sound.{serial_ops};
ghost use Rattle.pp_objects.specs.Objects.{objects};
ghost use Rattle.pp_objects.specs.declared.act.Op.{Op as OpOf};
ghost use Rattle.pp_judge.specs.Costs.{start_length};
ghost use Rattle.pp_judge.specs.Objects.{start_of};
ghost use Rattle.pp_judge.specs.Tallies.{headed, scan_of};
ghost use Rattle.pp_cmd_judge.specs.Costs.{StyleCostAtMost};
ghost use Rattle.pp_cmd_judge.specs.EngineLaws.{EngineLaws};
ghost use Rattle.pp_cmd_judge.specs.Engines.{CanTake, CostsAtMost, EngineOf, Finds, HasSteps};
ghost use Rattle.pp_cmd_judge.specs.Engines.{Starts, Takes};

use crate::style_judge::StyleJudge;
use pp_core::{Committed, OutOfMemory, Ticks};
use pp_format_read::Header;
use pp_objects::Op;
use pp_records::RunRecord;
use pp_violations::Violation;
use std::alloc::Global;
use std::sync::ledger::Ledger;

/// What takes the records of the runs of one style, one after another. The only error is out of
/// memory.
pub(crate) trait Engine: Drop {
    /// What the engine says of runs.
    ghost engine: { EngineOf Self };

    /// The engine after the start of a header of its style, and whether that meets its criteria.
    fn start<L: Ledger>(
        alloc: Global,
        header: &Header,
        ticks: &mut Ticks<L>,
    ) -> Result<(Self, bool), OutOfMemory>
        requires style { header.now.style ≡ engine.style }
        requires readable { IsReadableStart header.now.catalog header.now.start }
        ensures starts { IfOk result (λ r. Starts engine header.now r.1 r.0) }
        ensures rises { ticks.old ≤ ticks.new }
        ensures most { (line : ℕ) → StyleCostAtMost engine.style
            (scan_of (headed line header.now) []) ticks.old ticks.new }
        ensures again { IfOk result (λ r. r.1 ≡ false → (line then : ℕ) →
            then ≤ ticks.new + start_length (start_of header.now) →
            StyleCostAtMost engine.style (scan_of (headed line header.now) []) ticks.old then) };

    /// How many steps the record means, good or not.
    fn count_steps(&self, recorded: &RunRecord<Op>) -> u64
        requires { CanTake engine self.now (record_meaning recorded.now) }
        ensures count { HasSteps engine self.now (record_meaning recorded.now) result }
        ensures bound { result ≤ 6_442_451_713 };

    /// Takes a record if it is good. Otherwise it returns what had been taken before, with false.
    fn take_record<L: Ledger>(
        self,
        recorded: &RunRecord<Op>,
        ticks: &mut Ticks<L>,
    ) -> Result<(Self, bool), OutOfMemory>
        requires { CanTake engine self (record_meaning recorded.now) }
        ensures takes { IfOk result (λ r. Takes engine self (record_meaning recorded.now) r.1 r.0
            ticks.old ticks.new) }
        ensures most { CostsAtMost engine self (record_meaning recorded.now) ticks.old ticks.new };

    /// The first step of a record that was not taken which violates a criterion.
    fn find_step<L: Ledger>(
        self,
        alloc: Global,
        recorded: &RunRecord<Op>,
        ticks: &mut Ticks<L>,
    ) -> Result<Violation<Op>, OutOfMemory>
        requires may { CanTake engine self (record_meaning recorded.now) }
        requires refused { engine.IsRefused self (record_meaning recorded.now) }
        ensures found { IfOk result (Finds engine self (record_meaning recorded.now)) }
        ensures rises { ticks.old ≤ ticks.new }
        ensures bound { ticks.new ≤ ticks.old + engine.search self };

    /// The committed transactions, in commit order. Their operations, joined, are allowed, in the
    /// range of records, and few enough to be applied one after another.
    fn commits(&self) -> &Committed<Op>
        requires { (header : HeaderOf) × (records : Records (RunRecordOf OpOf))
            × engine.AreGood header records self.now }
        ensures done { result.now ≡ engine.done self.now }
        ensures allowed { IsAllowed objects (engine.shape self.now)
            (serial_ops (engine.done self.now)) }
        ensures ranged { AllRanged objects (serial_ops (engine.done self.now)) }
        ensures few { length (serial_ops (engine.done self.now)) < MOST_OPERATIONS };

    /// The judge of all styles that it is, with the number of steps of the records that it took.
    fn wrap(self, steps: u64) -> StyleJudge
        ensures { result ≡ engine.wrap (record { engine = self; steps = steps }) };

    /// What holds of every engine.
    ghost laws: { EngineLaws engine };
}
