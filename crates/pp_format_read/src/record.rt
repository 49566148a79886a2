//! The lines after the header.
ghost use Rattle.std.specs.Prelude.{IfOk};
ghost use Rattle.serde_json.specs.View.{view};
ghost use Rattle.pp_records.specs.Expansions.{IsOfStyle};
ghost use Rattle.pp_records.specs.Records.{record_meaning};
ghost use Rattle.pp_format_read.specs.Reading.{Gives};
ghost use Rattle.pp_format_read.specs.Records.{record_named, record_of, IsReadable};

use crate::boosted::boosted_in;
use crate::dependent::dependent_in;
use crate::fault::RecordFault;
use crate::hardware::hardware_in;
use crate::header::Header;
use crate::members::{object_on, text_in};
use crate::optimistic::optimistic_in;
use crate::rules::step_in;
use pp_core::{Catalog, Member, Style};
use pp_objects::Op;
use pp_records::RunRecord;
use serde_json::Value;
use std::alloc::Global;

fn record_named(
    alloc: Global,
    style: Style,
    catalog: &Catalog,
    word: &str,
    value: &Value,
) -> Result<RunRecord<Op>, RecordFault>
    ensures reads { Gives record_meaning result
        (record_named style catalog.now word.now (view value.now)) }
    ensures readable { IfOk result (λ r. IsReadable catalog.now (record_meaning r)) }
    ensures styled { IfOk result (λ r. IsOfStyle style (record_meaning r)) }
{
    match style {
        Style::Rules => {
            let step = step_in(alloc, catalog, word, value)?;
            Ok(RunRecord::Plain(step))
        }
        Style::Boosted => boosted_in(alloc, catalog, word, value),
        Style::Optimistic => optimistic_in(alloc, catalog, word, value),
        Style::Hardware => hardware_in(alloc, catalog, word, value),
        Style::Dependent => dependent_in(alloc, catalog, word, value),
    }
}

/// Reads a line after the header. If there are several faults, it returns the one that is tested
/// first: the members are tested in the order in which the format lists them, and not in that of
/// the line.
#[tactic(auto, unfolding(crate::specs::Records::record_of))]
pub fn read_record(
    alloc: Global,
    header: &Header,
    line: &[u8],
) -> Result<RunRecord<Op>, RecordFault>
    ensures reads { Gives record_meaning result (record_of header.now line.now) }
    ensures readable { IfOk result (λ r. IsReadable header.now.catalog (record_meaning r)) }
    ensures styled { IfOk result (λ r. IsOfStyle header.now.style (record_meaning r)) }
{
    let value = object_on(alloc, line)?;
    let word = text_in(&value, Member::Step)?;
    record_named(alloc, header.style, &header.catalog, word, &value)
}
