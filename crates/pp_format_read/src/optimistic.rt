//! The records of style optimistic.
ghost use Rattle.std.specs.Prelude.{IfOk};
ghost use Rattle.serde_json.specs.View.{view};
ghost use Rattle.pp_core.specs.declared.call.Style.TheVariants as styles;
ghost use Rattle.pp_records.specs.Expansions.{IsOfStyle};
ghost use Rattle.pp_records.specs.Records.{record_meaning};
ghost use Rattle.pp_format_read.specs.Reading.{Gives};
ghost use Rattle.pp_format_read.specs.Optimistic.{refresh_of, optimistic_of};
ghost use Rattle.pp_format_read.specs.Records.{IsReadable};

use crate::boosted::boosted_in;
use crate::call::object_in;
use crate::fault::RecordFault;
use crate::members::name_in;
use pp_core::{Catalog, Member};
use pp_objects::Op;
use pp_records::RunRecord;
use serde_json::Value;
use std::alloc::Global;

#[tactic(auto, unfolding(crate::specs::Optimistic::refresh_of))]
fn refresh_in(catalog: &Catalog, value: &Value) -> Result<RunRecord<Op>, RecordFault>
    ensures reads { Gives record_meaning result (refresh_of catalog.now (view value.now)) }
    ensures readable { IfOk result (λ r. IsReadable catalog.now (record_meaning r)) }
    ensures styled { IfOk result (λ r. IsOfStyle styles.Optimistic (record_meaning r)) }
{
    let tx = name_in(value, Member::Tx)?;
    let (object, _) = object_in(catalog, value)?;
    Ok(RunRecord::Refresh { tx, object })
}

/// The record of this word.
#[tactic(auto, unfolding(crate::specs::Optimistic::optimistic_of))]
pub(crate) fn optimistic_in(
    alloc: Global,
    catalog: &Catalog,
    word: &str,
    value: &Value,
) -> Result<RunRecord<Op>, RecordFault>
    ensures reads { Gives record_meaning result
        (optimistic_of catalog.now word.now (view value.now)) }
    ensures readable { IfOk result (λ r. IsReadable catalog.now (record_meaning r)) }
    ensures styled { IfOk result (λ r. IsOfStyle styles.Optimistic (record_meaning r)) }
{
    match word {
        "refresh" => refresh_in(catalog, value),
        _ => boosted_in(alloc, catalog, word, value),
    }
}
