//! The records of style boosted. The other styles but rules have them as well.
ghost use Rattle.std.specs.Prelude.{IfOk};
ghost use Rattle.serde_json.specs.View.{view};
ghost use Rattle.pp_records.specs.Records.{record_meaning};
ghost use Rattle.pp_format_read.specs.Reading.{Gives};
ghost use Rattle.pp_format_read.specs.Boosted.{plain_begin_of, op_record_of, boosted_of, IsShared};
ghost use Rattle.pp_format_read.specs.Records.{IsReadable};

use crate::fault::RecordFault;
use crate::item::item_in;
use crate::members::name_in;
use crate::rules::begin_in;
use pp_core::{Catalog, Member};
use pp_objects::Op;
use pp_records::RunRecord;
use serde_json::Value;
use std::alloc::Global;

#[tactic(auto, unfolding(crate::specs::Boosted::plain_begin_of), using(crate::proofs::Styled::begin_shared))]
fn plain_begin(
    alloc: Global,
    catalog: &Catalog,
    value: &Value,
) -> Result<RunRecord<Op>, RecordFault>
    ensures reads { Gives record_meaning result (plain_begin_of catalog.now (view value.now)) }
    ensures readable { IfOk result (λ r. IsReadable catalog.now (record_meaning r)) }
    ensures styled { IfOk result (λ r. IsShared (record_meaning r)) }
{
    let step = begin_in(alloc, catalog, value)?;
    Ok(RunRecord::Plain(step))
}

#[tactic(auto, unfolding(crate::specs::Boosted::op_record_of))]
fn op_record(catalog: &Catalog, value: &Value) -> Result<RunRecord<Op>, RecordFault>
    ensures reads { Gives record_meaning result (op_record_of catalog.now (view value.now)) }
    ensures readable { IfOk result (λ r. IsReadable catalog.now (record_meaning r)) }
    ensures styled { IfOk result (λ r. IsShared (record_meaning r)) }
{
    let tx = name_in(value, Member::Tx)?;
    let item = item_in(catalog, value)?;
    Ok(RunRecord::Op {
        tx,
        id: item.id,
        op: item.op,
    })
}

/// The record of this word.
#[tactic(auto, unfolding(crate::specs::Boosted::boosted_of))]
pub(crate) fn boosted_in(
    alloc: Global,
    catalog: &Catalog,
    word: &str,
    value: &Value,
) -> Result<RunRecord<Op>, RecordFault>
    ensures reads { Gives record_meaning result
        (boosted_of catalog.now word.now (view value.now)) }
    ensures readable { IfOk result (λ r. IsReadable catalog.now (record_meaning r)) }
    ensures styled { IfOk result (λ r. IsShared (record_meaning r)) }
{
    match word {
        "begin" => plain_begin(alloc, catalog, value),
        "op" => op_record(catalog, value),
        "commit" => {
            let tx = name_in(value, Member::Tx)?;
            Ok(RunRecord::Commit { tx })
        }
        "abort" => {
            let tx = name_in(value, Member::Tx)?;
            Ok(RunRecord::Abort { tx })
        }
        "retry" => {
            let tx = name_in(value, Member::Tx)?;
            Ok(RunRecord::Retry { tx })
        }
        _ => Err(RecordFault::UnknownStep),
    }
}
