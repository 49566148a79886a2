//! The records of style hardware.
ghost use Rattle.std.specs.Prelude.{IfOk};
ghost use Rattle.serde_json.specs.View.{view};
ghost use Rattle.pp_core.specs.declared.call.Style.TheVariants as styles;
ghost use Rattle.pp_records.specs.Expansions.{IsOfStyle};
ghost use Rattle.pp_records.specs.Records.{record_meaning};
ghost use Rattle.pp_format_read.specs.Reading.{Gives};
ghost use Rattle.pp_format_read.specs.Hardware.{hardware_of};
ghost use Rattle.pp_format_read.specs.Records.{IsReadable};

use crate::boosted::boosted_in;
use crate::fault::RecordFault;
use crate::members::name_in;
use pp_core::{Catalog, Member};
use pp_objects::Op;
use pp_records::RunRecord;
use serde_json::Value;
use std::alloc::Global;

/// The record of this word.
#[tactic(auto, unfolding(crate::specs::Hardware::hardware_of))]
pub(crate) fn hardware_in(
    alloc: Global,
    catalog: &Catalog,
    word: &str,
    value: &Value,
) -> Result<RunRecord<Op>, RecordFault>
    ensures reads { Gives record_meaning result
        (hardware_of catalog.now word.now (view value.now)) }
    ensures readable { IfOk result (λ r. IsReadable catalog.now (record_meaning r)) }
    ensures styled { IfOk result (λ r. IsOfStyle styles.Hardware (record_meaning r)) }
{
    match word {
        "xbegin" => {
            let tx = name_in(value, Member::Tx)?;
            Ok(RunRecord::XBegin { tx })
        }
        "xend" => {
            let tx = name_in(value, Member::Tx)?;
            Ok(RunRecord::XEnd { tx })
        }
        "xabort" => {
            let tx = name_in(value, Member::Tx)?;
            Ok(RunRecord::XAbort { tx })
        }
        _ => boosted_in(alloc, catalog, word, value),
    }
}
