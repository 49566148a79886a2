//! The records of style dependent.
ghost use Rattle.std.specs.Prelude.{IfOk};
ghost use Rattle.serde_json.specs.View.{view};
ghost use Rattle.pp_core.specs.declared.call.Style.TheVariants as styles;
ghost use Rattle.pp_records.specs.Expansions.{IsOfStyle};
ghost use Rattle.pp_records.specs.Records.{record_meaning};
ghost use Rattle.pp_format_read.specs.Reading.{Gives};
ghost use Rattle.pp_format_read.specs.Dependent.{tx_and_source, dependent_of};
ghost use Rattle.pp_format_read.specs.Records.{IsReadable};

use crate::boosted::boosted_in;
use crate::fault::RecordFault;
use crate::members::name_in;
use pp_core::{Catalog, Member, Name};
use pp_objects::Op;
use pp_records::RunRecord;
use serde_json::Value;
use std::alloc::Global;

#[tactic(auto, unfolding(crate::specs::Dependent::tx_and_source))]
fn tx_and_source(value: &Value) -> Result<(Name, Name), RecordFault>
    ensures { Gives (λ names. names) result (tx_and_source (view value.now)) }
{
    let tx = name_in(value, Member::Tx)?;
    let source = name_in(value, Member::Source)?;
    Ok((tx, source))
}

/// The record of this word.
#[tactic(auto, unfolding(crate::specs::Dependent::dependent_of))]
pub(crate) fn dependent_in(
    alloc: Global,
    catalog: &Catalog,
    word: &str,
    value: &Value,
) -> Result<RunRecord<Op>, RecordFault>
    ensures reads { Gives record_meaning result
        (dependent_of catalog.now word.now (view value.now)) }
    ensures readable { IfOk result (λ r. IsReadable catalog.now (record_meaning r)) }
    ensures styled { IfOk result (λ r. IsOfStyle styles.Dependent (record_meaning r)) }
{
    match word {
        "depend" => {
            let (tx, source) = tx_and_source(value)?;
            Ok(RunRecord::Depend { tx, source })
        }
        "drop" => {
            let (tx, source) = tx_and_source(value)?;
            Ok(RunRecord::DropSource { tx, source })
        }
        "publish" => {
            let tx = name_in(value, Member::Tx)?;
            Ok(RunRecord::Publish { tx })
        }
        _ => boosted_in(alloc, catalog, word, value),
    }
}
