//! The report of a rejected run.
ghost use Rattle.std.specs.Prelude.{◌≡◌, ◌++◌, IfOk, OnOk};
ghost use Rattle.pp_report.specs.Reports.{IsDetailNamed, rejected_place, rejected_rule};
ghost use Rattle.pp_report.specs.Reports.{rejected_text};

use crate::evidence::write_detail;
use pp_core::{Catalog, OutOfMemory, Rule, Text};
use pp_machine::Detail;
use pp_objects::Op;
use pp_text::write_number;
use std::alloc::Global;

/// Adds the place of the failed step.
fn write_place(text: &mut Text, step: u64, line: u32) -> Result<(), OutOfMemory>
    ensures { OnOk result (text.new ≡ text.old ++ rejected_place step line) }
{
    text.append(b"rejected step ")?;
    write_number(text, step)?;
    text.append(b" line ")?;
    write_number(text, u64::from(line))
}

/// Adds the rule of the failed step, and the number of the criterion.
fn write_rule(text: &mut Text, rule: Rule, criterion: u8) -> Result<(), OutOfMemory>
    ensures { OnOk result (text.new ≡ text.old ++ rejected_rule rule criterion) }
{
    text.append(b" ")?;
    text.append(rule.word().as_bytes())?;
    text.append(b" ")?;
    write_number(text, u64::from(criterion))
}

/// The report of a rejected run: the criterion of this number of the rule fails at a step, which
/// the record of a line gave, and this is the evidence. The only error is out of memory.
pub fn rejected(
    alloc: Global,
    catalog: &Catalog,
    step: u64,
    line: u32,
    rule: Rule,
    criterion: u8,
    detail: &Detail<Op>,
) -> Result<Text, OutOfMemory>
    requires { IsDetailNamed catalog.now detail.now }
    ensures { IfOk result (λ text. text
        ≡ rejected_text catalog.now step line rule criterion detail.now) }
{
    let mut text = Text::new(alloc);
    write_place(&mut text, step, line)?;
    write_rule(&mut text, rule, criterion)?;
    text.append(b"\n")?;
    write_detail(&mut text, catalog, detail)?;
    Ok(text)
}
