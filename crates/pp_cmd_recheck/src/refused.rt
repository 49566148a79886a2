//! The report of a line that is refused.
ghost use Rattle.std.specs.Prelude.{◌≡◌, IfOk};
ghost use Rattle.pp_core.specs.Catalogs.{Objects};
ghost use Rattle.pp_certificate_checker.specs.declared.refusal.Refusal.TheVariants.{Gives, Pair, Position};
ghost use Rattle.pp_certificate_lines.specs.Rechecked.{refused_place, refused_text, refused_at};
ghost use Rattle.pp_certificate_lines.specs.Rechecked.{IsCheckedTold};

use pp_certificate_checker::Refusal;
use pp_core::{Answer, OutOfMemory, Status, Text};
use pp_input_reader::{Cause, fault};
use pp_text::{write_answer, write_number};
use std::alloc::Global;

/// The part of a report that says which line is refused.
fn place_text(alloc: Global, line: u32) -> Result<Text, OutOfMemory>
    ensures { IfOk result (λ text. text ≡ refused_place line) }
{
    let mut text = Text::new(alloc);
    text.append(b"refused line ")?;
    write_number(&mut text, u64::from(line))?;
    Ok(text)
}

/// The report of an entry whose recorded result is not what the object returns.
fn gives_text(alloc: Global, line: u32, entry: u32, answer: &Answer) -> Result<Text, OutOfMemory>
    ensures { IfOk result (λ text. text ≡ refused_text line (Gives entry answer.now)) }
{
    let mut text = place_text(alloc, line)?;
    text.append(b" entry ")?;
    write_number(&mut text, u64::from(entry))?;
    text.append(b" gives ")?;
    write_answer(&mut text, answer)?;
    text.append(b"\n")?;
    Ok(text)
}

/// The report of a position, or of a serial number, past the last entry.
fn position_text(alloc: Global, line: u32) -> Result<Text, OutOfMemory>
    ensures { IfOk result (λ text. text ≡ refused_text line Position) }
{
    let mut text = place_text(alloc, line)?;
    text.append(b" position")?;
    text.append(b"\n")?;
    Ok(text)
}

/// The report of two entries that do not swap.
fn pair_text(alloc: Global, line: u32, first: u32, second: u32) -> Result<Text, OutOfMemory>
    ensures { IfOk result (λ text. text ≡ refused_text line (Pair first second)) }
{
    let mut text = place_text(alloc, line)?;
    text.append(b" pair ")?;
    write_number(&mut text, u64::from(first))?;
    text.append(b" ")?;
    write_number(&mut text, u64::from(second))?;
    text.append(b"\n")?;
    Ok(text)
}

/// The status and the report of a line that is refused. The only error is out of memory.
pub(crate) fn refused(
    alloc: Global,
    line: u32,
    why: &Refusal,
) -> Result<(Status, Text), OutOfMemory>
    ensures { IfOk result (λ r. (catalog : Objects) →
        IsCheckedTold catalog (refused_at line why.now) r.0 r.1) }
{
    match why {
        Refusal::NotCertificate => {
            let text = fault(alloc, line, &Cause::NotCertificate)?;
            Ok((Status::InputFault, text))
        }
        Refusal::Gives { entry, answer } => {
            let text = gives_text(alloc, line, *entry, answer)?;
            Ok((Status::Rejected, text))
        }
        Refusal::Position => {
            let text = position_text(alloc, line)?;
            Ok((Status::Rejected, text))
        }
        Refusal::Pair { first, second } => {
            let text = pair_text(alloc, line, *first, *second)?;
            Ok((Status::Rejected, text))
        }
    }
}
