//! Results of calls as text.
ghost use Rattle.std.specs.Prelude.{◌≡◌, ◌++◌, IfOk, OnOk};
ghost use Rattle.pp_text.specs.Texts.{answer_bytes};

use crate::number::write_integer;
use pp_core::{Answer, OutOfMemory, Text};
use std::alloc::Global;

/// Adds a result. After a refusal the text may end with a part of it.
pub fn write_answer(text: &mut Text, answer: &Answer) -> Result<(), OutOfMemory>
    ensures { OnOk result (text.new ≡ text.old ++ answer_bytes answer.now) }
{
    match *answer {
        Answer::None => text.append(b"none"),
        Answer::Number(number) => write_integer(text, number),
        Answer::Truth(true) => text.append(b"true"),
        Answer::Truth(false) => text.append(b"false"),
    }
}

/// A result, as `none`, `true` or `-5`. The only error is out of memory.
pub fn answer_text(alloc: Global, answer: &Answer) -> Result<Text, OutOfMemory>
    ensures { IfOk result (λ text. text ≡ answer_bytes answer.now) }
{
    let mut text = Text::new(alloc);
    write_answer(&mut text, answer)?;
    Ok(text)
}
