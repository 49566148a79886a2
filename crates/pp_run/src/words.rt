//! The arguments of a command.
ghost use Rattle.std.specs.Prelude.{◌≡◌};
ghost use Rattle.pp_format_read.specs.Members.{name_from};
ghost use Rattle.pp_run.specs.Words.{command_named, command_of, command_with, drill_number};

use itoa::Buffer;
use pp_core::{Name, Words};
use std::str;

/// What the program is asked to do.
#[derive(Clone, Copy)]
pub(crate) enum Command {
    /// Report whether the input is a run of the machine.
    Certify,
    /// Print the steps that the records of the input mean.
    Expand,
    /// Report what `certify` reports, within wider limits.
    Judge,
    /// Report whether the input is a boosted run of the machine, without local logs.
    Quick,
    /// Print the exchanges that turn the shared log of the run into its serial run.
    Swaps,
    /// Check such a certificate with the objects alone.
    Recheck,
    /// Print what each attempt of the run saw.
    Views,
    /// Report whether each attempt of the run saw a consistent state.
    Opaque,
    /// Make the run of n transactions, and print its report.
    Drill { n: u32 },
    /// Print the restriction of the input to the object of this name.
    Focus { name: Name },
}

/// The number of transactions that an argument states, if it states one.
fn drill_number(word: &[u8]) -> Option<u32>
    ensures { result ≡ drill_number word.now }
{
    let Ok(text) = str::from_utf8(word) else {
        return None;
    };
    let Ok(n) = text.parse::<u32>() else {
        return None;
    };
    if n == 0 || n > 20_000 {
        return None;
    }
    let mut buffer = Buffer::new();
    if buffer.format(n).as_bytes() == word {
        Some(n)
    } else {
        None
    }
}

/// The command of one argument.
fn command_named(word: &[u8]) -> Option<Command>
    ensures { result ≡ command_named word.now }
{
    if word == b"certify".as_slice() {
        Some(Command::Certify)
    } else if word == b"expand".as_slice() {
        Some(Command::Expand)
    } else if word == b"judge".as_slice() {
        Some(Command::Judge)
    } else if word == b"quick".as_slice() {
        Some(Command::Quick)
    } else if word == b"swaps".as_slice() {
        Some(Command::Swaps)
    } else if word == b"recheck".as_slice() {
        Some(Command::Recheck)
    } else if word == b"views".as_slice() {
        Some(Command::Views)
    } else if word == b"opaque".as_slice() {
        Some(Command::Opaque)
    } else {
        None
    }
}

/// The name that an argument is, if it is one.
fn object_name(word: &[u8]) -> Option<Name>
    ensures { result ≡ name_from word.now }
{
    Name::read(word)
}

/// The command of two arguments.
fn command_with(word: &[u8], argument: &[u8]) -> Option<Command>
    ensures { result ≡ command_with word.now argument.now }
{
    if word == b"drill".as_slice() {
        let n = drill_number(argument)?;
        Some(Command::Drill { n })
    } else if word == b"focus".as_slice() {
        let name = object_name(argument)?;
        Some(Command::Focus { name })
    } else {
        None
    }
}

/// The command that the arguments are, and None exactly if they are no command. The program's own
/// name is not among them.
pub(crate) fn read_words(words: &Words) -> Option<Command>
    ensures { result ≡ command_of words.now }
{
    let word = words.get(0)?;
    match words.len() {
        1 => command_named(word.bytes()),
        2 => {
            let argument = words.get(1)?;
            command_with(word.bytes(), argument.bytes())
        }
        _ => None,
    }
}
