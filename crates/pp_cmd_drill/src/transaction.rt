//! The transactions of the run, and names.
ghost use Rattle.std.specs.Prelude.{◌≡◌, ◌≤◌, IfOk};
ghost use Rattle.pp_core.specs.Names.{IsName};
ghost use Rattle.pp_cmd_drill.specs.Drill.{name_of, first_thread, second_thread, id_of};

use pp_core::{Name, OutOfMemory, Text};
use pp_text::write_number;
use std::alloc::Global;

/// A transaction of the run: its number, from 1, and its name.
#[derive(Clone, Copy)]
pub(crate) struct Transaction {
    pub(crate) number: u32,
    pub(crate) name: Name,
}

/// The name with this text.
pub(crate) fn name_of_text(text: &[u8]) -> Name
    requires { IsName text.now }
    ensures { result ≡ text.now }
{
    match Name::read(text) {
        Some(name) => name,
        None => unreachable!(),
    }
}

/// The thread of the first transaction of each pair.
#[tactic(auto, using(crate::proofs::Stating::first_is_name))]
pub(crate) fn first_thread() -> Name
    ensures { result ≡ first_thread }
{
    name_of_text(b"p1")
}

/// The thread of the second transaction of each pair.
#[tactic(auto, using(crate::proofs::Stating::second_is_name))]
pub(crate) fn second_thread() -> Name
    ensures { result ≡ second_thread }
{
    name_of_text(b"p2")
}

/// The transaction of this number.
#[tactic(auto, using(crate::proofs::Stating::is_name))]
pub(crate) fn transaction_of(alloc: Global, number: u32) -> Result<Transaction, OutOfMemory>
    requires { number ≤ 20_000 }
    ensures number { IfOk result (λ t. t.number ≡ number) }
    ensures name { IfOk result (λ t. t.name ≡ name_of number) }
{
    let mut text = Text::new(alloc);
    text.append(b"t")?;
    write_number(&mut text, u64::from(number))?;
    Ok(Transaction {
        number,
        name: name_of_text(text.bytes()),
    })
}

/// The id of an operation of the transaction with this number.
pub(crate) fn id_of(number: u32, operation: u32) -> u32
    requires number { number ≤ 20_000 }
    requires operation { operation ≤ 4 }
    ensures { result ≡ id_of number operation }
{
    10 * number + operation
}
