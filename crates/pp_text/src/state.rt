//! States of objects as text.
ghost use Rattle.std.specs.Prelude.{◌≡◌, ◌++◌, IfOk, OnOk};
ghost use Rattle.std.specs.List.{flat_map};
ghost use Rattle.pp_text.specs.Texts.{IsObjectOf, key_bytes, piece_bytes, state_bytes};

use crate::number::{write_integer, write_signed_number};
use crate::op::name_at;
use pp_core::{Catalog, OutOfMemory, Text};
use pp_objects::{ObjectStates, Piece, show};
use std::alloc::Global;

/// Adds the key of a number that an object shows, if it has one.
fn write_key(text: &mut Text, key: Option<i64>) -> Result<(), OutOfMemory>
    ensures { OnOk result (text.new ≡ text.old ++ key_bytes key) }
{
    let Some(key) = key else {
        return Ok(());
    };
    write_signed_number(text, key)?;
    text.append(b"=")
}

/// Adds a number that an object shows.
fn write_piece(text: &mut Text, piece: &Piece) -> Result<(), OutOfMemory>
    ensures { OnOk result (text.new ≡ text.old ++ piece_bytes piece.now) }
{
    text.append(b" ")?;
    write_key(text, piece.key)?;
    write_integer(text, piece.value)
}

/// Adds all numbers that an object shows.
fn write_pieces(text: &mut Text, pieces: &[Piece]) -> Result<(), OutOfMemory>
    ensures { OnOk result (text.new ≡ text.old ++ flat_map piece_bytes pieces.now) }
{
    for piece in pieces {
        write_piece(text, piece)?;
    }
    Ok(())
}

/// Adds the state of an object. After a refusal the text may end with a part of it.
#[tactic(auto, using(crate::proofs::Shapes::is_named, crate::proofs::Shapes::has_state))]
pub fn write_state(
    alloc: Global,
    text: &mut Text,
    catalog: &Catalog,
    states: &ObjectStates,
    object: u16,
) -> Result<(), OutOfMemory>
    requires { IsObjectOf catalog.now states.now object }
    ensures { OnOk result (text.new ≡ text.old ++ state_bytes catalog.now states.now object) }
{
    let name = name_at(catalog, object);
    let pieces = show(alloc, states, object)?;
    text.append(b"state ")?;
    text.append(name.text())?;
    write_pieces(text, pieces.as_slice())
}

/// The state of an object, as `state m 0=5 3=-1`, without a line end. The only error is out
/// of memory.
pub fn state_line(
    alloc: Global,
    catalog: &Catalog,
    states: &ObjectStates,
    object: u16,
) -> Result<Text, OutOfMemory>
    requires { IsObjectOf catalog.now states.now object }
    ensures { IfOk result (λ text. text ≡ state_bytes catalog.now states.now object) }
{
    let mut text = Text::new(alloc);
    write_state(alloc, &mut text, catalog, states, object)?;
    Ok(text)
}
