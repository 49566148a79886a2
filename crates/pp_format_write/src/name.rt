//! Names of transactions, threads and objects, as members of a line.
ghost use Rattle.std.specs.Prelude.{◌≡◌, ◌<◌, length};
ghost use Rattle.pp_core.specs.Names.{IsName};
ghost use Rattle.pp_text.specs.Texts.{name_at};

use pp_core::{Catalog, Name};

/// The text of a name, which is ASCII.
#[tactic(auto, using(crate::proofs::Words::name_utf8))]
pub(crate) fn name_text(name: &Name) -> &str
    ensures text { result.now ≡ name.now }
    ensures named { IsName name.now }
{
    match std::str::from_utf8(name.text()) {
        Ok(text) => text,
        Err(_) => unreachable!(),
    }
}

/// The name of an object of the catalog.
pub(crate) fn name_at(catalog: &Catalog, object: u16) -> Name
    requires { object < length catalog.now }
    ensures { result ≡ name_at catalog.now object }
{
    match catalog.at(object) {
        Some((name, _)) => name,
        None => unreachable!(),
    }
}
