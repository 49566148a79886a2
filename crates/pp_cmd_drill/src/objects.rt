//! The objects of the run.
ghost use Rattle.std.specs.Prelude.{◌≡◌, ◌<◌, [], ◌∷◌, ◌++◌, length, None, IfOk, OnOk};
ghost use Rattle.pp_core.specs.Catalogs.{place_of};
ghost use Rattle.pp_core.specs.Names.{IsName};
ghost use Rattle.pp_core.specs.declared.limits.TheConstants.{MOST_OBJECTS};
ghost use Rattle.pp_cmd_drill.specs.Drill.{drill_catalog};

use crate::transaction::name_of_text;
use pp_core::{Catalog, Kind, OutOfMemory};
use std::alloc::Global;

/// Adds an object with a name that no other object has.
fn add_object(catalog: &mut Catalog, name: &[u8], kind: Kind) -> Result<(), OutOfMemory>
    requires name { IsName name.now }
    requires few { length catalog.old < MOST_OBJECTS }
    requires other { place_of name.now catalog.old ≡ None }
    ensures { OnOk result (catalog.new ≡ catalog.old ++ (name.now, kind) ∷ []) }
{
    let _added = catalog.add(name_of_text(name), kind)?;
    Ok(())
}

/// A memory `m`, a counter `c` and a set `s`.
#[tactic(auto, using(crate::proofs::Stating::m_is_name, crate::proofs::Stating::c_is_name, crate::proofs::Stating::s_is_name))]
pub(crate) fn drill_catalog(alloc: Global) -> Result<Catalog, OutOfMemory>
    ensures { IfOk result (λ catalog. catalog ≡ drill_catalog) }
{
    let mut catalog = Catalog::new(alloc);
    add_object(&mut catalog, b"m", Kind::Memory)?;
    add_object(&mut catalog, b"c", Kind::Counter)?;
    add_object(&mut catalog, b"s", Kind::KeySet)?;
    Ok(catalog)
}
