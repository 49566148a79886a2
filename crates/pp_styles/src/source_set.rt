//! The sources of a transaction, each of them once.
ghost use Rattle.std.specs.Prelude.{◌≡◌, OnOk};
ghost use Rattle.std.specs.Option.{option_copied};
ghost use Rattle.pp_model.specs.Names.{Name as NameOf};
ghost use Rattle.pp_records.specs.Fronts.{has_name, with_source, without_source};
ghost use Rattle.pp_styles.specs.Sources.{kept_sources};

use indexmap::IndexSet;
use pp_core::{Name, OutOfMemory};

/// The transactions whose published entries a transaction reads, in any order. A name is found among
/// them without a walk.
pub type SourceSet = IndexSet<Name>;

/// Whether a name is one of the sources, where any are kept.
#[tactic(auto, using(crate::proofs::Named::looked_up))]
pub fn is_among(sources: Option<&SourceSet>, name: &Name) -> bool
    ensures { result ≡ has_name name.now (kept_sources (option_copied sources.entry)) }
{
    match sources {
        Some(sources) => sources.contains(name),
        None => false,
    }
}

/// Adds a source, unless it is there.
#[tactic(auto, using(crate::proofs::Named::with_inserted))]
pub fn add_source(sources: &mut SourceSet, source: &Name) -> Result<(), OutOfMemory>
    ensures { OnOk result (sources.new.keys ≡ with_source source.now sources.old.keys) }
{
    sources.insert(*source)?;
    Ok(())
}

/// Removes a source, if it is there. The last one takes its place in the order.
#[tactic(auto, using(crate::proofs::Named::without_removed))]
pub fn remove_source(sources: &mut SourceSet, source: &Name)
    ensures { (v : NameOf) → has_name v sources.new.keys
        ≡ has_name v (without_source source.now sources.old.keys) }
{
    sources.swap_remove(source);
}
