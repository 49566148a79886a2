//! Where ids are in the lists that they were added to.
ghost use Rattle.std.specs.Prelude.{◌≡◌, ◌⊎◌, Some, slice_get};

use indexmap::IndexMap;
use pp_core::OutOfMemory;

/// For an id its position in the list that it was added to last.
pub type Places = IndexMap<u32, usize>;

/// Keeps the positions of the ids of a list from a position on.
pub fn add_places(places: &mut Places, ids: &[u32], from: usize) -> Result<(), OutOfMemory> {
    for at in from..ids.len() {
        places.insert(ids[at], at)?;
    }
    Ok(())
}

/// The kept position of an id, if it is there in this list, and else 0.
pub fn place_in(places: &Places, ids: &[u32], id: u32) -> usize
    ensures { (result ≡ 0) ⊎ (slice_get ids.now result ≡ Some id) }
{
    let at = places.get(&id).copied().unwrap_or(0);
    if at < ids.len() && ids[at] == id {
        return at;
    }
    0
}
