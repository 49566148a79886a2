//! Room for one more entry, so that nothing is refused once its operation was applied.
ghost use Rattle.std.specs.Prelude.{◌≡◌, ◌<◌, ◌≤◌, OnOk, length};
ghost use Rattle.pp_log.specs.Index.{HasIndexRoom, IsSameIndex};
ghost use Rattle.pp_log.specs.Room.{ArePlacesSame, HasRoom, HasRoomAt};

use crate::entries::Entries;
use crate::index::Index;
use crate::place::Place;
use pp_core::OutOfMemory;
use std::alloc::Global;

/// Makes the places up to the p-th.
fn make_places<U: Drop>(
    places: &mut Vec<Place<U>>,
    p: usize,
    alloc: Global,
) -> Result<(), OutOfMemory>
    requires { p < 65536 }
    ensures same { ArePlacesSame places.old.items places.new.items }
    ensures there { OnOk result (p < length places.new.items) }
{
    if places.len() <= p {
        places.reserve(p + 1 - places.len())?;
    }
    'grow: while places.len() <= p {
        let place = Place {
            ids: Vec::new(alloc),
            undos: Vec::new(alloc),
        };
        let Ok(()) = places.push(place) else {
            return Err(OutOfMemory);
        };
    }
    Ok(())
}

/// Makes room for one more entry in a place.
fn make_room_there<U: Drop>(place: &mut Place<U>) -> Result<(), OutOfMemory>
    ensures ids { place.new.ids.items ≡ place.old.ids.items }
    ensures undos { place.new.undos.items ≡ place.old.undos.items }
    ensures room { OnOk result (HasRoom place.new) }
{
    place.ids.reserve(1)?;
    place.undos.reserve(1)?;
    Ok(())
}

/// Makes room for one more entry with this id, which is of the p-th place.
pub fn make_room<E: Copy, U: Drop>(
    entries: &mut Entries<E>,
    ids: &mut Index,
    id: u32,
    places: &mut Vec<Place<U>>,
    p: usize,
    alloc: Global,
) -> Result<(), OutOfMemory>
    requires { p < 65536 }
    ensures entries { entries.new.items ≡ entries.old.items }
    ensures ids { IsSameIndex ids.old ids.new }
    ensures same { ArePlacesSame places.old.items places.new.items }
    ensures there { OnOk result (p < length places.new.items) }
    ensures room { OnOk result (0 < entries.new.room) }
    ensures id_room { OnOk result (HasIndexRoom id ids.new) }
    ensures place_room { OnOk result (HasRoomAt places.new.items p) }
{
    entries.reserve()?;
    ids.reserve(id, alloc)?;
    make_places(places, p, alloc)?;
    make_room_there(&mut places[p])?;
    Ok(())
}
