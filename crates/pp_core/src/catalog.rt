//! The objects of a run.
ghost use Rattle.std.specs.Prelude.{◌≡◌, ◌<◌, ◌≤◌, [], ◌∷◌, ◌++◌, length, map, slice_get, is_none};
ghost use Rattle.std.specs.Prelude.{if◌then◌else◌, Some, IfOk, IfSome, OnErr};

use crate::answer::OutOfMemory;
use crate::call::{Kind, Kinds};
use crate::limits::MOST_OBJECTS;
use crate::name::Name;
use indexmap::IndexMap;
use std::alloc::Global;
use std::marker::Model;

/// The objects of a run in their order, at most 256, each with a name of its own.
#[derive(Drop)]
pub struct Catalog {
    objects: IndexMap<Name, Kind>,
}

impl Model for Catalog {
    ghost use Rattle.std.specs.Prelude.{List, ℕ};
    ghost use Rattle.std.specs.Str.{bytes_eq};
    ghost use Rattle.indexmap.specs.IndexMap.{IsUnique};
    ghost use Rattle.pp_core.specs.declared.call.Kind.{Kind};
    ghost use Rattle.pp_core.specs.Catalogs.{AreFew, HasNames};

    ghost Value = { List (List ℕ × Kind) };

    ghost view = { λ c. c.objects.entries };

    ghost invariant = { λ c. IsUnique bytes_eq c.objects × AreFew c.objects.entries
        × HasNames c.objects.entries };
}

impl Catalog {
    ghost use Rattle.pp_core.specs.Catalogs.{place_of, with_one_more, HasDistinctNames};
    ghost use Rattle.pp_core.specs.Catalogs.{HasNames};

    /// No object.
    pub fn new(alloc: Global) -> Catalog
        ensures { result ≡ [] }
    {
        Catalog {
            objects: IndexMap::new(alloc),
        }
    }

    /// How many objects there are. Their names are distinct.
    pub fn len(&self) -> usize
        ensures len { result ≡ length self.now }
        ensures few { result ≤ MOST_OBJECTS }
        ensures distinct { HasDistinctNames self.now }
        ensures names { HasNames self.now }
    {
        self.objects.len()
    }

    /// Adds an object at the end, and returns false if its name is there already.
    pub fn add(&mut self, name: Name, kind: Kind) -> Result<bool, OutOfMemory>
        requires { length self.old < MOST_OBJECTS }
        ensures added { IfOk result (λ added. added ≡ is_none (place_of name self.old)) }
        ensures objects { IfOk result (λ added. self.new ≡ with_one_more added name kind self.old) }
        ensures err { OnErr result (self.new ≡ self.old) }
    {
        if self.objects.get_index_of(&name).is_some() {
            return Ok(false);
        }
        // (its text is that of a name)
        let _ = name.text();
        let _ = self.objects.insert(name, kind)?;
        Ok(true)
    }

    /// The place of the object of this name.
    pub fn place(&self, name: &Name) -> Option<u16>
        ensures { result ≡ place_of name.now self.now }
    {
        match self.objects.get_index_of(name) {
            Some(place) => Some(place as u16),
            None => None,
        }
    }

    /// The name and the kind of an object. Each name is found at its place.
    pub fn at(&self, object: u16) -> Option<(Name, Kind)>
        ensures entry { result ≡ slice_get self.now object }
        ensures found { IfSome result (λ entry. place_of entry.0 self.now ≡ Some object) }
    {
        let (name, kind) = self.objects.get_index(usize::from(object))?;
        Some((*name, *kind))
    }

    /// The kinds of the objects, in their order. The only error is out of memory.
    pub fn kinds(&self, alloc: Global) -> Result<Kinds, OutOfMemory>
        ensures { IfOk result (λ kinds. kinds ≡ map (λ entry. entry.1) self.now) }
    {
        let kinds: Vec<Kind> = self.objects.values().copied().collect(alloc)?;
        Ok(Kinds::from(kinds))
    }
}
