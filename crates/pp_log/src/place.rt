//! The ids and undo values that a log keeps for one place, and the outcome of a removal.
ghost use Rattle.std.specs.Prelude.{◌≡◌, ◌<◌, List, [], ◌∷◌, ◌++◌, length, remove};
ghost use Rattle.pp_log.specs.Room.{HasRoom};

use pp_core::Answer;

/// The outcome of taking an entry out of a log.
#[derive(Clone, Copy, Debug, PartialEq, Eq)]
pub enum Removed {
    /// The entry is out, and the list without it is allowed.
    Done,
    /// The log is as it was. In the list without the entry, this id is that of the first entry
    /// whose recorded result the object does not return, and this is the result that it returns
    /// there.
    Differs { entry: u32, answer: Answer },
}

/// The ids of the entries of one place, in order, and their undo values. The operations are in the
/// entries.
#[derive(Drop)]
pub struct Place<U: Drop> {
    pub ids: Vec<u32>,
    pub undos: Vec<U>,
}

impl<U: Drop> Place<U> {
    /// Adds the id of an entry whose operation was applied, with what takes it back.
    pub fn keep(&mut self, id: u32, undo: U)
        requires { HasRoom self.old }
        ensures ids { self.new.ids.items ≡ self.old.ids.items ++ id ∷ [] }
        ensures undos { self.new.undos.items ≡ self.old.undos.items ++ undo ∷ [] }
    {
        let Ok(()) = self.ids.push(id) else {
            unreachable!()
        };
        let Ok(()) = self.undos.push(undo) else {
            unreachable!()
        };
    }

    /// Takes out the id at a position, and what is kept with it.
    pub fn forget(&mut self, from: usize)
        requires id { from < length self.old.ids.items }
        requires undo { from < length self.old.undos.items }
        ensures ids { self.new.ids.items ≡ remove self.old.ids.items from }
        ensures undos { self.new.undos.items ≡ remove self.old.undos.items from }
    {
        let _ = self.ids.remove(from);
        let _ = self.undos.remove(from);
    }
}
