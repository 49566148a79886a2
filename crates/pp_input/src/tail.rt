//! The bytes after the last line end.
ghost use Rattle.std.specs.Prelude.{◌≡◌, ◌++◌, ◌↔◌, [], IfOk, OnOk, IsTrue};
ghost use Rattle.pp_input.specs.Lines.{without_return};

use pp_core::{OutOfMemory, Text};
use std::alloc::Global;
use std::marker::Model;
use std::mem;

/// The bytes after the last line end. One byte 13 at their end is held back, so that the line can
/// be handed out without it and without memory.
#[derive(Drop)]
pub(crate) struct Tail {
    text: Text,
    returned: bool,
    alloc: Global,
}

impl Model for Tail {
    ghost use Rattle.std.specs.Prelude.{◌≡◌, List, ℕ, [], ◌∷◌, ◌++◌, false, if◌then◌else◌};
    ghost use Rattle.pp_input.specs.Lines.{without_return};

    ghost Value = { List ℕ };

    ghost view = { λ t. if t.returned then t.text ++ 13 ∷ [] else t.text };

    ghost invariant = { λ t. t.returned ≡ false → without_return t.text ≡ t.text };
}

impl Tail {
    pub(crate) fn new(alloc: Global) -> Tail
        ensures { result ≡ [] }
    {
        Tail {
            text: Text::new(alloc),
            returned: false,
            alloc,
        }
    }

    /// Adds bytes at the end.
    pub(crate) fn extended(self, bytes: &[u8]) -> Result<Tail, OutOfMemory>
        ensures { IfOk result (λ tail. tail ≡ self ++ bytes.now) }
    {
        if bytes.is_empty() {
            return Ok(self);
        }
        let Tail {
            mut text,
            returned,
            alloc,
        } = self;
        if returned {
            text.append(b"\r")?;
        }
        let ends = bytes[bytes.len() - 1] == b'\r';
        let kept = if ends { bytes.len() - 1 } else { bytes.len() };
        text.append(&bytes[..kept])?;
        Ok(Tail {
            text,
            returned: ends,
            alloc,
        })
    }

    /// Adds bytes at the end. After a refusal nothing is held.
    pub(crate) fn extend(&mut self, bytes: &[u8]) -> Result<(), OutOfMemory>
        ensures ok { OnOk result (self.new ≡ self.old ++ bytes.now) }
    {
        let alloc = self.alloc;
        let before = mem::replace(self, Tail::new(alloc));
        *self = before.extended(bytes)?;
        Ok(())
    }

    /// Hands out the bytes without one byte 13 at their end. It takes no memory.
    pub(crate) fn take(&mut self) -> Text
        ensures line { result ≡ without_return self.old }
        ensures left { self.new ≡ [] }
    {
        self.returned = false;
        mem::replace(&mut self.text, Text::new(self.alloc))
    }

    pub(crate) fn is_empty(&self) -> bool
        ensures { IsTrue result ↔ (self.now ≡ []) }
    {
        !self.returned && self.text.len() == 0
    }
}
