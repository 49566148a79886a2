//! Texts, and the words of a command.
ghost use Rattle.std.specs.Prelude.{◌≡◌, [], ◌∷◌, ◌++◌, length, slice_get, option_map, OnOk, OnErr};
ghost use Rattle.std.specs.Option.{option_copied};

use crate::answer::OutOfMemory;
use crate::sequence::Sequence;
use std::alloc::Global;
use std::marker::Model;

/// Bytes.
pub type Text = Sequence<u8>;

/// The words of a command, each a text.
#[derive(Drop)]
pub struct Words {
    words: Sequence<Text>,
    alloc: Global,
}

impl Model for Words {
    ghost use Rattle.std.specs.Prelude.{List, ℕ};

    ghost Value = { List (List ℕ) };

    ghost view = { λ w. w.words };
}

impl Words {
    /// No word.
    pub fn new(alloc: Global) -> Words
        ensures { result ≡ [] }
    {
        Words {
            words: Sequence::new(alloc),
            alloc,
        }
    }

    /// Adds a word of these bytes at the end. The only error is out of memory.
    pub fn push(&mut self, word: &[u8]) -> Result<(), OutOfMemory>
        ensures ok { OnOk result (self.new ≡ self.old ++ word.now ∷ []) }
        ensures err { OnErr result (self.new ≡ self.old) }
    {
        let mut text = Text::new(self.alloc);
        text.append(word)?;
        self.words.push(text)
    }

    /// How many words there are.
    pub fn len(&self) -> usize
        ensures { result ≡ length self.now }
    {
        self.words.len()
    }

    /// The word at a place, from 0, if there is one.
    pub fn get(&self, i: usize) -> Option<&Text>
        ensures { option_copied result ≡ slice_get self.now i }
    {
        self.words.get(i)
    }
}
