//! Words with their addresses, one after another.

ghost use Rattle.std.specs.Prelude.{◌≡◌, ◌++◌, ◌∷◌, [], IfOk, OnErr, OnOk};
ghost use Rattle.c25_meaning_image.specs.WordMap.{put_all};

use crate::word_map::WordMap;
use c25_meaning_common::no_memory::NoMemory;
use std::alloc::Global;
use std::marker::Model;

/// Words with their addresses, in the order in which they were put. One map of them all is made at the end,
/// which takes less time than to put them into a map one by one.
#[derive(Drop)]
pub struct WordList {
    words: Vec<(u16, u16)>,
}

/// A `WordList` stands for the list of its addresses and words.
impl Model for WordList {
    ghost use Rattle.std.specs.Prelude.{ℕ, List};
    ghost use Rattle.c25_meaning_image.specs.WordMap.{AreWords};

    ghost Value = { List (ℕ × ℕ) };

    ghost view = { λ l. l.words.items };

    ghost invariant = { λ l. AreWords l.words.items };
}

impl WordList {
    /// An empty list. It takes no memory.
    pub fn new(alloc: Global) -> Self
        ensures { result ≡ [] }
    {
        WordList {
            words: Vec::new(alloc),
        }
    }

    /// Puts a word after the others. Out of memory the list stays as it is.
    pub fn push(&mut self, address: u16, word: u16) -> Result<(), NoMemory>
        ensures ok { OnOk result (self.new ≡ self.old ++ (address, word) ∷ []) }
        ensures err { OnErr result (self.new ≡ self.old) }
    {
        self.words.push((address, word))?;
        Ok(())
    }

    /// The map of the words. Of two words at one address the later one stays.
    pub fn into_map(self, alloc: Global) -> Result<WordMap, NoMemory>
        ensures { IfOk result (λ m. m ≡ put_all self) }
    {
        WordMap::from_words(alloc, self.words)
    }
}
