//! Words by their addresses.

ghost use Rattle.std.specs.Prelude.{◌≡◌, IfOk, OnOk, OnErr};
ghost use Rattle.std.specs.BTreeMap as tree;
ghost use Rattle.std.specs.FinMap as map;
ghost use Rattle.std.specs.Ordering.{nat_cmp};
ghost use Rattle.c25_meaning_image.specs.WordMap.{AreWords, IsWordMap, put_all};

use c25_meaning_common::no_memory::NoMemory;
use std::alloc::{AllocError, Global};
use std::collections::BTreeMap;
use std::collections::btree_map::Iter;
use std::marker::Model;

/// A finite map from addresses to words, kept in order of the addresses.
#[derive(Drop)]
pub struct WordMap {
    words: BTreeMap<u16, u16>,
}

impl Model for WordMap {
    ghost use Rattle.std.specs.Prelude.{ℕ};
    ghost use Rattle.std.specs.Ordering.{nat_cmp};
    ghost use Rattle.std.specs.FinMap as map;
    ghost use Rattle.std.specs.Coded.{coded_ℕ};
    ghost use Rattle.c25_meaning_image.specs.WordMap.{IsWordMap};

    ghost Value = { map.FinMap nat_cmp ℕ };

    ghost coded = { map.code coded_ℕ coded_ℕ };

    ghost view = { λ m. map.from_entries m.words.entries };

    ghost invariant = { λ m. IsWordMap (map.from_entries m.words.entries) };
}

/// A map of words with their addresses. Of two words at one address the later one stays.
fn collected(alloc: Global, words: Vec<(u16, u16)>) -> Result<BTreeMap<u16, u16>, AllocError>
    ensures { IfOk result (tree.IsFromIterResult nat_cmp words.items) }
{
    words.into_iter().collect(alloc)
}

impl WordMap {
    /// A map without words. It takes no memory.
    pub fn new(alloc: Global) -> Self
        ensures { result ≡ map.empty }
    {
        Self {
            words: BTreeMap::new(alloc),
        }
    }

    /// The map of these words: they are put in order, so of two words at one address the later one stays.
    pub(crate) fn from_words(alloc: Global, words: Vec<(u16, u16)>) -> Result<Self, NoMemory>
        requires { AreWords words.items }
        ensures { IfOk result (λ m. m ≡ put_all words.items) }
    {
        let words = collected(alloc, words)?;
        Ok(Self { words })
    }

    /// Sets the word at an address, whether or not there was one. Out of memory the map stays as it is.
    pub fn insert(&mut self, address: u16, word: u16) -> Result<(), NoMemory>
        ensures ok { OnOk result (self.new ≡ map.insert self.old address word) }
        ensures err { OnErr result (self.new ≡ self.old) }
    {
        self.words.insert(address, word)?;
        Ok(())
    }

    /// The word at an address, if there is one.
    pub fn get(&self, address: u16) -> Option<u16>
        ensures { result ≡ map.get self.now address }
    {
        self.words.get(&address).copied()
    }

    /// The addresses with their words, in ascending order.
    #[tactic(auto, using(crate::proofs::WordMaps::listed_view))]
    pub fn iter(&self) -> Iter<'_, u16, u16>
        ensures entries { result ≡ map.entries self.now }
        ensures in_range { IsWordMap self.now }
    {
        self.words.iter()
    }
}
