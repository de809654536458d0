//! The substitution symbols of `.asg` and `.eval`.

ghost use Rattle.std.specs.Prelude.{◌≡◌, [], IsTrue, OnOk, OnErr};
ghost use Rattle.std.specs.Map.{lookup};
ghost use Rattle.std.specs.Option.{option_map};
ghost use Rattle.std.specs.Str.{bytes_eq};
ghost use Rattle.std.specs.String.{string_bytes};
ghost use Rattle.c25_meaning_language.specs.Texts.{with_name};

use c25_meaning_common::no_memory::NoMemory;
use indexmap::IndexMap;
use std::alloc::Global;
use std::marker::Model;

/// Substitution symbols: names and the texts that they stand for, in the order in which the names were first
/// assigned.
#[derive(Drop)]
pub struct SubstitutionTexts {
    alloc: Global,
    entries: IndexMap<String, String>,
}

impl Model for SubstitutionTexts {
    ghost use Rattle.std.specs.Prelude.{List, ℕ};
    ghost use Rattle.c25_substitution.specs.Pairs.{pairs};

    ghost Value = { List (List ℕ × List ℕ) };

    ghost view = { λ t. pairs t.entries.entries };
}

impl SubstitutionTexts {
    /// No names.
    pub fn new(alloc: Global) -> Self
        ensures { result ≡ [] }
    {
        SubstitutionTexts {
            alloc,
            entries: IndexMap::new(alloc),
        }
    }

    /// Whether there are no names.
    pub(crate) fn is_empty(&self) -> bool
        ensures { IsTrue result → self.now ≡ [] }
    {
        self.entries.is_empty()
    }

    /// The text that a name stands for, if it stands for one. Where there are no names, no hash is taken.
    pub fn get(&self, name: &str) -> Option<&str>
        ensures { option_map (λ s. s.now) result ≡ lookup (bytes_eq name.now) self.now }
    {
        if self.entries.is_empty() {
            return None;
        }
        match self.entries.get(name) {
            Some(text) => Some(text.as_str()),
            None => None,
        }
    }

    /// Sets the text that a name stands for from now on. A new name comes last. `NoMemory` (9) where memory
    /// runs out.
    pub fn put(&mut self, name: &str, text: String) -> Result<(), NoMemory>
        ensures ok { OnOk result (self.new ≡ with_name self.old name.now (string_bytes text)) }
        ensures err { OnErr result (self.new ≡ self.old) }
    {
        let name = String::from_str(self.alloc, name)?;
        self.entries.insert(name, text)?;
        Ok(())
    }
}
