//! The parameters of a macro with their arguments in an expansion.

ghost use Rattle.std.specs.Prelude.{◌≡◌, ◌∷◌, ◌++◌, [], IfErr, IsSome, IsTrue, None, OnOk, OnErr};
ghost use Rattle.std.specs.Map.{lookup};
ghost use Rattle.std.specs.Option.{option_map};
ghost use Rattle.std.specs.Str.{bytes_eq};
ghost use Rattle.std.specs.String.{string_bytes};
ghost use Rattle.c25_meaning_language.specs.Texts.{with_name};
ghost use Rattle.c25_substitution.specs.Pairs.{IsPlaceOf, pairs};

use c25_meaning_common::no_memory::NoMemory;
use std::alloc::Global;
use std::marker::Model;

/// The parameters of a macro with the texts that they stand for in an expansion, in the order of the `.macro`
/// line. Of two parameters with one name the first is found.
#[derive(Drop)]
pub struct Arguments {
    entries: Vec<(String, String)>,
}

impl Model for Arguments {
    ghost use Rattle.std.specs.Prelude.{List, ℕ};
    ghost use Rattle.c25_substitution.specs.Pairs.{pairs};

    ghost Value = { List (List ℕ × List ℕ) };

    ghost view = { λ a. pairs a.entries.items };
}

impl Arguments {
    /// No parameters.
    pub fn new(alloc: Global) -> Self
        ensures { result ≡ [] }
    {
        Arguments {
            entries: Vec::new(alloc),
        }
    }

    /// Whether there are no parameters.
    pub(crate) fn is_empty(&self) -> bool
        ensures { IsTrue result → self.now ≡ [] }
    {
        self.entries.is_empty()
    }

    /// Adds a parameter with its text.
    pub(crate) fn push(&mut self, name: String, text: String) -> Result<(), NoMemory>
        ensures ok { OnOk result (self.new ≡ self.old ++ (string_bytes name, string_bytes text) ∷ []) }
        ensures err { OnErr result (self.new ≡ self.old) }
    {
        self.entries.push((name, text)).map_err(NoMemory::from)
    }

    /// The text that a parameter stands for, if there is one of this name.
    pub fn get(&self, name: &str) -> Option<&str>
        ensures { option_map (λ s. s.now) result ≡ lookup (bytes_eq name.now) self.now }
    {
        find(self.entries.as_slice(), name)
    }

    /// Sets the text that a parameter stands for from now on. Where no parameter has this name, the text is
    /// given back.
    pub fn set(&mut self, name: &str, text: String) -> Result<(), String>
        ensures ok { OnOk result (self.new ≡ with_name self.old name.now (string_bytes text)) }
        ensures known { OnOk result (IsSome (lookup (bytes_eq name.now) self.old)) }
        ensures back { IfErr result (λ t. t ≡ text) }
        ensures unknown { OnErr result (lookup (bytes_eq name.now) self.old ≡ None) }
        ensures err { OnErr result (self.new ≡ self.old) }
    {
        match position(self.entries.as_slice(), name) {
            Some(place) => {
                self.entries[place].1 = text;
                Ok(())
            }
            None => Err(text),
        }
    }
}

/// The place of the first entry of a name.
fn position(entries: &[(String, String)], name: &str) -> Option<usize>
    ensures { IsPlaceOf name.now entries.now result }
{
    for (i, entry) in entries.iter().enumerate() {
        if name == entry.0.as_str() {
            return Some(i);
        }
    }
    None
}

/// The text of the first entry of a name.
fn find<'a>(entries: &'a [(String, String)], name: &str) -> Option<&'a str>
    ensures { option_map (λ s. s.now) result ≡ lookup (bytes_eq name.now) (pairs entries.now) }
{
    for (parameter, text) in entries {
        if name == parameter.as_str() {
            return Some(text.as_str());
        }
    }
    None
}
