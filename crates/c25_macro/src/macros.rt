//! The macros of a module.

ghost use Rattle.std.specs.Prelude.{◌≡◌, [], OnOk};
ghost use Rattle.std.specs.Map.{lookup};
ghost use Rattle.std.specs.Option.{option_map};
ghost use Rattle.std.specs.Str.{bytes_eq};
ghost use Rattle.std.specs.String.{string_bytes};
ghost use Rattle.c25_meaning_language.specs.Texts.{with_name};
ghost use Rattle.c25_macro.specs.Acts.{macro_of};

use c25_files::Rows;
use c25_meaning_common::no_memory::NoMemory;
use indexmap::IndexMap;
use std::alloc::Global;
use std::marker::Model;

/// A macro: the names of its parameters, at most 32, and its body, whose lines stand where they were written.
#[derive(Drop)]
pub(crate) struct Macro<'a> {
    pub(crate) parameters: Vec<String>,
    pub(crate) body: Rows<'a>,
}

/// The macros of a module, in order of definition.
#[derive(Drop)]
pub(crate) struct Macros<'a> {
    entries: IndexMap<String, Macro<'a>>,
}

impl<'a> Model for Macros<'a> {
    ghost use Rattle.c25_meaning_expansion.specs.Acts as acts;
    ghost use Rattle.c25_meaning_language.specs.Texts.{Named};
    ghost use Rattle.c25_macro.specs.Macros.{named_macros};

    ghost Value = { Named acts.Macro };

    ghost view = { λ macros. named_macros macros.entries.entries };
}

impl<'a> Macros<'a> {
    pub(crate) fn new(alloc: Global) -> Macros<'a>
        ensures { result ≡ [] }
    {
        Macros {
            entries: IndexMap::new(alloc),
        }
    }

    /// The macro with this name, if there is one. Where there are no macros, no hash is taken.
    pub(crate) fn get(&self, name: &str) -> Option<&Macro<'a>>
        ensures { option_map (λ m. macro_of m.now) result ≡ lookup (bytes_eq name.now) self.now }
    {
        if self.entries.is_empty() {
            return None;
        }
        self.entries.get(name)
    }

    pub(crate) fn put(&mut self, name: String, definition: Macro<'a>) -> Result<(), NoMemory>
        ensures { OnOk result (self.new ≡ with_name self.old (string_bytes name) (macro_of definition.entry)) }
    {
        self.entries.insert(name, definition)?;
        Ok(())
    }
}
