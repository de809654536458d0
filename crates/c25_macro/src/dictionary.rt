//! The names that expansion knows.

ghost use Rattle.std.specs.Prelude.{◌≡◌, ◌<◌, ◌^◌, ◌∷◌, [], is_some, OnOk};
ghost use Rattle.std.specs.Option.{option_map};
ghost use Rattle.std.specs.String.{string_bytes};
ghost use Rattle.c25_meaning_language.specs.Line.{first_word};
ghost use Rattle.c25_meaning_expansion.specs.Expansion as exp;
ghost use Rattle.c25_meaning_expansion.specs.ExpansionRules as rule;
ghost use Rattle.c25_meaning_language.specs.Texts.{with_name};
ghost use Rattle.c25_macro.specs.Acts.{macro_of};
ghost use Rattle.c25_macro.specs.Dictionary.{dictionary_of};
ghost use Rattle.c25_macro.specs.SourceFrames.{kind_of};
ghost use Rattle.c25_substitution.specs.View.{names_of};

use crate::expansions::{Expansion, Expansions};
use crate::frames::Kind;
use crate::macros::{Macro, Macros};
use c25_meaning_common::no_memory::NoMemory;
use c25_substitution::parameters::Arguments;
use c25_substitution::texts::SubstitutionTexts;
use c25_substitution::visible::Visible;
use c25_text::line::first_word;
use std::alloc::Global;
use std::mem;

/// The names that expansion knows: macros, the symbols of `.asg` and `.eval`, and the parameters of the
/// expansions that are open.
#[derive(Drop)]
pub(crate) struct Dictionary<'a> {
    alloc: Global,
    macros: Macros<'a>,
    texts: SubstitutionTexts,
    expansions: Expansions,
    /// How many expansions there have been so far.
    count: u32,
}

impl<'a> Dictionary<'a> {
    /// No names.
    pub(crate) fn new(alloc: Global) -> Dictionary<'a>
        ensures { dictionary_of result ≡ record { macros = []; texts = []; expansions = []; count = 0 } }
    {
        Dictionary {
            alloc,
            macros: Macros::new(alloc),
            texts: SubstitutionTexts::new(alloc),
            expansions: Expansions::new(alloc),
            count: 0,
        }
    }

    /// The macro that a line calls: its mnemonic field is the macro's name.
    pub(crate) fn macro_called(&self, text: &str) -> Option<&Macro<'a>>
        ensures { option_map (λ m. macro_of m.now) result ≡ rule.macro_of (first_word text.now) (dictionary_of self.now) }
    {
        match first_word(text) {
            Some(name) => self.macros.get(name),
            None => None,
        }
    }

    /// Whether a macro has this name.
    pub(crate) fn has_macro(&self, name: &str) -> bool
        ensures { result ≡ is_some (exp.macro_named (dictionary_of self.now) name.now) }
    {
        self.macros.get(name).is_some()
    }

    /// Defines a macro under a new name.
    pub(crate) fn define(&mut self, name: String, definition: Macro<'a>) -> Result<(), NoMemory>
        ensures { OnOk result (dictionary_of self.new ≡ record (dictionary_of self.old) { macros = with_name (dictionary_of self.old).macros (string_bytes name) (macro_of definition.entry) }) }
    {
        self.macros.put(name, definition)
    }

    /// The names that can be replaced at a line.
    pub(crate) fn visible(&self) -> Visible<'_>
        ensures { names_of result ≡ exp.seen (dictionary_of self.now) }
    {
        match self.expansions.innermost() {
            Some(expansion) => Visible {
                arguments: Some(expansion.arguments()),
                texts: &self.texts,
            },
            None => Visible {
                arguments: None,
                texts: &self.texts,
            },
        }
    }

    /// The number of the innermost expansion, 0 outside expansions.
    pub(crate) fn number(&self) -> u32
        ensures { result ≡ exp.number_of (dictionary_of self.now).expansions }
    {
        match self.expansions.innermost() {
            Some(expansion) => expansion.number(),
            None => 0,
        }
    }

    /// Sets the text that a name stands for from now on: that of a parameter of the innermost expansion,
    /// where it is one, else that of a substitution symbol.
    pub(crate) fn assign(&mut self, name: &str, text: String) -> Result<(), NoMemory>
        ensures { OnOk result (dictionary_of self.new ≡ exp.assigned name.now (string_bytes text) (dictionary_of self.old)) }
    {
        match self.expansions.pop() {
            Some(expansion) => self.assign_in(expansion, name, text),
            None => self.texts.put(name, text),
        }
    }

    /// Sets the text that a name stands for, where this expansion, which was taken off, is the innermost; it
    /// is put back.
    fn assign_in(&mut self, expansion: Expansion, name: &str, text: String) -> Result<(), NoMemory>
        ensures { OnOk result (dictionary_of self.new ≡ exp.assigned name.now (string_bytes text) (record (dictionary_of self.old) { expansions = expansion ∷ (dictionary_of self.old).expansions })) }
    {
        let mut expansion = expansion;
        match expansion.set(name, text) {
            Ok(()) => self.expansions.push(expansion),
            Err(text) => {
                self.texts.put(name, text)?;
                self.expansions.push(expansion)
            }
        }
    }

    /// Begins an expansion with these arguments.
    pub(crate) fn begin(&mut self, arguments: Arguments) -> Result<(), NoMemory>
        requires { self.old.count < 2 ^ 31 }
        ensures { OnOk result (dictionary_of self.new ≡ exp.called arguments (dictionary_of self.old)) }
    {
        self.count += 1;
        self.expansions.push(Expansion::new(self.count, arguments))
    }

    /// Forgets the innermost expansion, if what has ended is one.
    pub(crate) fn end(&mut self, kind: &Kind<'_>)
        ensures { dictionary_of self.new ≡ exp.without_ended (kind_of kind.now) (dictionary_of self.old) }
    {
        if let Kind::Expanded = kind {
            mem::drop(self.expansions.pop());
        }
    }

    /// Forgets all expansions.
    pub(crate) fn end_all(&mut self)
        ensures { dictionary_of self.new ≡ record (dictionary_of self.old) { expansions = [] } }
    {
        self.expansions = Expansions::new(self.alloc);
    }
}
