//! The expansions of macros that are open.

ghost use Rattle.std.specs.Prelude.{◌≡◌, ◌∷◌, ◌++◌, [], true, false, OnOk, OnErr, IfErr, is_some, option_to_list, IfNone};
ghost use Rattle.std.specs.Map.{lookup};
ghost use Rattle.std.specs.Option.{option_map};
ghost use Rattle.std.specs.Str.{bytes_eq};
ghost use Rattle.std.specs.String.{string_bytes};
ghost use Rattle.c25_meaning_language.specs.Texts.{with_name};
ghost use Rattle.c25_macro.specs.Macros.{innermost};

use c25_meaning_common::no_memory::NoMemory;
use c25_substitution::parameters::Arguments;
use std::alloc::Global;
use std::marker::Model;

/// An open expansion: its number, counted from 1, and the texts that its parameters stand for.
#[derive(Drop)]
pub(crate) struct Expansion {
    number: u32,
    arguments: Arguments,
}

impl Model for Expansion {
    ghost use Rattle.c25_meaning_expansion.specs.Expansion as exp;

    ghost Value = { exp.Expansion };

    ghost view = { λ e. record { number = e.number; arguments = e.arguments } };
}

impl Expansion {
    pub(crate) fn new(number: u32, arguments: Arguments) -> Expansion
        ensures { result ≡ record { number = number; arguments = arguments } }
    {
        Expansion { number, arguments }
    }

    pub(crate) fn number(&self) -> u32
        ensures { result ≡ self.now.number }
    {
        self.number
    }

    pub(crate) fn arguments(&self) -> &Arguments
        ensures { result.now ≡ self.now.arguments }
    {
        &self.arguments
    }

    /// Sets the text that a parameter stands for from now on. Where no parameter has this name, the text is
    /// given back.
    pub(crate) fn set(&mut self, name: &str, text: String) -> Result<(), String>
        ensures ok { OnOk result (self.new ≡ record self.old { arguments = with_name self.old.arguments name.now (string_bytes text) }) }
        ensures known { OnOk result (is_some (lookup (bytes_eq name.now) self.old.arguments) ≡ true) }
        ensures back { IfErr result (λ t. t ≡ text) }
        ensures unknown { OnErr result (is_some (lookup (bytes_eq name.now) self.old.arguments) ≡ false) }
        ensures err { OnErr result (self.new ≡ self.old) }
    {
        self.arguments.set(name, text)
    }
}

/// The open expansions, the innermost first.
#[derive(Drop)]
pub(crate) struct Expansions {
    open: Vec<Expansion>,
}

impl Model for Expansions {
    ghost use Rattle.std.specs.Prelude.{List, reverse};
    ghost use Rattle.c25_meaning_expansion.specs.Expansion as exp;

    ghost Value = { List exp.Expansion };

    ghost view = { λ e. reverse e.open.items };
}

impl Expansions {
    pub(crate) fn new(alloc: Global) -> Expansions
        ensures { result ≡ [] }
    {
        Expansions {
            open: Vec::new(alloc),
        }
    }

    /// Opens an expansion inside the others.
    pub(crate) fn push(&mut self, expansion: Expansion) -> Result<(), NoMemory>
        ensures { OnOk result (self.new ≡ expansion ∷ self.old) }
    {
        self.open.push(expansion).map_err(NoMemory::from)
    }

    /// Takes the innermost expansion off, if one is open.
    pub(crate) fn pop(&mut self) -> Option<Expansion>
        ensures taken { self.old ≡ option_to_list result ++ self.new }
        ensures none { IfNone result (self.old ≡ []) }
    {
        self.open.pop()
    }

    pub(crate) fn innermost(&self) -> Option<&Expansion>
        ensures { option_map (λ e. e.now) result ≡ innermost self.now }
    {
        self.open.last()
    }
}
