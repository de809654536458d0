//! The symbols of a module, in order of definition.

ghost use Rattle.std.specs.Prelude.{◌≡◌, ◌↔◌, [], ◌∷◌, ◌++◌, length, slice_get, is_some, IsSome, IsErrOf, OnOk, OnErr};
ghost use Rattle.std.specs.Option.{option_map};
ghost use Rattle.c25_meaning_language.specs.Value.{predefined};

use c25_meaning_common::failure::Failure;
use c25_meaning_language::value::{Base, Value};
use indexmap::IndexMap;
use std::alloc::Global;
use std::marker::Model;
use thiserror::Error;

/// The fault of a name that stands for something already (26).
#[derive(Clone, Copy, PartialEq, Debug, Error)]
#[error("{}", self.name())]
pub struct Defined;

impl Defined {
    ghost use Rattle.std.specs.Prelude.{◌≡◌, codes};

    /// The name of the fault shown to the user.
    pub fn name(&self) -> &'static str
        ensures { result.now ≡ codes "Defined" }
    {
        "Defined"
    }
}

/// What names stand for, in order of definition, and the current place. The names `AR0` to `AR7` and
/// `PA0` to `PA15` stand for their numbers and are not among those that were defined.
#[derive(Drop)]
pub struct Symbols {
    alloc: Global,
    entries: IndexMap<String, Value>,
    here: Value,
}

impl Model for Symbols {
    ghost use Rattle.c25_meaning_language.specs.Value.{Table};
    ghost use Rattle.c25_expr.specs.Symbols.{texts};

    ghost Value = { Table };

    ghost view = { λ s. record { entries = texts s.entries.entries; here = s.here } };
}

impl Symbols {
    ghost use Rattle.c25_meaning_language.specs.Value.{value_named, start_of_text};

    /// No names but the predefined ones, at the start of `.text`.
    pub fn new(alloc: Global) -> Self
        ensures { result ≡ record { entries = []; here = start_of_text } }
    {
        Symbols {
            alloc,
            entries: IndexMap::new(alloc),
            here: Value {
                base: Base::Section(0),
                offset: 0,
            },
        }
    }

    /// What a name stands for: an AR or PA name, in upper or lower case, for its number, another name for the
    /// value that it was defined as. None where the name was not defined.
    pub fn get(&self, name: &str) -> Option<Value>
        ensures { result ≡ value_named self.now name.now }
    {
        match predefined(name.as_bytes()) {
            Some(number) => Some(Value {
                base: Base::Absolute,
                offset: i32::from(number),
            }),
            None => self.entries.get(name).copied(),
        }
    }

    /// How many names were defined.
    pub fn len(&self) -> usize
        ensures { result ≡ length self.now.entries }
    {
        self.entries.len()
    }

    /// The name and the value of the symbol with this number, from 0 in order of definition; None where there
    /// is no such symbol.
    pub fn entry(&self, number: usize) -> Option<(&str, Value)>
        ensures { option_map (λ e. (e.0.now, e.1)) result ≡ slice_get self.now.entries number }
    {
        match self.entries.get_index(number) {
            Some((name, value)) => Some((name.as_str(), *value)),
            None => None,
        }
    }

    /// The current place, which `$` stands for.
    pub(crate) fn here(&self) -> Value
        ensures { result ≡ self.now.here }
    {
        self.here
    }

    /// Moves the current place, which `$` stands for.
    pub fn set_here(&mut self, here: Value)
        ensures { self.new ≡ record self.old { here = here } }
    {
        self.here = here;
    }

    /// Defines a name that stands for nothing yet; it comes last in the order of definition. `Defined` (26)
    /// where the name stands for something, AR and PA names among them. Out of memory nothing is defined.
    pub fn define(&mut self, name: &str, value: Value) -> Result<(), Failure<Defined>>
        ensures defined { IsErrOf result (Failure.Fault (record {}))
            ↔ IsSome (value_named self.old name.now) }
        ensures ok { OnOk result (self.new
            ≡ record self.old { entries = self.old.entries ++ (name.now, value) ∷ [] }) }
        ensures err { OnErr result (self.new ≡ self.old) }
    {
        if self.get(name).is_some() {
            return Err(Failure::Fault(Defined));
        }
        let name = String::from_str(self.alloc, name)?;
        self.entries.insert(name, value)?;
        Ok(())
    }
}

/// Whether a name is one of the AR and PA names, in upper or lower case.
pub fn is_predefined(name: &str) -> bool
    ensures { result ≡ is_some (predefined name.now) }
{
    predefined(name.as_bytes()).is_some()
}

/// The number of an AR or PA name, in upper or lower case.
fn predefined(name: &[u8]) -> Option<u8>
    ensures { result ≡ predefined name.now }
{
    match name {
        [a, b, d] => predefined_three(*a, *b, *d),
        [a, b, c, d] => predefined_four(*a, *b, *c, *d),
        _ => None,
    }
}

fn predefined_three(a: u8, b: u8, d: u8) -> Option<u8>
    ensures { result ≡ predefined (a ∷ b ∷ d ∷ []) }
{
    let a = a.to_ascii_uppercase();
    let b = b.to_ascii_uppercase();
    if a == b'A' && b == b'R' && d >= b'0' && d <= b'7' {
        Some(d - b'0')
    } else if a == b'P' && b == b'A' && d >= b'0' && d <= b'9' {
        Some(d - b'0')
    } else {
        None
    }
}

fn predefined_four(a: u8, b: u8, c: u8, d: u8) -> Option<u8>
    ensures { result ≡ predefined (a ∷ b ∷ c ∷ d ∷ []) }
{
    let a = a.to_ascii_uppercase();
    let b = b.to_ascii_uppercase();
    if a == b'P' && b == b'A' && c == b'1' && d >= b'0' && d <= b'5' {
        Some(d - 38)
    } else {
        None
    }
}
