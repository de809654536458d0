//! Names that are set aside: those whose texts are being replaced, so that they are not replaced in these
//! again.

ghost use Rattle.std.specs.Prelude.{◌≡◌, ◌∷◌, ◌++◌, [], false, List, ℕ, OnOk, map};
ghost use Rattle.std.specs.List.{list_any};
ghost use Rattle.std.specs.Str.{bytes_eq};

use c25_meaning_common::no_memory::NoMemory;
use indexmap::IndexSet;
use std::alloc::Global;
use std::marker::Model;

/// How many names are compared one by one.
const FEW: usize = 8;

/// The names that are set aside, the innermost last. A few are compared one by one, those after them are
/// found by their hash, so that a long chain of names costs no more for each name than a short one.
#[derive(Drop)]
pub(crate) struct Aside<'a> {
    few: Vec<&'a str>,
    others: IndexSet<&'a str>,
}

impl<'a> Model for Aside<'a> {
    ghost use Rattle.std.specs.Prelude.{List, ℕ, ◌++◌, map};

    ghost Value = { List (List ℕ) };

    ghost view = { λ a. map (λ s. s.now) (a.few.items ++ a.others.keys) };
}

impl<'a> Aside<'a> {
    /// No names, with no memory taken.
    pub(crate) fn new(alloc: Global) -> Aside<'a>
        ensures { result ≡ [] }
    {
        Aside {
            few: Vec::new(alloc),
            others: IndexSet::new(alloc),
        }
    }

    /// Whether a name is set aside.
    pub(crate) fn has(&self, name: &str) -> bool
        ensures { result ≡ list_any (bytes_eq name.now) self.now }
    {
        is_among(self.few.as_slice(), name) || is_hashed(&self.others, name)
    }

    /// Sets one more name aside, which is not set aside yet.
    pub(crate) fn push(&mut self, name: &'a str) -> Result<(), NoMemory>
        requires { list_any (bytes_eq name.now) self.old ≡ false }
        ensures { OnOk result (self.new ≡ self.old ++ name.entry.now ∷ []) }
    {
        if self.few.len() < FEW && self.others.is_empty() {
            self.few.push(name).map_err(NoMemory::from)
        } else {
            self.others.insert(name)?;
            Ok(())
        }
    }

    /// Removes the innermost name, if there is one.
    pub(crate) fn pop(&mut self)
        ensures { (names : List (List ℕ)) → (last : List ℕ) → self.old ≡ names ++ last ∷ [] → self.new ≡ names }
    {
        if self.others.pop().is_none() {
            let _last = self.few.pop();
        }
    }
}

/// Whether a set of names has a name. Where the set is empty, no hash is taken.
fn is_hashed(names: &IndexSet<&str>, name: &str) -> bool
    ensures { result ≡ list_any (λ other. bytes_eq name.now other.now) names.now.keys }
{
    if names.is_empty() {
        return false;
    }
    names.contains(name)
}

/// Whether a list of names has a name.
fn is_among(names: &[&str], name: &str) -> bool
    ensures { result ≡ list_any (bytes_eq name.now) (map (λ s. s.now) names.now) }
{
    for other in names {
        if name == *other {
            return true;
        }
    }
    false
}
