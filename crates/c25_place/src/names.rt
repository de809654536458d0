//! Sets of names in the order in which they first appear.

ghost use Rattle.std.specs.Prelude.{◌≡◌, ◌∷◌, ◌++◌, [], not, if◌then◌else◌, IfOk, OnOk};
ghost use Rattle.c25_meaning_linking.specs.GoodMap.{is_among};

use indexmap::IndexSet;
use std::alloc::{AllocError, Global};
use std::marker::Model;

/// Different names, in the order of their first appearance. Whether a name is among them is found in a time
/// that does not grow with their number.
#[derive(Drop)]
pub(crate) struct SeenNames<'a> {
    seen: IndexSet<&'a str>,
}

impl<'a> Model for SeenNames<'a> {
    ghost use Rattle.std.specs.Prelude.{List, ℕ, map};

    ghost Value = { List (List ℕ) };

    ghost view = { λ n. map (λ k. k.now) n.seen.keys };
}

impl<'a> SeenNames<'a> {
    /// A set without names.
    pub(crate) fn new(alloc: Global) -> Self
        ensures { result ≡ [] }
    {
        SeenNames {
            seen: IndexSet::new(alloc),
        }
    }

    /// Adds a name, and returns whether it is new.
    pub(crate) fn insert(&mut self, name: &'a str) -> Result<bool, AllocError>
        ensures new { IfOk result (λ r. r ≡ not (is_among name.now self.old)) }
        ensures names { OnOk result (self.new ≡ (if is_among name.now self.old then self.old else self.old ++ name.now ∷ [])) }
    {
        Ok(self.seen.insert(name)?)
    }
}
