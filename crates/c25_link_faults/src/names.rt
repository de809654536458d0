//! Names, each once, in the order in which they first appear.

ghost use Rattle.std.specs.Prelude.{◌≡◌, ℕ, List, [], ◌∷◌, ◌++◌, not, IfOk, OnOk};
ghost use Rattle.c25_meaning_linking.specs.GoodMap.{is_among};
ghost use Rattle.c25_link_faults.specs.View.{HasFirst, names_view};

use indexmap::IndexSet;
use std::alloc::{AllocError, Global};

/// Names in the order in which they were first added, without those that were passed before. Whether a name
/// was passed or added is found in a time that does not grow with their number.
#[derive(Drop)]
pub(crate) struct FirstNames<'a> {
    seen: IndexSet<&'a str>,
    list: Vec<&'a str>,
}

impl<'a> FirstNames<'a> {
    /// No names.
    pub(crate) fn new(alloc: Global) -> Self
        ensures { HasFirst result [] [] }
    {
        FirstNames {
            seen: IndexSet::new(alloc),
            list: Vec::new(alloc),
        }
    }

    /// Passes a name, so that it is not listed where it is added.
    pub(crate) fn pass(&mut self, name: &'a str) -> Result<(), AllocError>
        ensures { (before : List (List ℕ)) → HasFirst self.old before [] → OnOk result (HasFirst self.new (before ++ name.now ∷ []) []) }
    {
        self.seen.insert(name)?;
        Ok(())
    }

    /// Adds a name, and returns whether it is new.
    #[tactic(auto, using(crate::proofs::First::is_new))]
    pub(crate) fn add(&mut self, name: &'a str) -> Result<bool, AllocError>
        ensures new { (before added : List (List ℕ)) → HasFirst self.old before added → IfOk result (λ r. r ≡ not (is_among name.now (before ++ added))) }
        ensures names { (before added : List (List ℕ)) → HasFirst self.old before added → OnOk result (HasFirst self.new before (added ++ name.now ∷ [])) }
    {
        if self.seen.insert(name)? {
            self.list.push(name)?;
            Ok(true)
        } else {
            Ok(false)
        }
    }

    /// Whether a name was passed or added.
    #[tactic(auto, using(crate::proofs::First::has_name))]
    pub(crate) fn has(&self, name: &str) -> bool
        ensures { (before added : List (List ℕ)) → HasFirst self.now before added → result ≡ is_among name.now (before ++ added) }
    {
        self.seen.contains(name)
    }

    /// The names that were added and not passed.
    pub(crate) fn list(&self) -> &[&'a str]
        ensures { names_view result.now ≡ names_view self.now.list.items }
    {
        &self.list
    }
}
