//! Lists of names without repetitions.

ghost use Rattle.std.specs.Prelude.{◌≡◌, ◌<◌, ◌^◌, [], true, is_some, length, slice_get, IfOk, OnOk, OnErr};
ghost use Rattle.std.specs.Option.{option_map};
ghost use Rattle.c25_meaning_assembly.specs.Sections.{all_once, are_distinct, is_in, once};
ghost use Rattle.c25_statements.specs.View.{texts_of};
ghost use Rattle.c25_phases.specs.Names.{bytes_of_names};

use c25_meaning_common::no_memory::NoMemory;
use indexmap::IndexSet;
use std::alloc::Global;
use std::marker::Model;

/// Names in the order in which they were added, each once.
#[derive(Drop)]
pub(crate) struct DistinctNames {
    alloc: Global,
    names: IndexSet<String>,
}

/// Owned copies of borrowed names.
pub(crate) fn copied(alloc: Global, names: &[&str]) -> Result<Vec<String>, NoMemory>
    ensures { IfOk result (λ v. bytes_of_names v.items ≡ texts_of names.now) }
{
    let mut copies = Vec::new(alloc);
    for name in names {
        copies.push(String::from_str(alloc, name)?)?;
    }
    Ok(copies)
}

impl Model for DistinctNames {
    ghost use Rattle.std.specs.Prelude.{◌≡◌, true, List, ℕ};
    ghost use Rattle.c25_meaning_assembly.specs.Sections.{are_distinct};
    ghost use Rattle.c25_phases.specs.Names.{bytes_of_names};

    ghost Value = { List (List ℕ) };

    ghost view = { λ n. bytes_of_names n.names.keys };

    ghost invariant = { λ n. are_distinct (bytes_of_names n.names.keys) ≡ true };
}

impl DistinctNames {
    pub(crate) fn new(alloc: Global) -> DistinctNames
        ensures { result ≡ [] }
    {
        DistinctNames {
            alloc,
            names: IndexSet::new(alloc),
        }
    }

    pub(crate) fn has(&self, name: &str) -> bool
        ensures value { result ≡ is_in self.now name.now }
        ensures distinct { are_distinct self.now ≡ true }
    {
        self.names.contains(name)
    }

    /// The name that has a number, counted from 0.
    pub(crate) fn get(&self, number: usize) -> Option<&str>
        ensures value { option_map (λ t. t.now) result ≡ slice_get self.now number }
        ensures distinct { are_distinct self.now ≡ true }
    {
        match self.names.get_index(number) {
            Some(name) => Some(name.as_str()),
            None => None,
        }
    }

    /// Whether the name that has a number is this one.
    pub(crate) fn is_at(&self, number: usize, name: &str) -> bool
        ensures { result ≡ true → is_in self.now name.now ≡ true }
    {
        match self.get(number) {
            Some(other) => name == other,
            None => false,
        }
    }

    /// The number of a name, if it is among the names.
    pub(crate) fn position(&self, name: &str) -> Option<usize>
        ensures { is_some result ≡ is_in self.now name.now }
    {
        self.names.get_index_of(name)
    }

    pub(crate) fn len(&self) -> usize
        ensures value { result ≡ length self.now }
        ensures small { result < 2 ^ 63 }
    {
        self.names.len()
    }

    /// Adds a name at the end, if it is not among the names yet.
    pub(crate) fn add(&mut self, name: &str) -> Result<(), NoMemory>
        ensures ok { OnOk result (self.new ≡ once self.old name.now) }
        ensures err { OnErr result (self.new ≡ self.old) }
    {
        if self.has(name) {
            return Ok(());
        }
        let name = String::from_str(self.alloc, name)?;
        self.names.insert(name)?;
        Ok(())
    }

    /// Adds names at the end, each if it is not among the names yet.
    pub(crate) fn add_all(&mut self, names: &[&str]) -> Result<(), NoMemory>
        ensures { OnOk result (self.new ≡ all_once self.old (texts_of names.now)) }
    {
        for name in names {
            self.add(name)?;
        }
        Ok(())
    }
}
