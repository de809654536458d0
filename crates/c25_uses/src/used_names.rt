//! The names that lines use.

ghost use Rattle.std.specs.Prelude.{◌≡◌, IfOk};
ghost use Rattle.c25_meaning_assembly.specs.Sections.{is_in};
ghost use Rattle.c25_uses.specs.UsedNames.{HasSame, bytes_of};

use c25_meaning_common::no_memory::NoMemory;
use indexmap::IndexSet;
use std::alloc::Global;
use std::marker::Model;

/// The names that lines use, and other runs of characters that are no names.
#[derive(Drop)]
pub struct UsedNames<'a> {
    /// Each name as often as it is used.
    all: Vec<&'a [u8]>,
    /// The same names, each once.
    once: IndexSet<&'a [u8]>,
}

impl<'a> Model for UsedNames<'a> {
    ghost use Rattle.std.specs.Prelude.{List, ℕ};
    ghost use Rattle.c25_uses.specs.UsedNames.{HasSame, bytes_of};

    ghost Value = { List (List ℕ) };

    ghost view = { λ n. bytes_of n.all.items };

    ghost invariant = { λ n. HasSame (bytes_of n.once.keys) (bytes_of n.all.items) };
}

/// Names, each once.
fn each_once<'a>(alloc: Global, names: &[&'a [u8]]) -> Result<IndexSet<&'a [u8]>, NoMemory>
    ensures { IfOk result (λ s. HasSame (bytes_of s.keys) (bytes_of names.now)) }
{
    let mut once = IndexSet::new(alloc);
    for name in names {
        once.insert(*name)?;
    }
    Ok(once)
}

impl<'a> UsedNames<'a> {
    /// These names.
    pub fn new(alloc: Global, all: Vec<&'a [u8]>) -> Result<UsedNames<'a>, NoMemory>
        ensures { IfOk result (λ n. n ≡ bytes_of all.entry.items) }
    {
        let once = each_once(alloc, all.as_slice())?;
        Ok(UsedNames { all, once })
    }

    /// Whether a name is among these.
    pub fn has(&self, name: &str) -> bool
        ensures { result ≡ is_in self.now name.now }
    {
        self.once.contains(name.as_bytes())
    }
}
