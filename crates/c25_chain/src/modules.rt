//! The modules of several sources.

ghost use Rattle.std.specs.Prelude.{◌≡◌, [], ◌∷◌, ◌++◌, OnOk, map, string_bytes};
ghost use Rattle.c25_asm.specs.View.{assembled_of};
ghost use Rattle.c25_meaning_common.specs.Results.{MeetsBy};
ghost use Rattle.c25_chain.specs.Refusal.{refusal_of};
ghost use Rattle.c25_chain.specs.Modules.{modules_of, no_modules, with_module, with_source};
ghost use Rattle.c25_chain.specs.View.{modules_view};

use crate::fault::Fault;
use crate::sources::{Listing, assemble_source, read_back};
use c25_macro::files::Files;
use c25_meaning_common::no_memory::NoMemory;
use c25_module::Module;
use std::alloc::Global;

/// The modules of sources, and the texts of their listings.
#[derive(Drop)]
pub struct Modules {
    /// A module for each source.
    pub modules: Vec<Module>,
    /// The text of a listing for each source.
    pub listings: Vec<String>,
}

/// No modules and no listings.
fn none(alloc: Global) -> Modules
    ensures { modules_view result ≡ no_modules }
{
    Modules {
        modules: Vec::new(alloc),
        listings: Vec::new(alloc),
    }
}

/// Appends a module and the text of its listing.
fn push(all: &mut Modules, read: Module, listing: String) -> Result<(), NoMemory>
    ensures modules { OnOk result (all.new.modules.items ≡ all.old.modules.items ++ read ∷ []) }
    ensures listings { OnOk result (all.new.listings.items ≡ all.old.listings.items ++ listing ∷ []) }
{
    all.modules.push(read)?;
    all.listings.push(listing).map_err(NoMemory::from)
}

/// Writes a source's module as an object, reads it back, and appends it with the text of its listing.
fn push_assembled(alloc: Global, listing: &Listing<'_>, all: &mut Modules) -> Result<(), NoMemory>
    ensures { OnOk result (modules_view all.new ≡ with_module (modules_view all.old) (assembled_of listing.now)) }
{
    let text = listing.text(alloc)?;
    let read = read_back(alloc, &listing.module)?;
    push(all, read, text)
}

/// Assembles one more source, and appends its module and its listing.
fn add_source(alloc: Global, files: &Files, name: &str, all: &mut Modules) -> Result<(), Fault>
    ensures { MeetsBy refusal_of (λ _. modules_view all.new) (with_source files.now (modules_view all.old) name.now) result }
{
    let listing = assemble_source(alloc, files, name)?;
    match push_assembled(alloc, &listing, all) {
        Ok(()) => Ok(()),
        Err(error) => Err(error.into()),
    }
}

/// Assembles the named sources, whose texts are in `files`, in order: their modules, and the texts of their
/// listings. Each module is written as an object and read back. Stops at the first source with a fault (10 to
/// 56); a source that is named twice is assembled twice.
pub fn assemble_all(alloc: Global, files: &Files, sources: &[String]) -> Result<Modules, Fault>
    ensures { MeetsBy refusal_of modules_view (modules_of files.now (map string_bytes sources.now)) result }
{
    let mut all = none(alloc);
    for source in sources {
        add_source(alloc, files, source.as_str(), &mut all)?;
    }
    Ok(all)
}
