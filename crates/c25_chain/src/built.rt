//! Sources, assembled and linked.

ghost use Rattle.std.specs.Prelude.{map, string_bytes};
ghost use Rattle.c25_chain.specs.Built.{Builds};

use crate::fault::Fault;
use crate::linked::{Linked, link_modules};
use crate::modules::{Modules, assemble_all};
use c25_macro::files::Files;
use std::alloc::Global;

/// A linked program with its texts, and the listings of its sources.
#[derive(Drop)]
pub struct Built {
    pub linked: Linked,
    /// The text of a listing for each source.
    pub listings: Vec<String>,
}

/// Assembles the named sources, whose texts are in `files`, and links their modules under the text of a
/// command file. Without sources the program has no words. The first fault in this order is the answer: the
/// sources, one after another (10 to 56), a line of the command file (60 to 63), linking (70 to 76 and 78).
pub fn build(
    alloc: Global,
    files: &Files,
    sources: &[String],
    command: &str,
) -> Result<Built, Fault>
    ensures { Builds files.now (map string_bytes sources.now) command.now result }
{
    let Modules { modules, listings } = assemble_all(alloc, files, sources)?;
    match link_modules(alloc, modules.as_slice(), command) {
        Ok(linked) => Ok(Built { linked, listings }),
        Err(refusal) => Err(refusal),
    }
}
