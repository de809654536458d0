//! Old files, read.

ghost use Rattle.std.specs.Prelude.{◌≡◌, IfErr, IfOk, Some, length, map};
ghost use Rattle.c25_move_files.specs.Files.{AreGathered, old_of};
ghost use Rattle.c25_move_files.specs.Refusals.{AreRefused, IsFaulty, ShowBothUnasked};
ghost use Rattle.c25_move_files.specs.Styles.{style_of};
ghost use Rattle.c25_move_files.specs.Task.{AreOldFiles};

use crate::gathering::{command_named, sources, with_copied};
use crate::old::{OldDisk, OldFile};
use crate::refusals::{Refusal, short};
use crate::spelling::Spellings;
use crate::style::style_of;
use c25_disk::disk::Disk;
use c25_meaning_common::no_memory::NoMemory;
use c25_move::CodePage;
use c25_move_lines::{LongOrder, Style};
use std::alloc::Global;

/// Old files: the sources, and after them the files that they copy; and how they are written.
#[derive(Drop)]
pub struct Gathered {
    pub files: Vec<OldFile>,
    /// How many of the files are sources.
    pub sources: usize,
    pub style: Style,
    pub long_order: Option<LongOrder>,
    /// The code page of the files that are no UTF-8.
    pub code_page: CodePage,
    /// The line of the report that says why the files are of this style.
    pub heading: String,
    /// The old command file, where one is named.
    pub command: Option<OldFile>,
}

/// Old sources that are to be moved.
#[derive(Clone, Copy)]
pub struct OldSources<'a> {
    /// Their names, in order.
    pub names: &'a [&'a str],
    /// The name of their command file, where one is named.
    pub command: Option<&'a str>,
    /// The style in which they are written; where it is not given, their directives show it.
    pub style: Option<Style>,
    /// The first word of a constant of 32 bits, where that is known.
    pub long_order: Option<LongOrder>,
    /// The code page by which files are read that are no UTF-8.
    pub code_page: CodePage,
    /// Whether names that differ in the case of their letters alone are one name.
    pub ignore_case: bool,
}

/// The old files where these are the sources.
fn gathered_from<D: Disk>(
    alloc: Global,
    old: &OldDisk<'_, D>,
    asked: OldSources<'_>,
    sources: Vec<OldFile>,
) -> Result<Gathered, Refusal>
    ensures files { IfOk result (λ g. AreGathered (D.bytes_of old.now.disk.now) old.now.code_page sources.items g.files.items) }
    ensures page { IfOk result (λ g. g.code_page ≡ old.now.code_page) }
    ensures count { IfOk result (λ g. g.sources ≡ length sources.items) }
    ensures style { IfOk result (λ g. style_of asked.entry.style (map old_of sources.items) ≡ Some g.style) }
    ensures refused { IfErr result (IsFaulty (ShowBothUnasked asked.entry.style (map old_of sources.items))) }
{
    let found = style_of(alloc, asked.style, sources.as_slice())?;
    let count = sources.len();
    match with_copied(alloc, old, found.style, sources) {
        Ok(files) => Ok(Gathered {
            files,
            sources: count,
            style: found.style,
            long_order: asked.long_order,
            code_page: old.code_page,
            heading: found.line,
            command: None,
        }),
        Err(error) => Err(short(error)),
    }
}

/// Reads old files, with their names in these spellings.
fn gathered_with<D: Disk>(
    alloc: Global,
    disk: &D,
    spellings: &Spellings,
    asked: OldSources<'_>,
) -> Result<Gathered, Refusal>
    ensures gathered { IfOk result (AreOldFiles (D.bytes_of disk.now) asked.entry) }
    ensures refused { IfErr result (IsFaulty (AreRefused (D.bytes_of disk.now) asked.entry)) }
{
    let old = OldDisk {
        disk,
        spellings,
        code_page: asked.code_page,
    };
    let sources = sources(alloc, &old, asked.names)?;
    let mut gathered = gathered_from(alloc, &old, asked, sources)?;
    let command = command_named(alloc, &old, asked.command)?;
    gathered.command = command;
    Ok(gathered)
}

/// The spellings of the names in old files.
fn spellings_of(alloc: Global, files: &[OldFile]) -> Result<Spellings, NoMemory> {
    let mut spellings = Spellings::new(alloc);
    for file in files {
        spellings.add_text(alloc, file.text.as_str())?;
    }
    Ok(spellings)
}

/// Reads old files again, with their names in one spelling.
fn gathered_again<D: Disk>(
    alloc: Global,
    disk: &D,
    asked: OldSources<'_>,
    files: &[OldFile],
) -> Result<Gathered, Refusal>
    ensures gathered { IfOk result (AreOldFiles (D.bytes_of disk.now) asked.entry) }
    ensures refused { IfErr result (IsFaulty (AreRefused (D.bytes_of disk.now) asked.entry)) }
{
    match spellings_of(alloc, files) {
        Ok(spellings) => gathered_with(alloc, disk, &spellings, asked),
        Err(error) => Err(short(error)),
    }
}

/// Reads old files. Refused where a source or the command file cannot be read (8), where two new files would have one name
/// (37), and where the sources show both styles and none is asked for. Where names that differ in the case of letters alone
/// are one name, with their names in one spelling.
pub fn gather<D: Disk>(alloc: Global, disk: &D, asked: OldSources<'_>) -> Result<Gathered, Refusal>
    ensures gathered { IfOk result (AreOldFiles (D.bytes_of disk.now) asked.entry) }
    ensures refused { IfErr result (IsFaulty (AreRefused (D.bytes_of disk.now) asked.entry)) }
{
    let spellings = Spellings::new(alloc);
    let gathered = gathered_with(alloc, disk, &spellings, asked)?;
    if asked.ignore_case {
        gathered_again(alloc, disk, asked, gathered.files.as_slice())
    } else {
        Ok(gathered)
    }
}
