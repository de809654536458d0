//! Sources of a disk, and the files that are named in addition to them.

ghost use Rattle.std.specs.Prelude.{◌≡◌, IfOk, map, string_bytes};
ghost use Rattle.c25_fronts.specs.Adding.{assembled_name};
ghost use Rattle.c25_inputs.specs.Files.{ReadsAll, ReadsTexts, assembled_in, plain_names, source_names};
ghost use Rattle.c25_options.specs.Task.{texts_of};
ghost use Rattle.c25_inputs.specs.Inputs.{ReadsBeside, ReadsInputs, command_alone};

use crate::files::{fault_of_file, names_of, read_optional};
use c25_chain::fault::Fault;
use c25_disk::disk::Disk;
use c25_disk::fault::FileFault;
use c25_disk::read_sources;
use c25_fronts::adding::{front_names, with_definitions};
use c25_fronts::front::front_name;
use c25_macro::files::Files;
use c25_meaning_common::failure::Failure;
use c25_meaning_common::no_memory::NoMemory;
use c25_meaning_common::placed::Placed;
use c25_options::task::RunFiles;
use std::alloc::Global;

/// Sources by their names, the symbols that are defined in front of each, and the folders of the files that they copy.
#[derive(Clone, Copy)]
pub struct Sources<'a> {
    pub names: &'a [&'a str],
    /// `NAME=VALUE` each, or `NAME` alone.
    pub definitions: &'a [&'a str],
    /// Where a copied file is looked for that is not found by its name as it stands. The disk from which sources are
    /// read does so; notes of faults name these folders.
    pub folders: &'a [&'a str],
}

/// Sources in front of which no symbols are defined, and no folders.
pub fn without_definitions<'a>(names: &'a [&'a str]) -> Sources<'a>
    ensures { source_names result ≡ plain_names (texts_of names.entry.now) }
{
    let nothing: &[&str] = &[];
    Sources {
        names,
        definitions: nothing,
        folders: nothing,
    }
}

/// The texts of sources, and their fronts after them where symbols are defined.
fn texts_of_sources<D: Disk>(
    alloc: Global,
    disk: &D,
    sources: Sources<'_>,
) -> Result<Files, Failure<Placed<String, FileFault>>>
    ensures { ReadsTexts (D.bytes_of disk.now) (source_names sources.entry) result }
{
    let read = read_sources(alloc, disk, sources.names)?;
    with_definitions(alloc, read, sources.definitions, sources.names)
}

/// Reads the texts of sources, in order, and puts their fronts after them where symbols are defined. Stops at
/// the first source that is given twice (37) or cannot be read (8), and at a front that has the name of a
/// source (37).
pub fn sources_of<D: Disk>(alloc: Global, disk: &D, sources: Sources<'_>) -> Result<Files, Fault>
    ensures { ReadsAll (D.bytes_of disk.now) (source_names sources.entry) result }
{
    match texts_of_sources(alloc, disk, sources) {
        Ok(files) => Ok(files),
        Err(failure) => Err(fault_of_file(failure)),
    }
}

/// The name of the text that is assembled for a source, in front of which symbols are defined or not.
pub fn name_assembled(alloc: Global, source: &str, definitions: &[&str]) -> Result<String, NoMemory>
    ensures { IfOk result (λ name. string_bytes name ≡ assembled_name (texts_of definitions.now) source.now) }
{
    if !definitions.is_empty() {
        return front_name(alloc, source);
    }
    match String::from_str(alloc, source) {
        Ok(name) => Ok(name),
        Err(error) => Err(NoMemory::from(error)),
    }
}

/// The names of the texts that are assembled for sources.
pub fn names_assembled(alloc: Global, sources: Sources<'_>) -> Result<Vec<String>, NoMemory>
    ensures { IfOk result (λ names. map string_bytes names.items ≡ assembled_in (source_names sources.entry)) }
{
    if sources.definitions.is_empty() {
        return names_of(alloc, sources.names);
    }
    front_names(alloc, sources.names)
}

/// The texts of the files that are named in addition to sources; the text of a file that is not named is
/// empty.
#[derive(Drop)]
pub struct TextsBeside {
    pub command: String,
    pub samples: String,
    pub schedule: String,
}

/// A command file, and no samples and no schedule.
pub fn command_alone(command: Option<&str>) -> RunFiles<'_>
    ensures { result ≡ command_alone command.entry }
{
    RunFiles {
        command,
        samples: None,
        schedule: None,
    }
}

/// All that is read before sources are assembled: the texts of files, the names of those that are assembled,
/// and the texts of the other files.
#[derive(Drop)]
pub struct Inputs {
    pub files: Files,
    /// The names of what is assembled: those of the sources, or of their fronts where symbols are defined.
    pub names: Vec<String>,
    /// The names of the sources.
    pub shown: Vec<String>,
    pub beside: TextsBeside,
}

/// Reads the command file, then the samples, then the schedule. Stops at the first that cannot be read (8).
fn texts_beside<D: Disk>(alloc: Global, disk: &D, files: RunFiles<'_>) -> Result<TextsBeside, Fault>
    ensures { ReadsBeside (D.bytes_of disk.now) files.entry result }
{
    let command = read_optional(alloc, disk, files.command)?;
    let samples = read_optional(alloc, disk, files.samples)?;
    let schedule = read_optional(alloc, disk, files.schedule)?;
    Ok(TextsBeside {
        command,
        samples,
        schedule,
    })
}

/// Reads sources, and after them the command file, the samples and the schedule. Stops at the first source
/// that is given twice (37), and at the first file that cannot be read (8).
pub fn inputs_of<D: Disk>(
    alloc: Global,
    disk: &D,
    sources: Sources<'_>,
    files: RunFiles<'_>,
) -> Result<Inputs, Fault>
    ensures { ReadsInputs (D.bytes_of disk.now) (source_names sources.entry) files.entry result }
{
    let texts = sources_of(alloc, disk, sources)?;
    let beside = texts_beside(alloc, disk, files)?;
    let names = names_assembled(alloc, sources)?;
    let shown = names_of(alloc, sources.names)?;
    Ok(Inputs {
        files: texts,
        names,
        shown,
        beside,
    })
}
