//! Fronts added to the texts of sources.

ghost use Rattle.std.specs.Prelude.{◌≡◌, IfOk, map, string_bytes};
ghost use Rattle.c25_disk.specs.Held.{IsOfFile};
ghost use Rattle.c25_disk.specs.declared.fault.FileFault.TheVariants as file;
ghost use Rattle.c25_fronts.specs.Adding.{AddsDefinitions, AddsFront, AddsFronts};
ghost use Rattle.c25_fronts.specs.Fronts.{entry_of, front_name};

use crate::front::{Front, front_name, fronts_of};
use c25_disk::fault::FileFault;
use c25_files::files::{FileTwice, Files};
use c25_meaning_common::failure::Failure;
use c25_meaning_common::no_memory::NoMemory;
use c25_meaning_common::placed::Placed;
use std::alloc::Global;

/// The fault of a front under whose name there is a text already (37), unless memory ran out.
fn taken(alloc: Global, name: &str) -> Failure<Placed<String, FileFault>>
    ensures { IsOfFile name.now file.FileTwice result }
{
    match String::from_str(alloc, name) {
        Ok(place) => Failure::Fault(Placed {
            place,
            fault: FileFault::FileTwice,
        }),
        Err(error) => Failure::NoMemory(NoMemory::from(error)),
    }
}

/// Adds a front after the other texts. `FileTwice` (37) where one of them has its name.
fn add_front(
    alloc: Global,
    files: &mut Files,
    front: &Front,
) -> Result<(), Failure<Placed<String, FileFault>>>
    ensures { AddsFront files.old files.new (entry_of front.now) result }
{
    match files.add(front.name.as_str(), front.text.as_str()) {
        Ok(()) => Ok(()),
        Err(Failure::NoMemory(error)) => Err(Failure::NoMemory(error)),
        Err(Failure::Fault(FileTwice)) => Err(taken(alloc, front.name.as_str())),
    }
}

/// Adds fronts after the texts of sources. Stops at the first whose name another text has (37).
pub fn with_fronts(
    alloc: Global,
    sources: Files,
    fronts: &[Front],
) -> Result<Files, Failure<Placed<String, FileFault>>>
    ensures { AddsFronts sources (map entry_of fronts.now) result }
{
    let mut files = sources;
    for front in fronts {
        add_front(alloc, &mut files, front)?;
    }
    Ok(files)
}

/// The texts of sources of these names, and after them, where symbols are defined, the fronts of the sources. Stops at the first front
/// whose name another text has (37).
pub fn with_definitions(
    alloc: Global,
    sources: Files,
    definitions: &[&str],
    names: &[&str],
) -> Result<Files, Failure<Placed<String, FileFault>>>
    ensures { AddsDefinitions (map (λ definition. definition.now) definitions.now) (map (λ name. name.now) names.now) sources result }
{
    if definitions.is_empty() {
        return Ok(sources);
    }
    match fronts_of(alloc, definitions, names) {
        Ok(fronts) => with_fronts(alloc, sources, &fronts),
        Err(error) => Err(Failure::NoMemory(error)),
    }
}

/// The names of the fronts of sources of these names.
pub fn front_names(alloc: Global, names: &[&str]) -> Result<Vec<String>, NoMemory>
    ensures { IfOk result (λ made. map string_bytes made.items ≡ map front_name (map (λ name. name.now) names.now)) }
{
    let mut made = Vec::new(alloc);
    for name in names {
        made.push(front_name(alloc, name)?)?;
    }
    Ok(made)
}
