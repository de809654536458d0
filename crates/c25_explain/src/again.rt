//! Sources or objects linked again, to find what a fault is about.

ghost use Rattle.std.specs.Option.{option_map};
ghost use Rattle.std.specs.Prelude.{◌≡◌, IfOk, IfSome, map, string_bytes};
ghost use Rattle.c25_options.specs.Task.{text_of, texts_of};
ghost use Rattle.c25_explain.specs.Again.{AreNotes, AreNotesOfObjects, AreNotesOfSources, AreNotesOver, ShowsAsked, notes_view, question};

use crate::link_faults::{Among, all_notes};
use crate::misfits::field_notes;
use crate::named::NamedFiles;
use crate::named_sites::{About, name_notes};
use crate::note_lines::{LinkNote, notes_shown};
use crate::overlaps::overlap_notes;
use crate::unfits::unfit_notes;
use c25_chain::assemble_all;
use c25_chain::fault::{ChainFault, Fault};
use c25_disk::disk::Disk;
use c25_disk::work::Work;
use c25_inputs::files::{missing_name, names_of, read_optional};
use c25_inputs::objects::{modules_of, read_objects};
use c25_inputs::sources::{Inputs, command_alone, inputs_of, without_definitions};
use c25_inputs::work::work_over;
use c25_macro::files::Files;
use c25_meaning_common::no_memory::NoMemory;
use c25_meaning_linking::link_fault::LinkFault;
use c25_module::Module;
use std::alloc::Global;

/// What is asked of modules and a command file.
#[derive(Clone, Copy)]
pub(crate) enum Asked<'a> {
    /// Which modules use or define the name of this fault.
    Name { fault: LinkFault, name: &'a str },
    /// The section of this name, and the one that shares a word with it (74).
    Overlap(&'a str),
    /// The section of this name, and the ranges that it may be placed in (73).
    Unfit(&'a str),
    /// The first field that does not take its value (75).
    Field,
    /// All faults of linking, and, where they are to be explained, which modules use or define their names.
    AllFaults { explain: bool },
}

/// A task over files: what is asked of these sources, linked under the text of this command file.
#[derive(Clone, Copy)]
struct Linked<'a> {
    asked: Asked<'a>,
    sources: &'a [String],
    command: &'a str,
}

/// What is asked of modules of the files of these names under the text of a command file; none where there is
/// nothing to say.
fn notes_of(
    alloc: Global,
    asked: Asked<'_>,
    names: &[String],
    modules: &[Module],
    command: &str,
) -> Result<Option<Vec<LinkNote>>, NoMemory>
    ensures { IfOk result (λ notes. IfSome notes (λ v. AreNotes (question asked.entry) (map string_bytes names.now) modules.now command.now (notes_view v.items))) }
{
    match asked {
        Asked::Name { fault, name } => {
            name_notes(alloc, modules, fault, About { names, name }).map(Some)
        }
        Asked::Overlap(name) => overlap_notes(alloc, modules, command, name),
        Asked::Unfit(name) => unfit_notes(alloc, modules, command, name),
        Asked::Field => field_notes(alloc, names, modules, command),
        Asked::AllFaults { explain } => {
            let among = Among {
                names,
                modules,
                explain,
            };
            all_notes(alloc, among, command)
        }
    }
}

impl Work for Linked<'_> {
    ghost use Rattle.std.specs.Prelude.{IfOk, IfSome, map, string_bytes};
    ghost use Rattle.c25_explain.specs.Again.{AreNotesAmong, notes_view, question};
    ghost use Rattle.c25_inputs.specs.Files.{missing_name};

    type Answer = Option<Vec<LinkNote>>;

    type Fault = ChainFault<String>;

    ghost comes_to = { λ work files result. IfOk result (λ notes. IfSome notes (λ v. AreNotesAmong (question work.asked) files (map string_bytes work.sources.now) work.command.now (notes_view v.items))) };

    ghost missing_of = { missing_name };

    fn answer(&self, alloc: Global, files: &Files) -> Result<Option<Vec<LinkNote>>, Fault> {
        let all = assemble_all(alloc, files, self.sources)?;
        match notes_of(
            alloc,
            self.asked,
            self.sources,
            all.modules.as_slice(),
            self.command,
        ) {
            Ok(notes) => Ok(notes),
            Err(error) => Err(error.into()),
        }
    }

    fn missing(fault: &ChainFault<String>) -> Option<&str>
        ensures { option_map (λ name. name.now) result ≡ missing_name fault.now }
    {
        missing_name(fault)
    }
}

/// What is asked of sources.
fn notes_of_sources<D: Disk>(
    alloc: Global,
    disk: &D,
    command: Option<&str>,
    sources: &[&str],
    asked: Asked<'_>,
) -> Result<Option<Vec<LinkNote>>, Fault>
    ensures { IfOk result (λ notes. IfSome notes (λ v. AreNotesOfSources (question asked.entry) (D.bytes_of disk.now) (texts_of sources.now) (text_of command.entry) (notes_view v.items))) }
{
    let sources = without_definitions(sources);
    let inputs = inputs_of(alloc, disk, sources, command_alone(command))?;
    let Inputs {
        files,
        names,
        beside,
        ..
    } = inputs;
    let work = Linked {
        asked,
        sources: names.as_slice(),
        command: beside.command.as_str(),
    };
    work_over(alloc, disk, files, &work)
}

/// What is asked of objects.
fn notes_of_objects<D: Disk>(
    alloc: Global,
    disk: &D,
    command: Option<&str>,
    objects: &[&str],
    asked: Asked<'_>,
) -> Result<Option<Vec<LinkNote>>, Fault>
    ensures { IfOk result (λ notes. IfSome notes (λ v. AreNotesOfObjects (question asked.entry) (D.bytes_of disk.now) (texts_of objects.now) (text_of command.entry) (notes_view v.items))) }
{
    let command = read_optional(alloc, disk, command)?;
    let read = read_objects(alloc, disk, objects)?;
    let modules = modules_of(alloc, read.as_slice())?;
    let names = names_of(alloc, objects)?;
    match notes_of(
        alloc,
        asked,
        names.as_slice(),
        modules.as_slice(),
        command.as_str(),
    ) {
        Ok(notes) => Ok(notes),
        Err(error) => Err(error.into()),
    }
}

/// What is asked: of the objects, if there are any, else of the sources.
fn notes_found<D: Disk>(
    alloc: Global,
    disk: &D,
    named: NamedFiles<'_>,
    asked: Asked<'_>,
) -> Result<Option<Vec<LinkNote>>, Fault>
    ensures { IfOk result (λ notes. IfSome notes (λ v. AreNotesOver (question asked.entry) (D.bytes_of disk.now) (text_of named.entry.files.command) (texts_of named.entry.sources.now) (texts_of named.entry.objects.now) (notes_view v.items))) }
{
    let command = named.files.command;
    match named.objects {
        [] => notes_of_sources(alloc, disk, command, named.sources, asked),
        [_, ..] => notes_of_objects(alloc, disk, command, named.objects, asked),
    }
}

/// The notes that are asked for, each after its line. The objects, if there are any, else the sources are
/// read and linked again. The text is empty where that fails, there is nothing to say, or memory runs out.
pub(crate) fn asked_text<D: Disk>(
    alloc: Global,
    disk: &D,
    named: NamedFiles<'_>,
    asked: Asked<'_>,
) -> String
    ensures { ShowsAsked (question asked.entry) (D.bytes_of disk.now) (text_of named.entry.files.command) (texts_of named.entry.sources.now) (texts_of named.entry.objects.now) (string_bytes result) }
{
    let Ok(Some(notes)) = notes_found(alloc, disk, named, asked) else {
        return String::new(alloc);
    };
    match notes_shown(alloc, disk, &notes) {
        Ok(text) => text,
        Err(_) => String::new(alloc),
    }
}
