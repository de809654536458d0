//! The notes that `--explain` and `--all` ask for, after the line of a fault.

ghost use Rattle.std.specs.Option.{option_map};
ghost use Rattle.std.specs.Prelude.{◌≡◌, ◌⊎◌, ◌++◌, [], IfOk, Some, string_bytes};
ghost use Rattle.c25_options.specs.Task.{text_of, texts_of};
ghost use Rattle.c25_explain.specs.LinkNotes.{IsBehind, ShowsSectionAndLink};
ghost use Rattle.c25_explain.specs.Notes.{AreNotesFor, AreOthers, IsExplained, IsExplainedAt, IsExplainedUnread, IsExplanation, IsLineOf, IsLineOfNoText, IsNoted, IsWhy, IsWhyNoText, at_line, place_of, unread_name};
ghost use Rattle.c25_meaning_objects.specs.RecordReading.{has_magic};

use crate::all_faults::others_text;
use crate::fault::AnyFault;
use crate::file_notes::{ItemFile, copied_text, item_text, kind_text};
use crate::link_faults::other_links_text;
use crate::link_notes::{link_text, standing_text};
use crate::named::NamedFiles;
use crate::note::{Shown, Unread, explained, line_of};
use crate::refusals::of_refusal;
use crate::section_lines::section_text;
use crate::trails::trail_text;
use c25_chain::fault::ChainFault;
use c25_disk::disk::Disk;
use c25_disk::fault::FileFault;
use c25_disk::refusal::is_too_long;
use c25_disk::{read_binary, read_file};
use c25_meaning_common::failure::Failure;
use c25_meaning_common::no_memory::NoMemory;
use c25_meaning_common::placed::{FileLine, Placed};
use c25_meaning_linking::link_fault::LinkFault;
use c25_options::task::{FaultOptions, RunFiles};
use std::alloc::Global;

/// Which notes are reported after the line of a fault.
#[derive(Clone, Copy)]
pub enum Notes<'a> {
    Nothing,
    /// What the options ask for: the explanation of the fault, after the line of the file where it is, its part
    /// that is refused and the lines that led there, and the lines of all other faults of the sources. A fault
    /// of a command file, samples, a schedule or a script has the number of its line only, so their names are
    /// given here. The sources are expanded again to find where a line was called or copied and to find the
    /// other faults, and the sources or objects are linked again to find a field.
    After(FaultOptions, NamedFiles<'a>),
}

/// The notes that options ask for.
pub fn notes_for<'a>(
    options: FaultOptions,
    files: RunFiles<'a>,
    script: Option<&'a str>,
    sources: &'a [&'a str],
    objects: &'a [&'a str],
) -> Notes<'a>
    ensures { AreNotesFor options files.entry script.entry (texts_of sources.entry.now) (texts_of objects.entry.now) result }
{
    let named = NamedFiles {
        files,
        script,
        sources,
        objects,
    };
    Notes::After(options, named)
}

/// The line of this number of the named file; `None` where no file is named.
fn at_line<'a>(file: Option<&'a str>, line: usize) -> Option<FileLine<&'a str>>
    ensures { option_map (λ place. (place.file.now, place.line)) result ≡ at_line (text_of file.entry) line }
{
    match file {
        Some(file) => Some(FileLine { file, line }),
        None => None,
    }
}

/// The line of a file where a fault is; `None` for a fault without a line, or in a file of the run that no
/// option names.
fn place_of<'a>(refusal: &'a ChainFault<String>, named: NamedFiles<'a>) -> Option<FileLine<&'a str>>
    ensures { option_map (λ place. (place.file.now, place.line)) result ≡ place_of named.entry refusal.entry.now }
{
    let NamedFiles {
        files,
        script,
        objects,
        ..
    } = named;
    match refusal {
        ChainFault::Source(placed) => at_line(Some(placed.place.file.as_str()), placed.place.line),
        ChainFault::NoFile { file, line, .. } => at_line(Some(file.as_str()), *line),
        ChainFault::Command(placed) => at_line(files.command, placed.place),
        ChainFault::Samples { line } => at_line(files.samples, *line),
        ChainFault::Schedule { line } => at_line(files.schedule, *line),
        ChainFault::Script { line } => at_line(script, *line),
        ChainFault::Hex(placed) => at_line(objects.first().copied(), placed.place),
        ChainFault::Object(_) | ChainFault::Link(_) | ChainFault::File(_) => None,
    }
}

/// The line of this number in the text of a file, if it has one.
fn line_shown<'a>(file: &'a str, number: usize, text: &'a str) -> Shown<'a>
    ensures { IsLineOf file.entry.now number text.entry.now result }
{
    match line_of(text, number) {
        Some(text) => Shown::Line { file, number, text },
        None => Shown::Nothing,
    }
}

/// The explanation of a fault in a line of a file, after that line, where the file can be read and has it, and
/// the text `after` it.
pub fn explained_at<D: Disk>(
    alloc: Global,
    disk: &D,
    fault: AnyFault,
    place: FileLine<&str>,
    after: &str,
) -> Result<String, NoMemory>
    ensures { IfOk result (λ note. IsExplainedAt (D.bytes_of disk.now) place.entry.file.now place.entry.line after.now fault (string_bytes note)) }
{
    let FileLine { file, line } = place;
    match read_file(alloc, disk, file) {
        Ok(text) => explained(alloc, fault, line_shown(file, line, text.as_str()), after),
        Err(_) => explained(alloc, fault, Shown::Nothing, after),
    }
}

/// The name of the file, where the fault is a file that cannot be read.
fn unread_name(refusal: &ChainFault<String>) -> Option<&str>
    ensures { option_map (λ name. name.now) result ≡ unread_name refusal.now }
{
    match refusal {
        ChainFault::File(placed) => match placed.fault {
            FileFault::CannotRead => Some(placed.place.as_str()),
            FileFault::CannotWrite | FileFault::FileTwice => None,
        },
        _ => None,
    }
}

/// The number of the first line that is not UTF-8, where there is one.
fn line_of_no_text(bytes: &[u8]) -> Option<usize>
    ensures { IsLineOfNoText bytes.now result }
{
    match str::from_utf8(bytes) {
        Ok(_) => None,
        Err(error) => {
            let front = &bytes[..error.valid_up_to()];
            Some(front.iter().filter(|byte| **byte == b'\n').count() + 1)
        }
    }
}

/// Whether bytes begin as those of an object do.
fn has_magic(bytes: &[u8]) -> bool
    ensures { result ≡ has_magic bytes.now }
{
    bytes.len() >= 4 && bytes[0] == b'C' && bytes[1] == b'2' && bytes[2] == b'5' && bytes[3] == b'O'
}

/// What keeps the bytes of a file from being a text: that it is an object, or the first line that is not UTF-8; `None` where
/// they are one.
fn why_no_text(bytes: &[u8]) -> Option<Unread>
    ensures { IsWhyNoText bytes.now result }
{
    match line_of_no_text(bytes) {
        Some(line) => {
            if has_magic(bytes) {
                Some(Unread::ObjectFile)
            } else {
                Some(Unread::NotUtf8 { line })
            }
        }
        None => None,
    }
}

/// Why a file whose bytes cannot be read again cannot be opened or read: as the disk says it, if it does, and else as
/// opening and reading it shows it.
fn why_refused<D: Disk>(disk: &D, name: &str) -> Unread
    ensures { IsWhy (D.refuses disk.now) (D.bytes_of disk.now) name.now (Some result) }
{
    if let Some(why) = disk.refusal(name) {
        return Unread::Refused(why);
    }
    if disk.open(name).is_err() {
        return Unread::NotOpened;
    }
    if is_too_long(disk, name) {
        Unread::TooLong
    } else {
        Unread::NotRead
    }
}

/// Why a file cannot be read, found by reading it again; `None` where it can be read now, memory runs out, or the name is that
/// under which standard input is reported, which cannot be read again.
#[tactic(auto, using(crate::proofs::Noted::why_of_bytes))]
fn why_unread<D: Disk>(alloc: Global, disk: &D, name: &str) -> Option<Unread>
    ensures { IsWhy (D.refuses disk.now) (D.bytes_of disk.now) name.now result }
{
    if name == "stdin" {
        return None;
    }
    match read_binary(alloc, disk, name) {
        Ok(bytes) => why_no_text(bytes.as_slice()),
        Err(Failure::NoMemory(_)) => None,
        Err(Failure::Fault(_)) => Some(why_refused(disk, name)),
    }
}

/// The explanation of a fault of a file that cannot be read, after the reason for it, where that is known, and the
/// text `after` it.
fn explained_unread<D: Disk>(
    alloc: Global,
    disk: &D,
    fault: AnyFault,
    file: &str,
    after: &str,
) -> Result<String, NoMemory>
    ensures { IfOk result (λ note. IsExplainedUnread (D.refuses disk.now) (D.bytes_of disk.now) file.now after.now fault (string_bytes note)) }
{
    match why_unread(alloc, disk, file) {
        Some(why) => explained(alloc, fault, Shown::Unread { file, why }, after),
        None => explained(alloc, fault, Shown::Nothing, after),
    }
}

/// A text with another one after it; empty where memory runs out.
fn joined(alloc: Global, first: String, second: &str) -> String
    ensures { (string_bytes result ≡ string_bytes first ++ second.now) ⊎ (string_bytes result ≡ []) }
{
    let mut text = first;
    match text.push_str(second) {
        Ok(()) => text,
        Err(_) => String::new(alloc),
    }
}

/// The lines of the command file about the section or the entry that a fault of linking names, and the note of the
/// fault after them; empty where memory runs out.
fn link_lines<D: Disk>(
    alloc: Global,
    disk: &D,
    named: NamedFiles<'_>,
    refusal: &Placed<String, LinkFault>,
) -> String
    ensures { ShowsSectionAndLink (D.bytes_of disk.now) named.entry refusal.now.fault (string_bytes refusal.now.place) (string_bytes result) }
{
    let line = section_text(alloc, disk, named.files.command, refusal);
    let note = link_text(alloc, disk, named, refusal);
    joined(alloc, line, note.as_str())
}

/// The lines that are shown after the line of a fault: for a line of a source the part of it that is refused and
/// the lines that led there, for the command file what stands at the fault, for linking the lines of the command file
/// about the section or the entry and the range or the field, for samples, a schedule and a script what is wanted there, for a file that
/// is no object what it may be, for a file that cannot be read the line that copies it.
fn text_after<D: Disk>(
    alloc: Global,
    disk: &D,
    named: NamedFiles<'_>,
    refusal: &ChainFault<String>,
) -> String
    ensures { IsBehind (D.bytes_of disk.now) named.entry refusal.now (string_bytes result) }
{
    match refusal {
        ChainFault::Command(placed) => {
            standing_text(alloc, disk, named.files.command, placed.place)
        }
        ChainFault::Link(placed) => link_lines(alloc, disk, named, placed),
        ChainFault::Source(placed) => trail_text(alloc, disk, named.sources, placed),
        ChainFault::Object(placed) => kind_text(alloc, disk, placed),
        ChainFault::Schedule { line } => {
            item_text(alloc, disk, ItemFile::Schedule, named.files.schedule, *line)
        }
        ChainFault::Samples { line } => {
            item_text(alloc, disk, ItemFile::Samples, named.files.samples, *line)
        }
        ChainFault::Script { line } => {
            item_text(alloc, disk, ItemFile::Script, named.script, *line)
        }
        ChainFault::File(placed) => copied_text(alloc, disk, named.sources, placed),
        ChainFault::NoFile { .. } | ChainFault::Hex(_) => String::new(alloc),
    }
}

/// The explanation of a fault, after the line of the file where it is and the text after that line, or after
/// why a file cannot be read. The files are read again; where they cannot be read or have no such line, no
/// line is shown.
fn explanation_of<D: Disk>(
    alloc: Global,
    disk: &D,
    refusal: &ChainFault<String>,
    named: NamedFiles<'_>,
) -> Result<String, NoMemory>
    ensures { IfOk result (λ note. IsExplained (D.refuses disk.now) (D.bytes_of disk.now) (place_of named.entry refusal.now) named.entry refusal.now (string_bytes note)) }
{
    let fault = of_refusal(refusal);
    let after = text_after(alloc, disk, named, refusal);
    if let Some(place) = place_of(refusal, named) {
        return explained_at(alloc, disk, fault, place, after.as_str());
    }
    match unread_name(refusal) {
        Some(file) => explained_unread(alloc, disk, fault, file, after.as_str()),
        None => explained(alloc, fault, Shown::Nothing, after.as_str()),
    }
}

/// The explanation of a fault, where it is asked for; empty where memory runs out.
fn explanation_text<D: Disk>(
    alloc: Global,
    disk: &D,
    explain: bool,
    named: NamedFiles<'_>,
    refusal: &ChainFault<String>,
) -> String
    ensures { IsExplanation (D.refuses disk.now) (D.bytes_of disk.now) explain named.entry refusal.now (string_bytes result) }
{
    if !explain {
        return String::new(alloc);
    }
    match explanation_of(alloc, disk, refusal, named) {
        Ok(text) => text,
        Err(_) => String::new(alloc),
    }
}

/// The lines of all other faults of the sources or of linking, where they are asked for and the fault is one
/// of these.
fn other_faults<D: Disk>(
    alloc: Global,
    disk: &D,
    options: FaultOptions,
    named: NamedFiles<'_>,
    refusal: &ChainFault<String>,
) -> String
    ensures { AreOthers (D.bytes_of disk.now) options.explain options.all named.entry refusal.now (string_bytes result) }
{
    if !options.all {
        return String::new(alloc);
    }
    match refusal {
        ChainFault::Source(_) | ChainFault::NoFile { .. } => {
            others_text(alloc, disk, named.sources, refusal)
        }
        ChainFault::Link(_) => other_links_text(alloc, disk, named, options.explain, refusal),
        ChainFault::Command(_)
        | ChainFault::Object(_)
        | ChainFault::Hex(_)
        | ChainFault::Schedule { .. }
        | ChainFault::Samples { .. }
        | ChainFault::Script { .. }
        | ChainFault::File(_) => String::new(alloc),
    }
}

/// The note of a fault; empty where none is asked for, or memory runs out.
pub fn note_of<D: Disk>(
    alloc: Global,
    disk: &D,
    refusal: &ChainFault<String>,
    notes: Notes<'_>,
) -> String
    ensures { IsNoted (D.refuses disk.now) (D.bytes_of disk.now) notes.entry refusal.now (string_bytes result) }
{
    let Notes::After(options, named) = notes else {
        return String::new(alloc);
    };
    let explanation = explanation_text(alloc, disk, options.explain, named, refusal);
    let others = other_faults(alloc, disk, options, named, refusal);
    joined(alloc, explanation, others.as_str())
}
