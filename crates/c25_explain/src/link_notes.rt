//! Notes of faults of the command file and of linking, after the fault's line.

ghost use Rattle.std.specs.Prelude.{string_bytes};
ghost use Rattle.c25_options.specs.Task.{text_of, texts_of};
ghost use Rattle.c25_explain.specs.LinkNotes.{ShowsLink, ShowsMissing, ShowsOf, ShowsStanding};

use crate::again::{Asked, asked_text};
use crate::command_notes::hinted_text;
use crate::named::NamedFiles;
use crate::ranges::missing_text;
use c25_cmd::{read_command, refused_at};
use c25_disk::disk::Disk;
use c25_disk::read_file;
use c25_meaning_common::placed::Placed;
use c25_meaning_linking::link_fault::LinkFault;
use c25_place::missing_range;
use std::alloc::Global;

/// What stands at the fault in this line of the text of a command file, and what is missing or wrong there, shown
/// with the file's name; empty where the text has no fault or memory runs out.
fn standing_shown(alloc: Global, file: &str, line: usize, text: &str) -> String
    ensures { ShowsStanding file.now line text.now (string_bytes result) }
{
    let Ok(Some(standing)) = refused_at(alloc, text) else {
        return String::new(alloc);
    };
    match hinted_text(alloc, file, line, text, standing) {
        Ok(shown) => shown,
        Err(_) => String::new(alloc),
    }
}

/// What stands at the fault in this line of the command file; empty where no file is named, it cannot be read
/// or memory runs out.
pub(crate) fn standing_text<D: Disk>(
    alloc: Global,
    disk: &D,
    file: Option<&str>,
    line: usize,
) -> String
    ensures { ShowsOf (D.bytes_of disk.now) (text_of file.entry) (λ file text. ShowsStanding file line text) (string_bytes result) }
{
    let Some(file) = file else {
        return String::new(alloc);
    };
    match read_file(alloc, disk, file) {
        Ok(text) => standing_shown(alloc, file, line, text.as_str()),
        Err(_) => String::new(alloc),
    }
}

/// The range that the text of a command file lacks for a section; empty where it lacks none, is invalid or
/// memory runs out.
fn missing_shown(alloc: Global, file: &str, section: &str, text: &str) -> String
    ensures { ShowsMissing file.now section.now text.now (string_bytes result) }
{
    let Ok(command) = read_command(alloc, text) else {
        return String::new(alloc);
    };
    let Ok(Some(range)) = missing_range(alloc, &command, section) else {
        return String::new(alloc);
    };
    match missing_text(alloc, file, section, range) {
        Ok(shown) => shown,
        Err(_) => String::new(alloc),
    }
}

/// The range that the command file lacks for a section; empty where no file is named, it cannot be read or
/// memory runs out.
fn range_text<D: Disk>(alloc: Global, disk: &D, file: Option<&str>, section: &str) -> String
    ensures { ShowsOf (D.bytes_of disk.now) (text_of file.entry) (λ file text. ShowsMissing file section.now text) (string_bytes result) }
{
    let Some(file) = file else {
        return String::new(alloc);
    };
    match read_file(alloc, disk, file) {
        Ok(text) => missing_shown(alloc, file, section, text.as_str()),
        Err(_) => String::new(alloc),
    }
}

/// The note of a fault of linking: of 72 the range that the section lacks, of 73 its words and the ranges that
/// it may be placed in, of 74 the words of both sections, of
/// 75 the field that does not take its value, of 70, 71 and 76 the modules that use or define the name. The
/// files are read again; the note is empty where they cannot be read or memory runs out.
pub(crate) fn link_text<D: Disk>(
    alloc: Global,
    disk: &D,
    named: NamedFiles<'_>,
    refusal: &Placed<String, LinkFault>,
) -> String
    ensures { ShowsLink (D.bytes_of disk.now) (text_of named.entry.files.command) (texts_of named.entry.sources.now) (texts_of named.entry.objects.now) refusal.now.fault (string_bytes refusal.now.place) (string_bytes result) }
{
    let name = refusal.place.as_str();
    let fault = refusal.fault;
    match fault {
        LinkFault::Unresolved | LinkFault::DefinedTwice | LinkFault::NoEntry => {
            asked_text(alloc, disk, named, Asked::Name { fault, name })
        }
        LinkFault::NoRange => range_text(alloc, disk, named.files.command, name),
        LinkFault::RelocRange => asked_text(alloc, disk, named, Asked::Field),
        LinkFault::Overlap => asked_text(alloc, disk, named, Asked::Overlap(name)),
        LinkFault::DoesNotFit => asked_text(alloc, disk, named, Asked::Unfit(name)),
        LinkFault::BadRun => String::new(alloc),
    }
}
