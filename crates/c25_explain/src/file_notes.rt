//! What is wanted in a line of samples, of a schedule or of a script (90, 91, 95), and what a file may be that is no object (40).

ghost use Rattle.std.specs.Prelude.{◌≡◌, IfOk, string_bytes};
ghost use Rattle.c25_options.specs.Task.{text_of, texts_of};
ghost use Rattle.c25_explain.specs.FileNotes.{IsCauseOf, ShowsCopied, ShowsItem, ShowsKind, cause_line, kind_line};
ghost use Rattle.c25_meaning_common.specs.Items.{line_words};
ghost use Rattle.c25_explain.specs.LinkNotes.{ShowsOf};

use crate::note::line_of;
use c25_disk::disk::Disk;
use c25_disk::fault::FileFault;
use c25_disk::{read_binary, read_file};
use c25_earlier::copying_text;
use c25_file_hints::cause::Cause;
use c25_file_hints::kind::kind_of;
use c25_file_hints::{command_cause, entry_cause, sample_cause};
use c25_meaning_common::no_memory::NoMemory;
use c25_meaning_common::placed::Placed;
use c25_meaning_objects::object::ObjectFault;
use std::alloc::Global;

/// One line of text: the file, the number of the line, and what is wanted there.
fn cause_line(alloc: Global, file: &str, line: usize, cause: Cause) -> Result<String, NoMemory>
    ensures { IfOk result (λ text. string_bytes text ≡ cause_line file.now line cause) }
{
    let wanted = cause.text();
    Ok(format!(in alloc; "{file}:{line}: {wanted}\n")?)
}

/// A file with one item on a line.
#[derive(Clone, Copy, PartialEq, Debug)]
pub enum ItemFile {
    Samples,
    Schedule,
    Script,
}

/// Why a line of such a file is refused; `None` where it is a sample or blank, or memory runs out.
fn cause_of(alloc: Global, kind: ItemFile, row: &str) -> Option<Cause>
    ensures { IsCauseOf kind (line_words row.now) result }
{
    match kind {
        ItemFile::Samples => sample_cause(alloc, row).ok()?,
        ItemFile::Schedule => entry_cause(alloc, row).ok(),
        ItemFile::Script => command_cause(alloc, row).ok(),
    }
}

/// What is wanted in this line of the text of such a file; empty where the line is a sample, blank or not there, or
/// memory runs out.
fn item_shown(alloc: Global, kind: ItemFile, file: &str, line: usize, text: &str) -> String
    ensures { ShowsItem kind file.now line text.now (string_bytes result) }
{
    let Some(row) = line_of(text, line) else {
        return String::new(alloc);
    };
    let Some(cause) = cause_of(alloc, kind, row) else {
        return String::new(alloc);
    };
    match cause_line(alloc, file, line, cause) {
        Ok(shown) => shown,
        Err(_) => String::new(alloc),
    }
}

/// What is wanted in this line of such a file; empty where no file is named or it cannot be read.
pub(crate) fn item_text<D: Disk>(
    alloc: Global,
    disk: &D,
    kind: ItemFile,
    file: Option<&str>,
    line: usize,
) -> String
    ensures { ShowsOf (D.bytes_of disk.now) (text_of file.entry) (λ file text. ShowsItem kind file line text) (string_bytes result) }
{
    let Some(file) = file else {
        return String::new(alloc);
    };
    match read_file(alloc, disk, file) {
        Ok(text) => item_shown(alloc, kind, file, line, text.as_str()),
        Err(_) => String::new(alloc),
    }
}

/// One line of text: the file, and what it may be.
fn kind_line(alloc: Global, file: &str, bytes: &[u8]) -> Result<String, NoMemory>
    ensures { IfOk result (λ text. string_bytes text ≡ kind_line file.now bytes.now) }
{
    let what = kind_of(bytes).text();
    Ok(format!(in alloc; "{file}: {what}\n")?)
}

/// What a file may be that is no object, by its bytes; empty where they cannot be read or memory runs out.
fn kind_shown<D: Disk>(alloc: Global, disk: &D, file: &str) -> String
    ensures { ShowsKind (D.bytes_of disk.now) ObjectFault.BadMagic file.now (string_bytes result) }
{
    let Ok(bytes) = read_binary(alloc, disk, file) else {
        return String::new(alloc);
    };
    match kind_line(alloc, file, bytes.as_slice()) {
        Ok(shown) => shown,
        Err(_) => String::new(alloc),
    }
}

/// What a file may be that does not begin as an object does (40); empty of an object with another fault.
pub(crate) fn kind_text<D: Disk>(
    alloc: Global,
    disk: &D,
    refusal: &Placed<String, ObjectFault>,
) -> String
    ensures { ShowsKind (D.bytes_of disk.now) refusal.now.fault (string_bytes refusal.now.place) (string_bytes result) }
{
    match refusal.fault {
        ObjectFault::BadMagic => kind_shown(alloc, disk, refusal.place.as_str()),
        ObjectFault::BadVersion
        | ObjectFault::Short
        | ObjectFault::BadTag
        | ObjectFault::BadField
        | ObjectFault::Trailing => String::new(alloc),
    }
}

/// The line of the sources that copies a file that cannot be read; empty for other faults, where no line copies it, the
/// sources can no longer be read or have another fault, or memory runs out.
pub(crate) fn copied_text<D: Disk>(
    alloc: Global,
    disk: &D,
    sources: &[&str],
    placed: &Placed<String, FileFault>,
) -> String
    ensures { ShowsCopied (D.bytes_of disk.now) (texts_of sources.now) placed.now.fault (string_bytes placed.now.place) (string_bytes result) }
{
    match placed.fault {
        FileFault::CannotRead => copying_text(alloc, disk, sources, placed.place.as_str()),
        FileFault::CannotWrite | FileFault::FileTwice => String::new(alloc),
    }
}
