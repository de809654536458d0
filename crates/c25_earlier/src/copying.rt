//! The line that copies a file.

ghost use Rattle.std.specs.Option.{option_map};
ghost use Rattle.std.specs.Prelude.{◌≡◌, IfOk, map, string_bytes};
ghost use Rattle.c25_macro.specs.Tracers.{fault_in};
ghost use Rattle.c25_meaning_language.specs.ExpansionFault.{Missing};
ghost use Rattle.c25_earlier.specs.Copying as meaning;

use crate::lines::text_at;
use c25_asm::{Traced, trace};
use c25_disk::disk::Disk;
use c25_disk::work::Work;
use c25_disk::{read_sources, with_copies};
use c25_files::files::Files;
use c25_macro::tracer::StepFault;
use c25_meaning_common::failure::Failure;
use c25_meaning_common::no_memory::NoMemory;
use c25_meaning_common::placed::FileLine;
use std::alloc::Global;

/// A task: the line of these sources that copies the file of this name.
#[derive(Clone, Copy)]
struct Copying<'a> {
    sources: &'a [&'a str],
    name: &'a str,
}

/// Why there is no such line.
#[derive(Drop)]
enum NoLine {
    /// The sources copy another file first, which has not been read.
    Missing(String),
    /// The sources do not copy the file, or a line before has a fault.
    Other,
}

/// The place of the line with this fault, if it copies the file of this name.
fn place_of<'a>(fault: StepFault<'a>, wanted: &str) -> Result<FileLine<&'a str>, Failure<NoLine>>
    ensures { IfOk result (λ place. fault_in fault.entry ≡ Missing place.file.now place.line wanted.now) }
{
    match fault {
        StepFault::Missing { file, line, name } => {
            if name.as_str() == wanted {
                Ok(FileLine { file, line })
            } else {
                Err(Failure::Fault(NoLine::Missing(name)))
            }
        }
        StepFault::Faulty(_) => Err(Failure::Fault(NoLine::Other)),
    }
}

/// The place of the line that copies the file of this name, where it is the first fault of these sources that the
/// file is not there.
fn copying_place<'a>(
    alloc: Global,
    files: &'a Files,
    sources: &[&str],
    name: &str,
) -> Result<FileLine<&'a str>, Failure<NoLine>>
    ensures { IfOk result (λ place. meaning.Copies files.now (map (λ s. s.now) sources.now) name.now place.file.now place.line) }
{
    for source in sources {
        match trace(alloc, files, source)? {
            Traced::Whole => {}
            Traced::Refused(refused) => return place_of(refused.fault, name),
            Traced::Absent => return Err(Failure::Fault(NoLine::Other)),
        }
    }
    Err(Failure::Fault(NoLine::Other))
}

/// A line of a file as it is shown.
fn from_text(alloc: Global, files: &Files, place: FileLine<&str>) -> Result<String, NoMemory>
    ensures { IfOk result (λ text. string_bytes text ≡ meaning.from_text files.now place.entry.file.now place.entry.line) }
{
    let FileLine { file, line } = place;
    let text = text_at(files, file, line);
    Ok(format!(in alloc; "  from {file}:{line}: {text}\n")?)
}

impl Work for Copying<'_> {
    ghost use Rattle.std.specs.Prelude.{IfOk, map, string_bytes};
    ghost use Rattle.c25_earlier.specs.Copying.{ShowsCopying, wanted_by};

    /// The line as it is shown.
    type Answer = String;

    type Fault = NoLine;

    ghost comes_to = { λ work files result. IfOk result (λ text. ShowsCopying files (map (λ s. s.now) work.sources.now) work.name.now (string_bytes text)) };

    ghost missing_of = { wanted_by };

    fn answer(&self, alloc: Global, files: &Files) -> Result<String, Failure<NoLine>> {
        let place = copying_place(alloc, files, self.sources, self.name)?;
        let text = from_text(alloc, files, place)?;
        Ok(text)
    }

    fn missing(fault: &NoLine) -> Option<&str>
        ensures { option_map (λ name. name.now) result ≡ wanted_by fault.now }
    {
        match fault {
            NoLine::Missing(name) => Some(name.as_str()),
            NoLine::Other => None,
        }
    }
}

/// The line of these sources, or of a file that they copy, that copies the file of this name, which cannot be read (8).
/// The sources are read again. The text is empty where no line copies it, as for a source itself, a source cannot be
/// read or has a fault before that line, or memory runs out.
pub fn copying_text<D: Disk>(alloc: Global, disk: &D, sources: &[&str], name: &str) -> String
    ensures { meaning.ShowsCopyingOver (D.bytes_of disk.now) (map (λ s. s.now) sources.now) name.now (string_bytes result) }
{
    let Ok(files) = read_sources(alloc, disk, sources) else {
        return String::new(alloc);
    };
    let work = Copying { sources, name };
    match with_copies(alloc, disk, files, &work) {
        Ok(text) => text,
        Err(_) => String::new(alloc),
    }
}
