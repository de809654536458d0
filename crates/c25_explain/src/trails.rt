//! What is shown of a faulty line of a source: the part of it that is refused, the line that opened the block that is
//! open there or that defined its name first, the lines that begin a macro of its name, and its trail, the lines that
//! led there.

ghost use Rattle.std.specs.Option.{option_map};
ghost use Rattle.std.specs.Prelude.{◌≡◌, ◌++◌, IfOk, IsTrue, string_bytes};
ghost use Rattle.c25_asm.specs.Seen.{seen_of};
ghost use Rattle.c25_macro.specs.Tracers.{fault_in};
ghost use Rattle.c25_meaning_language.specs.ExpansionFault.{Faulty};
ghost use Rattle.c25_options.specs.Task.{texts_of};
ghost use Rattle.c25_explain.specs.OpenBlocks.{open_text};
ghost use Rattle.c25_explain.specs.Places.{place_text};
ghost use Rattle.c25_explain.specs.TakenNames.{taken_text};
ghost use Rattle.c25_explain.specs.Trails.{IsFirstTrail, ShowsTrailOver, openings_text, opening_text, text_at, wanted_by};
ghost use Rattle.c25_outline.specs.Macros.{macros_in_files};

use crate::note::line_of;
use crate::open_blocks::open_text;
use crate::places::part_text;
use crate::taken_names::taken_text;
use crate::written::seen_or_written;
use c25_asm::{Refused, SeenLine, Traced, trace};
use c25_disk::disk::Disk;
use c25_disk::work::Work;
use c25_disk::{read_sources, with_copies};
use c25_earlier::earlier_text;
use c25_macro::files::Files;
use c25_macro::tracer::StepFault;
use c25_meaning_common::failure::Failure;
use c25_meaning_common::no_memory::NoMemory;
use c25_meaning_common::placed::{FileLine, Placed};
use c25_meaning_language::statement::FaultKind;
use c25_outline::macros::macros_in_files;
use std::alloc::Global;

/// A line of a source with a fault.
#[derive(Clone, Copy)]
struct FaultyLine<'a> {
    file: &'a str,
    line: usize,
    kind: FaultKind,
}

/// A task: the part that is refused and the trail of this fault in these sources.
#[derive(Clone, Copy)]
struct Trace<'a> {
    sources: &'a [&'a str],
    refused: FaultyLine<'a>,
}

/// Why there is no trail.
#[derive(Drop)]
enum NoTrail {
    /// A source copies the file of this name, which has not been read.
    Missing(String),
    /// The first fault of the sources is another.
    Other,
}

/// The text of the line at a place; empty where there is no such line.
fn text_at<'a>(files: &'a Files, place: FileLine<usize>) -> &'a str
    ensures { result.now ≡ text_at files.now place }
{
    let Some(text) = files.text(files.name(place.file)) else {
        return "";
    };
    match line_of(text, place.line) {
        Some(line) => line,
        None => "",
    }
}

/// One line of the trail as it is shown.
fn opening_text(alloc: Global, files: &Files, place: FileLine<usize>) -> Result<String, NoMemory>
    ensures { IfOk result (λ text. string_bytes text ≡ opening_text files.now place) }
{
    let file = files.name(place.file);
    let line = place.line;
    let text = text_at(files, place);
    Ok(format!(in alloc; "  from {file}:{line}: {text}\n")?)
}

/// All lines of the trail as they are shown.
#[tactic(auto, using(crate::proofs::Openings::openings_more, crate::proofs::Openings::openings_none))]
fn openings_text(
    alloc: Global,
    files: &Files,
    trail: &[FileLine<usize>],
) -> Result<String, NoMemory>
    ensures { IfOk result (λ text. string_bytes text ≡ openings_text files.now trail.now) }
{
    let mut text = String::new(alloc);
    for place in trail {
        text.push_str(opening_text(alloc, files, *place)?.as_str())?;
    }
    Ok(text)
}

/// What is shown of a faulty line before its trail: the part that is refused, where it is known, at 31 and 32 the
/// block that is open, and at 36 the lines that begin a macro of the same name.
fn line_text(
    alloc: Global,
    files: &Files,
    refused: &FaultyLine<'_>,
    seen: &Option<SeenLine<'_>>,
) -> Result<String, NoMemory>
    ensures { IfOk result (λ text. string_bytes text ≡ place_text (Faulty refused.now.file.now refused.now.line refused.now.kind) (macros_in_files files.now) (option_map seen_of seen.now) ++ open_text files.now (Faulty refused.now.file.now refused.now.line refused.now.kind) ++ taken_text files.now (Faulty refused.now.file.now refused.now.line refused.now.kind)) }
{
    let macros = macros_in_files(alloc, files)?;
    let mut text = part_text(alloc, refused.line, refused.kind, macros.as_slice(), seen)?;
    let open = open_text(alloc, files, refused.file, refused.line, refused.kind)?;
    text.push_str(open.as_str())?;
    let taken = taken_text(alloc, files, refused.file, refused.line, refused.kind)?;
    text.push_str(taken.as_str())?;
    Ok(text)
}

/// Whether `fault` is the fault of the line `refused`.
fn is_same(fault: &StepFault<'_>, refused: &FaultyLine<'_>) -> bool
    ensures { IsTrue result → fault_in fault.now ≡ Faulty refused.now.file.now refused.now.line refused.now.kind }
{
    match fault {
        StepFault::Faulty(fault) => {
            fault.place.line == refused.line
                && fault.fault == refused.kind
                && fault.place.file == refused.file
        }
        StepFault::Missing { .. } => false,
    }
}

/// What was found where a source is refused, if that is the fault of the line `refused`.
fn same_refused<'a>(
    source: Refused<'a>,
    refused: &FaultyLine<'_>,
) -> Result<Refused<'a>, Failure<NoTrail>>
    ensures { IfOk result (λ found. (fault_in source.entry.fault ≡ Faulty refused.now.file.now refused.now.line refused.now.kind) × (found ≡ source.entry)) }
{
    if is_same(&source.fault, refused) {
        return Ok(source);
    }
    let Refused { fault, .. } = source;
    match fault {
        StepFault::Missing { name, .. } => Err(Failure::Fault(NoTrail::Missing(name))),
        StepFault::Faulty(_) => Err(Failure::Fault(NoTrail::Other)),
    }
}

/// What is found where the first of some sources that is refused is refused, if that is the fault of the line
/// `refused`.
fn first_refused<'a>(
    alloc: Global,
    files: &'a Files,
    sources: &[&str],
    refused: &FaultyLine<'_>,
) -> Result<Refused<'a>, Failure<NoTrail>>
    ensures { IfOk result (λ found. IsFirstTrail files.now (texts_of sources.now) (Faulty refused.now.file.now refused.now.line refused.now.kind) found.trail.items (option_map seen_of found.seen)) }
{
    for source in sources {
        match trace(alloc, files, source)? {
            Traced::Whole => {}
            Traced::Refused(found) => return same_refused(found, refused),
            Traced::Absent => return Err(Failure::Fault(NoTrail::Other)),
        }
    }
    Err(Failure::Fault(NoTrail::Other))
}

impl Work for Trace<'_> {
    ghost use Rattle.std.specs.Prelude.{IfOk, string_bytes};
    ghost use Rattle.c25_meaning_language.specs.ExpansionFault.{Faulty};
    ghost use Rattle.c25_options.specs.Task.{texts_of};
    ghost use Rattle.c25_explain.specs.Trails.{ShowsTrail, wanted_by};

    /// The part of the line, the other line that the fault is about and the trail, as they are shown.
    type Answer = String;

    type Fault = NoTrail;

    ghost comes_to = { λ work files result. IfOk result (λ text. ShowsTrail files (texts_of work.sources.now) (Faulty work.refused.file.now work.refused.line work.refused.kind) (string_bytes text)) };

    ghost missing_of = { wanted_by };

    fn answer(&self, alloc: Global, files: &Files) -> Result<String, Failure<NoTrail>> {
        let Refused { trail, seen, .. } = first_refused(alloc, files, self.sources, &self.refused)?;
        let FaultyLine { file, line, .. } = self.refused;
        let seen = seen_or_written(alloc, files, file, line, seen);
        let mut text = line_text(alloc, files, &self.refused, &seen)?;
        let earlier = earlier_text(alloc, files, self.sources, self.refused.kind)?;
        text.push_str(earlier.as_str())?;
        text.push_str(openings_text(alloc, files, trail.as_slice())?.as_str())?;
        Ok(text)
    }

    fn missing(fault: &NoTrail) -> Option<&str>
        ensures { option_map (λ name. name.now) result ≡ wanted_by fault.now }
    {
        match fault {
            NoTrail::Missing(name) => Some(name.as_str()),
            NoTrail::Other => None,
        }
    }
}

/// What is shown of a faulty line of a source: the part of it that is refused, where that is known; at 31 and 32 the
/// line that began the block that is open, for 26 the line that defined the name first, for 36 the lines that begin a
/// macro of the same name; and its trail, the lines that called, copied or repeated it. The sources are read again. The text is empty where they cannot be read, their first
/// fault is another, or memory runs out.
pub(crate) fn trail_text<D: Disk>(
    alloc: Global,
    disk: &D,
    sources: &[&str],
    refused: &Placed<FileLine<String>, FaultKind>,
) -> String
    ensures { ShowsTrailOver (D.bytes_of disk.now) (texts_of sources.now) (Faulty (string_bytes refused.now.place.file) refused.now.place.line refused.now.fault) (string_bytes result) }
{
    let Ok(files) = read_sources(alloc, disk, sources) else {
        return String::new(alloc);
    };
    let refused = FaultyLine {
        file: refused.place.file.as_str(),
        line: refused.place.line,
        kind: refused.fault,
    };
    let work = Trace { sources, refused };
    match with_copies(alloc, disk, files, &work) {
        Ok(text) => text,
        Err(_) => String::new(alloc),
    }
}
