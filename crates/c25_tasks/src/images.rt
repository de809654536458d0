//! The task `dis`: a file is printed, or an image is written as a source.

ghost use Rattle.std.specs.Prelude.{◌≡◌, ℕ, List, IfOk, map, string_bytes};
ghost use Rattle.c25_disk.specs.Held.{Held};
ghost use Rattle.c25_disk.specs.Written.{contents_of};
ghost use Rattle.c25_image_source.specs.Asked.{mistake_text};
ghost use Rattle.c25_image_source.specs.Faults.{image_fault, image_line, not_made_line};
ghost use Rattle.c25_options.specs.Task.{text_of};
ghost use Rattle.c25_tasks.specs.BuildToDisk.{WritesAndPrints};
ghost use Rattle.c25_tasks.specs.Images.{DoesAsked, DoesDis, DoesSource, IsHintNote, IsImageNote, IsNoteAlone, IsNotMadeNote, TellsFailure, TellsFault, TellsImage, TellsNoted, WritesUnder, WritesUnless, any_not_made, any_of, made_files, overwriting_line};
ghost use Rattle.c25_tasks.specs.Running.{is_explained};
ghost use Rattle.c25_tasks.specs.Tells.{IsMisuse};

use crate::disassembly::disassemble;
use crate::report::{is_done, notes_under, report_of_fault};
use crate::running::is_explained;
use crate::writing::write_files;
use c25_binary::binary_fault::BinaryFault;
use c25_disk::Output;
use c25_disk::disk::Disk;
use c25_explain::fault::AnyFault;
use c25_explain::note::{Shown, explained};
use c25_explain::notes::explained_at;
use c25_image_source::asked::{DisAsked, ImageAsked};
use c25_image_source::fault::{ImageFault, SourceFault};
use c25_image_source::made::{MadeNames, MadeSource};
use c25_image_source::{
    Mistake, dis_asked, first_file, image_line, made_names, made_source, not_made_line, overwrites,
};
use c25_inputs::sources::without_definitions;
use c25_meaning_common::failure::Failure;
use c25_meaning_common::no_memory::NoMemory;
use c25_meaning_common::placed::FileLine;
use c25_meaning_language::statement::FaultKind;
use c25_options::task::{DisassembleTask, FaultOptions};
use c25_report::ending::{Ending, Report};
use c25_report::printing::print_answers;
use c25_source::NotMade;
use c25_source::source::Source;
use c25_source_notes::notes::SourceNotes;
use std::alloc::Global;
use std::io::Write;

/// How the program ends where something is wrong with what is asked for.
pub(crate) fn misused(alloc: Global, mistake: Mistake) -> Ending
    ensures { IsMisuse (mistake_text mistake) result }
{
    match String::from_str(alloc, mistake.text()) {
        Ok(line) => Ending::Misused(line),
        Err(error) => Ending::NoMemory(NoMemory::from(error)),
    }
}

/// How the program ends where a file that is read has the name of one that would be written.
fn overwriting(alloc: Global, base: &str) -> Ending
    ensures { IsMisuse (overwriting_line base.now) result }
{
    match format!(in alloc; "c25: --out {base} would overwrite a file that is read") {
        Ok(line) => Ending::Misused(line),
        Err(error) => Ending::NoMemory(NoMemory::from(error)),
    }
}

/// What is reported of a fault of an image, and the file of its hints.
#[derive(Clone, Copy)]
pub(crate) struct Telling<'a> {
    pub(crate) notes: SourceNotes<'a>,
    pub(crate) hints: Option<&'a str>,
}

/// The report of a line with its note, unless memory ran out for the line.
fn report_line(alloc: Global, line: Result<String, NoMemory>, note: String) -> Report
    ensures { (text : List ℕ) → IfOk line (λ l. string_bytes l ≡ text) → TellsNoted text (λ n. n ≡ string_bytes note) result.ending (string_bytes result.note) }
{
    match line {
        Ok(line) => Report {
            ending: Ending::Faulty(line),
            note,
        },
        Err(error) => Report::without_note(alloc, Ending::NoMemory(error)),
    }
}

/// The note of a fault that has no line: its explanation, unless memory runs out.
fn note_alone(alloc: Global, fault: AnyFault) -> String
    ensures { IsNoteAlone fault (string_bytes result) }
{
    match explained(alloc, fault, Shown::Nothing, "") {
        Ok(note) => note,
        Err(_) => String::new(alloc),
    }
}

/// A fault of binary files among all faults.
fn any_of(fault: BinaryFault) -> AnyFault
    ensures { result ≡ any_of fault }
{
    match fault {
        BinaryFault::OddLength => AnyFault::OddLength,
        BinaryFault::LengthsDiffer => AnyFault::LengthsDiffer,
        BinaryFault::TooLong => AnyFault::TooLong,
    }
}

/// The note of a line of the hints that is no hint: its explanation after that line, unless memory runs out.
fn hint_note<D: Disk>(alloc: Global, disk: &D, hints: Option<&str>, line: usize) -> String
    ensures { IsHintNote (D.bytes_of disk.now) (text_of hints.entry) line (string_bytes result) }
{
    let Some(file) = hints else {
        return String::new(alloc);
    };
    let place = FileLine { file, line };
    match explained_at(alloc, disk, AnyFault::Hint, place, "") {
        Ok(note) => note,
        Err(_) => String::new(alloc),
    }
}

/// The note of a fault of the files of an image, or of its hints, other than one of the chain: its explanation, where that
/// is asked for.
fn image_note<D: Disk>(
    alloc: Global,
    disk: &D,
    fault: &ImageFault<String>,
    telling: Telling<'_>,
) -> String
    ensures { IsImageNote (D.bytes_of disk.now) (text_of telling.entry.hints) (is_explained telling.entry.notes) fault.now (string_bytes result) }
{
    if !is_explained(telling.notes) {
        return String::new(alloc);
    }
    match fault {
        ImageFault::Chain(_) | ImageFault::NoHex(_) => String::new(alloc),
        ImageFault::Binary(placed) => note_alone(alloc, any_of(placed.fault)),
        ImageFault::Hint { line } => hint_note(alloc, disk, telling.hints, *line),
    }
}

/// The report of a fault of an image or of its hints other than one of the chain, with its note where that is asked for.
fn report_own<D: Disk>(
    alloc: Global,
    disk: &D,
    fault: &ImageFault<String>,
    telling: Telling<'_>,
) -> Report
    ensures { TellsNoted (image_line (image_fault fault.now)) (IsImageNote (D.bytes_of disk.now) (text_of telling.entry.hints) (is_explained telling.entry.notes) fault.now) result.ending (string_bytes result.note) }
{
    let note = image_note(alloc, disk, fault, telling);
    report_line(alloc, image_line(alloc, fault), note)
}

/// The report of a fault of the files of an image, or of its hints, with its note where that is asked for.
fn report_image<D: Disk>(
    alloc: Global,
    disk: &D,
    fault: ImageFault<String>,
    telling: Telling<'_>,
) -> Report
    ensures { TellsImage (D.bytes_of disk.now) telling.entry.notes (text_of telling.entry.hints) fault result.ending (string_bytes result.note) }
{
    match fault {
        ImageFault::Chain(fault) => {
            report_of_fault(alloc, disk, Failure::Fault(fault), telling.notes)
        }
        own => report_own(alloc, disk, &own, telling),
    }
}

/// The fault for which the words of an image have no source, among all faults.
fn any_not_made(why: NotMade) -> AnyFault
    ensures { result ≡ any_not_made why }
{
    match why {
        NotMade::TooManySections(_) => AnyFault::TooManySections,
        NotMade::LongName => AnyFault::Source(FaultKind::TooLarge),
    }
}

/// The note of why the words of an image have no source: its explanation, where that is asked for.
fn not_made_note(alloc: Global, why: NotMade, explain: bool) -> String
    ensures { IsNotMadeNote explain why (string_bytes result) }
{
    if explain {
        note_alone(alloc, any_not_made(why))
    } else {
        String::new(alloc)
    }
}

/// The report of why the words of an image have no source.
fn report_not_made(alloc: Global, why: NotMade, explain: bool) -> Report
    ensures { TellsNoted (not_made_line why) (IsNotMadeNote explain why) result.ending (string_bytes result.note) }
{
    let note = not_made_note(alloc, why, explain);
    report_line(alloc, not_made_line(alloc, why), note)
}

/// The report of a fault for which an image has no source.
fn report_source_fault<D: Disk>(
    alloc: Global,
    disk: &D,
    fault: SourceFault,
    telling: Telling<'_>,
) -> Report
    ensures { TellsFault (D.bytes_of disk.now) telling.entry.notes (text_of telling.entry.hints) fault result.ending (string_bytes result.note) }
{
    match fault {
        SourceFault::Image(fault) => report_image(alloc, disk, fault, telling),
        SourceFault::NotMade(why) => report_not_made(alloc, why, is_explained(telling.notes)),
    }
}

/// The report of why an image has no source.
pub(crate) fn report_failure<D: Disk>(
    alloc: Global,
    disk: &D,
    failure: Failure<SourceFault>,
    telling: Telling<'_>,
) -> Report
    ensures { TellsFailure (D.bytes_of disk.now) telling.entry.notes (text_of telling.entry.hints) failure result.ending (string_bytes result.note) }
{
    match failure {
        Failure::NoMemory(error) => Report::without_note(alloc, Ending::NoMemory(error)),
        Failure::Fault(fault) => report_source_fault(alloc, disk, fault, telling),
    }
}

/// The output files of an image: its source, and its command file.
fn outputs_of<'a>(
    alloc: Global,
    names: &'a MadeNames,
    made: Source,
) -> Result<Vec<Output<'a>>, NoMemory>
    ensures { IfOk result (λ outputs. map contents_of outputs.items ≡ made_files (string_bytes names.entry.now.source) (string_bytes names.entry.now.command) made) }
{
    let Source {
        source,
        command,
        ..
    } = made;
    let mut outputs = Vec::new(alloc);
    outputs.push(Output {
        name: names.source.as_str(),
        bytes: source.into_bytes(),
    })?;
    outputs.push(Output {
        name: names.command.as_str(),
        bytes: command.into_bytes(),
    })?;
    Ok(outputs)
}

/// Where the source of an image is written, and what is reported of a fault.
#[derive(Clone, Copy)]
struct Writing<'a> {
    names: &'a MadeNames,
    notes: SourceNotes<'a>,
}

/// Writes the source of an image and its command file, and then prints what is said of them.
fn write_made<D: Disk, O: Write>(
    alloc: Global,
    made: MadeSource,
    writing: Writing<'_>,
    disk: &mut D,
    out: &mut O,
) -> Report
    ensures { (held : Held) → WritesAndPrints held writing.entry.notes (made_files (string_bytes writing.entry.names.now.source) (string_bytes writing.entry.names.now.command) made.source) (string_bytes made.told) result.ending (string_bytes result.note) (D.written disk.old, D.written disk.new) (O.contents out.old, O.contents out.new) }
{
    let MadeSource { source, told } = made;
    let outputs = match outputs_of(alloc, writing.names, source) {
        Ok(outputs) => outputs,
        Err(error) => return Report::without_note(alloc, Ending::NoMemory(error)),
    };
    let report = write_files(alloc, outputs.as_slice(), writing.notes, disk);
    if is_done(&report.ending) {
        return Report::without_note(alloc, print_answers(told.as_str(), out));
    }
    report
}

/// Writes an image as a source under names, unless it has none.
fn write_under<D: Disk, O: Write>(
    alloc: Global,
    asked: ImageAsked<'_>,
    writing: Writing<'_>,
    disk: &mut D,
    out: &mut O,
) -> Report
    ensures { WritesUnder (D.bytes_of disk.old) writing.entry.notes asked.entry (string_bytes writing.entry.names.now.source) (string_bytes writing.entry.names.now.command) result.ending (string_bytes result.note) (D.written disk.old, D.written disk.new) (O.contents out.old, O.contents out.new) }
{
    match made_source(alloc, disk, asked, writing.names.source.as_str()) {
        Ok(made) => write_made(alloc, made, writing, disk, out),
        Err(failure) => {
            let telling = Telling {
                notes: writing.notes,
                hints: asked.hints,
            };
            report_failure(alloc, disk, failure, telling)
        }
    }
}

/// Writes an image as a source under names, unless one of them is that of a file that is read.
fn write_unless<D: Disk, O: Write>(
    alloc: Global,
    asked: ImageAsked<'_>,
    writing: Writing<'_>,
    disk: &mut D,
    out: &mut O,
) -> Report
    ensures { WritesUnless (D.bytes_of disk.old) writing.entry.notes asked.entry (string_bytes writing.entry.names.now.source) (string_bytes writing.entry.names.now.command) result.ending (string_bytes result.note) (D.written disk.old, D.written disk.new) (O.contents out.old, O.contents out.new) }
{
    if overwrites(asked, writing.names) {
        return Report::without_note(alloc, overwriting(alloc, asked.base));
    }
    write_under(alloc, asked, writing, disk, out)
}

/// Writes an image as a source.
fn write_image<D: Disk, O: Write>(
    alloc: Global,
    asked: ImageAsked<'_>,
    explain: bool,
    disk: &mut D,
    out: &mut O,
) -> Report
    ensures { DoesSource (D.bytes_of disk.old) explain asked.entry result.ending (string_bytes result.note) (D.written disk.old, D.written disk.new) (O.contents out.old, O.contents out.new) }
{
    let names = match made_names(alloc, asked.base) {
        Ok(names) => names,
        Err(error) => return Report::without_note(alloc, Ending::NoMemory(error)),
    };
    let files = [first_file(asked.files)];
    let options = FaultOptions {
        explain,
        all: false,
    };
    let writing = Writing {
        names: &names,
        notes: notes_under(options, None, without_definitions(&[]), &files),
    };
    write_unless(alloc, asked, writing, disk, out)
}

/// Does what a command line of `dis` asks for: prints a file as instructions, or writes an image as a source.
fn do_asked<D: Disk, O: Write>(
    alloc: Global,
    asked: DisAsked<'_>,
    explain: bool,
    disk: &mut D,
    out: &mut O,
) -> Report
    ensures { DoesAsked (D.bytes_of disk.old) explain asked.entry result.ending (string_bytes result.note) (D.written disk.old, D.written disk.new) (O.contents out.old, O.contents out.new) }
{
    match asked {
        DisAsked::Print(printing) => disassemble(alloc, printing, explain, disk, out),
        DisAsked::Source(image) => write_image(alloc, image, explain, disk, out),
    }
}

/// Does what a task asks for: prints a file as instructions, or writes an image as a source. Where something is wrong with
/// what is asked for, nothing is read.
pub(crate) fn dis<D: Disk, O: Write>(
    alloc: Global,
    task: &DisassembleTask<'_>,
    disk: &mut D,
    out: &mut O,
) -> Report
    ensures { DoesDis (D.bytes_of disk.old) task.now result.ending (string_bytes result.note) (D.written disk.old, D.written disk.new) (O.contents out.old, O.contents out.new) }
{
    match dis_asked(*task) {
        Ok(asked) => do_asked(alloc, asked, task.explain, disk, out),
        Err(mistake) => Report::without_note(alloc, misused(alloc, mistake)),
    }
}
