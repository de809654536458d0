//! The task `move`: old sources of a disk, moved into a folder.

ghost use Rattle.std.specs.Prelude.{◌≡◌, ◌++◌, IfErr, IfOk, IfSome, OnOk, bytes_eq, false, map, not, option_to_list, string_bytes, true};
ghost use Rattle.std.specs.List.{Any};
ghost use Rattle.c25_disk.specs.Held.{Held, IsAllOf};
ghost use Rattle.c25_disk.specs.Written.{contents_of};
ghost use Rattle.c25_disk.specs.declared.fault.FileFault.TheVariants.{CannotWrite};
ghost use Rattle.c25_move_files.specs.Files.{new_of, old_of};
ghost use Rattle.c25_move_files.specs.Refusals.{file_line};
ghost use Rattle.c25_moving.specs.Making.{IsMadeFrom};
ghost use Rattle.c25_moving.specs.Moving as meaning;
ghost use Rattle.c25_moving.specs.Moving.{AreOldFilesOf, DoesMove, EndsFaulty, Finishes, IsAskedBy, IsMadeHeld, IsRefusal, MayBeOld, WritesThenReports, command_output, end_of, in_place_line, names_of_task};
ghost use Rattle.c25_move_files.specs.Names.{meet};
ghost use Rattle.c25_options.specs.Task.{text_of};
ghost use Rattle.c25_report.specs.Ending.{IsPrinted, IsShort};
ghost use Rattle.c25_report.specs.declared.ending.Ending.TheVariants as ending;

use crate::made::Made;
use crate::making::{Reporting, made};
use crate::old_words::OldWords;
use c25_disk::disk::Disk;
use c25_disk::fault::FileFault;
use c25_disk::{Output, read_binary, write_outputs};
use c25_meaning_common::failure::Failure;
use c25_meaning_common::no_memory::NoMemory;
use c25_move::decode;
use c25_move_files::code_page::code_page_asked;
use c25_move_files::gathered::{Gathered, OldSources, gather};
use c25_move_files::names::{meet, new_name};
use c25_move_files::new::outputs_of;
use c25_move_files::old::OldFile;
use c25_move_files::program::old_program;
use c25_move_files::refusals::Refusal;
use c25_move_files::style::{order_asked, style_asked};
use c25_options::task::MoveTask;
use c25_report::ending::Ending;
use c25_report::printing::print_text;
use std::alloc::Global;
use std::io::Write;

/// How the program ends where nothing is moved.
fn ending_of(refusal: Refusal) -> Ending
    ensures { result ≡ meaning.ending_of refusal }
{
    match refusal {
        Refusal::Faulty(line) => Ending::Faulty(line),
        Refusal::Misused(line) => Ending::Misused(line),
        Refusal::NoMemory(error) => Ending::NoMemory(error),
    }
}

/// The ending where a file of a folder that is read would be written.
fn would_replace(alloc: Global, folder: &str) -> Ending
    ensures { EndsFaulty (λ line. line ≡ in_place_line folder.now) result }
{
    match format!(in alloc; "{folder}: a file that is read would be written") {
        Ok(line) => Ending::Faulty(line),
        Err(error) => Ending::NoMemory(NoMemory::from(error)),
    }
}

/// The ending where a file cannot be written.
fn unwritten(alloc: Global, name: &str, fault: FileFault) -> Ending
    ensures { EndsFaulty (λ line. line ≡ file_line name.now fault) result }
{
    let number = fault.number();
    let fault = fault.name();
    match format!(in alloc; "{name}: {number} {fault}") {
        Ok(line) => Ending::Faulty(line),
        Err(error) => Ending::NoMemory(NoMemory::from(error)),
    }
}

/// The ending where memory ran out.
fn short(error: NoMemory) -> Ending
    ensures { result ≡ ending.NoMemory error }
{
    Ending::NoMemory(error)
}

/// The old sources of a task. Refused where an option has an argument that it does not take.
fn asked<'a>(alloc: Global, task: &'a MoveTask<'a>) -> Result<OldSources<'a>, Ending>
    ensures asked { IfOk result (IsAskedBy task.entry.now) }
    ensures refused { (held : Held) → IfErr result (IsRefusal held task.entry.now) }
{
    let style = match style_asked(alloc, task.writing.style) {
        Ok(style) => style,
        Err(refusal) => return Err(ending_of(refusal)),
    };
    let long_order = match order_asked(alloc, task.writing.long_order) {
        Ok(long_order) => long_order,
        Err(refusal) => return Err(ending_of(refusal)),
    };
    match code_page_asked(alloc, task.writing.from) {
        Ok(code_page) => Ok(OldSources {
            names: task.sources.as_slice(),
            command: task.command,
            style,
            long_order,
            code_page,
            ignore_case: task.writing.ignore_case,
        }),
        Err(refusal) => Err(ending_of(refusal)),
    }
}

/// What is made of the old files of a task, with an old program, if there is one.
fn made_of(
    alloc: Global,
    task: &MoveTask<'_>,
    gathered: &Gathered,
    old: Option<OldWords<'_>>,
) -> Result<Made, Ending>
    ensures made { IfOk result (IsMadeFrom gathered.now task.now.folder.now (record { quiet = task.now.quiet; old = old.entry })) }
    ensures refused { IfErr result IsShort }
{
    let reporting = Reporting {
        quiet: task.quiet,
        old,
    };
    match made(alloc, gathered, task.folder, reporting) {
        Ok(made) => Ok(made),
        Err(error) => Err(short(error)),
    }
}

/// What is made of the old files of a task, compared with the old program, if that is asked for.
fn made_on<D: Disk>(
    alloc: Global,
    disk: &D,
    task: &MoveTask<'_>,
    gathered: &Gathered,
) -> Result<Made, Ending>
    ensures made { IfOk result (IsMadeHeld (D.bytes_of disk.now) task.now gathered.now) }
    ensures refused { IfErr result (IsRefusal (D.bytes_of disk.now) task.now) }
{
    match task.hex {
        None => made_of(alloc, task, gathered, None),
        Some(name) => {
            let words = match old_program(alloc, disk, name) {
                Ok(words) => words,
                Err(refusal) => return Err(ending_of(refusal)),
            };
            let words = &words;
            made_of(alloc, task, gathered, Some(OldWords { name, words }))
        }
    }
}

/// The files that are written: the new ones, and the command file where something has to be placed.
fn outputs<'a>(alloc: Global, made: &'a Made, command: &'a str) -> Result<Vec<Output<'a>>, NoMemory>
    ensures { IfOk result (λ os. map contents_of os.items ≡ map new_of made.entry.now.files.items ++ command_output command.entry.now (string_bytes made.entry.now.command)) }
{
    let mut outputs = outputs_of(alloc, made.files.as_slice())?;
    if !made.command.is_empty() {
        let bytes = Vec::from_slice(alloc, made.command.as_bytes())?;
        outputs.push(Output {
            name: command,
            bytes,
        })?;
    }
    Ok(outputs)
}

/// The names of files that are written.
fn output_names<'a>(alloc: Global, outputs: &[Output<'a>]) -> Result<Vec<&'a str>, NoMemory>
    ensures { IfOk result (λ names. map (λ n. n.now) names.items ≡ map (λ f. f.0) (map contents_of outputs.now)) }
{
    let mut names = Vec::new(alloc);
    for output in outputs {
        names.push(output.name)?;
    }
    Ok(names)
}

/// Adds a name, if there is one.
fn push_name<'a>(names: &mut Vec<&'a str>, name: Option<&'a str>) -> Result<(), NoMemory>
    ensures { OnOk result (map (λ n. n.now) names.new.items ≡ map (λ n. n.now) names.old.items ++ option_to_list (text_of name.entry)) }
{
    match name {
        Some(name) => names.push(name).map_err(NoMemory::from),
        None => Ok(()),
    }
}

/// The names of old files.
fn old_names<'a>(alloc: Global, gathered: &'a Gathered) -> Result<Vec<&'a str>, NoMemory>
    ensures { IfOk result (λ names. map (λ n. n.now) names.items ≡ map (λ f. f.name) (map old_of gathered.entry.now.files.items)) }
{
    let mut names = Vec::new(alloc);
    for file in &gathered.files {
        names.push(file.name.as_str())?;
    }
    Ok(names)
}

/// Whether no file that is read for a task is written.
fn is_apart(
    alloc: Global,
    task: &MoveTask<'_>,
    gathered: &Gathered,
    outputs: &[Output<'_>],
) -> Result<bool, NoMemory>
    ensures { IfOk result (λ apart. apart ≡ not (meet (map (λ f. f.0) (map contents_of outputs.now)) (names_of_task gathered.now task.now))) }
{
    let written = output_names(alloc, outputs)?;
    let mut read = old_names(alloc, gathered)?;
    push_name(&mut read, task.command)?;
    push_name(&mut read, task.hex)?;
    Ok(!meet(written.as_slice(), read.as_slice()))
}

/// The files that are written for a task. Refused where one of them is a file that was read, by its name.
fn prepared<'a>(
    alloc: Global,
    task: &MoveTask<'_>,
    gathered: &Gathered,
    made: &'a Made,
    command: &'a str,
) -> Result<Vec<Output<'a>>, Ending>
    ensures files { IfOk result (λ os. map contents_of os.items ≡ map new_of made.entry.now.files.items ++ command_output command.entry.now (string_bytes made.entry.now.command)) }
    ensures apart { IfOk result (λ os. meet (map (λ f. f.0) (map contents_of os.items)) (names_of_task gathered.now task.now) ≡ false) }
    ensures refused { IfErr result (EndsFaulty (meaning.WouldReplaceNamed task.now.folder.now (names_of_task gathered.now task.now) (map new_of made.entry.now.files.items ++ command_output command.entry.now (string_bytes made.entry.now.command)))) }
{
    let outputs = match outputs(alloc, made, command) {
        Ok(outputs) => outputs,
        Err(error) => return Err(short(error)),
    };
    match is_apart(alloc, task, gathered, outputs.as_slice()) {
        Ok(true) => Ok(outputs),
        Ok(false) => Err(would_replace(alloc, task.folder)),
        Err(error) => Err(short(error)),
    }
}

/// How the program ends where all is written and reported.
fn end_of(made: &Made) -> Ending
    ensures { result ≡ end_of made.now }
{
    if made.is_left {
        Ending::Unfinished
    } else {
        Ending::Done
    }
}

/// Prints the report.
fn reported<O: Write>(made: &Made, out: &mut O) -> Ending
    ensures { IsPrinted (string_bytes made.now.report) (end_of made.now) result (O.contents out.old) (O.contents out.new) }
{
    match print_text(made.report.as_str(), out) {
        Ok(()) => end_of(made),
        Err(_) => Ending::Unprinted,
    }
}

/// Writes files, and then prints the report.
fn written<D: Disk, O: Write>(
    alloc: Global,
    outputs: &[Output<'_>],
    made: &Made,
    disk: &mut D,
    out: &mut O,
) -> Ending
    ensures { WritesThenReports (map contents_of outputs.now) made.now result (D.written disk.old) (D.written disk.new) (O.contents out.old) (O.contents out.new) }
{
    match write_outputs(alloc, disk, outputs) {
        Ok(()) => reported(made, out),
        Err(Failure::NoMemory(error)) => short(error),
        Err(Failure::Fault(placed)) => unwritten(alloc, placed.place.as_str(), placed.fault),
    }
}

/// The old files of a task, and what is made of them.
#[derive(Clone, Copy)]
struct Moving<'a> {
    gathered: &'a Gathered,
    made: &'a Made,
}

/// Whether a text is that of an old file.
fn is_text_of(file: &OldFile, text: &str) -> bool
    ensures { result ≡ bytes_eq (old_of file.now).read text.now }
{
    match &file.unspelled {
        Some(read) => read.as_str() == text,
        None => file.text.as_str() == text,
    }
}

/// Whether a text is that of one of old files.
fn has_text(files: &[OldFile], text: &str) -> bool
    ensures { result ≡ meaning.has_text (map old_of files.now) text.now }
{
    for file in files {
        if is_text_of(file, text) {
            return true;
        }
    }
    false
}

/// Whether a file that is to be written, and has these bytes now, has others then and may be an old file.
fn may_be_old(
    alloc: Global,
    gathered: &Gathered,
    bytes: &[u8],
    output: &Output<'_>,
) -> Result<bool, NoMemory>
    ensures { IfOk result (λ b. b ≡ true → meaning.AreOldBytes gathered.now.code_page (map old_of gathered.now.files.items) bytes.now (contents_of output.now)) }
{
    let is_same = bytes == output.bytes.as_slice();
    if is_same {
        return Ok(false);
    }
    let decoded = decode(alloc, gathered.code_page, bytes)?;
    let is_old = has_text(gathered.files.as_slice(), decoded.text.as_str());
    Ok(is_old)
}

/// The bytes that a file has, if it can be read.
fn bytes_there<D: Disk>(alloc: Global, disk: &D, name: &str) -> Result<Option<Vec<u8>>, NoMemory>
    ensures { IfOk result (λ o. IfSome o (λ bytes. IsAllOf (D.bytes_of disk.now name.now) bytes.items)) }
{
    match read_binary(alloc, disk, name) {
        Ok(bytes) => Ok(Some(bytes)),
        Err(failure) => match failure {
            Failure::NoMemory(error) => Err(error),
            Failure::Fault(_) => Ok(None),
        },
    }
}

/// Whether a file that would be written has now the bytes of an old file, and would have others: it may be that file under
/// another name.
fn replaces_one<D: Disk>(
    alloc: Global,
    disk: &D,
    gathered: &Gathered,
    output: &Output<'_>,
) -> Result<bool, NoMemory>
    ensures { IfOk result (λ b. b ≡ true → MayBeOld (D.bytes_of disk.now) gathered.now.code_page (map old_of gathered.now.files.items) (contents_of output.now)) }
{
    match bytes_there(alloc, disk, output.name) {
        Ok(Some(bytes)) => may_be_old(alloc, gathered, bytes.as_slice(), output),
        Ok(None) => Ok(false),
        Err(error) => Err(error),
    }
}

/// Whether one of these files may be an old file under another name.
fn replaces_old<D: Disk>(
    alloc: Global,
    disk: &D,
    gathered: &Gathered,
    outputs: &[Output<'_>],
) -> Result<bool, NoMemory>
    ensures { IfOk result (λ b. b ≡ true → Any (MayBeOld (D.bytes_of disk.now) gathered.now.code_page (map old_of gathered.now.files.items)) (map contents_of outputs.now)) }
{
    for output in outputs {
        let is_old = replaces_one(alloc, disk, gathered, output)?;
        if is_old {
            return Ok(true);
        }
    }
    Ok(false)
}

/// Writes the files of a task, unless one of them is a file that was read or may be an old one, and then prints the report.
fn finished<D: Disk, O: Write>(
    alloc: Global,
    task: &MoveTask<'_>,
    moving: Moving<'_>,
    disk: &mut D,
    out: &mut O,
) -> Ending
    ensures { Finishes (D.bytes_of disk.old) task.now moving.entry.gathered.now moving.entry.made.now result (D.written disk.old) (D.written disk.new) (O.contents out.old) (O.contents out.new) }
{
    let Moving { gathered, made } = moving;
    let command = match new_name(alloc, task.folder, "move.cmd") {
        Ok(command) => command,
        Err(error) => return short(error),
    };
    let outputs = match prepared(alloc, task, gathered, made, command.as_str()) {
        Ok(outputs) => outputs,
        Err(ending) => return ending,
    };
    let files = outputs.as_slice();
    match replaces_old(alloc, disk, gathered, files) {
        Ok(false) => written(alloc, files, made, disk, out),
        Ok(true) => would_replace(alloc, task.folder),
        Err(error) => short(error),
    }
}

/// What a task makes of its old files, or why it makes nothing.
fn made_or_refused<D: Disk>(
    alloc: Global,
    task: &MoveTask<'_>,
    disk: &D,
) -> Result<(Gathered, Made), Ending>
    ensures old { IfOk result (λ p. AreOldFilesOf (D.bytes_of disk.now) task.now p.0) }
    ensures made { IfOk result (λ p. IsMadeHeld (D.bytes_of disk.now) task.now p.0 p.1) }
    ensures refused { IfErr result (IsRefusal (D.bytes_of disk.now) task.now) }
{
    let asked = asked(alloc, task)?;
    match gather(alloc, disk, asked) {
        Ok(gathered) => {
            let made = made_on(alloc, disk, task, &gathered)?;
            Ok((gathered, made))
        }
        Err(refusal) => Err(ending_of(refusal)),
    }
}

/// Moves the sources of a task and the files that they copy: writes the new files and the command file into its folder,
/// and prints the report. Nothing is written and nothing is printed, but a line that says why, where an option has an
/// argument that it does not take, a file cannot be read (8), two new files would have one name (37), the sources show both
/// styles and none is asked for, the old program has a fault (80 to 89), a file that is read would be written, or memory
/// runs out (9). Where a file cannot be written (7), those before it are, and nothing is printed.
pub fn move_sources<D: Disk, O: Write>(
    alloc: Global,
    task: &MoveTask<'_>,
    disk: &mut D,
    out: &mut O,
) -> Ending
    ensures { DoesMove (D.bytes_of disk.old) task.now result (D.written disk.old) (D.written disk.new) (O.contents out.old) (O.contents out.new) }
{
    match made_or_refused(alloc, task, disk) {
        Ok((gathered, made)) => {
            let moving = Moving {
                gathered: &gathered,
                made: &made,
            };
            finished(alloc, task, moving, disk, out)
        }
        Err(ending) => ending,
    }
}
