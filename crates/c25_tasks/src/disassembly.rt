//! Printing of objects and hex texts as instructions.

ghost use Rattle.std.specs.Prelude.{◌≡◌, Some, None, true, false, string_bytes};
ghost use Rattle.c25_chain.specs.Refusal.{IsRefusedAs};
ghost use Rattle.c25_chain.specs.declared.fault.ChainFault.TheVariants as refusal;
ghost use Rattle.c25_dis.specs.Sections.{IsModuleText};
ghost use Rattle.c25_disk.specs.declared.fault.FileFault.TheVariants as kind;
ghost use Rattle.c25_tasks.specs.Disassembly.{Disassembles, DisassemblesBy, DisassemblesFrom, DisassemblesNamed, DisassemblesTold, DoesDisassemble, IsGivenText, IsTextOf, RefusesObject, address_of, given_by, given_in, is_hex, no_address_line, object_line};
ghost use Rattle.c25_inputs.specs.Objects.{module_in};
ghost use Rattle.c25_tasks.specs.Tells.{IsLineOf};
ghost use Rattle.c25_options.specs.Task.{text_of};

use crate::gaps::with_remark;
use crate::report::{notes_under, report_answers, report_of_fault};
use c25_chain::fault::{ChainFault, Fault};
use c25_dis::{disassemble_module, disassemble_words};
use c25_disk::disk::Disk;
use c25_disk::fault::FileFault;
use c25_disk::read_binary;
use c25_hex::read_hex;
use c25_image_source::asked::Printing;
use c25_inputs::files::fault_of_file;
use c25_inputs::objects::{Object, module_of};
use c25_inputs::sources::without_definitions;
use c25_meaning_common::failure::Failure;
use c25_meaning_common::no_memory::NoMemory;
use c25_meaning_common::placed::Placed;
use c25_options::task::FaultOptions;
use c25_report::ending::{Ending, Report};
use c25_source_notes::notes::SourceNotes;
use c25_texts::hexadecimal_of;
use std::alloc::Global;
use std::io::Write;

/// Whether bytes are read as a hex text: they begin with `:`, as no object does.
fn is_hex(bytes: &[u8]) -> bool
    ensures { result ≡ is_hex bytes.now }
{
    match bytes.first() {
        Some(first) => *first == b':',
        None => false,
    }
}

/// The words of a hex text from an address on, disassembled. The first fault of the text is the answer (80 to
/// 89).
fn words_text(alloc: Global, text: &str, start: u16) -> Result<String, Fault>
    ensures { IsTextOf (IsGivenText start) (given_by text.now) result }
{
    match read_hex(alloc, text) {
        Ok(words) => Ok(disassemble_words(alloc, &words, start)?),
        Err(Failure::NoMemory(error)) => Err(error.into()),
        Err(Failure::Fault(fault)) => Err(Failure::Fault(ChainFault::Hex(fault))),
    }
}

/// The fault of a file that is not UTF-8 (8), unless memory runs out for its name.
fn no_text(alloc: Global, name: &str) -> Fault
    ensures { IsRefusedAs (refusal.File (record { place = name.now; fault = kind.CannotRead })) result }
{
    match String::from_str(alloc, name) {
        Ok(place) => {
            let fault = FileFault::CannotRead;
            Failure::Fault(ChainFault::File(Placed { place, fault }))
        }
        Err(error) => Failure::NoMemory(NoMemory::from(error)),
    }
}

/// The words of a hex file from an address on, disassembled. The faults are that it is not UTF-8 (8), and
/// then those of its lines (80 to 89).
fn hex_text(alloc: Global, file: &Object<'_>, start: u16) -> Result<String, Fault>
    ensures { IsTextOf (IsGivenText start) (given_in (file.now.name.now, file.now.bytes.items)) result }
{
    match str::from_utf8(file.bytes.as_slice()) {
        Ok(text) => words_text(alloc, text, start),
        Err(_not_utf8) => Err(no_text(alloc, file.name)),
    }
}

/// The module of an object file, disassembled. Invalid bytes are fault 40 to 45.
fn object_text(alloc: Global, file: &Object<'_>) -> Result<String, Fault>
    ensures { IsTextOf IsModuleText (module_in (file.now.name.now, file.now.bytes.items)) result }
{
    let module = module_of(alloc, file)?;
    match disassemble_module(alloc, &module) {
        Ok(text) => Ok(text),
        Err(error) => Err(error.into()),
    }
}

/// Which notes are reported of a fault, and where printing begins.
#[derive(Clone, Copy)]
struct Asked<'a> {
    notes: SourceNotes<'a>,
    /// The address that `--from` gives.
    start: Option<u16>,
}

/// The line for an argument of `--from` that is no address, unless memory runs out.
fn no_address(alloc: Global, word: &str) -> Ending
    ensures { IsLineOf (no_address_line word.now) result }
{
    match format!(in alloc; "dis: no address: {word}") {
        Ok(line) => Ending::Faulty(line),
        Err(error) => Ending::NoMemory(NoMemory::from(error)),
    }
}

/// The line for an object where `--from` is given, unless memory runs out.
fn is_object(alloc: Global, name: &str) -> Ending
    ensures { IsLineOf (object_line name.now) result }
{
    match format!(in alloc; "dis: {name} is an object, and --from is for a hex text") {
        Ok(line) => Ending::Faulty(line),
        Err(error) => Ending::NoMemory(NoMemory::from(error)),
    }
}

/// The report of an object file where `--from` is given: that it is an object, or the fault of its bytes (40
/// to 45).
fn refuse_object<D: Disk>(
    alloc: Global,
    disk: &D,
    file: &Object<'_>,
    notes: SourceNotes<'_>,
) -> Report
    ensures { RefusesObject (D.bytes_of disk.now) notes.entry (file.now.name.now, file.now.bytes.items) result.ending (string_bytes result.note) }
{
    match module_of(alloc, file) {
        Ok(_module) => Report::without_note(alloc, is_object(alloc, file.name)),
        Err(fault) => report_of_fault(alloc, disk, fault, notes),
    }
}

/// Prints an object file, unless `--from` is given.
fn print_object<D: Disk, O: Write>(
    alloc: Global,
    file: &Object<'_>,
    asked: Asked<'_>,
    disk: &D,
    out: &mut O,
) -> Report
    ensures { DisassemblesBy (D.bytes_of disk.now) asked.entry.notes false asked.entry.start (file.now.name.now, file.now.bytes.items) result.ending (string_bytes result.note) (O.contents out.old, O.contents out.new) }
{
    match asked.start {
        Some(_address) => refuse_object(alloc, disk, file, asked.notes),
        None => report_answers(alloc, disk, object_text(alloc, file), asked.notes, out),
    }
}

/// Prints the words of a hex file, and remarks a gap of them where an explanation is asked for.
fn print_words<D: Disk, O: Write>(
    alloc: Global,
    file: &Object<'_>,
    asked: Asked<'_>,
    disk: &D,
    out: &mut O,
) -> Report
    ensures { DisassemblesBy (D.bytes_of disk.now) asked.entry.notes true asked.entry.start (file.now.name.now, file.now.bytes.items) result.ending (string_bytes result.note) (O.contents out.old, O.contents out.new) }
{
    let told = hex_text(alloc, file, asked.start.unwrap_or(0));
    let report = report_answers(alloc, disk, told, asked.notes, out);
    with_remark(alloc, file, asked.notes, report)
}

/// Prints a file as a hex text or as an object, by its first byte.
fn print_file<D: Disk, O: Write>(
    alloc: Global,
    file: &Object<'_>,
    asked: Asked<'_>,
    disk: &D,
    out: &mut O,
) -> Report
    ensures { Disassembles (D.bytes_of disk.now) asked.entry.notes asked.entry.start (file.now.name.now, file.now.bytes.items) result.ending (string_bytes result.note) (O.contents out.old, O.contents out.new) }
{
    if is_hex(file.bytes.as_slice()) {
        print_words(alloc, file, asked, disk, out)
    } else {
        print_object(alloc, file, asked, disk, out)
    }
}

/// Reads a file from a disk, and prints it.
fn print_named<D: Disk, O: Write>(
    alloc: Global,
    name: &str,
    asked: Asked<'_>,
    disk: &D,
    out: &mut O,
) -> Report
    ensures { DisassemblesNamed (D.bytes_of disk.now) asked.entry.notes name.now asked.entry.start result.ending (string_bytes result.note) (O.contents out.old, O.contents out.new) }
{
    match read_binary(alloc, disk, name) {
        Ok(bytes) => {
            let file = Object { name, bytes };
            print_file(alloc, &file, asked, disk, out)
        }
        Err(failure) => report_of_fault(alloc, disk, fault_of_file(failure), asked.notes),
    }
}

/// A file to be disassembled.
#[derive(Clone, Copy)]
struct Disassembly<'a> {
    name: &'a str,
    /// The argument of `--from`, where it is given.
    from: Option<&'a str>,
    /// Which notes are reported of a fault.
    notes: SourceNotes<'a>,
}

/// Prints a file from the address that this word gives, the argument of `--from`. A word that is no address is
/// reported before the file is read.
fn print_from<D: Disk, O: Write>(
    alloc: Global,
    file: Disassembly<'_>,
    word: &str,
    disk: &D,
    out: &mut O,
) -> Report
    ensures { DisassemblesFrom (D.bytes_of disk.now) file.entry.notes file.entry.name.now word.now (address_of word.now) result.ending (string_bytes result.note) (O.contents out.old, O.contents out.new) }
{
    match hexadecimal_of(1, word.as_bytes()) {
        Some(address) => {
            let asked = Asked {
                notes: file.notes,
                start: Some(address),
            };
            print_named(alloc, file.name, asked, disk, out)
        }
        None => Report::without_note(alloc, no_address(alloc, word)),
    }
}

/// Prints an object as instructions, or a hex text from the address of `--from` on, where that is given.
fn print_asked<D: Disk, O: Write>(
    alloc: Global,
    file: Disassembly<'_>,
    disk: &D,
    out: &mut O,
) -> Report
    ensures { DisassemblesTold (D.bytes_of disk.now) file.entry.notes file.entry.name.now (text_of file.entry.from) result.ending (string_bytes result.note) (O.contents out.old, O.contents out.new) }
{
    match file.from {
        None => {
            let asked = Asked {
                notes: file.notes,
                start: None,
            };
            print_named(alloc, file.name, asked, disk, out)
        }
        Some(word) => print_from(alloc, file, word, disk, out),
    }
}

/// Prints a file, and explains a fault where that is asked for.
pub(crate) fn disassemble<D: Disk, O: Write>(
    alloc: Global,
    printing: Printing<'_>,
    explain: bool,
    disk: &D,
    out: &mut O,
) -> Report
    ensures { DoesDisassemble (D.bytes_of disk.now) explain printing.entry result.ending (string_bytes result.note) (O.contents out.old, O.contents out.new) }
{
    let options = FaultOptions {
        explain,
        all: false,
    };
    let files = [printing.file];
    let file = Disassembly {
        name: printing.file,
        from: printing.from,
        notes: notes_under(options, None, without_definitions(&[]), &files),
    };
    print_asked(alloc, file, disk, out)
}
