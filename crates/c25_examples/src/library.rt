//! Calls of the libraries that no command line of the program makes, over the files of a session's folder.

ghost use Rattle.std.specs.Prelude.{All};

use crate::session::words_of;
use crate::values::show_values;
use anyhow::{Context, Result, bail};
use c25_board::board::Board;
use c25_board::ports::ListSink;
use c25_board::samples::{Samples, read_samples};
use c25_board::schedule::read_schedule;
use c25_chain::chain::Chain;
use c25_chain::fault::{ChainFault, Fault};
use c25_chain::linked::Linked;
use c25_chain::{board_of, link_modules, run_chain, write_fault, write_run};
use c25_debug::session::Session;
use c25_hex::read_hex;
use c25_link::Image;
use c25_macro::files::Files as Sources;
use c25_map::{GlobalSymbol, Map, OutputSection, read_map, write_map};
use c25_meaning_common::failure::Failure;
use c25_meaning_image::marks::{marks_fit, run_marks_fit};
use c25_meaning_image::word_map::WordMap;
use c25_meaning_processor::script::Cmd;
use c25_module::Module;
use c25_records::read_module;
use std::alloc::Global;
use std::{fs, io};

/// Prints the line of a fault.
fn show_fault(rt: &HostRuntime, fault: &Fault) -> Result<()> {
    let line = write_fault(rt.alloc(), fault)?;
    rt.println(line)?;
    Ok(())
}

/// Prints words, each after its address.
fn show_words(rt: &HostRuntime, words: &WordMap) -> Result<()> {
    for (address, word) in words.iter() {
        println!(rt; "{address:04X} {word:04X}")?;
    }
    Ok(())
}

/// `read_hex FILE`: prints the words of a hex text, each after its address, or its fault.
fn show_hex(rt: &HostRuntime, text: &str) -> Result<()> {
    match read_hex(rt.alloc(), text) {
        Ok(words) => show_words(rt, &words),
        Err(Failure::NoMemory(error)) => Err(error.into()),
        Err(Failure::Fault(placed)) => show_fault(rt, &Failure::Fault(ChainFault::Hex(placed))),
    }
}

/// Prints a section and its parts, one line each.
fn show_section(rt: &HostRuntime, section: &OutputSection) -> io::Result<()> {
    println!(rt;
        "section {} {:04X} {} {}",
        section.page, section.base, section.size, section.name
    )?;
    if let Some(run) = section.run {
        println!(rt; "run {run:04X}")?;
    }
    for part in &section.parts {
        println!(rt; "part {} {:X} {}", part.number, part.base, part.size)?;
    }
    Ok(())
}

/// Prints the line of a symbol, or of the entry.
fn show_symbol(rt: &HostRuntime, kind: &str, symbol: &GlobalSymbol) -> io::Result<()> {
    println!(rt; "{kind} {:08X} {}", symbol.value, symbol.name)
}

/// Prints all that a map says.
fn show_parts(rt: &HostRuntime, map: &Map) -> io::Result<()> {
    for section in &map.sections {
        show_section(rt, section)?;
    }
    for symbol in &map.symbols {
        show_symbol(rt, "symbol", symbol)?;
    }
    match &map.entry {
        Some(entry) => show_symbol(rt, "entry", entry),
        None => Ok(()),
    }
}

/// Prints whether the text that is written of a map is the text that it was read from.
fn show_whether_same(rt: &HostRuntime, written: &str, read: &str) -> io::Result<()> {
    rt.println(if written == read {
        "written as it was read"
    } else {
        "written otherwise"
    })
}

/// `read_map FILE`: prints what the text of a map says, and whether the text that is written of it is another
/// one; or its fault.
fn show_map(rt: &HostRuntime, text: &str) -> Result<()> {
    let map = match read_map(rt.alloc(), text) {
        Ok(map) => map,
        Err(failure) => return Ok(rt.println(failure)?),
    };
    show_parts(rt, &map)?;
    let again = write_map(rt.alloc(), &map)?;
    show_whether_same(rt, &again, text)?;
    Ok(())
}

/// Prints the texts of an answer of the chain, its listings, and the text of its run.
fn show_texts(rt: &HostRuntime, chain: &Chain) -> Result<()> {
    print!(rt; "{}{}{}", chain.page0, chain.page1, chain.map)?;
    for listing in &chain.listings {
        rt.print(listing)?;
    }
    let run = write_run(rt.alloc(), chain)?;
    rt.print(run)?;
    Ok(())
}

/// Adds a source to the files, if it exists and is not among them.
fn add_source(rt: &HostRuntime, files: &mut Sources, name: &str) -> Result<()> {
    if files.text(name).is_some() {
        return Ok(());
    }
    match fs::read_to_string(rt, name) {
        Ok(text) => Ok(files.add(name, &text)?),
        Err(_) => Ok(()),
    }
}

/// Adds sources to the files.
fn add_sources(rt: &HostRuntime, files: &mut Sources, sources: &[String]) -> Result<()> {
    for source in sources {
        add_source(rt, files, source)?;
    }
    Ok(())
}

/// Prints what the chain answers for 1,000 steps of sources, or its fault.
fn show_answer(rt: &HostRuntime, files: &Sources, sources: &[String]) -> Result<()> {
    match run_chain(rt.alloc(), files, sources, "", "", "", 1000) {
        Ok(chain) => show_texts(rt, &chain),
        Err(fault) => show_fault(rt, &fault),
    }
}

/// `run_chain FILE..`: prints what the chain answers for 1,000 steps of the named sources, or its fault.
/// Sources that do not exist are not given to the chain.
fn show_chain(rt: &HostRuntime, names: &str) -> Result<()> {
    let sources = words_of(rt.alloc(), names)?;
    let mut files = Sources::new(rt.alloc());
    add_sources(rt, &mut files, &sources)?;
    show_answer(rt, &files, &sources)
}

/// The module of an object file.
fn module_of(rt: &HostRuntime, name: &str) -> Result<Module> {
    let bytes = fs::read(rt, name)?;
    Ok(read_module(rt.alloc(), &bytes)?)
}

/// The modules of object files.
fn modules_of(rt: &HostRuntime, names: &str) -> Result<Vec<Module>> {
    let mut modules = Vec::new(rt.alloc());
    for name in names.split_whitespace() {
        modules.push(module_of(rt, name)?)?;
    }
    Ok(modules)
}

/// Prints the end of an instruction's line: its source file and line, if the program has them for the address
/// where it is loaded.
fn show_source(rt: &HostRuntime, image: &Image, address: u16) -> io::Result<()> {
    match image.line_of(address) {
        Some((file, line)) => println!(rt; " {file}:{line}"),
        None => println!(rt),
    }
}

/// Prints each instruction that runs in block B0: the address where it is loaded, its size, and the address
/// where it runs.
fn show_copied(rt: &HostRuntime, image: &Image) -> io::Result<()> {
    for mark in image.run_marks() {
        print!(rt; "{:04X} {} at {:04X}", mark.load, mark.size, mark.run)?;
        show_source(rt, image, mark.load)?;
    }
    Ok(())
}

/// Prints each instruction that runs where it is loaded: its address and its size.
fn show_places(rt: &HostRuntime, image: &Image) -> io::Result<()> {
    for mark in image.marks() {
        print!(rt; "{:04X} {}", mark.address, mark.size)?;
        show_source(rt, image, mark.address)?;
    }
    Ok(())
}

/// `line_of COMMAND OBJECT..`: prints the instructions of these objects, linked under the command file, with
/// their lines.
fn show_line_of(rt: &HostRuntime, image: &Image) -> Result<()> {
    show_places(rt, image)?;
    show_copied(rt, image)?;
    Ok(())
}

/// A board that runs a program, with no samples and an empty schedule.
fn board_that_runs(alloc: Global, linked: &Linked) -> Result<Board<Samples, ListSink>> {
    if !marks_fit(linked.image.marks()) {
        bail!("these are no places of instructions");
    }
    if !run_marks_fit(linked.image.marks(), linked.image.run_marks()) {
        bail!("these are no places of instructions that run in block B0");
    }
    let samples = read_samples(alloc, "")?;
    let schedule = read_schedule(alloc, "")?;
    Ok(board_of(alloc, linked, samples, schedule)?)
}

/// Prints what a session answers to `list` of all instructions.
fn show_listed(rt: &HostRuntime, session: &mut Session<'_, Samples, ListSink>) -> Result<()> {
    let answer = session.command(&Cmd::List(u32::MAX))?;
    rt.print(answer)?;
    Ok(())
}

/// `list COMMAND OBJECT..`: prints what a session answers to `list` of all instructions over the program of
/// these objects.
fn show_list(rt: &HostRuntime, linked: &Linked) -> Result<()> {
    let board = board_that_runs(rt.alloc(), linked)?;
    let mut session = Session::new(rt.alloc(), board, &linked.image);
    show_listed(rt, &mut session)
}

/// The program of objects, linked under a command file, whose name stands before theirs.
fn linked_of(rt: &HostRuntime, names: &str) -> Result<Linked> {
    let (command, objects) = names.split_once(' ').context("no objects")?;
    let command = fs::read_to_string(rt, command)?;
    let modules = modules_of(rt, objects)?;
    Ok(link_modules(rt.alloc(), &modules, &command)?)
}

/// Calls a library over a linked program.
fn call_over_program(rt: &HostRuntime, name: &str, files: &str) -> Result<()> {
    let linked = linked_of(rt, files)?;
    if name == "list" {
        show_list(rt, &linked)
    } else {
        show_line_of(rt, &linked.image)
    }
}

/// Calls the library of this name over these files.
pub(crate) fn call_library(rt: &HostRuntime, name: &str, files: &str) -> Result<()> {
    match name {
        "read_hex" => show_hex(rt, &fs::read_to_string(rt, files)?),
        "read_map" => show_map(rt, &fs::read_to_string(rt, files)?),
        "values" => show_values(rt, &fs::read_to_string(rt, files)?),
        "run_chain" => show_chain(rt, files),
        "line_of" | "list" => call_over_program(rt, name, files),
        _ => bail!("no command: {name} {files}"),
    }
}
