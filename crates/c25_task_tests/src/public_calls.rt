//! Each public call of the crates of the language, of linking and of the chain, by its name at the root of its
//! crate.

use crate::values::equal;
use c25_asm::{Listing, assemble};
use c25_chain::chain::Chain;
use c25_chain::{debug_chain, run_chain, write_run};
use c25_cmd::read_command;
use c25_expr::operands::tokens_of;
use c25_expr::value::value;
use c25_expr::{Symbols, read_expr};
use c25_hex::{read_hex, write_hex};
use c25_link::{Image, link, read_map};
use c25_macro::{Expander, Files};
use c25_meaning_objects::object::Version;
use c25_obj::{Body, Module, Parts, Section, module, read_module, spells, write_module};
use c25_text::{Line, first_word, split_line};
use std::alloc::Global;
use std::test::Fail;

/// A line of two operators, its tokens, and the value of their expression.
#[test]
fn lines_and_expressions(rt: HostRuntime) -> Result<(), Fail> {
    equal(&rt, first_word("X .word 1+2*3"), Some(".word"));
    let line: Line<'_> = split_line("X .word 1+2*3")?;
    let tokens = tokens_of(rt.alloc(), &line)?;
    let expression = read_expr(rt.alloc(), &tokens)?;
    let symbols = Symbols::new(rt.alloc());
    equal(&rt, value(&expression, &symbols)?.offset, 7);
    Ok(())
}

/// The file `a.asm` with a source of one instruction.
fn one_source(alloc: Global) -> Result<Files, Fail> {
    let mut files = Files::new(alloc);
    files.add("a.asm", " LACK 9\n")?;
    Ok(files)
}

/// The expansion of the source `a.asm` has one line.
#[test]
fn the_expander(rt: HostRuntime) -> Result<(), Fail> {
    let files = one_source(rt.alloc())?;
    let symbols = Symbols::new(rt.alloc());
    let mut expander = Expander::new(rt.alloc(), &files, "a.asm");
    let first = matches!(expander.next_line(&symbols), Ok(Some(_)));
    let second = matches!(expander.next_line(&symbols), Ok(None));
    equal(&rt, (first, second), (true, true));
    equal(&rt, expander.missing(), None);
    Ok(())
}

/// The source `a.asm`, assembled with its listing.
fn assembled(alloc: Global, files: &Files) -> Result<Listing<'_>, Fail> {
    match assemble(alloc, files, "a.asm") {
        Ok(listing) => Ok(listing),
        Err(_) => Err(Fail::from("the source is refused")),
    }
}

/// The module of the source `a.asm`, written as its object and read from it.
fn module_of(alloc: Global, files: &Files) -> Result<Module, Fail> {
    let listing = assembled(alloc, files)?;
    let object = write_module(alloc, &listing.module)?;
    Ok(read_module(alloc, object.as_slice())?)
}

/// The module of these lists, if they are a module's.
fn made_of(parts: Parts) -> Option<Module> {
    if spells(&parts) {
        return Some(module(parts));
    }
    None
}

/// The lists of a module of version 1 whose section `.text` has no words.
fn empty_lists(alloc: Global) -> Result<Parts, Fail> {
    let mut sections = Vec::new(alloc);
    sections.push(Section {
        name: String::from_str(alloc, ".text")?,
        body: Body::Initialised(Vec::new(alloc)),
    })?;
    Ok(Parts {
        sections,
        marks: Vec::new(alloc),
        symbols: Vec::new(alloc),
        relocations: Vec::new(alloc),
        version: Version::One,
        files: Vec::new(alloc),
        lines: Vec::new(alloc),
        blocks: Vec::new(alloc),
    })
}

/// The lists of a module of version 1 are a module's.
#[test]
fn lists_of_modules(rt: HostRuntime) -> Result<(), Fail> {
    let found = made_of(empty_lists(rt.alloc())?);
    equal(&rt, found.is_some(), true);
    Ok(())
}

/// The map and the hex text of page 0 of a program, read back.
fn read_back(alloc: Global, image: &Image) -> Result<Option<u16>, Fail> {
    let map = image.write_map(alloc)?;
    read_map(alloc, map.as_str())?;
    let text = write_hex(alloc, image.words(0))?;
    Ok(read_hex(alloc, text.as_str())?.get(0))
}

/// The source `a.asm` as an object, as a program, as its map and its hex text.
#[test]
fn the_assembler_and_the_linker(rt: HostRuntime) -> Result<(), Fail> {
    let files = one_source(rt.alloc())?;
    let modules = [module_of(rt.alloc(), &files)?];
    let command = read_command(rt.alloc(), "")?;
    let image = link(rt.alloc(), &modules, &command)?;
    equal(&rt, read_back(rt.alloc(), &image)?, Some(0xca09));
    Ok(())
}

/// The source `a.asm`, run for one step.
fn run_once(alloc: Global, files: &Files, sources: &[String]) -> Result<Chain, Fail> {
    match run_chain(alloc, files, sources, "", "", "", 1) {
        Ok(chain) => Ok(chain),
        Err(_) => Err(Fail::from("the chain refuses the source")),
    }
}

/// What the debugger answers to one step of the source `a.asm`.
fn step_once(alloc: Global, files: &Files, sources: &[String]) -> Result<String, Fail> {
    match debug_chain(alloc, files, sources, "", "", "", "step 1\n") {
        Ok(answers) => Ok(answers),
        Err(_) => Err(Fail::from("the debugger refuses the source")),
    }
}

/// The source `a.asm`, run for one step by the chain and by the debugger.
#[test]
fn the_chain(rt: HostRuntime) -> Result<(), Fail> {
    let files = one_source(rt.alloc())?;
    let sources = [String::from_str(rt.alloc(), "a.asm")?];
    let chain = run_once(rt.alloc(), &files, &sources)?;
    equal(&rt, write_run(rt.alloc(), &chain)?.as_str(), "ran 1\n");
    let answers = step_once(rt.alloc(), &files, &sources)?;
    equal(&rt, answers.as_str(), "ran 1\n");
    Ok(())
}
