//! Sources, checked.

ghost use Rattle.std.specs.Prelude.{◌≡◌, ◌++◌, IfOk, Ok, map, string_bytes};
ghost use Rattle.c25_absolute_operands.specs.Operands.{absolute_operands};
ghost use Rattle.c25_check.specs.Checking.{Checks, HasPageFindings, HasPageWarnings, HasWarnings, IsFound, TellsPages, Warns, operands_meant};
ghost use Rattle.c25_check.specs.Showing.{shown_warnings};
ghost use Rattle.c25_cmd.specs.View.{command_data};
ghost use Rattle.c25_meaning_linking.specs.Command.{CommandData};
ghost use Rattle.c25_meaning_linking.specs.CommandText.{command_of};
ghost use Rattle.c25_meaning_linking.specs.Linking.{IsProgram};
ghost use Rattle.c25_warnings.specs.Program.{warnings_of_program};
ghost use Rattle.c25_warnings.specs.View.{linked_of, program_warnings_of};

use crate::places::{borrowed, places_in};
use crate::showing::{Paging, Showing, shown_warnings};
use c25_absolute_operands::absolute_operands;
use c25_chain::fault::Fault;
use c25_chain::linked::Linked;
use c25_chain::modules::Modules;
use c25_chain::{assemble_all, link_modules};
use c25_cmd::{Command, read_command};
use c25_macro::files::Files;
use c25_meaning_common::failure::Failure;
use c25_meaning_common::no_memory::NoMemory;
use c25_module::Module;
use c25_page_reports::{
    AbsoluteOperand, PageFindings, PageWarning, page_findings, write_page_warnings,
};
use c25_warning_pages::{explain_page_warnings, explain_warnings};
use c25_warnings::{Linked as Placed, ProgramWarnings, warnings_of_program, write_warnings};
use std::alloc::Global;

/// Warnings, each on a line, with its explanation after it where that is asked for.
fn written(alloc: Global, warnings: &ProgramWarnings<'_>, explain: bool) -> Result<String, NoMemory>
    ensures { IfOk result (λ text. HasWarnings explain (program_warnings_of warnings.now) (string_bytes text)) }
{
    if explain {
        explain_warnings(alloc, warnings)
    } else {
        write_warnings(alloc, warnings)
    }
}

/// The lines of the warnings that are shown of sources and of the command under which their modules are placed.
fn warning_lines<'a>(
    alloc: Global,
    files: &'a Files,
    names: &[&'a str],
    placed: Placed<'a>,
    showing: Showing,
) -> Result<String, NoMemory>
    ensures { IfOk result (λ text. HasWarnings showing.explain (shown_warnings showing.fronted (map (λ n. n.now) names.now) (warnings_of_program files.now (map (λ n. n.now) names.now) (linked_of placed.entry))) (string_bytes text)) }
{
    let warnings = warnings_of_program(alloc, files, names, placed)?;
    let warnings = shown_warnings(warnings, names, showing.fronted);
    written(alloc, &warnings, showing.explain)
}

/// A program that was linked.
#[derive(Clone, Copy)]
struct Program<'a> {
    sources: &'a [String],
    modules: &'a [Module],
    linked: &'a Linked,
}

/// The lines of the warnings of a program and of the command under which it was linked.
fn lines_under<'a>(
    alloc: Global,
    files: &'a Files,
    program: Program<'a>,
    command: &'a Command,
    showing: Showing,
) -> Result<String, NoMemory>
    ensures { IfOk result (λ text. Warns showing files.now (map string_bytes program.entry.sources.now) program.entry.modules.now (command_data command.now) program.entry.linked.now.image (string_bytes text)) }
{
    let places = places_in(alloc, program.linked.image.map())?;
    let names = borrowed(alloc, program.sources)?;
    let placed = Placed {
        modules: program.modules,
        command,
        places: places.as_slice(),
    };
    warning_lines(alloc, files, names.as_slice(), placed, showing)
}

/// The lines of the warnings of a program that was linked under the text of a command file.
fn lines_of(
    alloc: Global,
    files: &Files,
    program: Program<'_>,
    command: &str,
    showing: Showing,
) -> Result<String, NoMemory>
    requires { (read : CommandData) × (command_of command.now ≡ Ok read) }
    ensures { (read : CommandData) → command_of command.now ≡ Ok read
        → IfOk result (λ text. Warns showing files.now (map string_bytes program.entry.sources.now) program.entry.modules.now read program.entry.linked.now.image (string_bytes text)) }
{
    match read_command(alloc, command) {
        Ok(command) => lines_under(alloc, files, program, &command, showing),
        Err(Failure::NoMemory(error)) => Err(error),
        Err(Failure::Fault(_)) => unreachable!(),
    }
}

/// Warnings of data pages, each on a line, with its explanation after it where that is asked for.
fn written_pages(alloc: Global, warnings: &[PageWarning], explain: bool) -> Result<String, NoMemory>
    ensures { IfOk result (λ text. HasPageWarnings explain warnings.now (string_bytes text)) }
{
    if explain {
        explain_page_warnings(alloc, warnings)
    } else {
        write_page_warnings(alloc, warnings)
    }
}

/// What is said of the data pages of a program.
#[derive(Drop)]
struct PagesTold {
    /// The warnings, in lines.
    warnings: String,
    /// What was supposed and what was found on the whole, in lines.
    facts: String,
}

/// The absolute operands of sources among files.
fn absolutes_of(
    alloc: Global,
    files: &Files,
    sources: &[String],
) -> Result<Vec<AbsoluteOperand>, NoMemory>
    ensures { IfOk result (λ list. list.items ≡ absolute_operands files.now (map string_bytes sources.now)) }
{
    let names = borrowed(alloc, sources)?;
    absolute_operands(alloc, files, names.as_slice())
}

/// What is found of the data pages of a program whose sources are among files: all, or what is certain.
fn pages_found(
    alloc: Global,
    files: &Files,
    program: Program<'_>,
    all: bool,
    explain: bool,
) -> Result<PagesTold, NoMemory>
    ensures { (command : CommandData) → IsProgram program.entry.modules.now command program.entry.linked.now.image
        → IfOk result (λ told. HasPageFindings explain all (operands_meant files.now (map string_bytes program.entry.sources.now) program.entry.modules.now program.entry.linked.now.image) program.entry.linked.now.image (string_bytes told.warnings) (string_bytes told.facts)) }
{
    let absolutes = absolutes_of(alloc, files, program.sources)?;
    let image = &program.linked.image;
    let PageFindings {
        warnings: found,
        facts,
    } = page_findings(alloc, absolutes.as_slice(), program.modules, image, all)?;
    let warnings = written_pages(alloc, found.as_slice(), explain)?;
    Ok(PagesTold { warnings, facts })
}

/// What is said of the data pages of a program whose sources are among files.
fn pages_told(
    alloc: Global,
    files: &Files,
    program: Program<'_>,
    showing: Showing,
) -> Result<PagesTold, NoMemory>
    ensures { (command : CommandData) → IsProgram program.entry.modules.now command program.entry.linked.now.image
        → IfOk result (λ told. TellsPages showing.explain showing.paging (operands_meant files.now (map string_bytes program.entry.sources.now) program.entry.modules.now program.entry.linked.now.image) program.entry.linked.now.image (string_bytes told.warnings) (string_bytes told.facts)) }
{
    match showing.paging {
        Paging::Nothing => Ok(PagesTold {
            warnings: String::new(alloc),
            facts: String::new(alloc),
        }),
        Paging::Certain => pages_found(alloc, files, program, false, showing.explain),
        Paging::All => pages_found(alloc, files, program, true, showing.explain),
    }
}

/// What is found in a program: its warnings, and what is found of its data pages.
#[derive(Drop)]
pub struct Checked {
    /// The lines of the warnings, those of data pages last.
    pub warnings: String,
    /// What was supposed and found of data pages on the whole, in lines.
    pub facts: String,
}

/// Warnings, with those of data pages after them.
fn with_pages(text: String, pages: PagesTold) -> Result<Checked, NoMemory>
    ensures lines { IfOk result (λ checked. string_bytes checked.warnings ≡ string_bytes text ++ string_bytes pages.warnings) }
    ensures facts { IfOk result (λ checked. checked.facts ≡ pages.facts) }
{
    let mut warnings = text;
    warnings.push_str(pages.warnings.as_str())?;
    Ok(Checked {
        warnings,
        facts: pages.facts,
    })
}

/// What is found in a program that was linked under the text of a command file.
fn checked_under(
    alloc: Global,
    files: &Files,
    program: Program<'_>,
    command: &str,
    showing: Showing,
) -> Result<Checked, NoMemory>
    requires { (read : CommandData) × (command_of command.now ≡ Ok read) }
    ensures { (read : CommandData) → command_of command.now ≡ Ok read → IsProgram program.entry.modules.now read program.entry.linked.now.image
        → IfOk result (IsFound showing files.now (map string_bytes program.entry.sources.now) program.entry.modules.now read program.entry.linked.now.image) }
{
    let text = lines_of(alloc, files, program, command, showing)?;
    let pages = pages_told(alloc, files, program, showing)?;
    with_pages(text, pages)
}

/// Assembles the named sources, whose texts are in `files`, links their modules under the text of a command
/// file, and writes the warnings of the program that are shown, each on a line, with its explanation after it where
/// that is asked for, and what is said of its data pages. The faults are those of [`build`](c25_chain::build).
pub(crate) fn check(
    alloc: Global,
    files: &Files,
    sources: &[String],
    command: &str,
    showing: Showing,
) -> Result<Checked, Fault>
    ensures { Checks showing files.now (map string_bytes sources.now) command.now result }
{
    let Modules { modules: made, .. } = assemble_all(alloc, files, sources)?;
    let modules = made.as_slice();
    let linked = link_modules(alloc, modules, command)?;
    let program = Program {
        sources,
        modules,
        linked: &linked,
    };
    match checked_under(alloc, files, program, command, showing) {
        Ok(checked) => Ok(checked),
        Err(error) => Err(error.into()),
    }
}
