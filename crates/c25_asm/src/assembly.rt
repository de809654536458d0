//! Assembling a source: expansion, the first phase line by line, then the second phase.

ghost use Rattle.c25_meaning_assembly.specs.ModuleOfSource as source;
ghost use Rattle.c25_meaning_common.specs.Results.{MeetsBy};
ghost use Rattle.c25_meaning_expansion.specs.ExpansionRuns.{start_of};
ghost use Rattle.c25_macro.specs.Expanders.{expansion_of};
ghost use Rattle.c25_phases.specs.View.{fault_of};
ghost use Rattle.c25_asm.specs.Coming.{IsRest};
ghost use Rattle.c25_asm.specs.Listed.{Assembles, Passes, module_of};
ghost use Rattle.c25_asm.specs.Told.{IsNoFile, IsTold, IsWrongLine};
ghost use Rattle.c25_asm.specs.View.{assembled_of, passed_of};

use crate::lines::{no_lines, pass_line};
use crate::lines_so_far::LinesSoFar;
use c25_listing::listing::Listing;
use c25_macro::answer::ExpandFault;
use c25_macro::expander::Expander;
use c25_macro::files::Files;
use c25_meaning_common::failure::Failure;
use c25_meaning_common::no_memory::NoMemory;
use c25_module::{Module, module};
use c25_phases::fault::AsmFault;
use c25_phases::finish;
use std::alloc::Global;

/// The fault of a line that asks for a file which is not there.
fn no_file<'a>(alloc: Global, fault: ExpandFault<'a>, name: &str) -> Failure<AsmFault<'a>>
    ensures { IsNoFile name.now fault.entry result }
{
    match String::from_str(alloc, name) {
        Ok(name) => Failure::Fault(AsmFault::NoFile {
            file: fault.place.file,
            line: fault.place.line,
            name,
        }),
        Err(error) => Failure::NoMemory(NoMemory::from(error)),
    }
}

/// The fault of a line that is wrong.
fn wrong_line<'a>(fault: ExpandFault<'a>) -> Failure<AsmFault<'a>>
    ensures { IsWrongLine fault.entry result }
{
    Failure::Fault(AsmFault::Line(fault))
}

/// The failure of expansion as the failure of the source; `missing` is the name of a file that was asked for
/// and is not there.
pub(crate) fn told<'a>(
    alloc: Global,
    missing: Option<&str>,
    failure: Failure<ExpandFault<'a>>,
) -> Failure<AsmFault<'a>>
    ensures { IsTold missing.entry failure.entry result }
{
    match failure {
        Failure::NoMemory(error) => Failure::NoMemory(error),
        Failure::Fault(fault) => match missing {
            Some(name) => no_file(alloc, fault, name),
            None => wrong_line(fault),
        },
    }
}

/// Passes all lines that are left, and keeps their entries where a listing is wanted.
fn pass_rest<'a>(
    alloc: Global,
    expander: &mut Expander<'a>,
    passed: LinesSoFar<'a>,
    listed: bool,
) -> Result<LinesSoFar<'a>, Failure<AsmFault<'a>>>
    ensures { IsRest listed (expansion_of expander.old) (passed_of passed.entry) result }
{
    let mut passed = passed;
    loop {
        passed.progress.move_here();
        match expander.next_line(passed.progress.symbols()) {
            Ok(Some(line)) => passed = pass_line(passed, line, listed)?,
            Ok(None) => return Ok(passed),
            Err(failure) => return Err(told(alloc, expander.missing(), failure)),
        }
    }
}

/// Passes all lines of a module, and keeps their entries where a listing is wanted.
fn pass_all<'a>(
    alloc: Global,
    files: &'a Files,
    name: &'a str,
    listed: bool,
) -> Result<LinesSoFar<'a>, Failure<AsmFault<'a>>>
    ensures { Passes listed (source.passed_from files.now name.now (start_of files.now name.now)) result }
{
    let passed = no_lines(alloc)?;
    let mut expander = Expander::new(alloc, files, name);
    pass_rest(alloc, &mut expander, passed, listed)
}

/// The module of the source of a name. It has the entries of its lines where a listing is wanted, and no
/// entries otherwise.
fn assemble_lines<'a>(
    alloc: Global,
    files: &'a Files,
    name: &'a str,
    listed: bool,
) -> Result<Listing<'a>, Failure<AsmFault<'a>>>
    ensures { Assembles listed (source.assembled files.now name.now) result }
{
    let LinesSoFar { progress, entries } = pass_all(alloc, files, name, listed)?;
    let parts = finish(Box::into_inner(progress))?;
    Ok(Listing {
        module: module(parts),
        entries,
    })
}

/// The module of the source of a name, and its listing (SPRU018, the assembler).
///
/// The first fault of the first phase is reported; where there is no source of this name, that is 30 at line
/// 0. One line's faults come in this order: 34, 38, 10 to 13, 50, 51, 52, 20, 21, 26, those of values that
/// are needed at once 22 to 25, then 30 to 33, 35, 36, 56, 54. But 32 comes before 38 for an `.elseif` after
/// the `.else` of its `.if`, and for a second `.else` in lines that are skipped; and a label before a
/// directive of expansion or a call of a macro is a line of its own, with its 26 and 54.
///
/// If the first phase finds no fault, the second one reports the first operand of an instruction, of `.word`,
/// `.int`, `.byte` or `.def`, that has no value when all names are known (22 to 25), is an address where none
/// is allowed (55), or is out of the range of its field (53).
///
/// `NoMemory` where memory runs out.
pub fn assemble<'a>(
    alloc: Global,
    files: &'a Files,
    name: &'a str,
) -> Result<Listing<'a>, Failure<AsmFault<'a>>>
    ensures { MeetsBy fault_of assembled_of (source.assembled files.now name.now) result }
{
    assemble_lines(alloc, files, name, true)
}

/// The module of the source of a name, without a listing: no memory is taken for the entries of its lines.
/// The failures are those of [`assemble`].
pub fn assemble_module<'a>(
    alloc: Global,
    files: &'a Files,
    name: &'a str,
) -> Result<Module, Failure<AsmFault<'a>>>
    ensures { MeetsBy fault_of (λ m. m) (module_of files.now name.now) result }
{
    let listing = assemble_lines(alloc, files, name, false)?;
    Ok(listing.module)
}
