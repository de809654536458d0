//! The task that the command line names.

ghost use Rattle.std.specs.Prelude.{◌≡◌, ◌<◌, ◌≤◌, IfErr, IfOk, IfSome, None, Ok, codes, false, length, map, string_bytes, true};
ghost use Rattle.clap.specs.Words.{app_of, one_of, subcommand_of, subcommand_rows_of, takes};
ghost use Rattle.c25_options.specs.Complete.{AreImageFlags, IsComplete, IsFlagIn, IsFoundComplete, IsNumberText, IsThere, rows_in};
ghost use Rattle.c25_options.specs.Program.{program};
ghost use Rattle.c25_options.specs.declared.task.Task.TheVariants.{RunStandardInput};
ghost use Rattle.c25_options.specs.Task.{Asks, IsAskedBy, IsWantOfMemory, Reads, ReadsFound};
ghost use Rattle.c25_options.specs.Together.{found_error, says_image, subcommand_error, together_error};

use crate::fault::WordsFault;
use crate::matched::{
    all, fault_options, flag, image_options, image_run, needed, old_options, optional, rom_options,
    run_files, run_results, source_options, steps,
};
use crate::program::program;
use crate::task::{
    AssembleTask, BuildTask, CheckTask, DebugImageTask, DebugTask, DisassembleTask, LinkTask,
    MoveTask, RunImageTask, RunTask, Task,
};
use crate::together::{not_together, says_image, subcommand_error};
use c25_meaning_common::failure::Failure;
use c25_meaning_common::no_memory::NoMemory;
use clap::{ArgMatches, Command};
use std::alloc::Global;

/// The task of the subcommand `asm`.
fn assemble<'a>(alloc: Global, matches: &ArgMatches<'a>) -> Result<Task<'a>, NoMemory>
    requires { IsThere (rows_in matches.now) (codes "source") × IsThere (rows_in matches.now) (codes "obj") × IsFlagIn (rows_in matches.now) (codes "explain") × IsFlagIn (rows_in matches.now) (codes "all") }
    ensures { IfOk result (Asks (codes "asm") (rows_in matches.now)) }
{
    Ok(Task::Assemble(AssembleTask {
        source: needed(matches, "source"),
        object: needed(matches, "obj"),
        listing: optional(matches, "list"),
        reading: source_options(alloc, matches)?,
        faults: fault_options(matches),
    }))
}

/// The task of the subcommand `link`.
fn link<'a>(alloc: Global, matches: &ArgMatches<'a>) -> Result<Task<'a>, NoMemory>
    requires { IsThere (rows_in matches.now) (codes "command") × IsThere (rows_in matches.now) (codes "object") × IsThere (rows_in matches.now) (codes "out") × IsFlagIn (rows_in matches.now) (codes "explain") × IsFlagIn (rows_in matches.now) (codes "all") }
    ensures { IfOk result (Asks (codes "link") (rows_in matches.now)) }
{
    Ok(Task::Link(LinkTask {
        command: needed(matches, "command"),
        objects: all(alloc, matches, "object")?,
        base: needed(matches, "out"),
        faults: fault_options(matches),
    }))
}

/// The task of the subcommand `build`.
fn build<'a>(alloc: Global, matches: &ArgMatches<'a>) -> Result<Task<'a>, NoMemory>
    requires { IsThere (rows_in matches.now) (codes "source") × IsThere (rows_in matches.now) (codes "out") × IsFlagIn (rows_in matches.now) (codes "explain") × IsFlagIn (rows_in matches.now) (codes "all") }
    ensures { IfOk result (Asks (codes "build") (rows_in matches.now)) }
{
    Ok(Task::Build(BuildTask {
        sources: all(alloc, matches, "source")?,
        base: needed(matches, "out"),
        command: optional(matches, "command"),
        symbols: optional(matches, "symbols"),
        rom: rom_options(matches),
        reading: source_options(alloc, matches)?,
        faults: fault_options(matches),
    }))
}

/// The task of the subcommand `run` for sources.
fn run_sources<'a>(alloc: Global, matches: &ArgMatches<'a>) -> Result<Task<'a>, NoMemory>
    requires { (says_image (rows_in matches.now) ≡ false) × IsThere (rows_in matches.now) (codes "source") × IfSome (one_of (codes "steps") (rows_in matches.now)) (IsNumberText 32) × IsFlagIn (rows_in matches.now) (codes "regs") × IsFlagIn (rows_in matches.now) (codes "when") × IsFlagIn (rows_in matches.now) (codes "explain") × IsFlagIn (rows_in matches.now) (codes "all") }
    ensures { IfOk result (Asks (codes "run") (rows_in matches.now)) }
{
    Ok(Task::Run(RunTask {
        sources: all(alloc, matches, "source")?,
        steps: steps(matches),
        files: run_files(matches),
        results: run_results(matches),
        reading: source_options(alloc, matches)?,
        faults: fault_options(matches),
    }))
}

/// The task of the subcommand `run` for an image.
fn run_image<'a>(matches: &ArgMatches<'a>) -> Task<'a>
    requires { (says_image (rows_in matches.now) ≡ true) × AreImageFlags (rows_in matches.now) × IfSome (one_of (codes "steps") (rows_in matches.now)) (IsNumberText 32) × IsFlagIn (rows_in matches.now) (codes "regs") × IsFlagIn (rows_in matches.now) (codes "when") × IsFlagIn (rows_in matches.now) (codes "explain") × IsFlagIn (rows_in matches.now) (codes "all") }
    ensures { Asks (codes "run") (rows_in matches.now) result }
{
    Task::RunImage(RunImageTask {
        image: image_run(matches),
        steps: steps(matches),
        results: run_results(matches),
        faults: fault_options(matches),
    })
}

/// The task of the subcommand `run`.
fn run<'a>(alloc: Global, matches: &ArgMatches<'a>) -> Result<Task<'a>, NoMemory>
    requires { (together_error (rows_in matches.now) ≡ None) × AreImageFlags (rows_in matches.now) × IfSome (one_of (codes "steps") (rows_in matches.now)) (IsNumberText 32) × IsFlagIn (rows_in matches.now) (codes "regs") × IsFlagIn (rows_in matches.now) (codes "when") × IsFlagIn (rows_in matches.now) (codes "explain") × IsFlagIn (rows_in matches.now) (codes "all") }
    ensures { IfOk result (Asks (codes "run") (rows_in matches.now)) }
{
    if says_image(matches) {
        Ok(run_image(matches))
    } else {
        run_sources(alloc, matches)
    }
}

/// The task of the subcommand `debug` for sources.
fn debug_sources<'a>(alloc: Global, matches: &ArgMatches<'a>) -> Result<Task<'a>, NoMemory>
    requires { (says_image (rows_in matches.now) ≡ false) × IsThere (rows_in matches.now) (codes "source") × IsFlagIn (rows_in matches.now) (codes "interactive") × IsFlagIn (rows_in matches.now) (codes "explain") × IsFlagIn (rows_in matches.now) (codes "all") }
    ensures { IfOk result (Asks (codes "debug") (rows_in matches.now)) }
{
    Ok(Task::Debug(DebugTask {
        sources: all(alloc, matches, "source")?,
        script: optional(matches, "script"),
        interactive: flag(matches, "interactive"),
        files: run_files(matches),
        reading: source_options(alloc, matches)?,
        faults: fault_options(matches),
    }))
}

/// The task of the subcommand `debug` for an image.
fn debug_image<'a>(matches: &ArgMatches<'a>) -> Task<'a>
    requires { (says_image (rows_in matches.now) ≡ true) × AreImageFlags (rows_in matches.now) × IsFlagIn (rows_in matches.now) (codes "interactive") × IsFlagIn (rows_in matches.now) (codes "explain") × IsFlagIn (rows_in matches.now) (codes "all") }
    ensures { Asks (codes "debug") (rows_in matches.now) result }
{
    Task::DebugImage(DebugImageTask {
        image: image_run(matches),
        script: optional(matches, "script"),
        interactive: flag(matches, "interactive"),
        faults: fault_options(matches),
    })
}

/// The task of the subcommand `debug`.
fn debug<'a>(alloc: Global, matches: &ArgMatches<'a>) -> Result<Task<'a>, NoMemory>
    requires { (together_error (rows_in matches.now) ≡ None) × AreImageFlags (rows_in matches.now) × IsFlagIn (rows_in matches.now) (codes "interactive") × IsFlagIn (rows_in matches.now) (codes "explain") × IsFlagIn (rows_in matches.now) (codes "all") }
    ensures { IfOk result (Asks (codes "debug") (rows_in matches.now)) }
{
    if says_image(matches) {
        Ok(debug_image(matches))
    } else {
        debug_sources(alloc, matches)
    }
}

/// The task of the subcommand `explain`.
fn explain<'a>(matches: &ArgMatches<'a>) -> Task<'a>
    ensures { Asks (codes "explain") (rows_in matches.now) result }
{
    Task::Explain {
        fault: optional(matches, "fault"),
    }
}

/// The task of the subcommand `dis`.
fn disassemble<'a>(matches: &ArgMatches<'a>) -> Task<'a>
    requires { IsFlagIn (rows_in matches.now) (codes "source") × IsFlagIn (rows_in matches.now) (codes "binary") × IsFlagIn (rows_in matches.now) (codes "low-first") × IfSome (one_of (codes "blank") (rows_in matches.now)) (IsNumberText 32) × IsFlagIn (rows_in matches.now) (codes "explain") }
    ensures { Asks (codes "dis") (rows_in matches.now) result }
{
    Task::Disassemble(DisassembleTask {
        file: optional(matches, "file"),
        from: optional(matches, "from"),
        source: flag(matches, "source"),
        image: image_options(matches),
        base: optional(matches, "out"),
        explain: flag(matches, "explain"),
    })
}

/// The task of the subcommand `check`.
fn check<'a>(alloc: Global, matches: &ArgMatches<'a>) -> Result<Task<'a>, NoMemory>
    requires { IsThere (rows_in matches.now) (codes "source") × IsFlagIn (rows_in matches.now) (codes "pages") × IsFlagIn (rows_in matches.now) (codes "explain") × IsFlagIn (rows_in matches.now) (codes "all") }
    ensures { IfOk result (Asks (codes "check") (rows_in matches.now)) }
{
    Ok(Task::Check(CheckTask {
        sources: all(alloc, matches, "source")?,
        command: optional(matches, "command"),
        pages: flag(matches, "pages"),
        reading: source_options(alloc, matches)?,
        faults: fault_options(matches),
    }))
}

/// The task of the subcommand `move`.
fn moving<'a>(alloc: Global, matches: &ArgMatches<'a>) -> Result<Task<'a>, NoMemory>
    requires { IsThere (rows_in matches.now) (codes "source") × IsThere (rows_in matches.now) (codes "out") × IsFlagIn (rows_in matches.now) (codes "ignore-case") × IsFlagIn (rows_in matches.now) (codes "quiet") }
    ensures { IfOk result (Asks (codes "move") (rows_in matches.now)) }
{
    Ok(Task::Move(MoveTask {
        sources: all(alloc, matches, "source")?,
        folder: needed(matches, "out"),
        command: optional(matches, "command"),
        writing: old_options(matches),
        hex: optional(matches, "hex"),
        quiet: flag(matches, "quiet"),
    }))
}

/// The task of the subcommand of this name.
fn task_of<'a>(alloc: Global, name: &str, matches: &ArgMatches<'a>) -> Result<Task<'a>, NoMemory>
    requires { IsComplete name.now (rows_in matches.now) × (subcommand_error name.now (rows_in matches.now) ≡ None) }
    ensures { IfOk result (Asks name.now (rows_in matches.now)) }
{
    match name {
        "asm" => assemble(alloc, matches),
        "link" => link(alloc, matches),
        "build" => build(alloc, matches),
        "run" => run(alloc, matches),
        "debug" => debug(alloc, matches),
        "explain" => Ok(explain(matches)),
        "dis" => Ok(disassemble(matches)),
        "check" => check(alloc, matches),
        "move" => moving(alloc, matches),
        _ => unreachable!(),
    }
}

/// The task of the subcommand of this name, or that its arguments do not stand together.
fn checked_task<'a>(
    alloc: Global,
    name: &str,
    matches: &ArgMatches<'a>,
) -> Result<Task<'a>, WordsFault>
    requires { IsComplete name.now (rows_in matches.now) }
    ensures { ReadsFound (subcommand_error name.now (rows_in matches.now)) (Asks name.now (rows_in matches.now)) result }
{
    match subcommand_error(name, matches) {
        Some(kind) => Err(not_together(alloc, name, kind, matches)),
        None => Ok(task_of(alloc, name, matches)?),
    }
}

/// The task that `clap` found, or that its arguments do not stand together.
fn found_task<'a>(alloc: Global, matches: &ArgMatches<'a>) -> Result<Task<'a>, WordsFault>
    requires { IsFoundComplete (subcommand_rows_of matches.now) }
    ensures { ReadsFound (found_error (subcommand_rows_of matches.now)) (IsAskedBy (subcommand_rows_of matches.now)) result }
{
    match matches.subcommand() {
        Some((name, matches)) => checked_task(alloc, name, matches),
        None => unreachable!(),
    }
}

/// Reads the arguments by `command`, which is the program as a command of `clap`.
fn read_by<'a>(
    alloc: Global,
    command: Command<'a>,
    arguments: &'a [String],
) -> Result<Task<'a>, WordsFault>
    requires { app_of command ≡ program }
    ensures read { Reads (map string_bytes arguments.now) result }
    ensures takes { takes program (map string_bytes arguments.now) ≡ true → found_error (subcommand_of program (map string_bytes arguments.now)) ≡ None → IfErr result IsWantOfMemory }
{
    match command.try_get_matches_from(arguments) {
        Ok(matches) => found_task(alloc, &matches),
        Err(error) => Err(Failure::Fault(error)),
    }
}

/// Reads a command line that has at least one argument after the program's name.
fn read_some<'a>(alloc: Global, arguments: &'a [String]) -> Result<Task<'a>, WordsFault>
    ensures read { Reads (map string_bytes arguments.now) result }
    ensures takes { takes program (map string_bytes arguments.now) ≡ true → found_error (subcommand_of program (map string_bytes arguments.now)) ≡ None → IfErr result IsWantOfMemory }
{
    match program(alloc) {
        Ok(command) => read_by(alloc, command, arguments),
        Err(error) => Err(Failure::NoMemory(NoMemory::from(error))),
    }
}

/// Reads the command line, of which the first argument is the program's name; without further ones the task
/// is `RunStandardInput`. `Failure::NoMemory` is out of memory; `Failure::Fault` is `clap`'s error for a
/// command line that no case of `Task` describes (no subcommand or an unknown one, an unknown option, an
/// option given twice or without its argument, a missing or surplus operand or option, an invalid number of
/// steps, sources and an image for one run), for a request for help or the version, and where memory runs out in `clap`.
pub fn read_words<'a>(alloc: Global, arguments: &'a [String]) -> Result<Task<'a>, WordsFault>
    ensures none { length arguments.now < 2 → result ≡ Ok RunStandardInput }
    ensures some { 2 ≤ length arguments.now → Reads (map string_bytes arguments.now) result }
    ensures takes { takes program (map string_bytes arguments.now) ≡ true → found_error (subcommand_of program (map string_bytes arguments.now)) ≡ None → IfErr result IsWantOfMemory }
{
    if arguments.len() < 2 {
        return Ok(Task::RunStandardInput);
    }
    read_some(alloc, arguments)
}
