//! The program's command line, as a command of `clap`.

ghost use Rattle.std.specs.Prelude.{◌≡◌, IfOk, false};
ghost use Rattle.clap.specs.Simple.{new_shape};
ghost use Rattle.clap.specs.Words.{App, Rule, Shape, app_of, rule_of, with_subcommand};
ghost use Rattle.c25_options.specs.Program.{IsSubcommand, added, asm_shape, bare_program, build_shape, check_shape, debug_shape, dis_shape, explain_shape, link_shape, move_shape, program, run_shape, with_explain, with_fault_options, with_old_options, with_image_options, with_rom_options, with_image, with_optional_sources, with_run_files, with_run_results, with_source_options, with_sources};

use crate::arguments::{
    base_name, blank, code_page, command_file, definitions, fill_word, first_address, flag, folder,
    folders, interactive, long_order, operand, operands, option, optional, optional_base,
    optional_operands, output, rom_size, steps, style,
};
use clap::{Arg, Command};
use std::alloc::{AllocError, Global};

/// The version that `--version` prints after the program's name. It rises with each change of what the
/// program reads, writes or answers.
const VERSION: &str = "1.19.0";

/// The text that help prints after the list of subcommands.
const MORE: &str =
    "Without arguments it assembles and links standard input, runs it for 1000 steps and prints its outputs.

Status: 0 done; 1 refused, with one line on standard error: FILE:LINE: NUMBER NAME; 2 the command line is
invalid, or asks for help or the version; 3 the code was left; 4 of moved sources something is left to do.
A fault by its number or name, with an example: c25 explain 53; a list of all: c25 explain. The same on a
page: docs/FAULTS.md. An instruction or a directive: c25 explain LAC, docs/manual/reference.md. Everything
else: docs/MANUAL.md. --explain and --all may stand before the subcommand too, and c25 help SUBCOMMAND prints
what c25 SUBCOMMAND --help does. Standard input is named /dev/stdin, and - is the name of a file like any
other.";

/// A command of `clap`, unless memory ran out while it was made.
type Made<'a> = Result<Command<'a>, AllocError>;

/// A subcommand without arguments. Help shows the example.
fn subcommand<'a>(alloc: Global, name: &'a str, about: &'a str, example: &'a str) -> Made<'a>
    ensures { IfOk result (IsSubcommand (new_shape name.entry.now)) }
{
    Ok(Command::new(alloc, name).about(about).after_help(example))
}

/// The subcommand with one more argument after its others.
fn with_argument<'a>(subcommand: Made<'a>, argument: Arg<'a>) -> Made<'a>
    requires { argument.global ≡ false }
    ensures { (shape : Shape) (rule : Rule) → IfOk subcommand.entry (IsSubcommand shape) → rule_of argument.entry ≡ rule → IfOk result (IsSubcommand (added shape rule)) }
{
    subcommand?.arg(argument)
}

/// The subcommand with the flag `--explain`.
fn with_explain<'a>(alloc: Global, subcommand: Made<'a>) -> Made<'a>
    ensures { (shape : Shape) → IfOk subcommand.entry (IsSubcommand shape) → IfOk result (IsSubcommand (with_explain shape)) }
{
    let help = "Explains a fault after its line, as explain does";
    with_argument(subcommand, flag(alloc, "explain", help))
}

/// The subcommand with the flags `--explain` and `--all`.
fn with_fault_options<'a>(alloc: Global, subcommand: Made<'a>) -> Made<'a>
    ensures { (shape : Shape) → IfOk subcommand.entry (IsSubcommand shape) → IfOk result (IsSubcommand (with_fault_options shape)) }
{
    let command = with_explain(alloc, subcommand);
    let help = "Reports all faults, not the first alone";
    with_argument(command, flag(alloc, "all", help))
}

/// The subcommand with sources as operands.
fn with_sources<'a>(alloc: Global, subcommand: Made<'a>) -> Made<'a>
    ensures { (shape : Shape) → IfOk subcommand.entry (IsSubcommand shape) → IfOk result (IsSubcommand (with_sources shape)) }
{
    let sources = operands(alloc, "source", "SOURCE", "The sources, in their order");
    with_argument(subcommand, sources)
}

/// The subcommand with sources as operands, which may be left out.
fn with_optional_sources<'a>(alloc: Global, subcommand: Made<'a>) -> Made<'a>
    ensures { (shape : Shape) → IfOk subcommand.entry (IsSubcommand shape) → IfOk result (IsSubcommand (with_optional_sources shape)) }
{
    let help = "The sources, in their order; an image may stand in their place";
    let sources = optional_operands(alloc, "source", "SOURCE", help);
    with_argument(subcommand, sources)
}

/// The subcommand with the options for the files that a run reads in addition to its sources.
fn with_run_files<'a>(alloc: Global, subcommand: Made<'a>) -> Made<'a>
    ensures { (shape : Shape) → IfOk subcommand.entry (IsSubcommand shape) → IfOk result (IsSubcommand (with_run_files shape)) }
{
    let command = with_argument(subcommand, command_file(alloc));
    let samples = option(alloc, "samples", "The words that IN reads, by ports");
    let command = with_argument(command, samples);
    let schedule = option(alloc, "schedule", "Interrupts and levels of BIO by steps");
    with_argument(command, schedule)
}

/// The subcommand with the options for what is printed and written of a run.
fn with_run_results<'a>(alloc: Global, subcommand: Made<'a>) -> Made<'a>
    ensures { (shape : Shape) → IfOk subcommand.entry (IsSubcommand shape) → IfOk result (IsSubcommand (with_run_results shape)) }
{
    let help = "Prints the registers at the end of the run too";
    let command = with_argument(subcommand, flag(alloc, "regs", help));
    let help = "Prints the step in front of each output";
    let command = with_argument(command, flag(alloc, "when", help));
    let help = "The file for how often each line was run, as lcov reads it";
    let command = with_argument(command, option(alloc, "counts", help));
    let help = "The file for how often each line was run, next to the listings";
    with_argument(command, option(alloc, "counts-list", help))
}

/// The subcommand with the options `-D NAME=VALUE` and `-I FOLDER`.
fn with_source_options<'a>(alloc: Global, subcommand: Made<'a>) -> Made<'a>
    ensures { (shape : Shape) → IfOk subcommand.entry (IsSubcommand shape) → IfOk result (IsSubcommand (with_source_options shape)) }
{
    let command = with_argument(subcommand, definitions(alloc));
    with_argument(command, folders(alloc))
}

/// The subcommand with the options for the EPROMs of a program.
fn with_rom_options<'a>(alloc: Global, subcommand: Made<'a>) -> Made<'a>
    ensures { (shape : Shape) → IfOk subcommand.entry (IsSubcommand shape) → IfOk result (IsSubcommand (with_rom_options shape)) }
{
    let command = with_argument(subcommand, rom_size(alloc));
    with_argument(command, fill_word(alloc))
}

/// The subcommand with the options for how the words of an image are read, and for what is known of them.
fn with_image_options<'a>(alloc: Global, subcommand: Made<'a>) -> Made<'a>
    ensures { (shape : Shape) → IfOk subcommand.entry (IsSubcommand shape) → IfOk result (IsSubcommand (with_image_options shape)) }
{
    let high = option(alloc, "high", "The EPROM of a pair that has the high bytes");
    let command = with_argument(subcommand, high);
    let low = option(alloc, "low", "The EPROM of a pair that has the low bytes");
    let command = with_argument(command, low);
    let binary = flag(
        alloc,
        "binary",
        "Reads FILE as words, the high byte of each first",
    );
    let command = with_argument(command, binary);
    let low_first = flag(alloc, "low-first", "The low byte of each word comes first");
    let command = with_argument(command, low_first);
    let command = with_argument(command, blank(alloc));
    let hints = option(
        alloc,
        "hints",
        "What is known of the words: code, data, tables, names",
    );
    with_argument(command, hints)
}

/// The subcommand with the option for an image in place of sources, and those of images.
fn with_image<'a>(alloc: Global, subcommand: Made<'a>) -> Made<'a>
    ensures { (shape : Shape) → IfOk subcommand.entry (IsSubcommand shape) → IfOk result (IsSubcommand (with_image shape)) }
{
    let help = "An image in place of sources: a hex text, or with --binary the bytes of words";
    let command = with_argument(subcommand, option(alloc, "image", help));
    with_image_options(alloc, command)
}

fn asm<'a>(alloc: Global) -> Made<'a>
    ensures { IfOk result (IsSubcommand asm_shape) }
{
    let command = subcommand(
        alloc,
        "asm",
        "Assembles a source: writes its object and its listing",
        "Example: c25 asm fir.asm -o fir.obj --list fir.lst --explain",
    );
    let command = with_argument(command, operand(alloc, "source", "SOURCE", "The source"));
    let command = with_argument(command, output(alloc, "obj", "The file for the object"));
    let command = with_argument(command, option(alloc, "list", "The file for the listing"));
    let command = with_source_options(alloc, command);
    with_fault_options(alloc, command)
}

fn link<'a>(alloc: Global) -> Made<'a>
    ensures { IfOk result (IsSubcommand link_shape) }
{
    let command = subcommand(
        alloc,
        "link",
        "Links objects: writes BASE.p0.hex, BASE.p1.hex and BASE.map",
        "Example: c25 link fir.cmd main.obj fir.obj -o fir",
    );
    let file = operand(alloc, "command", "COMMAND", "The linker's command file");
    let command = with_argument(command, file);
    let objects = operands(alloc, "object", "OBJECT", "The objects, in their order");
    let command = with_argument(command, objects);
    let base = base_name(alloc, "How the names of the hex texts and the map begin");
    let command = with_argument(command, base);
    with_fault_options(alloc, command)
}

fn build<'a>(alloc: Global) -> Made<'a>
    ensures { IfOk result (IsSubcommand build_shape) }
{
    let command = subcommand(
        alloc,
        "build",
        "Assembles and links sources: writes what link does, and a listing BASE.N.lst of each",
        "Example: c25 build main.asm fir.asm -o fir --command fir.cmd --symbols fir.sym",
    );
    let command = with_sources(alloc, command);
    let base = base_name(alloc, "How the names of the written files begin");
    let command = with_argument(command, base);
    let command = with_argument(command, command_file(alloc));
    let help = "The file for the names of the program and their addresses";
    let command = with_argument(command, option(alloc, "symbols", help));
    let command = with_rom_options(alloc, command);
    let command = with_source_options(alloc, command);
    with_fault_options(alloc, command)
}

fn run<'a>(alloc: Global) -> Made<'a>
    ensures { IfOk result (IsSubcommand run_shape) }
{
    let command = subcommand(
        alloc,
        "run",
        "Assembles, links and runs sources: prints their outputs and how the run ended",
        "Example: c25 run fir.asm --steps 100000 --samples in.txt --regs > out.txt",
    );
    let command = with_optional_sources(alloc, command);
    let command = with_argument(command, steps(alloc));
    let command = with_run_results(alloc, command);
    let command = with_run_files(alloc, command);
    let command = with_image(alloc, command);
    let command = with_source_options(alloc, command);
    with_fault_options(alloc, command)
}

fn debug<'a>(alloc: Global) -> Made<'a>
    ensures { IfOk result (IsSubcommand debug_shape) }
{
    let command = subcommand(
        alloc,
        "debug",
        "Runs sources under a debugger: prints the answers to the commands of a script or of standard input",
        "Example: c25 debug fir.asm --script fir.dbg --samples in.txt",
    );
    let command = with_optional_sources(alloc, command);
    let script = option(alloc, "script", "The debugger's commands, a line each");
    let command = with_argument(command, script);
    let command = with_argument(command, interactive(alloc));
    let command = with_run_files(alloc, command);
    let command = with_image(alloc, command);
    let command = with_source_options(alloc, command);
    with_fault_options(alloc, command)
}

fn explain<'a>(alloc: Global) -> Made<'a>
    ensures { IfOk result (IsSubcommand explain_shape) }
{
    let command = subcommand(
        alloc,
        "explain",
        "Prints what a fault, a warning, an instruction or a directive means; without WORD, a list of faults and warnings",
        "Examples: c25 explain FieldRange
          c25 explain LAC",
    );
    let help =
        "The number or the name of a fault, the name with which a run ended, or the name of a warning, an instruction or a directive";
    with_argument(command, optional(alloc, "fault", "WORD", help))
}

fn dis<'a>(alloc: Global) -> Made<'a>
    ensures { IfOk result (IsSubcommand dis_shape) }
{
    let command = subcommand(
        alloc,
        "dis",
        "Prints an object or a hex text as instructions, or writes an image as a source",
        "Examples: c25 dis fir.p0.hex --from 0400
          c25 dis --source --high u1.bin --low u2.bin --hints old.hints -o old",
    );
    let help = "The object, or the hex text of program memory";
    let command = with_argument(command, optional(alloc, "file", "FILE", help));
    let help = "Where printing begins in a hex text, one to four hexadecimal digits";
    let command = with_argument(command, first_address(alloc, help));
    let help = "Writes the image as a source BASE.asm and a command file BASE.cmd";
    let command = with_argument(command, flag(alloc, "source", help));
    let command = with_image_options(alloc, command);
    let help = "How the names of the source and the command file begin";
    let command = with_argument(command, optional_base(alloc, help));
    with_explain(alloc, command)
}

fn check<'a>(alloc: Global) -> Made<'a>
    ensures { IfOk result (IsSubcommand check_shape) }
{
    let command = subcommand(
        alloc,
        "check",
        "Reports what is allowed in sources and a command file and is most likely a mistake",
        "Example: c25 check main.asm fir.asm --command fir.cmd --explain",
    );
    let command = with_sources(alloc, command);
    let command = with_argument(command, command_file(alloc));
    let help = "Reports all that was found of data pages, and what was supposed";
    let command = with_argument(command, flag(alloc, "pages", help));
    let command = with_source_options(alloc, command);
    with_fault_options(alloc, command)
}

/// The subcommand with the options for how old sources are written.
fn with_old_options<'a>(alloc: Global, subcommand: Made<'a>) -> Made<'a>
    ensures { (shape : Shape) → IfOk subcommand.entry (IsSubcommand shape) → IfOk result (IsSubcommand (with_old_options shape)) }
{
    let command = with_argument(subcommand, style(alloc));
    let command = with_argument(command, long_order(alloc));
    let command = with_argument(command, code_page(alloc));
    let help = "Takes names that differ in the case of their letters alone for one";
    with_argument(command, flag(alloc, "ignore-case", help))
}

/// The subcommand `move`.
fn moving<'a>(alloc: Global) -> Made<'a>
    ensures { IfOk result (IsSubcommand move_shape) }
{
    let command = subcommand(
        alloc,
        "move",
        "Rewrites sources for older assemblers: writes those that can be read here, and reports their lines",
        "Example: c25 move old/fir.asm -o new --hex old/fir.hex --quiet",
    );
    let sources = operands(alloc, "source", "OLD", "The old sources, in their order");
    let command = with_argument(command, sources);
    let command = with_argument(command, folder(alloc));
    let help = "The old command file";
    let command = with_argument(command, option(alloc, "command", help));
    let command = with_old_options(alloc, command);
    let help = "The hex text of the old program, with which that of the new sources is compared";
    let command = with_argument(command, option(alloc, "hex", help));
    let help = "Reports only lines of which something is left to do";
    with_argument(command, flag(alloc, "quiet", help))
}

/// The program without its subcommands, one of which is required.
fn bare_program<'a>(alloc: Global) -> Command<'a>
    ensures { app_of result ≡ bare_program }
{
    Command::new(alloc, "c25")
        .about("Assembles, links and runs programs of the TMS320C25")
        .version(VERSION)
        .after_help(MORE)
        .subcommand_required(true)
        .disable_help_subcommand(true)
}

/// The program with one more subcommand after its others.
fn with_subcommand<'a>(program: Made<'a>, subcommand: Made<'a>) -> Made<'a>
    ensures { (app : App) (shape : Shape) → IfOk program.entry (λ c. app_of c ≡ app) → IfOk subcommand.entry (IsSubcommand shape) → IfOk result (λ c. app_of c ≡ with_subcommand app shape) }
{
    program?.subcommand(subcommand?)
}

/// The program with its subcommands.
pub(crate) fn program<'a>(alloc: Global) -> Made<'a>
    ensures { IfOk result (λ c. app_of c ≡ program) }
{
    let program = Ok(bare_program(alloc));
    let program = with_subcommand(program, asm(alloc));
    let program = with_subcommand(program, link(alloc));
    let program = with_subcommand(program, build(alloc));
    let program = with_subcommand(program, run(alloc));
    let program = with_subcommand(program, debug(alloc));
    let program = with_subcommand(program, explain(alloc));
    let program = with_subcommand(program, dis(alloc));
    let program = with_subcommand(program, check(alloc));
    with_subcommand(program, moving(alloc))
}

/// A subcommand that takes an image in place of sources, by its name, as usage has it.
pub(crate) fn image_subcommand<'a>(alloc: Global, name: &str) -> Made<'a> {
    if name == "debug" {
        debug(alloc)?.bin_name("c25 debug")
    } else {
        run(alloc)?.bin_name("c25 run")
    }
}
