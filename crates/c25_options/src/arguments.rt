//! Operands and options of the subcommands.

ghost use Rattle.std.specs.Prelude.{◌≡◌, codes, false};
ghost use Rattle.clap.specs.Words.{rule_of};
ghost use Rattle.c25_options.specs.Program.{blank_rule, flag_rule, interactive_rule, needed_rule, operand_rule, operands_rule, optional_operands_rule, optional_output_rule, optional_rule, option_rule, output_rule, repeated_rule, steps_rule};

use clap::{Arg, ArgAction, value_parser};
use std::alloc::Global;

/// The flag `--name`.
pub(crate) fn flag<'a>(alloc: Global, name: &'a str, help: &'a str) -> Arg<'a>
    ensures rule { rule_of result ≡ flag_rule name.entry.now }
    ensures local { result.global ≡ false }
{
    Arg::new(alloc, name)
        .long(name)
        .action(ArgAction::SetTrue)
        .help(help)
}

/// The flag `--interactive` or `-i`.
pub(crate) fn interactive<'a>(alloc: Global) -> Arg<'a>
    ensures rule { rule_of result ≡ interactive_rule }
    ensures local { result.global ≡ false }
{
    let help = "Reads the commands from standard input, and answers each before the next";
    flag(alloc, "interactive", help).short('i')
}

/// The option `--name FILE`.
pub(crate) fn option<'a>(alloc: Global, name: &'a str, help: &'a str) -> Arg<'a>
    ensures rule { rule_of result ≡ option_rule name.entry.now }
    ensures local { result.global ≡ false }
{
    Arg::new(alloc, name)
        .long(name)
        .value_name("FILE")
        .help(help)
}

/// The required option `--name FILE`.
pub(crate) fn needed<'a>(alloc: Global, name: &'a str, help: &'a str) -> Arg<'a>
    ensures rule { rule_of result ≡ needed_rule name.entry.now }
    ensures local { result.global ≡ false }
{
    option(alloc, name, help).required(true)
}

/// The required option `--name FILE` or `-o FILE`, the file that is written.
pub(crate) fn output<'a>(alloc: Global, name: &'a str, help: &'a str) -> Arg<'a>
    ensures rule { rule_of result ≡ output_rule name.entry.now }
    ensures local { result.global ≡ false }
{
    needed(alloc, name, help).short('o')
}

/// The option `--name VALUE` or `-l VALUE`, which may be given several times.
fn repeated<'a>(alloc: Global, name: &'a str, letter: char, help: &'a str) -> Arg<'a>
    ensures rule { rule_of result ≡ repeated_rule name.entry.now letter }
    ensures local { result.global ≡ false }
{
    option(alloc, name, help)
        .short(letter)
        .action(ArgAction::Append)
}

/// The option `--define NAME=VALUE` or `-D NAME=VALUE`, which may be given several times.
pub(crate) fn definitions<'a>(alloc: Global) -> Arg<'a>
    ensures rule { rule_of result ≡ repeated_rule (codes "define") 68 }
    ensures local { result.global ≡ false }
{
    let help = "Defines a symbol in front of each source, as .set does; NAME alone is NAME=1";
    repeated(alloc, "define", 'D', help).value_name("NAME=VALUE")
}

/// The option `--include FOLDER` or `-I FOLDER`, which may be given several times.
pub(crate) fn folders<'a>(alloc: Global) -> Arg<'a>
    ensures rule { rule_of result ≡ repeated_rule (codes "include") 73 }
    ensures local { result.global ≡ false }
{
    let help = "A folder in which copied files are looked for";
    repeated(alloc, "include", 'I', help).value_name("FOLDER")
}

/// The option `--command FILE`, the linker's command file.
pub(crate) fn command_file<'a>(alloc: Global) -> Arg<'a>
    ensures rule { rule_of result ≡ option_rule (codes "command") }
    ensures local { result.global ≡ false }
{
    option(
        alloc,
        "command",
        "The linker's command file; without one, an empty one",
    )
}

/// The required option `--out BASE` or `-o BASE`, with which the names of the written files begin.
pub(crate) fn base_name<'a>(alloc: Global, help: &'a str) -> Arg<'a>
    ensures rule { rule_of result ≡ output_rule (codes "out") }
    ensures local { result.global ≡ false }
{
    output(alloc, "out", help).value_name("BASE")
}

/// The option `--steps N`, N from 0 to 4,294,967,295.
pub(crate) fn steps<'a>(alloc: Global) -> Arg<'a>
    ensures rule { rule_of result ≡ steps_rule }
    ensures local { result.global ≡ false }
{
    option(alloc, "steps", "The number of steps, 1000 by default")
        .value_name("N")
        .value_parser(value_parser!(u32))
}

/// The option `--from ADDRESS`.
pub(crate) fn first_address<'a>(alloc: Global, help: &'a str) -> Arg<'a>
    ensures rule { rule_of result ≡ option_rule (codes "from") }
    ensures local { result.global ≡ false }
{
    option(alloc, "from", help).value_name("ADDRESS")
}

/// The option `--out BASE` or `-o BASE`, which may be left out.
pub(crate) fn optional_base<'a>(alloc: Global, help: &'a str) -> Arg<'a>
    ensures rule { rule_of result ≡ optional_output_rule (codes "out") }
    ensures local { result.global ≡ false }
{
    option(alloc, "out", help).short('o').value_name("BASE")
}

/// The option `--blank N`, N from 0 to 4,294,967,295.
pub(crate) fn blank<'a>(alloc: Global) -> Arg<'a>
    ensures rule { rule_of result ≡ blank_rule }
    ensures local { result.global ≡ false }
{
    let help =
        "How many words FFFF in a row are left out as blank, 16 by default for binary files, 0 for hex texts";
    option(alloc, "blank", help)
        .value_name("N")
        .value_parser(value_parser!(u32))
}

/// The option `--rom SIZE`.
pub(crate) fn rom_size<'a>(alloc: Global) -> Arg<'a>
    ensures rule { rule_of result ≡ option_rule (codes "rom") }
    ensures local { result.global ≡ false }
{
    let help =
        "The words of the EPROMs, 1 to 10000 in hexadecimal; 16:SIZE or 16low:SIZE for one file of both bytes";
    option(alloc, "rom", help).value_name("SIZE")
}

/// The option `--fill WORD`.
pub(crate) fn fill_word<'a>(alloc: Global) -> Arg<'a>
    ensures rule { rule_of result ≡ option_rule (codes "fill") }
    ensures local { result.global ≡ false }
{
    let help = "The word in the EPROMs where the program has none, FFFF by default";
    option(alloc, "fill", help).value_name("WORD")
}

/// The required option `--out FOLDER` or `-o FOLDER`, into which files are written.
pub(crate) fn folder<'a>(alloc: Global) -> Arg<'a>
    ensures rule { rule_of result ≡ output_rule (codes "out") }
    ensures local { result.global ≡ false }
{
    let help = "The folder for the new sources and move.cmd, which has to be there";
    output(alloc, "out", help).value_name("FOLDER")
}

/// The option `--style STYLE`.
pub(crate) fn style<'a>(alloc: Global) -> Arg<'a>
    ensures rule { rule_of result ≡ option_rule (codes "style") }
    ensures local { result.global ≡ false }
{
    let help =
        "1987: directives have no dot, and comments no ';'; spru018: those of the COFF assembler";
    option(alloc, "style", help).value_name("STYLE")
}

/// The option `--long-order ORDER`.
pub(crate) fn long_order<'a>(alloc: Global) -> Arg<'a>
    ensures rule { rule_of result ≡ option_rule (codes "long-order") }
    ensures local { result.global ≡ false }
{
    let help = "The word of .long and .float that is first: low, as by default, or high";
    option(alloc, "long-order", help).value_name("ORDER")
}

/// The option `--from CODEPAGE`.
pub(crate) fn code_page<'a>(alloc: Global) -> Arg<'a>
    ensures rule { rule_of result ≡ option_rule (codes "from") }
    ensures local { result.global ≡ false }
{
    let help = "The code page of sources that are no UTF-8: cp437, as by default, or latin1";
    option(alloc, "from", help).value_name("CODEPAGE")
}

/// One operand, which may be left out.
pub(crate) fn optional<'a>(alloc: Global, name: &'a str, value: &'a str, help: &'a str) -> Arg<'a>
    ensures rule { rule_of result ≡ optional_rule name.entry.now }
    ensures local { result.global ≡ false }
{
    Arg::new(alloc, name).value_name(value).help(help)
}

/// One required operand.
pub(crate) fn operand<'a>(alloc: Global, name: &'a str, value: &'a str, help: &'a str) -> Arg<'a>
    ensures rule { rule_of result ≡ operand_rule name.entry.now }
    ensures local { result.global ≡ false }
{
    optional(alloc, name, value, help).required(true)
}

/// One operand or more.
pub(crate) fn operands<'a>(alloc: Global, name: &'a str, value: &'a str, help: &'a str) -> Arg<'a>
    ensures rule { rule_of result ≡ operands_rule name.entry.now }
    ensures local { result.global ≡ false }
{
    operand(alloc, name, value, help).num_args(1..)
}

/// Operands, which may be left out.
pub(crate) fn optional_operands<'a>(
    alloc: Global,
    name: &'a str,
    value: &'a str,
    help: &'a str,
) -> Arg<'a>
    ensures rule { rule_of result ≡ optional_operands_rule name.entry.now }
    ensures local { result.global ≡ false }
{
    optional(alloc, name, value, help).num_args(1..)
}
