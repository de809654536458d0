//! Tips on command lines that are not read.

ghost use Rattle.std.specs.Option.{option_map};
ghost use Rattle.std.specs.Prelude.{◌≡◌, false, map, string_bytes};
ghost use Rattle.c25_options.specs.LinkTips.{operand_in};
ghost use Rattle.c25_options.specs.Tips.{file_tip, has_word, help_tip, option_tip, tip_of_kind, tip_on};

use crate::fault::WordsFault;
use crate::link_tips::{missing_tip, operand_in};
use crate::source_tips::named_tip;
use c25_meaning_common::failure::Failure;
use clap::error::ErrorKind;

/// Whether a word stands among the arguments, before any `--`.
fn has_word(arguments: &[String], wanted: &str) -> bool
    ensures { result ≡ has_word wanted.now (map string_bytes arguments.now) }
{
    for argument in arguments {
        if argument.as_str() == "--" {
            return false;
        }
        if argument.as_str() == wanted {
            return true;
        }
    }
    false
}

/// The tip for arguments of which one is unknown.
fn option_tip(arguments: &[String]) -> &'static str
    ensures { result.now ≡ option_tip (map string_bytes arguments.now) }
{
    if has_word(arguments, "-c") {
        return "\n  tip: build, run, debug and check take a command file as '--command FILE'\n";
    }
    if has_word(arguments, "-v") {
        return "\n  tip: 'c25 --version' prints the version\n";
    }
    ""
}

/// The tip for arguments whose first operand is no subcommand.
fn file_tip(arguments: &[String]) -> &'static str
    ensures { result.now ≡ file_tip (map string_bytes arguments.now) }
{
    match operand_in(arguments) {
        Some((name, _)) => named_tip(name),
        None => "",
    }
}

/// The tip for arguments of which the subcommand is invalid.
fn help_tip(arguments: &[String]) -> &'static str
    ensures { result.now ≡ help_tip (map string_bytes arguments.now) }
{
    let Some((first, _)) = arguments.split_first() else {
        return "";
    };
    if first.as_str() == "help" {
        return "\n  tip: 'c25 help' lists the subcommands, and 'c25 help run' prints the options of one\n";
    }
    file_tip(arguments)
}

/// The tip for arguments that are refused with an error of this kind.
fn tip_of_kind(kind: ErrorKind, arguments: &[String]) -> &'static str
    ensures { result.now ≡ tip_of_kind kind (map string_bytes arguments.now) }
{
    match kind {
        ErrorKind::UnknownArgument => option_tip(arguments),
        ErrorKind::InvalidSubcommand => help_tip(arguments),
        ErrorKind::MissingRequiredArgument => missing_tip(arguments),
        _ => "",
    }
}

/// What to write instead, on a command line that is not read, the program's name first: a text that stands
/// after the error of `clap`, empty where there is none. It is for `-c` and `-v`, which stand for no option,
/// for `help` with what is no subcommand, as `help help`, for the name of a file in place of the subcommand, for
/// `link` where an argument is missing and the first file is an object by its name, and for the other subcommands
/// where no source is named.
pub fn tip_on(fault: &WordsFault, words: &[String]) -> &'static str
    ensures { result.now ≡ tip_on fault.now (map string_bytes words.now) }
{
    let Some((_, arguments)) = words.split_first() else {
        return "";
    };
    match fault {
        Failure::NoMemory(_) => "",
        Failure::Fault(error) => tip_of_kind(error.kind(), arguments),
    }
}
