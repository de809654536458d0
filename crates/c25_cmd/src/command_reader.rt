//! The command that a text spells.

ghost use Rattle.std.specs.Prelude.{IfOk};
ghost use Rattle.c25_meaning_linking.specs.Command.{IsCommand};
ghost use Rattle.c25_meaning_linking.specs.CommandText.{command_of};
ghost use Rattle.c25_meaning_common.specs.Results.{Meets};
ghost use Rattle.c25_cmd.specs.View.{command_data};

use crate::command::Command;
use crate::lexer::tokens;
use crate::line_numbers::line_at;
use crate::parts::command_at;
use c25_meaning_common::failure::Failure;
use c25_meaning_common::placed::Placed;
use c25_meaning_linking::command_fault::CommandFault;
use std::alloc::Global;

/// Reads a command file.
///
/// Words are runs of the characters 21h to 7Eh without signs, `/` and `"`; blanks, tabs, line ends
/// and comments (`/* */`) separate them. `-e name` names the entry. `MEMORY` and `SECTIONS` are
///
/// ```text
/// MEMORY { [PAGE n :] NAME [(attributes)] : origin = number [,] length = number ... }
/// SECTIONS { name : [{ } or { *(name) }] [> T or load = T or load > T] [PAGE n] [,] [run = number [,]] ... }
/// ```
///
/// with `org` and `o` for `origin`, `len` and `l` for `length`, and T the name of a range or an
/// address. `MEMORY`, `SECTIONS`, `PAGE`, `origin`, `length`, `load`, `run` and their short forms are
/// read in either case, and are not names. A word that begins with a digit is a number: decimal
/// without a leading 0, or hexadecimal with `0x` before it or `h` after it, of at most 19 digits.
///
/// The fault is the first one from the front: `Twice` (63) at the second `-e`, `MEMORY` or `SECTIONS`,
/// and at the name of a range that its page has already or of a section that is listed already; after a
/// range's length `RangeSize` (62) and then `RangeOverlap` (61), both at that number; `Syntax` (60) at
/// the first word or sign that cannot stand where it is, or at the last line where the text ends too
/// soon. `NoMemory` (9) where memory runs out.
pub fn read_command(
    alloc: Global,
    text: &str,
) -> Result<Command, Failure<Placed<usize, CommandFault>>>
    // The result is the command that the text spells, or its first fault.
    ensures read { Meets command_data (command_of text.now) result }

    // Ranges lie within their pages and apart, and no section comes twice.
    ensures kept { IfOk result (λ c. IsCommand (command_data c)) }
{
    let found = tokens(alloc, text.as_bytes())?;
    match command_at(alloc, found.as_slice()) {
        Ok(command) => Ok(command),
        Err(Failure::NoMemory(error)) => Err(error.into()),
        Err(Failure::Fault(first)) => Err(Failure::Fault(Placed {
            place: line_at(text, first.place),
            fault: first.fault,
        })),
    }
}
