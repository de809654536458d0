//! The place where the command of a text is refused.

ghost use Rattle.std.specs.Prelude.{◌≡◌, ◌≤◌, ◌<◌, ◌+◌, ◌-◌, ◌^◌, IfOk, Result, option_map, ℕ};
ghost use Rattle.c25_meaning_linking.specs.Command.{CommandData};
ghost use Rattle.c25_meaning_linking.specs.declared.command_fault.CommandFault.{CommandFault};
ghost use Rattle.c25_meaning_common.specs.Results.{Meets};
ghost use Rattle.c25_meaning_common.specs.declared.placed.Placed.{Placed};
ghost use Rattle.c25_cmd.specs.Refused.{column_at, column_behind, refused_at, standing_at, standing_data, standing_of};
ghost use Rattle.c25_cmd.specs.View.{command_data};

use crate::bytes::{behind, front, lexeme};
use crate::command::Command;
use crate::grammar::CommandFailure;
use crate::lexer::{text_of, tokens};
use crate::parts::command_at;
use c25_meaning_common::failure::Failure;
use c25_meaning_common::no_memory::NoMemory;
use c25_meaning_linking::command_token::Lexeme;
use std::alloc::Global;

/// What a text has at the place where its command is refused. Columns count the characters of a line from 1.
#[derive(Clone, Copy)]
pub enum RefusedAt<'a> {
    /// A word.
    Word { column: usize, text: &'a str },
    /// A sign, or the first byte of a character that can stand nowhere.
    Character { column: usize, byte: u8 },
    /// Nothing: the text ends there.
    End,
}

/// The column of the byte after one at `column`: 1 after a line end, `column` after a further byte of a UTF-8
/// character, else one more.
fn column_behind(column: usize, byte: u8) -> usize
    requires { column < 2 ^ 64 - 1 }
    ensures value { result ≡ column_behind column byte }
    ensures bound { result ≤ column + 1 }
{
    if byte == b'\n' {
        1
    } else if byte >= 0x80 && byte < 0xc0 {
        column
    } else {
        column + 1
    }
}

/// The column of a place.
fn column_at(text: &[u8], place: usize) -> usize
    ensures { result ≡ column_at text.now place }
{
    let before = front(text, place);
    let mut column = 1;
    for byte in before {
        column = column_behind(column, *byte);
    }
    column
}

/// What a text has at a place.
#[tactic(auto, unfolding(crate::specs::Refused::at_front))]
fn standing_at(text: &str, place: usize) -> RefusedAt<'_>
    ensures { standing_data result ≡ standing_at text.now place }
{
    let column = column_at(text.as_bytes(), place);
    let rest = behind(text.as_bytes(), place);
    match rest {
        [] => RefusedAt::End,
        [byte, ..] => match lexeme(rest) {
            Lexeme::Word(length) => RefusedAt::Word {
                column,
                text: text_of(front(rest, length)),
            },
            _ => RefusedAt::Character {
                column,
                byte: *byte,
            },
        },
    }
}

/// What a text has where the reading of its command ended, if it was refused.
fn standing_of(
    text: &str,
    read: Result<Command, CommandFailure>,
) -> Result<Option<RefusedAt<'_>>, NoMemory>
    ensures { (meant : Result CommandData (Placed ℕ CommandFault)) → Meets command_data meant read
        → IfOk result (λ standing. option_map standing_data standing ≡ standing_of text.now meant) }
{
    match read {
        Ok(_) => Ok(None),
        Err(Failure::NoMemory(error)) => Err(error),
        Err(Failure::Fault(first)) => Ok(Some(standing_at(text, first.place))),
    }
}

/// What a text has at the place where its command is refused, in the line that
/// [`read_command`](crate::read_command) reports. `None` where the text is a command; `NoMemory` where memory
/// runs out.
pub fn refused_at(alloc: Global, text: &str) -> Result<Option<RefusedAt<'_>>, NoMemory>
    ensures { IfOk result (λ standing. option_map standing_data standing ≡ refused_at text.now) }
{
    let found = tokens(alloc, text.as_bytes())?;
    standing_of(text, command_at(alloc, found.as_slice()))
}
