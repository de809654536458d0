//! Lines at the prompt, read as commands.

ghost use Rattle.std.specs.Prelude.{◌≡◌, ◌+◌, ◌≤◌, IfOk, IfSome, map, option_map};
ghost use Rattle.std.specs.Io.BufRead.{ends_with_byte, strip_last};
ghost use Rattle.c25_meaning_common.specs.Items as items;
ghost use Rattle.c25_meaning_common.specs.Results.{Meets};
ghost use Rattle.c25_prompt_lines.specs.Addresses.{program_view};
ghost use Rattle.c25_prompt_lines.specs.Commands.{alone, command_of, count_of, display_command, fields_command, line_command, plain_command, print_command, session_command, undisplay_command, with_one, with_operands, with_two, within, without_end};
ghost use Rattle.c25_prompt_lines.specs.Expressions.{here_view};
ghost use Rattle.c25_prompt_lines.specs.WithinMemory.{IsWithinPrompt, IsWithinSession};

use crate::address::address_of;
use crate::command::{PromptCommand, SessionCommand, Wrong};
use crate::expression::shown_of;
use crate::program::{Here, Program};
use crate::verb::{Verb, verb_of};
use c25_meaning_common::bytes::is_blank;
use c25_meaning_common::failure::Failure;
use c25_meaning_common::no_memory::NoMemory;
use c25_meaning_processor::script::Cmd;
use c25_texts::decimal_of;
use std::alloc::{AllocError, Global};

/// A count in decimal.
fn count_of(text: &[u8]) -> Result<u32, Wrong>
    ensures { result ≡ count_of text.now }
{
    match decimal_of(u32::MAX, text) {
        Some(count) => Ok(count),
        None => Err(Wrong::Count),
    }
}

/// Whether so many words from an address on lie in the memory.
fn within(address: u16, count: u32) -> Result<(u16, u32), Wrong>
    ensures words { result ≡ within address count }
    ensures fit { IfOk result (λ words. words.0 + words.1 ≤ 65536) }
{
    if u64::from(address) + u64::from(count) <= 65_536 {
        Ok((address, count))
    } else {
        Err(Wrong::Outside)
    }
}

/// The command of a name alone.
#[tactic(auto, unfolding(crate::specs::Commands::alone))]
fn alone(verb: Verb) -> Result<PromptCommand, Wrong>
    ensures command { result ≡ alone verb }
    ensures within { IfOk result (λ c. IsWithinPrompt c) }
{
    match verb {
        Verb::Regs => Ok(PromptCommand::Script(Cmd::Regs)),
        Verb::Stack => Ok(PromptCommand::Script(Cmd::Stack)),
        Verb::Where => Ok(PromptCommand::Script(Cmd::Where)),
        Verb::Symbols => Ok(PromptCommand::Script(Cmd::Symbols)),
        Verb::Next => Ok(PromptCommand::Next(1)),
        Verb::Finish => Ok(PromptCommand::Finish),
        Verb::Restart => Ok(PromptCommand::Back(u32::MAX)),
        Verb::BackTo => Ok(PromptCommand::BackTo),
        Verb::Ignore => Ok(PromptCommand::Ignored),
        Verb::Trace => Ok(PromptCommand::Trace(10)),
        Verb::Inputs => Ok(PromptCommand::Inputs),
        Verb::Outputs => Ok(PromptCommand::Outputs(u32::MAX)),
        Verb::Help => Ok(PromptCommand::Help),
        Verb::Quit => Ok(PromptCommand::Quit),
        _ => Err(Wrong::Operands),
    }
}

/// The command of a name and an operand.
#[tactic(auto, unfolding(crate::specs::Commands::with_one))]
fn with_one(
    program: &Program<'_>,
    here: Option<&str>,
    verb: Verb,
    text: &[u8],
) -> Result<PromptCommand, Wrong>
    ensures command { result ≡ with_one (program_view program.entry.now) (option_map (λ s. s.now) here.entry) verb text.entry.now }
    ensures within { IfOk result (λ c. IsWithinPrompt c) }
{
    match verb {
        Verb::Step => Ok(PromptCommand::Script(Cmd::Step(count_of(text)?))),
        Verb::Run => Ok(PromptCommand::Script(Cmd::Run(count_of(text)?))),
        Verb::List => Ok(PromptCommand::Script(Cmd::List(count_of(text)?))),
        Verb::Next => Ok(PromptCommand::Next(count_of(text)?)),
        Verb::Back => Ok(PromptCommand::Back(count_of(text)?)),
        Verb::Trace => Ok(PromptCommand::Trace(count_of(text)?)),
        Verb::Outputs => Ok(PromptCommand::Outputs(count_of(text)?)),
        Verb::Break => Ok(PromptCommand::Script(Cmd::Break(address_of(program, here, text)?))),
        Verb::Clear => Ok(PromptCommand::Script(Cmd::Clear(address_of(program, here, text)?))),
        Verb::Watch => Ok(PromptCommand::Watch(address_of(program, here, text)?)),
        Verb::Unwatch => Ok(PromptCommand::Unwatch(address_of(program, here, text)?)),
        Verb::Hits => Ok(PromptCommand::Hits(address_of(program, here, text)?)),
        Verb::Once => Ok(PromptCommand::Once(address_of(program, here, text)?)),
        Verb::Until => Ok(PromptCommand::Until {
            address: address_of(program, here, text)?,
            count: u32::MAX,
        }),
        _ => Err(Wrong::Operands),
    }
}

/// The command of a name, an address and a count.
#[tactic(auto, unfolding(crate::specs::Commands::with_two))]
fn with_two(
    program: &Program<'_>,
    here: Option<&str>,
    verb: Verb,
    address: &[u8],
    count: &[u8],
) -> Result<PromptCommand, Wrong>
    ensures command { result ≡ with_two (program_view program.entry.now) (option_map (λ s. s.now) here.entry) verb address.entry.now count.entry.now }
    ensures within { IfOk result (λ c. IsWithinPrompt c) }
{
    match verb {
        Verb::Data => {
            let address = address_of(program, here, address)?;
            let (address, count) = within(address, count_of(count)?)?;
            Ok(PromptCommand::Script(Cmd::Data { address, count }))
        }
        Verb::Prog => {
            let address = address_of(program, here, address)?;
            let (address, count) = within(address, count_of(count)?)?;
            Ok(PromptCommand::Script(Cmd::Prog { address, count }))
        }
        Verb::Until => {
            let address = address_of(program, here, address)?;
            let count = count_of(count)?;
            Ok(PromptCommand::Until { address, count })
        }
        Verb::Ignore => {
            let address = address_of(program, here, address)?;
            let count = count_of(count)?;
            Ok(PromptCommand::Ignore { address, count })
        }
        Verb::List => {
            let address = address_of(program, here, address)?;
            let count = count_of(count)?;
            Ok(PromptCommand::ListFrom { address, count })
        }
        _ => Err(Wrong::Operands),
    }
}

/// The command of a name and its operands.
fn with_operands(
    program: &Program<'_>,
    here: Option<&str>,
    verb: Verb,
    operands: &[&[u8]],
) -> Result<PromptCommand, Wrong>
    ensures command { result ≡ with_operands (program_view program.entry.now) (option_map (λ s. s.now) here.entry) verb (map (λ w. w.now) operands.entry.now) }
    ensures within { IfOk result (λ c. IsWithinPrompt c) }
{
    match operands {
        [] => alone(verb),
        [text] => with_one(program, here, verb, text),
        [address, count] => with_two(program, here, verb, address, count),
        _ => Err(Wrong::Operands),
    }
}

/// A command, or why it is invalid, where no memory is taken.
fn without_memory(command: Result<SessionCommand, Wrong>) -> Result<SessionCommand, Failure<Wrong>>
    ensures { Meets (λ c. c) command result }
{
    match command {
        Ok(command) => Ok(command),
        Err(wrong) => Err(Failure::Fault(wrong)),
    }
}

/// The command of `line` and its operands.
fn line_command(operands: &[&[u8]]) -> Result<SessionCommand, Wrong>
    ensures { result ≡ line_command (map (λ w. w.now) operands.entry.now) }
{
    match operands {
        [] => Ok(SessionCommand::Line),
        _ => Err(Wrong::Operands),
    }
}

/// The command of `print` and its operands.
fn print_command(
    alloc: Global,
    program: &Program<'_>,
    here: Here<'_>,
    operands: &[&[u8]],
) -> Result<SessionCommand, Failure<Wrong>>
    ensures { Meets (λ c. c) (print_command (program_view program.entry.now) (here_view here.entry) (map (λ w. w.now) operands.entry.now)) result }
{
    match operands {
        [text] => match shown_of(alloc, program, here, text) {
            Ok(shown) => Ok(SessionCommand::Plain(PromptCommand::Print(shown))),
            Err(failure) => Err(failure),
        },
        _ => Err(Failure::Fault(Wrong::Operands)),
    }
}

/// The command of `display` and its operands.
fn display_command(
    alloc: Global,
    program: &Program<'_>,
    here: Here<'_>,
    operands: &[&[u8]],
) -> Result<SessionCommand, Failure<Wrong>>
    ensures { Meets (λ c. c) (display_command (program_view program.entry.now) (here_view here.entry) (map (λ w. w.now) operands.entry.now)) result }
{
    match operands {
        [] => Ok(SessionCommand::Displayed),
        [text] => match shown_of(alloc, program, here, text) {
            Ok(shown) => Ok(SessionCommand::Display(shown)),
            Err(failure) => Err(failure),
        },
        _ => Err(Failure::Fault(Wrong::Operands)),
    }
}

/// The command of `undisplay` and its operands.
fn undisplay_command(operands: &[&[u8]]) -> Result<SessionCommand, Wrong>
    ensures { result ≡ undisplay_command (map (λ w. w.now) operands.entry.now) }
{
    match operands {
        [] => Ok(SessionCommand::UndisplayAll),
        [text] => Ok(SessionCommand::Undisplay(count_of(text)?)),
        _ => Err(Wrong::Operands),
    }
}

/// The command of another name and its operands.
fn plain_command(
    program: &Program<'_>,
    here: Option<&str>,
    verb: Verb,
    operands: &[&[u8]],
) -> Result<SessionCommand, Wrong>
    ensures command { result ≡ plain_command (program_view program.entry.now) (option_map (λ s. s.now) here.entry) verb (map (λ w. w.now) operands.entry.now) }
    ensures within { IfOk result (λ c. IsWithinSession c) }
{
    Ok(SessionCommand::Plain(with_operands(program, here, verb, operands)?))
}

/// The command of a session, of a name and its operands.
#[tactic(auto, unfolding(crate::specs::Commands::session_command))]
fn session_command(
    alloc: Global,
    program: &Program<'_>,
    here: Here<'_>,
    verb: Verb,
    operands: &[&[u8]],
) -> Result<SessionCommand, Failure<Wrong>>
    ensures command { Meets (λ c. c) (session_command (program_view program.entry.now) (here_view here.entry) verb (map (λ w. w.now) operands.entry.now)) result }
    ensures within { IfOk result (λ c. IsWithinSession c) }
{
    match verb {
        Verb::Line => without_memory(line_command(operands)),
        Verb::Print => print_command(alloc, program, here, operands),
        Verb::Display => display_command(alloc, program, here, operands),
        Verb::Undisplay => without_memory(undisplay_command(operands)),
        _ => without_memory(plain_command(program, here.file, verb, operands)),
    }
}

/// The command of the fields of a line, if there are any.
fn fields_command(
    alloc: Global,
    program: &Program<'_>,
    here: Here<'_>,
    fields: &[&[u8]],
) -> Result<Option<SessionCommand>, Failure<Wrong>>
    ensures command { Meets (λ c. c) (fields_command (program_view program.entry.now) (here_view here.entry) (map (λ w. w.now) fields.entry.now)) result }
    ensures within { IfOk result (λ c. IfSome c (λ d. IsWithinSession d)) }
{
    let Some((word, operands)) = fields.split_first() else {
        return Ok(None);
    };
    match verb_of(word) {
        None => Err(Failure::Fault(Wrong::NoCommand)),
        Some(verb) => match session_command(alloc, program, here, verb, operands) {
            Ok(command) => Ok(Some(command)),
            Err(failure) => Err(failure),
        },
    }
}

/// Whether a line's last byte is this one.
fn ends_with(line: &[u8], byte: u8) -> bool
    ensures { result ≡ ends_with_byte byte line.now }
{
    !line.is_empty() && line[line.len() - 1] == byte
}

/// A line without its last byte, if it is this one.
fn without_last(line: &[u8], byte: u8) -> &[u8]
    ensures { result.now ≡ strip_last byte line.now }
{
    if ends_with(line, byte) {
        &line[..line.len() - 1]
    } else {
        line
    }
}

/// A line without the LF or CR LF that ends it.
fn without_end(line: &[u8]) -> &[u8]
    ensures { result.now ≡ without_end line.now }
{
    without_last(without_last(line, b'\n'), b'\r')
}

/// The fields of a line: what its blanks and tabs part.
fn fields_of(alloc: Global, line: &[u8]) -> Result<Vec<&[u8]>, AllocError>
    ensures { IfOk result (λ v. map (λ w. w.now) v.items ≡ items.line_words line.now) }
{
    line.split(|b| is_blank(*b))
        .filter(|word| word.len() != 0)
        .collect(alloc)
}

/// What a line is read as: a command, none where the line is blank, or why it is no command.
pub type Read = Result<Option<SessionCommand>, Wrong>;

/// What a line, with or without its end, is read as. A name alone is that of the source where the processor stands, if
/// it has it.
pub fn command_of(
    alloc: Global,
    program: &Program<'_>,
    here: Here<'_>,
    line: &[u8],
) -> Result<Read, NoMemory>
    ensures command { IfOk result (λ read. read ≡ command_of (program_view program.entry.now) (here_view here.entry) line.entry.now) }
    ensures within { IfOk result (λ read. IfOk read (λ c. IfSome c (λ d. IsWithinSession d))) }
{
    let fields = fields_of(alloc, without_end(line))?;
    match fields_command(alloc, program, here, fields.as_slice()) {
        Ok(command) => Ok(Ok(command)),
        Err(Failure::Fault(wrong)) => Ok(Err(wrong)),
        Err(Failure::NoMemory(error)) => Err(error),
    }
}
