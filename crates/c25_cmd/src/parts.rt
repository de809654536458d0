//! The parts of a command file.

ghost use Rattle.std.specs.Prelude.{◌≡◌, length, true};
ghost use Rattle.c25_meaning_linking.specs.Command.{nothing};
ghost use Rattle.c25_meaning_linking.specs.CommandGrammar.{begins, repeated};
ghost use Rattle.c25_meaning_linking.specs.CommandText.{entry_in, memory_in, sections_in, part_in, command_at};
ghost use Rattle.c25_meaning_linking.specs.declared.command_token.Want.TheVariants as want;
ghost use Rattle.c25_meaning_linking.specs.declared.command_token.Keyword.TheVariants as keyword;
ghost use Rattle.c25_meaning_common.specs.Results.{Meets};
ghost use Rattle.c25_cmd.specs.View.{tokens_of, command_data};

use crate::command::Command;
use crate::grammar::{CommandFailure, begins, past, refusal, wanted};
use crate::memory::memory_at;
use crate::sections::sections_at;
use crate::token::Token;
use c25_meaning_linking::command_fault::CommandFault;
use c25_meaning_linking::command_token::{Keyword, Want};
use std::alloc::Global;

/// Reads `-e name`, and returns the tokens after it.
#[tactic(auto, unfolding(c25_meaning_linking::specs::CommandText::entry_in))]
fn entry_in<'a>(
    alloc: Global,
    command: &mut Command,
    tokens: &'a [Token],
) -> Result<&'a [Token], CommandFailure>
    ensures { Meets (λ x. (command_data command.new, tokens_of x.now)) (entry_in (command_data command.old) (tokens_of tokens.now)) result }
{
    let (word, rest) = wanted(Want::Name, tokens)?;
    if word.text.as_str() != "-e" {
        return Err(refusal(CommandFault::Syntax, tokens));
    }
    if command.entry.is_some() {
        return Err(refusal(CommandFault::Twice, tokens));
    }
    let (name, rest) = wanted(Want::Name, rest)?;
    command.entry = Some(String::from_str(alloc, name.text.as_str())?);
    Ok(rest)
}

/// Reads `MEMORY` and its ranges, and returns the tokens after them.
#[tactic(auto, unfolding(c25_meaning_linking::specs::CommandText::memory_in))]
fn memory_in<'a>(
    alloc: Global,
    command: &mut Command,
    tokens: &'a [Token],
) -> Result<&'a [Token], CommandFailure>
    requires { begins (want.Keyword keyword.Memory) (tokens_of tokens.now) ≡ true }
    ensures { Meets (λ x. (command_data command.new, tokens_of x.now)) (memory_in (command_data command.old) (tokens_of tokens.now)) result }
{
    if command.memory.is_some() {
        return Err(refusal(CommandFault::Twice, tokens));
    }
    let (ranges, rest) = memory_at(alloc, past(Want::Keyword(Keyword::Memory), tokens))?;
    command.memory = Some(ranges);
    Ok(rest)
}

/// Reads `SECTIONS` and its sections, and returns the tokens after them.
#[tactic(auto, unfolding(c25_meaning_linking::specs::CommandText::sections_in))]
fn sections_in<'a>(
    alloc: Global,
    command: &mut Command,
    tokens: &'a [Token],
) -> Result<&'a [Token], CommandFailure>
    requires { begins (want.Keyword keyword.Sections) (tokens_of tokens.now) ≡ true }
    ensures { Meets (λ x. (command_data command.new, tokens_of x.now)) (sections_in (command_data command.old) (tokens_of tokens.now)) result }
{
    if command.sections.is_some() {
        return Err(refusal(CommandFault::Twice, tokens));
    }
    let (placings, rest) = sections_at(alloc, past(Want::Keyword(Keyword::Sections), tokens))?;
    command.sections = Some(placings);
    Ok(rest)
}

/// Reads one of the three parts, and returns the tokens after it.
#[tactic(auto, unfolding(c25_meaning_linking::specs::CommandText::part_in))]
fn part_in<'a>(
    alloc: Global,
    command: &mut Command,
    tokens: &'a [Token],
) -> Result<&'a [Token], CommandFailure>
    ensures { Meets (λ x. (command_data command.new, tokens_of x.now)) (part_in (command_data command.old) (tokens_of tokens.now)) result }
{
    if begins(Want::Keyword(Keyword::Memory), tokens) {
        memory_in(alloc, command, tokens)
    } else if begins(Want::Keyword(Keyword::Sections), tokens) {
        sections_in(alloc, command, tokens)
    } else {
        entry_in(alloc, command, tokens)
    }
}

/// Reads parts up to the end of the text.
fn parts_at(alloc: Global, tokens: &[Token]) -> Result<(Command, &[Token]), CommandFailure>
    ensures { Meets (λ x. (command_data x.0, tokens_of x.1.now)) (repeated want.End part_in (length tokens.now) nothing (tokens_of tokens.now)) result }
{
    let mut command = Command {
        entry: None,
        memory: None,
        sections: None,
    };
    let mut rest = tokens;
    for _ in 0..tokens.len() {
        if begins(Want::End, rest) {
            return Ok((command, rest));
        }
        let after = part_in(alloc, &mut command, rest)?;
        rest = after;
    }
    Ok((command, rest))
}

/// The command that the tokens spell.
#[tactic(auto, unfolding(c25_meaning_linking::specs::CommandText::command_at))]
pub(crate) fn command_at(alloc: Global, tokens: &[Token]) -> Result<Command, CommandFailure>
    ensures { Meets command_data (command_at (tokens_of tokens.now)) result }
{
    let (command, rest) = parts_at(alloc, tokens)?;
    wanted(Want::End, rest)?;
    Ok(command)
}
