//! Scripts: commands of the debugger, one a line.

ghost use Rattle.std.specs.Prelude.{◌≡◌};
ghost use Rattle.c25_meaning_processor.specs.Script.{words_in_memory, plain_command, command_with_one, command_with_two, script_of};
ghost use Rattle.c25_meaning_common.specs.Results.{MeetsBy};

use c25_meaning_common::failure::Failure;
use c25_meaning_common::placed::Placed;
use c25_meaning_processor::script::{BadCommand, Cmd};
use c25_texts::{LineFormat, decimal_of, hexadecimal_of, is_word, read_items};
use std::alloc::Global;
use std::marker::Model;

/// The commands of a script, in order. The words that a `data` or a `prog` asks for all lie in the memory.
/// Contracts see it as the list of its commands.
#[derive(Drop)]
pub struct Script {
    commands: Vec<Cmd>,
}

impl Model for Script {
    ghost use Rattle.std.specs.Prelude.{List};
    ghost use Rattle.c25_meaning_processor.specs.declared.script.Cmd.{Cmd};
    ghost use Rattle.c25_debug.specs.WithinMemory.{AreWithin};

    ghost Value = { List Cmd };

    ghost view = { λ s. s.commands.items };

    ghost invariant = { λ s. AreWithin s.commands.items };
}

impl Script {
    ghost use Rattle.std.specs.Prelude.{◌≡◌};
    ghost use Rattle.c25_debug.specs.WithinMemory.{AreWithin};

    /// The commands, the first one first.
    pub fn as_slice(&self) -> &[Cmd]
        ensures commands { result.now ≡ self.now }
        ensures within { AreWithin result.now }
    {
        self.commands.as_slice()
    }
}

/// The command of a line of one word.
#[tactic(auto, unfolding(c25_meaning_processor::specs::Script::plain_command))]
fn plain_command(word: &[u8]) -> Option<Cmd>
    ensures { result ≡ plain_command word.now }
{
    if is_word(word, "regs") {
        Some(Cmd::Regs)
    } else if is_word(word, "stack") {
        Some(Cmd::Stack)
    } else if is_word(word, "where") {
        Some(Cmd::Where)
    } else if is_word(word, "symbols") {
        Some(Cmd::Symbols)
    } else {
        None
    }
}

/// The command of a line of a name and a number: a count in decimal, or an address in hexadecimal.
#[tactic(auto, unfolding(c25_meaning_processor::specs::Script::command_with_one))]
fn command_with_one(word: &[u8], number: &[u8]) -> Option<Cmd>
    ensures { result ≡ command_with_one word.now number.now }
{
    if is_word(word, "step") {
        Some(Cmd::Step(decimal_of(u32::MAX, number)?))
    } else if is_word(word, "run") {
        Some(Cmd::Run(decimal_of(u32::MAX, number)?))
    } else if is_word(word, "list") {
        Some(Cmd::List(decimal_of(u32::MAX, number)?))
    } else if is_word(word, "break") {
        Some(Cmd::Break(hexadecimal_of(1, number)?))
    } else if is_word(word, "clear") {
        Some(Cmd::Clear(hexadecimal_of(1, number)?))
    } else {
        None
    }
}

/// An address in hexadecimal and a count of words in decimal, where all words lie in the memory.
#[tactic(auto, unfolding(c25_meaning_processor::specs::Script::words_in_memory))]
fn words_in_memory(address: &[u8], count: &[u8]) -> Option<(u16, u32)>
    ensures { result ≡ words_in_memory address.now count.now }
{
    let address = hexadecimal_of(1, address)?;
    let count = decimal_of(u32::MAX, count)?;
    if u64::from(address) + u64::from(count) <= 65536 {
        Some((address, count))
    } else {
        None
    }
}

/// The command of a line of a name, an address and a count.
#[tactic(auto, unfolding(c25_meaning_processor::specs::Script::command_with_two))]
fn command_with_two(word: &[u8], address: &[u8], count: &[u8]) -> Option<Cmd>
    ensures { result ≡ command_with_two word.now address.now count.now }
{
    if is_word(word, "data") {
        let (address, count) = words_in_memory(address, count)?;
        Some(Cmd::Data { address, count })
    } else if is_word(word, "prog") {
        let (address, count) = words_in_memory(address, count)?;
        Some(Cmd::Prog { address, count })
    } else {
        None
    }
}

/// The format of a script: one command a line.
struct CommandLines;

impl LineFormat for CommandLines {
    ghost use Rattle.c25_meaning_processor.specs.Script.{script_command_of};

    type Item = Cmd;

    type Fault = BadCommand;

    ghost item_of = { script_command_of };

    fn item(_before: &[Cmd], words: &[&[u8]]) -> Option<Cmd> {
        match words {
            [word] => plain_command(word),
            [word, number] => command_with_one(word, number),
            [word, address, count] => command_with_two(word, address, count),
            _ => None,
        }
    }

    fn fault() -> BadCommand {
        BadCommand
    }
}

/// The script of a text. `BadCommand` comes with the first line that is neither blank nor a command, counted
/// from 1, and `NoMemory` where memory runs out.
pub fn read_script(alloc: Global, text: &str) -> Result<Script, Failure<Placed<usize, BadCommand>>>
    ensures { MeetsBy (λ f. f.place) (λ x. x) (script_of text.now) result }
{
    let commands = read_items::<CommandLines>(alloc, text)?;
    Ok(Script { commands })
}
