//! The command file of sources that are moved, with the address of `.bss` at which no block crosses a page.

ghost use Rattle.std.specs.Prelude.{◌≡◌, IfOk, IfSome, Ok, Some, map, string_bytes};
ghost use Rattle.c25_cmd.specs.View.{command_data};
ghost use Rattle.c25_meaning_linking.specs.CommandText.{command_of};
ghost use Rattle.c25_meaning_linking.specs.GoodMap.{placings_for};
ghost use Rattle.c25_move_files.specs.Files.{moved_of};
ghost use Rattle.c25_moving.specs.BssPlace as meaning;
ghost use Rattle.c25_moving.specs.BssPlace.{given_in};

use crate::block_lines::has_block;
use crate::blocks::Reserved;
use crate::bss_given::{Given, command_in, given_by, given_of};
use crate::bss_place::{BssPlace, bss_place};
use crate::bss_text::with_address;
use crate::holes::reserved_in;
use c25_cmd::{Command, section_line};
use c25_meaning_common::no_memory::NoMemory;
use c25_move_files::all::MovedFiles;
use c25_move_files::command::NewCommand;
use c25_move_files::gathered::Gathered;
use c25_move_files::moved::MovedFile;
use c25_move_files::notes::{Note, NoteKind};
use std::alloc::Global;

/// A command file of which something is reported, and its new text, if it has one.
#[derive(Drop)]
struct Placed {
    text: Option<String>,
    kind: NoteKind,
}

/// A command file of which nothing but the address of `.bss` is to be made another one.
fn at_page(alloc: Global, text: &str, given: Given, address: u16) -> Result<Placed, NoMemory>
    ensures { IfOk result (λ p. IfSome p.text (λ new. meaning.IsMoved text.now (string_bytes new) given address)) }
{
    match with_address(alloc, text, given, address) {
        Ok(Some(new)) => Ok(Placed {
            text: Some(new),
            kind: NoteKind::AtPage(address),
        }),
        Ok(None) => Ok(Placed {
            text: None,
            kind: NoteKind::WithinPage,
        }),
        Err(error) => Err(error),
    }
}

/// What becomes of a command file whose command gives `.bss` this address, where the sources reserve these parts of it.
fn placed_with(
    alloc: Global,
    text: &str,
    given: Given,
    command: &Command,
    parts: &[Reserved],
) -> Result<Option<Placed>, NoMemory>
    requires reads { command_of text.now ≡ Ok (command_data command.now) }
    requires gives { given_in (placings_for (command_data command.now)) ≡ Some given }
    ensures { IfOk result (λ o. IfSome o (λ p. IfSome p.text (λ new. meaning.IsAtPage text.now (string_bytes new)))) }
{
    match bss_place(given, command, parts) {
        BssPlace::Stays => Ok(None),
        BssPlace::AtPage(address) => Ok(Some(at_page(alloc, text, given, address)?)),
        BssPlace::WithinPage => Ok(Some(Placed {
            text: None,
            kind: NoteKind::WithinPage,
        })),
    }
}

/// What becomes of a command file, where the sources reserve these parts of `.bss`; nothing where it gives `.bss` no
/// address.
fn placed_by(alloc: Global, text: &str, parts: &[Reserved]) -> Result<Option<Placed>, NoMemory>
    ensures { IfOk result (λ o. IfSome o (λ p. IfSome p.text (λ new. meaning.IsAtPage text.now (string_bytes new)))) }
{
    match command_in(alloc, text) {
        Ok(Some(command)) => match given_of(&command) {
            Some(given) => placed_with(alloc, text, given, &command, parts),
            None => Ok(None),
        },
        Ok(None) => Ok(None),
        Err(error) => Err(error),
    }
}

/// What becomes of the command file of files that are moved; nothing where no file may have a block, where the command file
/// gives `.bss` no address, or where a new source has a fault, since what it reserves is not known then.
fn placed_in(
    alloc: Global,
    gathered: &Gathered,
    files: &[MovedFile<'_>],
    text: &str,
) -> Result<Option<Placed>, NoMemory>
    ensures { IfOk result (λ o. IfSome o (λ p. IfSome p.text (λ new. meaning.IsAtPage text.now (string_bytes new)))) }
{
    if !has_block(gathered) || given_by(alloc, text)?.is_none() {
        return Ok(None);
    }
    match reserved_in(alloc, gathered, files) {
        Ok(Some(parts)) => placed_by(alloc, text, parts.as_slice()),
        Ok(None) => Ok(None),
        Err(error) => Err(error),
    }
}

/// The text of a command file that is changed, or else the text before.
fn text_of(text: String, new: Option<String>) -> String
    ensures { IfSome new (λ new. meaning.IsAtPage (string_bytes text) (string_bytes new)) → meaning.IsPlaced (string_bytes text) (string_bytes result) }
{
    match new {
        Some(new) => new,
        None => text,
    }
}

/// A command file of which something is reported, where it lists `.bss`.
fn with_note<'a>(
    alloc: Global,
    file: &'a str,
    command: NewCommand<'a>,
    placed: Placed,
) -> Result<NewCommand<'a>, NoMemory>
    ensures { IfSome placed.text (λ new. meaning.IsAtPage (string_bytes command.entry.text) (string_bytes new)) → IfOk result (λ c. meaning.IsPlaced (string_bytes command.entry.text) (string_bytes c.text)) }
{
    let NewCommand { text, mut notes } = command;
    let line = section_line(alloc, text.as_str(), ".bss")?.unwrap_or(1);
    let kind = placed.kind;
    notes.push(Note { file, line, kind })?;
    Ok(NewCommand {
        text: text_of(text, placed.text),
        notes,
    })
}

/// A command file with the name of the old one, if there is one.
fn placed_command<'a>(
    alloc: Global,
    gathered: &'a Gathered,
    files: &[MovedFile<'_>],
    command: NewCommand<'a>,
) -> Result<NewCommand<'a>, NoMemory>
    ensures { IfOk result (λ c. meaning.IsPlaced (string_bytes command.entry.text) (string_bytes c.text)) }
{
    let Some(old) = &gathered.command else {
        return Ok(command);
    };
    match placed_in(alloc, gathered, files, command.text.as_str())? {
        Some(placed) => with_note(alloc, old.name.as_str(), command, placed),
        None => Ok(command),
    }
}

/// Files that are moved, with the address of `.bss` in the command file at which no block crosses a page: the one that the
/// command file gives, or where the next page begins. What becomes of an address is noted with its line. `NoMemory` (9)
/// where memory runs out.
pub(crate) fn with_bss_placed<'a>(
    alloc: Global,
    gathered: &'a Gathered,
    moved: MovedFiles<'a>,
) -> Result<MovedFiles<'a>, NoMemory>
    ensures files { IfOk result (λ m. map moved_of m.files.items ≡ map moved_of moved.entry.files.items) }
    ensures command { IfOk result (λ m. meaning.IsPlaced (string_bytes moved.entry.command.text) (string_bytes m.command.text)) }
{
    let MovedFiles { files, command } = moved;
    let command = placed_command(alloc, gathered, files.as_slice(), command)?;
    Ok(MovedFiles { files, command })
}
