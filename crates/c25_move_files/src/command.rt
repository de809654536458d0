//! The command file of moved sources: the old one, and the addresses of sections that the sources give.

use crate::command_lines::{CommandLine, Reading, command_line};
use crate::notes::{Note, NoteKind};
use c25_meaning_common::no_memory::NoMemory;
use c25_move_lines::Address;
use std::alloc::Global;

/// A command file: its text, and what is reported of the lines of the old one.
#[derive(Drop)]
pub struct NewCommand<'a> {
    pub text: String,
    pub notes: Vec<Note<'a>>,
}

/// An old command file: its name and its text.
#[derive(Clone, Copy)]
pub(crate) struct OldCommand<'a> {
    pub name: &'a str,
    pub text: &'a str,
}

/// Whether a section has an address before these.
fn is_placed(before: &[Address], section: &str) -> bool {
    before
        .iter()
        .any(|address| address.section.as_str() == section)
}

/// The lines that place sections at their addresses, the first of each section.
fn placings(alloc: Global, addresses: &[Address]) -> Result<String, NoMemory> {
    let mut text = String::new(alloc);
    for (place, address) in addresses.iter().enumerate() {
        let section = address.section.as_str();
        let (before, _) = addresses.split_at(place);
        if !is_placed(before, section) {
            let at = address.address.as_str();
            text.push_str(format!(in alloc; "{}{section} : load = {at}\n", "  ")?.as_str())?;
        }
    }
    Ok(text)
}

/// Lines that place sections, as a SECTIONS of their own.
fn sections_of(alloc: Global, placings: &str) -> Result<String, NoMemory> {
    Ok(format!(in alloc; "{}{placings}{}", "SECTIONS\n{\n", "}\n")?)
}

/// The text of a command file with lines that place sections: before the brace that ends its SECTIONS, or in a SECTIONS
/// of their own.
fn with_placings(alloc: Global, text: &str, placings: &str) -> Result<String, NoMemory> {
    if placings.is_empty() {
        return Ok(String::from_str(alloc, text)?);
    }
    match text.rsplit_once('}') {
        Some((front, end)) if front.contains("SECTIONS") => {
            let gap = if front.ends_with('\n') { "" } else { "\n" };
            Ok(format!(in alloc; "{front}{gap}{placings}{}{end}", "}")?)
        }
        _ => {
            let own = sections_of(alloc, placings)?;
            Ok(format!(in alloc; "{text}{own}")?)
        }
    }
}

/// Adds a line of an old command file, and what is reported of it.
fn push_line<'a>(
    alloc: Global,
    command: &mut NewCommand<'a>,
    reading: &mut Reading,
    place: Note<'a>,
    line: &str,
) -> Result<(), NoMemory> {
    let CommandLine { text, kinds } = command_line(alloc, reading, line)?;
    command.text.push_str(text.as_str())?;
    command.text.push('\n')?;
    for kind in kinds.iter() {
        command.notes.push(Note {
            file: place.file,
            line: place.line,
            kind: *kind,
        })?;
    }
    Ok(())
}

/// The lines of an old command file as the linker reads them.
fn moved_lines<'a>(alloc: Global, old: OldCommand<'a>) -> Result<NewCommand<'a>, NoMemory> {
    let mut command = NewCommand {
        text: String::new(alloc),
        notes: Vec::new(alloc),
    };
    let mut reading = Reading::new(alloc);
    for (place, line) in old.text.lines().enumerate() {
        let place = Note {
            file: old.name,
            line: place.saturating_add(1),
            kind: NoteKind::TakenOut,
        };
        push_line(alloc, &mut command, &mut reading, place, line)?;
    }
    Ok(command)
}

/// The command file of moved sources; its text is empty where nothing has to be placed.
pub(crate) fn command_of<'a>(
    alloc: Global,
    old: Option<OldCommand<'a>>,
    addresses: &[Address],
) -> Result<NewCommand<'a>, NoMemory> {
    let placings = placings(alloc, addresses)?;
    let command = match old {
        Some(old) => moved_lines(alloc, old)?,
        None => NewCommand {
            text: String::new(alloc),
            notes: Vec::new(alloc),
        },
    };
    Ok(NewCommand {
        text: with_placings(alloc, command.text.as_str(), placings.as_str())?,
        notes: command.notes,
    })
}
