//! A section that does not fit, the ranges that it may be placed in, and its first block that crosses a page (73).

ghost use Rattle.std.specs.Option.{option_map};
ghost use Rattle.std.specs.Prelude.{◌≡◌, ◌++◌, [], ◌∷◌, IfOk, IfSome, OnOk, codes, map, string_bytes};
ghost use Rattle.c25_link_faults.specs.Overlaps.{span_data};
ghost use Rattle.c25_rooms.specs.Crossings.{crossing_data};
ghost use Rattle.c25_rooms.specs.Details.{details_data};
ghost use Rattle.c25_rooms.specs.Holes.{room_data};
ghost use Rattle.c25_explain.specs.Again.{AreUnfitNotes, crossing_notes, hole_notes, line_note, note_view, notes_view, room_note, unfit_notes};

use crate::note_lines::LinkNote;
use crate::unfit_texts::{crossing_text, free_room_text, hole_text, section_text};
use c25_cmd::read_command;
use c25_link_faults::Span;
use c25_meaning_common::no_memory::NoMemory;
use c25_module::Module;
use c25_rooms::{Crossing, Details, Room, details_of};
use std::alloc::Global;

/// Appends the note with a text as a line.
fn push_line(notes: &mut Vec<LinkNote>, text: String) -> Result<(), NoMemory>
    ensures { OnOk result (notes_view notes.new.items ≡ notes_view notes.old.items ++ line_note (string_bytes text) ∷ []) }
{
    let mut text = text;
    text.push('\n')?;
    notes.push(LinkNote { text, line: None })?;
    Ok(())
}

/// Appends a note for each range.
fn push_rooms(alloc: Global, rooms: &[Room<'_>], notes: &mut Vec<LinkNote>) -> Result<(), NoMemory>
    ensures { OnOk result (notes_view notes.new.items ≡ notes_view notes.old.items ++ map room_note (map room_data rooms.now)) }
{
    for room in rooms {
        push_line(notes, free_room_text(alloc, room)?)?;
    }
    Ok(())
}

/// Appends the note about the words that would help a block, if there are any.
fn push_hole(
    alloc: Global,
    name: &str,
    hole: Option<u32>,
    notes: &mut Vec<LinkNote>,
) -> Result<(), NoMemory>
    ensures { OnOk result (notes_view notes.new.items ≡ notes_view notes.old.items ++ hole_notes name.now hole) }
{
    match hole {
        Some(words) => push_line(notes, hole_text(alloc, name, words)?),
        None => Ok(()),
    }
}

/// Appends the notes about a block that crosses a page, if there is one.
fn push_crossing(
    alloc: Global,
    name: &str,
    span: Option<&Span<'_>>,
    crossing: Option<&Crossing>,
    notes: &mut Vec<LinkNote>,
) -> Result<(), NoMemory>
    ensures { OnOk result (notes_view notes.new.items ≡ notes_view notes.old.items ++ crossing_notes name.now (option_map (λ s. span_data s.now) span.entry) (option_map (λ c. crossing_data c.now) crossing.entry)) }
{
    match crossing {
        Some(crossing) => {
            push_line(notes, crossing_text(alloc, name, span, &crossing.block)?)?;
            push_hole(alloc, name, crossing.hole, notes)
        }
        None => Ok(()),
    }
}

/// The notes about a section: its words, the ranges that it may be placed in, and its first block that crosses a page.
fn notes_of(alloc: Global, name: &str, details: &Details<'_>) -> Result<Vec<LinkNote>, NoMemory>
    ensures { IfOk result (λ notes. notes_view notes.items ≡ unfit_notes name.now (details_data details.now)) }
{
    let mut notes = Vec::new(alloc);
    let unfit = &details.unfit;
    push_line(&mut notes, section_text(alloc, name, unfit)?)?;
    push_rooms(alloc, &details.rooms, &mut notes)?;
    push_crossing(
        alloc,
        name,
        unfit.span.as_ref(),
        details.crossing.as_ref(),
        &mut notes,
    )?;
    Ok(notes)
}

/// The notes about the section of a name among modules under the text of a command file; none where the
/// command file is refused, or that section is not the first that cannot be placed.
pub(crate) fn unfit_notes(
    alloc: Global,
    modules: &[Module],
    command: &str,
    name: &str,
) -> Result<Option<Vec<LinkNote>>, NoMemory>
    ensures { IfOk result (λ notes. IfSome notes (λ v. AreUnfitNotes name.now modules.now command.now (notes_view v.items))) }
{
    let Ok(command) = read_command(alloc, command) else {
        return Ok(None);
    };
    let Some(details) = details_of(alloc, modules, &command, name)? else {
        return Ok(None);
    };
    notes_of(alloc, name, &details).map(Some)
}
