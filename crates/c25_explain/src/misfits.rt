//! The field that does not take its value (75), found by linking again.

ghost use Rattle.std.specs.Prelude.{◌≡◌, ◌∷◌, [], IfOk, IfSome, map, string_bytes};
ghost use Rattle.c25_link.specs.Misfits.{misfit_data};
ghost use Rattle.c25_explain.specs.Again.{AreFieldNotes, field_note, note_view, notes_view};

use crate::fields::misfit_text;
use crate::note_lines::{LinkNote, alone, name_at, owned_line};
use c25_cmd::read_command;
use c25_link::{Misfit, first_misfit};
use c25_meaning_common::no_memory::NoMemory;
use c25_module::Module;
use std::alloc::Global;

/// The note about a field, in modules of the files of these names.
fn field_note(alloc: Global, names: &[String], misfit: &Misfit<'_>) -> Result<LinkNote, NoMemory>
    ensures { IfOk result (λ note. note_view note ≡ field_note (map string_bytes names.now) (misfit_data misfit.now)) }
{
    let text = misfit_text(alloc, name_at(names, misfit.number), misfit)?;
    let line = owned_line(alloc, misfit.line)?;
    Ok(LinkNote { text, line })
}

/// The note about a field, alone.
fn notes_of_field(
    alloc: Global,
    names: &[String],
    misfit: &Misfit<'_>,
) -> Result<Vec<LinkNote>, NoMemory>
    ensures { IfOk result (λ notes. notes_view notes.items ≡ field_note (map string_bytes names.now) (misfit_data misfit.now) ∷ []) }
{
    let note = field_note(alloc, names, misfit)?;
    alone(alloc, note)
}

/// The note about the first field that does not take its value, in modules of the files of these names,
/// linked under the text of a command file; none where all fields take their values, or the command file or
/// the modules are refused before fields are looked at.
pub(crate) fn field_notes(
    alloc: Global,
    names: &[String],
    modules: &[Module],
    command: &str,
) -> Result<Option<Vec<LinkNote>>, NoMemory>
    ensures { IfOk result (λ notes. IfSome notes (λ v. AreFieldNotes (map string_bytes names.now) modules.now command.now (notes_view v.items))) }
{
    let Ok(command) = read_command(alloc, command) else {
        return Ok(None);
    };
    match first_misfit(alloc, modules, &command) {
        Ok(Some(misfit)) => notes_of_field(alloc, names, &misfit).map(Some),
        Ok(None) | Err(_) => Ok(None),
    }
}
