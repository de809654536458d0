//! What stands at a fault of the command file (60 to 63), and what is missing, wrong or wanted there.

ghost use Rattle.std.specs.Prelude.{◌≡◌, IfOk, string_bytes};
ghost use Rattle.c25_cmd.specs.Refused.{standing_data};
ghost use Rattle.c25_explain.specs.CommandNotes.{ShowsHinted, ShowsRemark, hinted, wanted_line};
ghost use Rattle.c25_file_hints.specs.CommandHints.{hint_data};

use crate::note::placed_line;
use crate::standing::refused_text;
use c25_cmd::RefusedAt;
use c25_file_hints::command_files::CommandHint;
use c25_file_hints::wanted::Wanted;
use c25_file_hints::{command_hint, wanted_hint};
use c25_meaning_common::no_memory::NoMemory;
use std::alloc::Global;

/// One line of text: the file, the number of the line, and what is missing or wrong there.
fn said_line(
    alloc: Global,
    file: &str,
    line: usize,
    hint: CommandHint<'_>,
) -> Result<String, NoMemory>
    ensures { IfOk result (λ text. string_bytes text ≡ hinted file.now line (hint_data hint.entry)) }
{
    let said = hint.text(alloc)?;
    placed_line(alloc, file, line, said.as_str())
}

/// One line of text: the file, the number of the line, and what is wanted there, if that is known; else empty.
fn wanted_line(
    alloc: Global,
    file: &str,
    line: usize,
    wanted: Option<Wanted>,
) -> Result<String, NoMemory>
    ensures { IfOk result (λ text. string_bytes text ≡ wanted_line file.now line wanted) }
{
    match wanted {
        Some(wanted) => placed_line(alloc, file, line, wanted.text()),
        None => Ok(String::new(alloc)),
    }
}

/// The line with what is missing or wrong at the fault in this line of the text of a command file, or else what is
/// wanted there, where the text shows it; else empty.
fn remark_line(
    alloc: Global,
    file: &str,
    line: usize,
    text: &str,
    standing: RefusedAt<'_>,
) -> Result<String, NoMemory>
    ensures { IfOk result (λ shown. ShowsRemark file.now line text.now (standing_data standing.entry) (string_bytes shown)) }
{
    match command_hint(text, line, standing) {
        Some(hint) => said_line(alloc, file, line, hint),
        None => {
            let wanted = wanted_hint(alloc, text, line, standing)?;
            wanted_line(alloc, file, line, wanted)
        }
    }
}

/// The line with what stands at the fault in this line of the text of a command file, and one with what is missing,
/// wrong or wanted there, where the text shows it.
pub(crate) fn hinted_text(
    alloc: Global,
    file: &str,
    line: usize,
    text: &str,
    standing: RefusedAt<'_>,
) -> Result<String, NoMemory>
    ensures { IfOk result (λ shown. ShowsHinted file.now line text.now (standing_data standing.entry) (string_bytes shown)) }
{
    let mut shown = refused_text(alloc, file, line, standing)?;
    let remark = remark_line(alloc, file, line, text, standing)?;
    shown.push_str(remark.as_str())?;
    Ok(shown)
}
