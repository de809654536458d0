//! Lines that reserve words in `.bss`, put in around lines that are moved, so that blocks lie in pages of data memory.

ghost use Rattle.std.specs.Prelude.{◌≡◌, ◌++◌, IfOk, OnOk, map, string_bytes};
ghost use Rattle.c25_move.specs.Rewritten.{rewritten_of};
ghost use Rattle.c25_move_files.specs.Files.{moved_of};
ghost use Rattle.c25_move_files.specs.Holed as meaning;
ghost use Rattle.c25_move_files.specs.Notes.{noted};
ghost use Rattle.c25_move_files.specs.declared.notes.HoleSide.TheVariants.{Before, After};

use crate::all::MovedFiles;
use crate::moved::MovedFile;
use crate::notes::{Hole, HoleSide, Note, NoteKind};
use crate::rows::hole_line;
use c25_meaning_common::no_memory::NoMemory;
use c25_move::MovedLine;
use c25_move_lines::Change;
use std::alloc::Global;

/// A side of a line of a file, which is counted from 1.
#[derive(Clone, Copy)]
struct Spot<'a> {
    file: &'a str,
    line: usize,
    side: HoleSide,
}

/// The line of a hole, as it stands in a source.
fn hole_row(alloc: Global, hole: Hole) -> Result<String, NoMemory>
    ensures { IfOk result (λ row. string_bytes row ≡ meaning.hole_row hole) }
{
    let line = hole_line(alloc, hole)?;
    Ok(format!(in alloc; "{}{line}", "        ")?)
}

fn is_side(one: HoleSide, other: HoleSide) -> bool
    ensures { result ≡ meaning.is_side one other }
{
    match (one, other) {
        (HoleSide::Before, HoleSide::Before) => true,
        (HoleSide::Before, HoleSide::After) => false,
        (HoleSide::After, HoleSide::Before) => false,
        (HoleSide::After, HoleSide::After) => true,
    }
}

/// Adds the line that a note puts in on a side of its line, if it does.
fn push_put_in(
    alloc: Global,
    lines: &mut Vec<String>,
    side: HoleSide,
    kind: NoteKind,
) -> Result<(), NoMemory>
    ensures { OnOk result (map string_bytes lines.new.items ≡ map string_bytes lines.old.items ++ meaning.put_in side kind) }
{
    match kind {
        NoteKind::HolePutIn(hole) => {
            if is_side(hole.side, side) {
                lines.push(hole_row(alloc, hole)?)?;
            }
            Ok(())
        }
        _ => Ok(()),
    }
}

/// Adds the line that a note puts in at a spot, if it does.
fn push_put_in_at(
    alloc: Global,
    lines: &mut Vec<String>,
    spot: Spot<'_>,
    note: &Note<'_>,
) -> Result<(), NoMemory>
    ensures { OnOk result (map string_bytes lines.new.items ≡ map string_bytes lines.old.items ++ meaning.put_in_at spot.entry.side spot.entry.file.now spot.entry.line (noted note.now)) }
{
    if note.line == spot.line && note.file == spot.file {
        push_put_in(alloc, lines, spot.side, note.kind)
    } else {
        Ok(())
    }
}

/// Adds the lines that notes put in at a spot.
fn push_all_put_in_at(
    alloc: Global,
    lines: &mut Vec<String>,
    spot: Spot<'_>,
    notes: &[Note<'_>],
) -> Result<(), NoMemory>
    ensures { OnOk result (map string_bytes lines.new.items ≡ map string_bytes lines.old.items ++ meaning.all_put_in_at spot.entry.side spot.entry.file.now spot.entry.line (map noted notes.now)) }
{
    for note in notes {
        push_put_in_at(alloc, lines, spot, note)?;
    }
    Ok(())
}

/// Adds lines.
fn push_lines(alloc: Global, lines: &mut Vec<String>, others: &[String]) -> Result<(), NoMemory>
    ensures { OnOk result (map string_bytes lines.new.items ≡ map string_bytes lines.old.items ++ map string_bytes others.now) }
{
    for line in others {
        lines.push(String::from_str(alloc, line.as_str())?)?;
    }
    Ok(())
}

/// The new lines of an old one of this number, and the lines that notes put in around them.
fn lines_with_holes(
    alloc: Global,
    lines: &[String],
    file: &str,
    line: usize,
    notes: &[Note<'_>],
) -> Result<Vec<String>, NoMemory>
    ensures { IfOk result (λ all. map string_bytes all.items ≡ (meaning.all_put_in_at Before file.now line (map noted notes.now) ++ map string_bytes lines.now) ++ meaning.all_put_in_at After file.now line (map noted notes.now)) }
{
    let mut all = Vec::new(alloc);
    let before = Spot {
        file,
        line,
        side: HoleSide::Before,
    };
    let after = Spot {
        file,
        line,
        side: HoleSide::After,
    };
    push_all_put_in_at(alloc, &mut all, before, notes)?;
    push_lines(alloc, &mut all, lines)?;
    push_all_put_in_at(alloc, &mut all, after, notes)?;
    Ok(all)
}

/// A line of this number that is moved, and the lines that notes put in around it.
fn line_with_holes<'a>(
    alloc: Global,
    moved: &MovedLine<'a>,
    file: &str,
    line: usize,
    notes: &[Note<'_>],
) -> Result<MovedLine<'a>, NoMemory>
    ensures { IfOk result (λ m. rewritten_of m ≡ meaning.with_holes (map noted notes.now) file.now line (rewritten_of moved.now)) }
{
    let lines = lines_with_holes(alloc, moved.change.lines.as_slice(), file, line, notes)?;
    let done = Vec::from_slice(alloc, moved.change.done.as_slice())?;
    let left = Vec::from_slice(alloc, moved.change.left.as_slice())?;
    let refused = Vec::from_slice(alloc, moved.refused.as_slice())?;
    Ok(MovedLine {
        old: moved.old,
        end: moved.end,
        change: Change { lines, done, left },
        refused,
    })
}

/// A file that is moved, and the lines that notes put in.
#[tactic(auto, unfolding(crate::specs::Holed::lines_with_holes))]
fn file_with_holes<'a>(
    alloc: Global,
    moved: &MovedFile<'a>,
    notes: &[Note<'_>],
) -> Result<MovedFile<'a>, NoMemory>
    ensures { IfOk result (λ m. moved_of m ≡ meaning.holed (map noted notes.now) (moved_of moved.now)) }
{
    let mut lines = Vec::new(alloc);
    let mut number = 1_usize;
    for line in &moved.lines {
        lines.push(line_with_holes(alloc, line, moved.old, number, notes)?)?;
        number = number.saturating_add(1);
    }
    Ok(MovedFile {
        old: moved.old,
        new: String::from_str(alloc, moved.new.as_str())?,
        lines,
    })
}

/// Files that are moved, and the lines that notes put in. `NoMemory` (9) where memory runs out.
pub fn files_with_holes<'a>(
    alloc: Global,
    moved: &[MovedFile<'a>],
    notes: &[Note<'_>],
) -> Result<Vec<MovedFile<'a>>, NoMemory>
    ensures { IfOk result (λ ms. map moved_of ms.items ≡ map (meaning.holed (map noted notes.now)) (map moved_of moved.now)) }
{
    let mut files = Vec::new(alloc);
    for file in moved {
        files.push(file_with_holes(alloc, file, notes)?)?;
    }
    Ok(files)
}

/// Files that are moved with their command file, and the lines that notes put in. `NoMemory` (9) where memory runs out.
pub fn with_holes<'a>(
    alloc: Global,
    moved: MovedFiles<'a>,
    notes: &[Note<'_>],
) -> Result<MovedFiles<'a>, NoMemory>
    ensures { IfOk result (λ m. map moved_of m.files.items ≡ map (meaning.holed (map noted notes.now)) (map moved_of moved.entry.files.items)) }
{
    if notes.is_empty() {
        return Ok(moved);
    }
    let files = files_with_holes(alloc, moved.files.as_slice(), notes)?;
    let MovedFiles { command, .. } = moved;
    Ok(MovedFiles { files, command })
}
