//! What is reported of old files that are moved.

ghost use Rattle.std.specs.Prelude.{◌≡◌, ◌++◌, OnOk, map};
ghost use Rattle.c25_move.specs.Rewritten.{rewritten_of};
ghost use Rattle.c25_move_files.specs.Files.{moved_of, notes_of_files};
ghost use Rattle.c25_move_files.specs.Notes.{noted, notes_of, notes_of_line};
ghost use Rattle.c25_move_files.specs.declared.notes.NoteKind.TheVariants.{Done, Left, Refused};

use crate::moved::MovedFile;
use c25_meaning_common::no_memory::NoMemory;
use c25_meaning_language::statement::FaultKind;
use c25_move::{CodePage, MovedLine};
use c25_move_lines::Rule;

/// The side of a line on which a hole of `.bss` goes.
#[derive(Clone, Copy)]
pub enum HoleSide {
    /// Before the line of a block, which would cross a page.
    Before,
    /// After the last line of `.bss` of a source, where a later source has blocks.
    After,
}

/// A hole of `.bss`, with which blocks lie in pages: its side, its number, which its name has, and its words.
#[derive(Clone, Copy)]
pub struct Hole {
    pub side: HoleSide,
    pub number: usize,
    pub words: u32,
}

/// What is reported of a line.
#[derive(Clone, Copy)]
pub enum NoteKind {
    /// The rule rewrote the line.
    Done(Rule),
    /// The rule leaves something to the reader.
    Left(Rule),
    /// The assembler does not read the line.
    Refused(FaultKind),
    /// The bytes of the file, which are no UTF-8, were read by a code page.
    ByCodePage(CodePage),
    /// The file that the line copies is not there.
    NotThere,
    /// The file that the line copies is in another folder.
    InFolder,
    /// Names of the line have the spelling of their first line.
    Spelling,
    /// The line of a command file is taken out.
    TakenOut,
    /// An input list takes the sections of all objects.
    AllObjects,
    /// The sections of one object stand apart from those of others.
    ObjectsApart,
    /// The fill of a section is taken out.
    Fill,
    /// The alignment of a section is taken out.
    Align,
    /// A group or a union of sections.
    Group,
    /// A section runs in a range.
    RunRange,
    /// A symbol is assigned a value.
    Assignment,
    /// A line that reserves the words of a hole was put in, on a side of the line.
    HolePutIn(Hole),
    /// A line that reserves the words of a hole is to be put in by the reader.
    HoleLeft(Hole),
    /// `.bss` has the address where the next page begins, since a block would cross a page.
    AtPage(u16),
    /// `.bss` begins within a page, and a block would cross one.
    WithinPage,
}

/// What is reported of a line of a file, which is counted from 1.
#[derive(Clone, Copy)]
pub struct Note<'a> {
    pub file: &'a str,
    pub line: usize,
    pub kind: NoteKind,
}

/// Adds the rules by which a line was rewritten.
fn push_done<'a>(
    notes: &mut Vec<Note<'a>>,
    file: &'a str,
    line: usize,
    rules: &[Rule],
) -> Result<(), NoMemory>
    ensures { OnOk result (map noted notes.new.items ≡ map noted notes.old.items ++ map (λ rule. record { file = file.entry.now; line = line; kind = Done rule }) rules.now) }
{
    for rule in rules {
        let kind = NoteKind::Done(*rule);
        notes.push(Note { file, line, kind })?;
    }
    Ok(())
}

/// Adds the rules that leave something of a line to the reader.
fn push_left<'a>(
    notes: &mut Vec<Note<'a>>,
    file: &'a str,
    line: usize,
    rules: &[Rule],
) -> Result<(), NoMemory>
    ensures { OnOk result (map noted notes.new.items ≡ map noted notes.old.items ++ map (λ rule. record { file = file.entry.now; line = line; kind = Left rule }) rules.now) }
{
    for rule in rules {
        let kind = NoteKind::Left(*rule);
        notes.push(Note { file, line, kind })?;
    }
    Ok(())
}

/// Adds the faults of the lines that took a line's place.
fn push_refused<'a>(
    notes: &mut Vec<Note<'a>>,
    file: &'a str,
    line: usize,
    faults: &[FaultKind],
) -> Result<(), NoMemory>
    ensures { OnOk result (map noted notes.new.items ≡ map noted notes.old.items ++ map (λ fault. record { file = file.entry.now; line = line; kind = Refused fault }) faults.now) }
{
    for fault in faults {
        let kind = NoteKind::Refused(*fault);
        notes.push(Note { file, line, kind })?;
    }
    Ok(())
}

/// The numbers of an old line and of the first line in its place.
#[derive(Clone, Copy)]
struct Numbers {
    old: usize,
    new: usize,
}

/// Adds what is reported of a line.
fn push_line<'a>(
    notes: &mut Vec<Note<'a>>,
    file: &'a MovedFile<'_>,
    numbers: Numbers,
    line: &MovedLine<'_>,
) -> Result<(), NoMemory>
    ensures { OnOk result (map noted notes.new.items ≡ map noted notes.old.items ++ notes_of_line (moved_of file.entry.now).names numbers.old numbers.new (rewritten_of line.now)) }
{
    push_done(notes, file.old, numbers.old, line.change.done.as_slice())?;
    push_left(notes, file.old, numbers.old, line.change.left.as_slice())?;
    push_refused(
        notes,
        file.new.as_str(),
        numbers.new,
        line.refused.as_slice(),
    )?;
    Ok(())
}

/// Adds what is reported of a file's lines.
#[tactic(auto, unfolding(crate::specs::Notes::notes_from))]
fn push_file<'a>(notes: &mut Vec<Note<'a>>, file: &'a MovedFile<'_>) -> Result<(), NoMemory>
    ensures { OnOk result (map noted notes.new.items ≡ map noted notes.old.items ++ notes_of (moved_of file.entry.now).names (moved_of file.entry.now).lines) }
{
    let mut numbers = Numbers { old: 1, new: 1 };
    for line in &file.lines {
        push_line(notes, file, numbers, line)?;
        numbers = Numbers {
            old: numbers.old.saturating_add(1),
            new: numbers.new.saturating_add(line.change.lines.len()),
        };
    }
    Ok(())
}

/// Adds what is reported of the lines of files.
pub(crate) fn push_files<'a>(
    notes: &mut Vec<Note<'a>>,
    files: &'a [MovedFile<'_>],
) -> Result<(), NoMemory>
    ensures { OnOk result (map noted notes.new.items ≡ map noted notes.old.items ++ notes_of_files (map moved_of files.entry.now)) }
{
    for file in files {
        push_file(notes, file)?;
    }
    Ok(())
}
