//! The lines of notes.

ghost use Rattle.std.specs.Prelude.{◌≡◌, ◌++◌, IfOk, OnOk, map, string_bytes, true};
ghost use Rattle.c25_meaning_common.specs.Digits.{four_digits};
ghost use Rattle.c25_move_files.specs.Notes as meaning;
ghost use Rattle.c25_move_files.specs.declared.notes.NoteKind.TheVariants.{Refused};

use crate::notes::{Hole, HoleSide, Note, NoteKind};
use c25_meaning_common::no_memory::NoMemory;
use c25_meaning_language::statement::FaultKind;
use c25_move::CodePage;
use c25_texts::appending::{push_text, push_texts};
use c25_texts::digits::four;
use std::alloc::Global;

/// Whether something is left to do.
fn is_left(kind: NoteKind) -> bool
    ensures { result ≡ meaning.is_left kind }
{
    match kind {
        NoteKind::Done(_)
        | NoteKind::ByCodePage(_)
        | NoteKind::Spelling
        | NoteKind::TakenOut
        | NoteKind::AllObjects
        | NoteKind::HolePutIn(_)
        | NoteKind::AtPage(_) => false,
        NoteKind::Left(_)
        | NoteKind::Refused(_)
        | NoteKind::NotThere
        | NoteKind::InFolder
        | NoteKind::ObjectsApart
        | NoteKind::Fill
        | NoteKind::Align
        | NoteKind::Group
        | NoteKind::RunRange
        | NoteKind::Assignment
        | NoteKind::HoleLeft(_)
        | NoteKind::WithinPage => true,
    }
}

/// Whether one of these notes says that something is left to do.
#[tactic(auto, unfolding(crate::specs::Notes::are_left))]
pub fn are_left(notes: &[Note<'_>]) -> bool
    ensures { result ≡ meaning.are_left (map meaning.noted notes.now) }
{
    for note in notes {
        if is_left(note.kind) {
            return true;
        }
    }
    false
}

/// Appends that a line is left with a fault.
fn push_fault(alloc: Global, text: &mut String, fault: FaultKind) -> Result<(), NoMemory>
    ensures { OnOk result (string_bytes text.new ≡ string_bytes text.old ++ meaning.said (Refused fault)) }
{
    let number = fault.number();
    let said = format!(in alloc; "{}{number} {}", "left: ", fault.name())?;
    push_text(text, said.as_str())?;
    Ok(())
}

/// What is said of a file that is read by a code page.
fn by_code_page_text(code_page: CodePage) -> &'static str
    ensures { result.now ≡ meaning.by_code_page_text code_page }
{
    match code_page {
        CodePage::Cp437 => "done: code page 437",
        CodePage::Latin1 => "done: Latin-1",
    }
}

/// What a note says that is of no rule, no fault, no hole and no address.
fn plain_text(kind: NoteKind) -> &'static str
    ensures { meaning.is_plain kind ≡ true → result.now ≡ meaning.said kind }
{
    match kind {
        NoteKind::Done(_)
        | NoteKind::Left(_)
        | NoteKind::Refused(_)
        | NoteKind::HolePutIn(_)
        | NoteKind::HoleLeft(_)
        | NoteKind::AtPage(_) => "",
        NoteKind::ByCodePage(code_page) => by_code_page_text(code_page),
        NoteKind::NotThere => "left: the copied file is not there",
        NoteKind::InFolder => "left: the copied file is in another folder",
        NoteKind::Spelling => "done: names of one spelling",
        NoteKind::TakenOut => "done: taken out: sources and options are words of the command line",
        NoteKind::AllObjects => "done: sections of all objects",
        NoteKind::ObjectsApart =>
            "left: sections of one name are one here: give this one a name of its own",
        NoteKind::Fill => "left: the fill is taken out: see build --rom --fill",
        NoteKind::Align => "left: the alignment is taken out: give the section an address",
        NoteKind::Group => "left: no GROUP and no UNION here: give the sections addresses",
        NoteKind::RunRange => "left: run = takes an address of block B0",
        NoteKind::Assignment => "left: no assignment here: .set and .def in a module",
        NoteKind::WithinPage =>
            "left: a block would cross a page: give .bss an address that begins one",
    }
}

/// The line that reserves the words of a hole.
pub(crate) fn hole_line(alloc: Global, hole: Hole) -> Result<String, NoMemory>
    ensures { IfOk result (λ line. string_bytes line ≡ meaning.hole_line hole) }
{
    let Hole { number, words, .. } = hole;
    Ok(format!(in alloc; "{}{number},{words}", ".bss HOLE")?)
}

/// What is said before the line of a hole that was put in on this side.
fn put_in_text(side: HoleSide) -> &'static str
    ensures { result.now ≡ meaning.put_in_text side }
{
    match side {
        HoleSide::Before => "done: a block would cross a page: before it stands ",
        HoleSide::After => "done: a later source has blocks: after all of .bss stands ",
    }
}

/// What is said before the line of a hole that is to be put in on this side.
fn to_put_in_text(side: HoleSide) -> &'static str
    ensures { result.now ≡ meaning.to_put_in_text side }
{
    match side {
        HoleSide::Before => "left: a block would cross a page: before it goes ",
        HoleSide::After => "left: a later source has blocks: after all of .bss goes ",
    }
}

/// Appends a text and the line of a hole.
fn push_hole(alloc: Global, text: &mut String, place: &str, hole: Hole) -> Result<(), NoMemory>
    ensures { OnOk result (string_bytes text.new ≡ string_bytes text.old ++ (place.now ++ meaning.hole_line hole)) }
{
    let line = hole_line(alloc, hole)?;
    push_texts(text, &[place, line.as_str()])
}

/// Appends two texts.
fn push_two(text: &mut String, first: &str, second: &str) -> Result<(), NoMemory>
    ensures { OnOk result (string_bytes text.new ≡ string_bytes text.old ++ (first.now ++ second.now)) }
{
    push_texts(text, &[first, second])
}

/// What is said before the address where the next page begins, which `.bss` has.
fn at_page_text() -> &'static str
    ensures { result.now ≡ meaning.at_page_text }
{
    "done: .bss begins at a page, since a block would cross one: 0x"
}

/// Appends that `.bss` has the address where the next page begins.
fn push_at_page(text: &mut String, address: u16) -> Result<(), NoMemory>
    ensures { OnOk result (string_bytes text.new ≡ string_bytes text.old ++ (meaning.at_page_text ++ four_digits address)) }
{
    push_two(text, at_page_text(), four(address).as_str())
}

/// Appends what a note says.
fn push_said(alloc: Global, text: &mut String, kind: NoteKind) -> Result<(), NoMemory>
    ensures { OnOk result (string_bytes text.new ≡ string_bytes text.old ++ meaning.said kind) }
{
    match kind {
        NoteKind::Done(rule) => push_texts(text, &["done: ", rule.done_text()]),
        NoteKind::Left(rule) => push_texts(text, &["left: ", rule.left_text()]),
        NoteKind::Refused(fault) => push_fault(alloc, text, fault),
        NoteKind::HolePutIn(hole) => push_hole(alloc, text, put_in_text(hole.side), hole),
        NoteKind::HoleLeft(hole) => push_hole(alloc, text, to_put_in_text(hole.side), hole),
        NoteKind::AtPage(address) => push_at_page(text, address),
        _ => push_text(text, plain_text(kind)),
    }
}

/// Appends the place of a note.
fn push_place(alloc: Global, text: &mut String, note: &Note<'_>) -> Result<(), NoMemory>
    ensures { OnOk result (string_bytes text.new ≡ string_bytes text.old ++ meaning.place (meaning.noted note.now)) }
{
    let Note { file, line, .. } = note;
    let place = format!(in alloc; "{file}:{line}: ")?;
    push_text(text, place.as_str())?;
    Ok(())
}

/// Appends the line of a note.
fn push_row(alloc: Global, text: &mut String, note: &Note<'_>) -> Result<(), NoMemory>
    ensures { OnOk result (string_bytes text.new ≡ string_bytes text.old ++ meaning.row (meaning.noted note.now)) }
{
    push_place(alloc, text, note)?;
    push_said(alloc, text, note.kind)?;
    push_text(text, "\n")?;
    Ok(())
}

/// Appends the line of a note, unless nothing is left to do and only what is left is asked for.
fn push_shown(
    alloc: Global,
    text: &mut String,
    quiet: bool,
    note: &Note<'_>,
) -> Result<(), NoMemory>
    ensures { OnOk result (string_bytes text.new ≡ string_bytes text.old ++ meaning.shown_row quiet (meaning.noted note.now)) }
{
    if quiet && !is_left(note.kind) {
        Ok(())
    } else {
        push_row(alloc, text, note)
    }
}

/// Appends the lines of notes, or of those alone on which something is left to do.
pub(crate) fn push_rows(
    alloc: Global,
    text: &mut String,
    quiet: bool,
    notes: &[Note<'_>],
) -> Result<(), NoMemory>
    ensures { OnOk result (string_bytes text.new ≡ string_bytes text.old ++ meaning.rows quiet (map meaning.noted notes.now)) }
{
    for note in notes {
        push_shown(alloc, text, quiet, note)?;
    }
    Ok(())
}
