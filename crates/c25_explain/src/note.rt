//! Notes that explain faults.

ghost use Rattle.std.specs.Option.{option_map};
ghost use Rattle.std.specs.Prelude.{◌≡◌, ◌++◌, IfOk, codes, string_bytes};
ghost use Rattle.c25_meaning_common.specs.Faults.{placed_text};
ghost use Rattle.c25_explain.specs.Note.{IsNoteOf, error_text, example_line, file_text, lesson, line_of, note_with, object_text, refused_text, shown_text, unread_text};

use crate::fault::AnyFault;
use crate::parts::Explanation;
use crate::texts::explanation_of;
use c25_disk::refusal::Refusal;
use c25_files::{Rows, count_lines};
use c25_meaning_common::no_memory::NoMemory;
use std::alloc::Global;

/// The text of the line of this number, counted from 1, without its line end; `None` where there is no such
/// line.
pub fn line_of(text: &str, number: usize) -> Option<&str>
    ensures { option_map (λ line. line.now) result ≡ line_of text.now number }
{
    let mut passage = Rows::of_file(0, text, count_lines(text)).into_passage();
    while let Some(row) = passage.next() {
        if row.place().line == number {
            return Some(row.text());
        }
    }
    None
}

/// Why a file cannot be read.
#[derive(Clone, Copy)]
pub enum Unread {
    /// The file cannot be opened, and nothing is known of why.
    NotOpened,
    /// The disk says why the file cannot be opened or read.
    Refused(Refusal),
    /// The file has more than 16,777,216 bytes.
    TooLong,
    /// A read of the file fails.
    NotRead,
    /// The file is not UTF-8, and begins as an object does.
    ObjectFile,
    /// The file is not UTF-8; this line is the first that is not.
    NotUtf8 { line: usize },
}

/// What a note shows before its explanation.
#[derive(Clone, Copy)]
pub enum Shown<'a> {
    Nothing,
    /// The line of this number of a file, without its line end.
    Line {
        file: &'a str,
        number: usize,
        text: &'a str,
    },
    /// Why a file cannot be read.
    Unread {
        file: &'a str,
        why: Unread,
    },
}

/// The line that shows a line of a file.
pub(crate) fn placed_line(
    alloc: Global,
    file: &str,
    number: usize,
    text: &str,
) -> Result<String, NoMemory>
    ensures { IfOk result (λ line. string_bytes line ≡ placed_text file.now number text.now ++ codes "\n") }
{
    Ok(format!(in alloc; "{file}:{number}: {text}\n")?)
}

/// The line that says that a file is an object, where a text is wanted.
#[tactic(auto, unfolding(crate::specs::Note::object_text))]
fn object_line(alloc: Global, file: &str) -> Result<String, NoMemory>
    ensures { IfOk result (λ line. string_bytes line ≡ object_text file.now) }
{
    format!(in alloc;
        "{file}: it is an object, which link takes after the command file: name a text here\n"
    ).map_err(NoMemory::from)
}

/// The line that says something of a file.
fn file_line(alloc: Global, file: &str, words: &str) -> Result<String, NoMemory>
    ensures { IfOk result (λ line. string_bytes line ≡ file_text file.now words.now) }
{
    Ok(format!(in alloc; "{file}: {words}\n")?)
}

/// The line that says with which error the system refuses a file.
fn error_line(alloc: Global, file: &str, number: u32) -> Result<String, NoMemory>
    ensures { IfOk result (λ line. string_bytes line ≡ error_text file.now number) }
{
    Ok(format!(in alloc; "{file}: the system refuses it with error {number}\n")?)
}

/// The line that says why the system refuses a file.
fn refused_line(alloc: Global, file: &str, why: Refusal) -> Result<String, NoMemory>
    ensures { IfOk result (λ line. string_bytes line ≡ refused_text file.now why) }
{
    match why {
        Refusal::Missing => file_line(
            alloc,
            file,
            "there is no such file, or a folder of its path is missing",
        ),
        Refusal::Forbidden => file_line(
            alloc,
            file,
            "its rights, or those of a folder of its path, do not allow to read it: change them",
        ),
        Refusal::IsFolder => file_line(alloc, file, "it is a folder: name a file in it"),
        Refusal::FileInPath => file_line(
            alloc,
            file,
            "a part of its path is a file, not a folder: correct the path",
        ),
        Refusal::LongName => file_line(
            alloc,
            file,
            "its name, or a part of it, is too long for the system: shorten it",
        ),
        Refusal::LinkCircle => file_line(
            alloc,
            file,
            "its symbolic links lead in a circle, or are too many: name the file itself",
        ),
        Refusal::System(number) => error_line(alloc, file, number),
    }
}

/// The line that says why a file cannot be read.
fn unread_line(alloc: Global, file: &str, why: Unread) -> Result<String, NoMemory>
    ensures { IfOk result (λ line. string_bytes line ≡ unread_text file.now why) }
{
    match why {
        Unread::NotOpened => file_line(alloc, file, "it cannot be opened"),
        Unread::Refused(why) => refused_line(alloc, file, why),
        Unread::TooLong => file_line(alloc, file, "it has more than 16,777,216 bytes: divide it"),
        Unread::NotRead => file_line(alloc, file, "a read of it fails"),
        Unread::ObjectFile => object_line(alloc, file),
        Unread::NotUtf8 { line } => {
            placed_line(alloc, file, line, "the first line that is not UTF-8")
        }
    }
}

/// The line that a note shows first, if there is one.
fn shown_line(alloc: Global, shown: Shown<'_>) -> Result<String, NoMemory>
    ensures { IfOk result (λ text. string_bytes text ≡ shown_text shown.entry) }
{
    match shown {
        Shown::Nothing => Ok(String::new(alloc)),
        Shown::Line { file, number, text } => placed_line(alloc, file, number, text),
        Shown::Unread { file, why } => unread_line(alloc, file, why),
    }
}

/// The line that a note shows first, and the lines after it.
fn shown_lines(alloc: Global, shown: Shown<'_>, after: &str) -> Result<String, NoMemory>
    ensures { IfOk result (λ text. string_bytes text ≡ shown_text shown.entry ++ after.now) }
{
    let mut text = shown_line(alloc, shown)?;
    text.push_str(after)?;
    Ok(text)
}

/// The text that says what a fault means and what to do.
fn lesson(alloc: Global, explanation: &Explanation) -> Result<String, NoMemory>
    ensures { IfOk result (λ text. string_bytes text ≡ lesson explanation.now) }
{
    let meaning = explanation.meaning;
    let advice = explanation.advice;
    format!(in alloc; "{meaning}\n{advice}").map_err(NoMemory::from)
}

/// The line that says how to see the example of a fault.
fn example_line(alloc: Global, number: u8) -> Result<String, NoMemory>
    ensures { IfOk result (λ line. string_bytes line ≡ example_line number) }
{
    format!(in alloc; "Example: c25 explain {number}").map_err(NoMemory::from)
}

/// A note, put together from its parts with empty lines between them.
fn note_with(alloc: Global, shown: &str, lesson: &str, example: &str) -> Result<String, NoMemory>
    ensures { IfOk result (λ note. string_bytes note ≡ note_with shown.now lesson.now example.now) }
{
    Ok(format!(in alloc; "{shown}\n{lesson}\n{example}\n")?)
}

/// The note of a fault, in whole lines: what is shown, the text `after` that, what the fault means, what to
/// do, and how to see its example.
pub fn explained(
    alloc: Global,
    fault: AnyFault,
    shown: Shown<'_>,
    after: &str,
) -> Result<String, NoMemory>
    ensures { IfOk result (λ note. IsNoteOf fault shown.entry after.now (string_bytes note)) }
{
    let explanation = explanation_of(fault);
    let shown = shown_lines(alloc, shown, after)?;
    let lesson = lesson(alloc, &explanation)?;
    let example = example_line(alloc, explanation.number)?;
    note_with(alloc, shown.as_str(), lesson.as_str(), example.as_str())
}
