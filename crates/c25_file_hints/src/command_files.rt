//! What is missing or wrong where a command file is refused.

ghost use Rattle.std.specs.List.{fold, list_any};
ghost use Rattle.std.specs.Option.{option_map};
ghost use Rattle.std.specs.Prelude.{◌≡◌, ◌==◌, ◌≤◌, ◌<◌, ◌+◌, ◌-◌, ◌^◌, ◌++◌, IfOk, OnOk, Some, None, length, string_bytes};
ghost use Rattle.c25_cmd.specs.Refused.{column_behind, standing_data};
ghost use Rattle.c25_meaning_common.specs.Bytes.{is_space};
ghost use Rattle.c25_file_hints.specs.CommandFiles.{ObjectName, OpenBrace, PageNumber, RunNumber, asks, begins_part, ends_in_page, ends_in_run, hint_at, hint_on, hint_text, is_file, is_part, is_place, line_behind, line_text, object_hint, open_line, page_behind, parts_words, place_from, place_text, run_behind, text_before, visible_behind};
ghost use Rattle.c25_file_hints.specs.CommandHints.{hint_data};

use crate::braces::open_line;
use c25_cmd::RefusedAt;
use c25_meaning_common::bytes::{byte_at, is_blank};
use c25_meaning_common::no_memory::NoMemory;
use std::alloc::Global;

/// What is missing or wrong where a command file is refused.
#[derive(Clone, Copy)]
pub enum CommandHint<'a> {
    /// A `}` is missing before this word, or at the end of the text; the `{` of this line is open.
    OpenBrace {
        before: Option<&'a str>,
        line: usize,
    },
    /// A number is wanted after `run =`.
    RunNumber,
    /// The number of a page is wanted after `PAGE`.
    PageNumber,
    /// An object is named, which the command line names.
    ObjectName,
}

/// The line after a byte.
fn line_behind(line: usize, byte: u8) -> usize
    requires { line < 2 ^ 64 - 1 }
    ensures value { result ≡ line_behind line byte }
    ensures bound { result ≤ line + 1 }
{
    if byte == b'\n' { line + 1 } else { line }
}

/// The column after a byte.
fn column_behind(column: usize, byte: u8) -> usize
    requires { column < 2 ^ 64 - 1 }
    ensures value { result ≡ column_behind column byte }
    ensures bound { result ≤ column + 1 }
{
    if byte == b'\n' {
        1
    } else if byte >= 0x80 && byte < 0xc0 {
        column
    } else {
        column + 1
    }
}

/// Whether a line and a column are these.
fn is_place(wanted_line: usize, wanted_column: usize, line: usize, column: usize) -> bool
    ensures { result ≡ is_place wanted_line wanted_column line column }
{
    line == wanted_line && column == wanted_column
}

/// The byte of a text at which a line and a column begin; the end of the text, where it has no such place.
#[tactic(auto, unfolding(crate::specs::CommandFiles::place_from))]
fn place_of(text: &[u8], wanted_line: usize, wanted_column: usize) -> usize
    ensures value { result ≡ place_from wanted_line wanted_column 0 1 1 text.now }
    ensures bound { result ≤ length text.now }
{
    let mut line = 1;
    let mut column = 1;
    for (at, byte) in text.iter().enumerate() {
        if is_place(wanted_line, wanted_column, line, column) {
            return at;
        }
        line = line_behind(line, *byte);
        column = column_behind(column, *byte);
    }
    text.len()
}

/// What a text has before a line and a column.
pub(crate) fn text_before(text: &[u8], line: usize, column: usize) -> &[u8]
    ensures { result.now ≡ text_before text.now line column }
{
    &text[..place_of(text, line, column)]
}

/// Whether a byte is a blank or ends a line.
fn is_space(byte: u8) -> bool
    ensures { result ≡ is_space byte }
{
    is_blank(byte) || byte == b'\n' || byte == b'\r'
}

/// The last byte that is no blank, after one more byte.
fn visible_behind(last: u8, byte: u8) -> u8
    ensures { result ≡ visible_behind last byte }
{
    if is_space(byte) { last } else { byte }
}

/// The last byte of a text that is no blank; 0 where there is none.
fn last_visible(text: &[u8]) -> u8
    ensures { result ≡ fold visible_behind 0 text.now }
{
    let mut last = 0;
    for byte in text {
        last = visible_behind(last, *byte);
    }
    last
}

/// Whether the last byte before a word asks for a name or a number.
fn asks(byte: u8) -> bool
    ensures { result ≡ asks byte }
{
    byte == b'>' || byte == b'=' || byte == b':' || byte == b',' || byte == b'('
}

/// Whether a word is SECTIONS or MEMORY.
fn is_part(word: &str) -> bool
    ensures { result ≡ is_part word.now }
{
    word.eq_ignore_ascii_case("SECTIONS") || word.eq_ignore_ascii_case("MEMORY")
}

/// Whether a word begins the next part of a command file after this text.
fn begins_part(before: &[u8], word: &str) -> bool
    ensures { result ≡ begins_part before.now word.now }
{
    is_part(word) && !asks(last_visible(before))
}

/// How many bytes of `run=` a text ends with after one more byte.
fn run_behind(count: u8, byte: u8) -> u8
    ensures { result ≡ run_behind count byte }
{
    if is_space(byte) {
        count
    } else if byte == b'r' || byte == b'R' {
        1
    } else if count == 1 && (byte == b'u' || byte == b'U') {
        2
    } else if count == 2 && (byte == b'n' || byte == b'N') {
        3
    } else if count == 3 && byte == b'=' {
        4
    } else {
        0
    }
}

/// Whether a text ends in `run =`.
fn ends_in_run(text: &[u8]) -> bool
    ensures { result ≡ ends_in_run text.now }
{
    let mut count = 0;
    for byte in text {
        count = run_behind(count, *byte);
    }
    count == 4
}

/// Whether a word begins after a byte that is no blank.
fn parts_words(byte: u8) -> bool
    ensures { result ≡ parts_words byte }
{
    byte == b'{' || byte == b'}' || byte == b','
}

/// How many bytes of `PAGE` the last word of a text begins with after one more byte; 5 where it is another word.
fn page_behind(count: u8, byte: u8) -> u8
    ensures { result ≡ page_behind count byte }
{
    if is_space(byte) {
        if count == 4 { 4 } else { 0 }
    } else if parts_words(byte) {
        0
    } else if count == 0 && (byte == b'P' || byte == b'p') {
        1
    } else if count == 1 && (byte == b'A' || byte == b'a') {
        2
    } else if count == 2 && (byte == b'G' || byte == b'g') {
        3
    } else if count == 3 && (byte == b'E' || byte == b'e') {
        4
    } else {
        5
    }
}

/// Whether a text ends in `PAGE`.
fn ends_in_page(text: &[u8]) -> bool
    ensures { result ≡ ends_in_page text.now }
{
    let mut count = 0;
    for byte in text {
        count = page_behind(count, *byte);
    }
    count == 4
}

/// Whether a word has a dot.
fn has_dot(word: &[u8]) -> bool
    ensures { result ≡ list_any (λ b. b == 46) word.now }
{
    word.iter().any(|byte| *byte == b'.')
}

/// Whether a word may be the name of an object.
fn is_file(word: &[u8]) -> bool
    ensures { result ≡ is_file word.now }
{
    let first = byte_at(word, 0);
    has_dot(word) && !(first == b'.' || first == b'-')
}

/// That an object is named outside of braces after this text, where one is.
fn object_hint<'a>(before: &[u8], word: &str) -> Option<CommandHint<'a>>
    ensures { option_map hint_data result ≡ object_hint before.now word.now }
{
    if is_file(word.as_bytes()) && open_line(before).is_none() {
        Some(CommandHint::ObjectName)
    } else {
        None
    }
}

/// That a `}` is missing before a word after this text, where a brace is open.
fn brace_hint<'a>(before: &[u8], word: &'a str) -> Option<CommandHint<'a>>
    ensures { option_map hint_data result ≡ option_map (OpenBrace (Some word.now)) (open_line before.now) }
{
    match open_line(before) {
        Some(line) => Some(CommandHint::OpenBrace {
            before: Some(word),
            line,
        }),
        None => None,
    }
}

/// What is missing or wrong at a word after this text.
fn hint_at<'a>(before: &[u8], word: &'a str) -> Option<CommandHint<'a>>
    ensures { option_map hint_data result ≡ hint_at before.now word.now }
{
    if ends_in_run(before) {
        Some(CommandHint::RunNumber)
    } else if ends_in_page(before) {
        Some(CommandHint::PageNumber)
    } else if begins_part(before, word) {
        brace_hint(before, word)
    } else {
        object_hint(before, word)
    }
}

/// That a `}` is missing at the end of a text, where a brace is open.
fn end_hint<'a>(text: &[u8]) -> Option<CommandHint<'a>>
    ensures { option_map hint_data result ≡ option_map (OpenBrace None) (open_line text.now) }
{
    match open_line(text) {
        Some(line) => Some(CommandHint::OpenBrace { before: None, line }),
        None => None,
    }
}

/// What is missing or wrong where the text of a command file is refused: in this line, where `c25_cmd::refused_at`
/// says what stands there. `None` where the text before that place does not show it.
pub fn command_hint<'a>(text: &str, line: usize, standing: RefusedAt<'a>) -> Option<CommandHint<'a>>
    ensures { option_map hint_data result ≡ hint_on text.now line (standing_data standing.entry) }
{
    let text = text.as_bytes();
    match standing {
        RefusedAt::Word { column, text: word } => hint_at(text_before(text, line, column), word),
        RefusedAt::Character { column, .. } => hint_at(text_before(text, line, column), ""),
        RefusedAt::End => end_hint(text),
    }
}

/// Appends where the brace is missing.
fn push_place(text: &mut String, before: Option<&str>) -> Result<(), NoMemory>
    ensures { OnOk result (string_bytes text.new ≡ string_bytes text.old ++ place_text (option_map (λ word. word.now) before.entry)) }
{
    match before {
        Some(word) => write!(text, "before {word}").map_err(NoMemory::from),
        None => text.push_str("at the end").map_err(NoMemory::from),
    }
}

/// Appends the line of the brace that is open.
#[tactic(auto, unfolding(crate::specs::CommandFiles::line_text))]
fn push_line(text: &mut String, line: usize) -> Result<(), NoMemory>
    ensures { OnOk result (string_bytes text.new ≡ string_bytes text.old ++ line_text line) }
{
    text.push_str(": the { of line ")?;
    write!(text, "{line} is still open").map_err(NoMemory::from)
}

/// That a `}` is missing before this word, or at the end of the text, and the `{` of this line is open.
fn brace_text(alloc: Global, before: Option<&str>, line: usize) -> Result<String, NoMemory>
    ensures { IfOk result (λ text. string_bytes text ≡ hint_text (OpenBrace (option_map (λ word. word.now) before.entry) line)) }
{
    let mut text = String::from_str(alloc, "a } is missing ")?;
    push_place(&mut text, before)?;
    push_line(&mut text, line)?;
    Ok(text)
}

/// That a number is wanted after `run =`.
fn number_text(alloc: Global) -> Result<String, NoMemory>
    ensures { IfOk result (λ text. string_bytes text ≡ hint_text RunNumber) }
{
    let said = "run = takes a number from 0FF00h on, where block B0 is program memory";
    Ok(String::from_str(alloc, said)?)
}

/// Which pages there are.
fn page_text(alloc: Global) -> Result<String, NoMemory>
    ensures { IfOk result (λ text. string_bytes text ≡ hint_text PageNumber) }
{
    let said = "the pages are 0, program memory, and 1, data memory";
    Ok(String::from_str(alloc, said)?)
}

/// That objects are named on the command line.
fn object_text(alloc: Global) -> Result<String, NoMemory>
    ensures { IfOk result (λ text. string_bytes text ≡ hint_text ObjectName) }
{
    let said =
        "objects are named on the command line of link, after the command file; run and build take sources";
    Ok(String::from_str(alloc, said)?)
}

impl CommandHint<'_> {
    /// The sentence that says so, without a line end. `NoMemory` (9) where memory runs out.
    pub fn text(self, alloc: Global) -> Result<String, NoMemory>
        ensures { IfOk result (λ text. string_bytes text ≡ hint_text (hint_data self.entry)) }
    {
        match self {
            CommandHint::OpenBrace { before, line } => brace_text(alloc, before, line),
            CommandHint::RunNumber => number_text(alloc),
            CommandHint::PageNumber => page_text(alloc),
            CommandHint::ObjectName => object_text(alloc),
        }
    }
}
