//! A line in its parts.

ghost use Rattle.std.specs.Prelude.{◌≡◌, ℕ, List, Ok, Err, length, slice_index, drop, nat_le, ◌&&◌, ◌<◌, ◌≤◌, MatchResult};
ghost use Rattle.std.specs.List.{list_all};
ghost use Rattle.std.specs.Option.{option_map};
ghost use Rattle.c25_meaning_common.specs.Bytes.{is_visible};
ghost use Rattle.c25_meaning_language.specs.Line.{line_of, part_from, label_in, label_of, word_of, without_colon, is_name, is_comment_line, first_word, Operands, scan_from};
ghost use Rattle.c25_text.specs.View.{parts_of, part_of, pieces_left};

use crate::fields::{past_blanks, past_field};
use crate::tokens::{Tokens, comment_from};
use c25_meaning_common::bytes::{begins_name, byte_at};
use c25_meaning_common::runs::all_go_on_name;
use c25_meaning_language::line::LineFault;

/// A part of a line that is no token: the place of its first byte, and its text, which is the slice of
/// the line there.
#[derive(Clone, Copy)]
pub struct Word<'a> {
    pub start: usize,
    pub text: &'a str,
}

/// A line in its parts, which borrow the text of the line.
#[derive(Clone, Copy)]
pub struct Line<'a> {
    /// The label in column 1, without the colon that may end it.
    pub label: Option<&'a str>,
    /// The mnemonic, directive or macro name, as written: any text up to a blank or `;`.
    pub word: Option<Word<'a>>,
    /// The comment from its `;` on; for a comment line the whole line.
    pub comment: Option<Word<'a>>,
    pub(crate) text: &'a str,
    pub(crate) operands: usize,
}

impl<'a> Line<'a> {
    /// The tokens of the operands, in order. The commas are among them, the mnemonic is not. Each token is
    /// read where it is asked for, so a second walk costs as much as the first; none takes memory.
    pub fn tokens(&self) -> Tokens<'a>
        ensures { pieces_left result ≡ (parts_of self.now).pieces }
    {
        Tokens {
            text: self.text,
            at: self.operands,
        }
    }
}

/// The parts of a line without its end (LF or CR LF), or its leftmost fault: `BadLabel` (10) where the text
/// in column 1 is no label or a name among the operands is too long, `BadConstant` (11) for a text that
/// begins with a digit and is no constant, `OpenQuote` (12) for a string that is not closed and a `'` that
/// begins no character, `StrayText` (13) for a character that is part of no token, or may not stand in the
/// mnemonic field or in a string.
pub fn split_line(text: &str) -> Result<Line<'_>, LineFault>
    ensures { MatchResult result (λ l. line_of text.now ≡ Ok (parts_of l)) (λ f. line_of text.now ≡ Err f) }
{
    let bytes = text.as_bytes();
    if is_comment_line(bytes) {
        return Ok(Line {
            label: None,
            word: None,
            comment: part_from(text, 0),
            text,
            operands: text.len(),
        });
    }
    let label_end = past_field(bytes, 0);
    let word_start = past_blanks(bytes, label_end);
    let word_end = past_field(bytes, word_start);
    let label = label_of(&text[..label_end])?;
    let word = word_of(word_start, &text[word_start..word_end])?;
    let stop = comment_from(bytes, word_end)?;
    Ok(Line {
        label,
        word,
        comment: part_from(text, stop),
        text,
        operands: word_end,
    })
}

/// Whether a line is a comment: `*` or `;` in column 1.
pub fn is_comment_line(text: &[u8]) -> bool
    ensures { result ≡ is_comment_line text.now }
{
    byte_at(text, 0) == b'*' || byte_at(text, 0) == b';'
}

/// The text from a place on, or None where the text ends there.
fn part_from(text: &str, start: usize) -> Option<Word<'_>>
    requires within { start ≤ length text.now }
    requires cut { start < length text.now → slice_index text.now start < 128 }
    ensures { option_map part_of result ≡ part_from start (drop start text.now) }
{
    if start < text.len() {
        Some(Word {
            start,
            text: &text[start..],
        })
    } else {
        None
    }
}

/// The label in column 1 of a line that is no comment line, whatever follows the label, or `BadLabel`.
pub fn label_in(text: &str) -> Result<Option<&str>, LineFault>
    ensures { MatchResult result (λ o. label_in text.now ≡ Ok (option_map (λ s. s.now) o)) (λ f. label_in text.now ≡ Err f) }
{
    let end = past_field(text.as_bytes(), 0);
    label_of(&text[..end])
}

/// The label in the field of column 1, without the colon that may end it; none in an empty field, and
/// `BadLabel` (10) where the field is no label.
pub fn label_of(field: &str) -> Result<Option<&str>, LineFault>
    ensures { MatchResult result (λ o. label_of field.now ≡ Ok (option_map (λ s. s.now) o)) (λ f. label_of field.now ≡ Err f) }
{
    if field.is_empty() {
        return Ok(None);
    }
    let label = without_colon(field);
    if is_label(label.as_bytes()) {
        Ok(Some(label))
    } else {
        Err(LineFault::BadLabel)
    }
}

/// A label without the colon that may end it.
fn without_colon(field: &str) -> &str
    ensures { result.now ≡ without_colon field.now }
{
    match field.as_bytes().split_last() {
        Some((b':', front)) => &field[..front.len()],
        _ => field,
    }
}

fn is_label(name: &[u8]) -> bool
    ensures { result ≡ (is_name name.now && nat_le (length name.now) 128) }
{
    let Some(first) = name.first() else {
        return false;
    };
    begins_name(*first) && all_go_on_name(name) && name.len() <= 128
}

/// Whether a byte is one of 21h to 7Eh.
fn is_visible(b: u8) -> bool
    ensures { result ≡ is_visible b }
{
    b >= b'!' && b <= b'~'
}

fn all_visible(text: &[u8]) -> bool
    ensures { result ≡ list_all is_visible text.now }
{
    text.iter().all(|b| is_visible(*b))
}

/// The mnemonic, directive or macro name in a field; none in an empty field, and `StrayText` (13) where a
/// byte is not one of 21h to 7Eh.
pub fn word_of(start: usize, text: &str) -> Result<Option<Word<'_>>, LineFault>
    ensures { MatchResult result (λ o. word_of start text.now ≡ Ok (option_map part_of o)) (λ f. word_of start text.now ≡ Err f) }
{
    if text.is_empty() {
        Ok(None)
    } else if all_visible(text.as_bytes()) {
        Ok(Some(Word { start, text }))
    } else {
        Err(LineFault::StrayText)
    }
}

/// The mnemonic, directive or macro name of any text, whether or not it can be split into parts: the field
/// after that in column 1, which is empty where the text begins with a blank. A field ends at a blank or `;`.
/// None where there is no such field, and for a comment line.
pub fn first_word(text: &str) -> Option<&str>
    ensures { option_map (λ s. s.now) result ≡ first_word text.now }
{
    let bytes = text.as_bytes();
    if is_comment_line(bytes) {
        return None;
    }
    let start = past_blanks(bytes, past_field(bytes, 0));
    let end = past_field(bytes, start);
    if start < end {
        Some(&text[start..end])
    } else {
        None
    }
}
