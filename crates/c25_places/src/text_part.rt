//! The part of a line's text that is refused with a fault of 10 to 13.

ghost use Rattle.std.specs.Prelude.{◌≡◌, ◌+◌, ◌≤◌, ◌<◌, ◌^◌, length};
ghost use Rattle.std.specs.List.{prefix_len};
ghost use Rattle.c25_meaning_common.specs.Bytes.{is_plain, is_visible};
ghost use Rattle.c25_meaning_language.specs.Fragments.{is_beyond_ascii};
ghost use Rattle.c25_meaning_language.specs.Line as line;
ghost use Rattle.c25_places.specs.TextPart.{part_from, character_part, stray_at, token_part, scan_part, field_part, text_part};

use crate::part::Part;
use c25_meaning_common::bytes::byte_at;
use c25_meaning_common::runs::{constant_run, name_run};
use c25_meaning_language::line::{Lexeme, LineFault};
use c25_text::line::{label_of, word_of};
use c25_text::{lexeme, past_blanks, past_field};

/// How many bytes at the front of a text are not ASCII characters.
fn beyond_ascii_run(text: &[u8]) -> usize
    ensures value { result ≡ prefix_len is_beyond_ascii text.now }
    ensures bound { result ≤ length text.now }
{
    text.iter().take_while(|b| **b >= 128).count()
}

/// How many bytes at the front of a text may stand outside comments: 20h to 7Eh, and tabs.
fn plain_run(text: &[u8]) -> usize
    ensures value { result ≡ prefix_len is_plain text.now }
    ensures bound { result ≤ length text.now }
{
    text.iter()
        .take_while(|b| **b >= b' ' && **b <= b'~' || **b == b'\t')
        .count()
}

/// How many bytes at the front of a text may stand in the mnemonic field: 21h to 7Eh.
fn visible_run(text: &[u8]) -> usize
    ensures value { result ≡ prefix_len is_visible text.now }
    ensures bound { result ≤ length text.now }
{
    text.iter()
        .take_while(|b| **b >= b'!' && **b <= b'~')
        .count()
}

fn part_from(start: usize, size: usize) -> Part
    requires { start + size < 2 ^ 64 }
    ensures { result ≡ part_from start size }
{
    Part {
        start,
        end: start + size,
    }
}

/// The part of the character at a place: one byte, or a whole run of bytes that are not ASCII characters.
fn character_part(text: &[u8], at: usize) -> Part
    requires { at ≤ length text.now }
    ensures { result ≡ character_part at text.now }
{
    part_from(at, beyond_ascii_run(&text[at..]).max(1))
}

/// Where the stray character of a token is: in a string after its plain characters, else where it begins.
fn stray_at(text: &[u8], at: usize) -> usize
    requires { at < length text.now }
    ensures value { result ≡ stray_at at text.now }
    ensures bound { result ≤ length text.now }
{
    if byte_at(text, at) == b'"' {
        at + 1 + plain_run(&text[at + 1..])
    } else {
        at
    }
}

/// The part of a token that begins at a place and has this fault.
fn token_part(fault: LineFault, text: &[u8], at: usize) -> Part
    requires { at < length text.now }
    ensures { result ≡ token_part fault at text.now }
{
    match fault {
        LineFault::BadLabel => part_from(at, name_run(&text[at..])),
        LineFault::BadConstant => part_from(at, constant_run(&text[at..])),
        LineFault::OpenQuote => part_from(at, 1),
        LineFault::StrayText => character_part(text, stray_at(text, at)),
    }
}

/// The part of the first fault among the tokens of a text from a place on.
fn scan_part(text: &[u8], from: usize) -> Option<Part>
    requires { from ≤ length text.now }
    ensures { result ≡ scan_part from text.now }
{
    let mut at = from;
    while at < text.len() {
        match lexeme(&text[at..]) {
            Lexeme::Blank => at += 1,
            Lexeme::Token(_, length) => at += length,
            Lexeme::Comment => return None,
            Lexeme::Fault(fault) => return Some(token_part(fault, text, at)),
        }
    }
    None
}

/// The part of the first character that may not stand in the mnemonic field.
fn field_part(text: &[u8], word_start: usize) -> Part
    requires start { word_start ≡ line.word_start text.now }
    requires bound { word_start ≤ length text.now }
    ensures { result ≡ field_part text.now }
{
    character_part(text, word_start + visible_run(&text[word_start..]))
}

/// The part of the leftmost fault of the text of a line that is no comment; None where it has no fault.
#[tactic(auto, unfolding(crate::specs::TextPart::text_part))]
pub(crate) fn text_part(text: &str) -> Option<Part>
    ensures { result ≡ text_part text.now }
{
    let bytes = text.as_bytes();
    let label_end = past_field(bytes, 0);
    let word_start = past_blanks(bytes, label_end);
    let word_end = past_field(bytes, word_start);
    if label_of(&text[..label_end]).is_err() {
        Some(part_from(0, label_end))
    } else if word_of(word_start, &text[word_start..word_end]).is_err() {
        Some(field_part(bytes, word_start))
    } else {
        scan_part(bytes, word_end)
    }
}
