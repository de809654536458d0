//! The style that a line shows.

ghost use Rattle.std.specs.Prelude.{◌≡◌, ◌+◌, ◌<◌, ◌^◌, length, map};
ghost use Rattle.c25_meaning_language.specs.Line.{first_word};
ghost use Rattle.c25_move_style.specs.Shown as meaning;

use c25_meaning_common::bytes::byte_at;
use c25_move_lines::{Style, renamed};
use c25_text::first_word;

/// The directives without a dot that have another form than the COFF assembler's.
const EARLY_WORDS: [&str; 12] = [
    "AORG", "RORG", "PSEG", "PEND", "DSEG", "DEND", "CSEG", "CEND", "DORG", "BSS", "BES", "EVEN",
];

/// Whether two words have the same letters, in either case.
#[tactic(auto, unfolding(crate::specs::Shown::is_spelled))]
fn is_spelled(word: &str, other: &str) -> bool
    ensures { result ≡ meaning.is_spelled word.now other.now }
{
    word.eq_ignore_ascii_case(other)
}

/// Whether a word is one of these, letters in either case.
#[tactic(auto, unfolding(crate::specs::Shown::is_one_of))]
fn is_one_of(words: &[&str], word: &str) -> bool
    ensures { result ≡ meaning.is_one_of (map (λ w. w.now) words.now) word.now }
{
    for one in words {
        if is_spelled(word, one) {
            return true;
        }
    }
    false
}

/// Whether a word is a directive without a dot that has another form.
#[tactic(auto, unfolding(crate::specs::Shown::has_other_form))]
fn has_other_form(word: &str) -> bool
    ensures { result ≡ meaning.has_other_form word.now }
{
    is_one_of(&EARLY_WORDS, word)
}

/// Whether a word is a directive without a dot.
fn is_early(word: &str) -> bool
    ensures { result ≡ meaning.is_early word.now }
{
    renamed(word).is_some() || has_other_form(word)
}

/// Whether a word begins with a dot.
fn is_dotted(word: &str) -> bool
    ensures { result ≡ meaning.is_dotted word.now }
{
    byte_at(word.as_bytes(), 0) == b'.'
}

/// The style that a word shows.
fn word_style(word: &str) -> Option<Style>
    ensures { result ≡ meaning.word_style word.now }
{
    if is_dotted(word) {
        Some(Style::Coff)
    } else if is_early(word) {
        Some(Style::Early)
    } else {
        None
    }
}

/// The style that a line shows by its word: the COFF assembler's where the word begins with a dot, and the early one
/// where it is a directive without a dot. None where it is neither, as a mnemonic is.
pub fn shown_style(line: &str) -> Option<Style>
    ensures { result ≡ meaning.line_style (first_word line.now) }
{
    match first_word(line) {
        Some(word) => word_style(word),
        None => None,
    }
}

/// Whether a line shows a style.
fn shows(style: Style, line: &str) -> bool
    ensures { result ≡ meaning.is_style style (meaning.line_style (first_word line.now)) }
{
    match (style, shown_style(line)) {
        (Style::Early, Some(Style::Early)) => true,
        (Style::Coff, Some(Style::Coff)) => true,
        _ => false,
    }
}

/// Whether a line ends a source in one of the styles.
fn ends_source(line: &str) -> bool
    ensures { result ≡ meaning.ends_by (first_word line.now) }
{
    match first_word(line) {
        Some(word) => word.eq_ignore_ascii_case(".end") || word.eq_ignore_ascii_case("END"),
        None => false,
    }
}

/// The number of the first line that shows a style, counted from 1, up to the line that ends the source.
#[tactic(auto, unfolding(crate::specs::Shown::first_from))]
pub(crate) fn first_showing(style: Style, lines: &[&str]) -> Option<usize>
    ensures { result ≡ meaning.first_from style 1 (map (λ l. l.now) lines.now) }
{
    for (place, line) in lines.iter().enumerate() {
        if shows(style, line) {
            return Some(place + 1);
        }
        if ends_source(line) {
            return None;
        }
    }
    None
}
