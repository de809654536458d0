//! What a line leaves to those that follow, changed or not.

ghost use Rattle.std.specs.Prelude.{◌≡◌, map};
ghost use Rattle.std.specs.Option.{option_map};
ghost use Rattle.c25_meaning_language.specs.Line.{first_word};
ghost use Rattle.c25_move_lines.specs.Progress as meaning;

use crate::around::Progress;
use c25_text::line::first_word;

/// The directives that enter a section.
const SECTIONS: [&str; 9] = [
    "AORG", ".asect", "PSEG", "RORG", "DSEG", "CSEG", ".text", ".data", ".sect",
];

/// The directives that end a segment or a dummy section.
const SEGMENT_ENDS: [&str; 3] = ["PEND", "CEND", "DEND"];

/// Whether two words have the same letters, in either case.
#[tactic(auto, unfolding(crate::specs::Progress::is_spelled))]
fn is_spelled(word: &str, other: &str) -> bool
    ensures { result ≡ meaning.is_spelled word.now other.now }
{
    word.eq_ignore_ascii_case(other)
}

/// Whether a word is one of these, letters in either case.
#[tactic(auto, unfolding(crate::specs::Progress::is_one_of))]
fn is_one_of(words: &[&str], word: &str) -> bool
    ensures { result ≡ meaning.is_one_of (map (λ w. w.now) words.now) word.now }
{
    for one in words {
        if is_spelled(word, one) {
            return true;
        }
    }
    false
}

/// Whether a word enters a section.
#[tactic(auto, unfolding(crate::specs::Progress::enters_section))]
fn enters_section(word: &str) -> bool
    ensures { result ≡ meaning.enters_section word.now }
{
    is_one_of(&SECTIONS, word)
}

/// Whether a word ends a segment or a dummy section.
#[tactic(auto, unfolding(crate::specs::Progress::ends_segment))]
fn ends_segment(word: &str) -> bool
    ensures { result ≡ meaning.ends_segment word.now }
{
    is_one_of(&SEGMENT_ENDS, word)
}

/// Passes a line with this word.
fn pass_word(progress: &mut Progress, word: &str)
    ensures { meaning.IsPassedWord word.now progress.old progress.new }
{
    if enters_section(word) {
        progress.begin_source();
    } else if is_spelled(word, ".newblock") {
        progress.begin_block();
    } else if ends_segment(word) {
        progress.dummy = None;
    }
}

/// Passes a line, changed or not: a section that it enters, or `.newblock`, begins a block of local labels, and a section
/// or what ends a segment or a dummy section ends the dummy section.
pub fn pass_line(progress: &mut Progress, line: &str)
    ensures { meaning.IsPassed (first_word line.now) progress.old progress.new }
{
    match first_word(line) {
        Some(word) => pass_word(progress, word),
        None => {}
    }
}
