//! The part of a line that is refused whatever its operands say: the directive of a block that nothing ends (31), and
//! what is too long (38).

ghost use Rattle.std.specs.Prelude.{◌≡◌, ◌<◌, ◌≤◌, length};
ghost use Rattle.std.specs.Fmt.{is_char_start};
ghost use Rattle.std.specs.Fmt.Cut.{floor_char_boundary};
ghost use Rattle.std.specs.List.{prefix_len};
ghost use Rattle.std.specs.Option.{option_map};
ghost use Rattle.c25_meaning_common.specs.Bytes as bytes;
ghost use Rattle.c25_places.specs.Refused as refused;

use crate::fields::word_part;
use crate::part::Part;
use c25_meaning_common::bytes::byte_at;
use c25_text::line::first_word;
use c25_text::past_blanks;

/// How many bytes a line may have.
const MOST_BYTES: usize = 1024;

/// Whether a word is a directive that begins a block.
#[tactic(auto, unfolding(crate::specs::Refused::begins_block))]
fn begins_block(word: &str) -> bool
    ensures { result ≡ refused.begins_block word.now }
{
    word.eq_ignore_ascii_case(".if")
        || word.eq_ignore_ascii_case(".loop")
        || word.eq_ignore_ascii_case(".macro")
}

/// Whether the word of a line, if it has one, is such a directive.
fn has_opener(word: Option<&str>) -> bool
    ensures { result ≡ refused.has_opener (option_map (λ w. w.now) word.entry) }
{
    match word {
        Some(word) => begins_block(word),
        None => false,
    }
}

/// The directive of a line that begins a block.
pub(crate) fn opener_part(text: &str) -> Option<Part>
    ensures { result ≡ refused.opener_part text.now }
{
    if has_opener(first_word(text)) {
        word_part(text.as_bytes())
    } else {
        None
    }
}

/// The text of a line after the blanks at its front, if anything is left.
fn filled_part(text: &[u8]) -> Option<Part>
    ensures { result ≡ refused.filled_part text.now }
{
    let start = past_blanks(text, 0);
    if start < text.len() {
        Some(Part {
            start,
            end: text.len(),
        })
    } else {
        None
    }
}

/// Whether a byte is the first of a character (UTF-8).
fn begins_character(byte: u8) -> bool
    ensures { result ≡ is_char_start byte }
{
    byte < 128 || byte >= 192
}

/// Where the character begins that has the byte at a place.
#[tactic(auto, using(crate::proofs::Characters::goes_on, crate::proofs::Characters::begins))]
fn character_start(text: &[u8], place: usize) -> usize
    requires { place < length text.now }
    ensures { result ≡ floor_char_boundary text.now place }
{
    let mut at = place;
    while at > 0 && !begins_character(byte_at(text, at)) {
        at -= 1;
    }
    at
}

/// The part of a line that is too long: its characters past the 1,024th byte, or all of it where it grows by
/// substitution.
pub(crate) fn long_part(text: &[u8]) -> Option<Part>
    ensures { result ≡ refused.long_part text.now }
{
    if text.len() > MOST_BYTES {
        Some(Part {
            start: character_start(text, MOST_BYTES),
            end: text.len(),
        })
    } else {
        filled_part(text)
    }
}
