//! The kinds of byte that texts are made of.

ghost use Rattle.std.specs.Prelude.{◌≡◌, ◌≢◌, ◌<◌, length, slice_index};
ghost use Rattle.c25_meaning_common.specs.Bytes.{is_blank, is_digit, is_letter, is_letter_or_digit, begins_name, goes_on_name};

/// Whether a byte is a blank or a tab.
pub fn is_blank(b: u8) -> bool
    ensures { result ≡ is_blank b }
{
    b == b' ' || b == b'\t'
}

/// Whether a byte is one of `0` to `9`.
pub fn is_digit(b: u8) -> bool
    ensures { result ≡ is_digit b }
{
    b >= b'0' && b <= b'9'
}

fn is_letter(b: u8) -> bool
    ensures { result ≡ is_letter b }
{
    b >= b'A' && b <= b'Z' || b >= b'a' && b <= b'z'
}

pub(crate) fn is_letter_or_digit(b: u8) -> bool
    ensures { result ≡ is_letter_or_digit b }
{
    is_letter(b) || is_digit(b)
}

/// Whether a byte begins a name: a letter or `_`.
pub fn begins_name(b: u8) -> bool
    ensures { result ≡ begins_name b }
{
    is_letter(b) || b == b'_'
}

pub(crate) fn goes_on_name(b: u8) -> bool
    ensures { result ≡ goes_on_name b }
{
    is_letter_or_digit(b) || b == b'_' || b == b'$'
}

/// The byte at a place of a text, or 0 past its end.
pub fn byte_at(text: &[u8], place: usize) -> u8
    ensures value { result ≡ slice_index text.now place }
    ensures within { result ≢ 0 → place < length text.now }
{
    text.get(place).copied().unwrap_or(0)
}
