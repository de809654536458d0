//! Words as numbers.

ghost use Rattle.std.specs.Prelude.{◌≡◌, ◌++◌, ◌≤◌, OnOk, string_bytes};
ghost use Rattle.c25_prompt_texts.specs.Values.{fraction_text, is_positive, sign_by, signed_text, size_of_word, value_text, word_text};

use c25_meaning_common::no_memory::NoMemory;
use c25_texts::appending::{push_five, push_text, push_texts};
use c25_texts::digits::four;
use itoa::Buffer;

/// Whether the highest bit of a word is clear.
fn is_positive(word: u16) -> bool
    ensures { result ≡ is_positive word }
{
    word < 32_768
}

/// A word without its sign: at most 32,768.
fn size_of_word(word: u16) -> u32
    ensures size { result ≡ size_of_word word }
    ensures small { result ≤ 32768 }
{
    if is_positive(word) {
        u32::from(word)
    } else {
        65_536 - u32::from(word)
    }
}

/// The sign of a word: a minus, or nothing.
fn sign_of(word: u16) -> &'static str
    ensures { result.now ≡ sign_by (is_positive word) }
{
    if is_positive(word) { "" } else { "-" }
}

/// Appends a word with its sign, in decimal.
fn push_signed(text: &mut String, word: u16) -> Result<(), NoMemory>
    ensures { OnOk result (string_bytes text.new ≡ string_bytes text.old ++ signed_text word) }
{
    let mut digits = Buffer::new();
    push_texts(text, &[sign_of(word), digits.format(size_of_word(word))])
}

/// Appends a word as a fraction with 15 bits after the point.
fn push_fraction(text: &mut String, word: u16) -> Result<(), NoMemory>
    ensures { OnOk result (string_bytes text.new ≡ string_bytes text.old ++ fraction_text word) }
{
    let mut digits = Buffer::new();
    let size = size_of_word(word);
    push_texts(text, &[sign_of(word), digits.format(size / 32_768), "."])?;
    push_five(text, size % 32_768 * 100_000 / 32_768)
}

/// Appends a line: a word in hexadecimal digits, with its sign in decimal, and as a fraction with 15 bits after
/// the point, of which five decimal places are shown.
#[tactic(auto, unfolding(crate::specs::Values::value_text))]
pub fn push_value(text: &mut String, word: u16) -> Result<(), NoMemory>
    ensures { OnOk result (string_bytes text.new ≡ string_bytes text.old ++ value_text word) }
{
    push_texts(text, &[four(word).as_str(), " "])?;
    push_signed(text, word)?;
    push_text(text, " ")?;
    push_fraction(text, word)?;
    push_text(text, "\n")
}

/// Appends a line: an address, and the word there as a number.
pub fn push_word(text: &mut String, address: u16, word: u16) -> Result<(), NoMemory>
    ensures { OnOk result (string_bytes text.new ≡ string_bytes text.old ++ word_text address word) }
{
    push_texts(text, &[four(address).as_str(), " "])?;
    push_value(text, word)
}
