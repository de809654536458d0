//! Constants of old sources.

ghost use Rattle.std.specs.Prelude.{◌≡◌, IfOk, string_bytes};
ghost use Rattle.c25_move_lines.specs.Constants.{begins_with_letter, hexadecimal};

use c25_meaning_common::bytes::byte_at;
use c25_meaning_common::no_memory::NoMemory;
use std::alloc::Global;

/// Whether a text has hexadecimal digits alone, at least one.
pub(crate) fn is_hexadecimal(text: &str) -> bool {
    !text.is_empty() && text.as_bytes().iter().all(|b| b.is_ascii_hexdigit())
}

/// Whether a text begins with a character from `A` on.
fn begins_with_letter(digits: &str) -> bool
    ensures { result ≡ begins_with_letter digits.now }
{
    byte_at(digits.as_bytes(), 0) > b'9'
}

/// The constant of these hexadecimal digits as the assembler reads it (SPRU018, "Constants"): `1F` becomes `1Fh`, and
/// `FF` becomes `0FFh`. `NoMemory` (9) where memory runs out.
#[tactic(auto, unfolding(crate::specs::Constants::hexadecimal))]
pub fn hexadecimal(alloc: Global, digits: &str) -> Result<String, NoMemory>
    ensures { IfOk result (λ text. string_bytes text ≡ hexadecimal digits.now) }
{
    if begins_with_letter(digits) {
        Ok(format!(in alloc; "{}{digits}h", "0")?)
    } else {
        Ok(format!(in alloc; "{digits}h")?)
    }
}

/// The digits of a constant `0x1F`, if a word is one.
pub(crate) fn digits_of_c(word: &str) -> Option<&str> {
    let digits = word.strip_prefix("0x").or(word.strip_prefix("0X"))?;
    is_hexadecimal(digits).then_some(digits)
}

/// What the assembler reads for a text in single quotes that is no constant there: two characters, or none. `None` for
/// any other text.
pub(crate) fn characters(alloc: Global, quoted: &str) -> Result<Option<String>, NoMemory> {
    match quoted.as_bytes() {
        b"''" => Ok(Some(String::from_str(alloc, "0")?)),
        [b'\'', high, low, b'\''] if *high != b'\'' => two_characters(alloc, *high, *low),
        _ => Ok(None),
    }
}

/// The expression of two characters, the first in the high byte.
fn two_characters(alloc: Global, high: u8, low: u8) -> Result<Option<String>, NoMemory> {
    let high = char::from(high);
    let low = char::from(low);
    Ok(Some(format!(in alloc; "{}'{high}'<<8|'{low}')", "(")?))
}
