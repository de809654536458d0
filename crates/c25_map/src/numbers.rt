//! The numbers of a map's lines. Each has one spelling.

ghost use Rattle.std.specs.Prelude.{◌≡◌};
ghost use Rattle.std.specs.List.{list_all};
ghost use Rattle.c25_meaning_common.specs.Bytes.{is_digit};
ghost use Rattle.c25_meaning_linking.specs.MapText.{is_number};
ghost use Rattle.c25_meaning_common.specs.Results.{Meets};
ghost use Rattle.c25_map.specs.Reading.{is_upper_digit, word_of, address_of, long_of, size_of, page_of};

use crate::map_fault::MapFault;
use c25_meaning_common::bytes::is_digit;
use c25_meaning_common::failure::Failure;
use c25_texts::{decimal_of, hexadecimal_of};

/// How many digits a size has.
const SIZE_DIGITS: usize = 5;
/// The largest size of so many digits.
const MOST_WORDS: u32 = 99_999;

fn is_upper_digit(byte: u8) -> bool
    ensures { result ≡ is_upper_digit byte }
{
    is_digit(byte) || byte >= b'A' && byte <= b'F'
}

fn all_upper_digits(digits: &[u8]) -> bool
    ensures { result ≡ list_all is_upper_digit digits.now }
{
    digits.iter().all(|byte| is_upper_digit(*byte))
}

fn all_digits(digits: &[u8]) -> bool
    ensures { result ≡ list_all is_digit digits.now }
{
    digits.iter().all(|byte| is_digit(*byte))
}

/// Whether bytes are the digits of a decimal number without leading zeros.
pub(crate) fn is_number(digits: &[u8]) -> bool
    ensures { result ≡ is_number digits.now }
{
    !digits.is_empty() && all_digits(digits) && (digits.len() == 1 || digits[0] != b'0')
}

/// The word of four hexadecimal digits.
#[tactic(auto, unfolding(crate::specs::Reading::word_of))]
pub(crate) fn word_of(digits: &[u8]) -> Result<u16, Failure<MapFault>>
    ensures { Meets (λ x. x) (word_of digits.now) result }
{
    if !all_upper_digits(digits) {
        return Err(Failure::Fault(MapFault::BadMap));
    }
    match hexadecimal_of(4, digits) {
        Some(word) => Ok(word),
        None => Err(Failure::Fault(MapFault::BadMap)),
    }
}

/// An address: four hexadecimal digits, or `10000`.
#[tactic(auto, unfolding(crate::specs::Reading::address_of))]
pub(crate) fn address_of(digits: &str) -> Result<u32, Failure<MapFault>>
    ensures { Meets (λ x. x) (address_of digits.now) result }
{
    match digits {
        "10000" => Ok(65_536),
        _ => Ok(u32::from(word_of(digits.as_bytes())?)),
    }
}

/// The number of eight hexadecimal digits.
#[tactic(auto, unfolding(crate::specs::Reading::long_of))]
pub(crate) fn long_of(digits: &[u8]) -> Result<u32, Failure<MapFault>>
    ensures { Meets (λ x. x) (long_of digits.now) result }
{
    if digits.len() != 8 {
        return Err(Failure::Fault(MapFault::BadMap));
    }
    let (high, low) = digits.split_at(4);
    let high = word_of(high)?;
    let low = word_of(low)?;
    Ok(65_536 * u32::from(high) + u32::from(low))
}

/// The size of five decimal digits.
#[tactic(auto, unfolding(crate::specs::Reading::size_of))]
pub(crate) fn size_of(digits: &[u8]) -> Result<u32, Failure<MapFault>>
    ensures { Meets (λ x. x) (size_of digits.now) result }
{
    if digits.len() != SIZE_DIGITS {
        return Err(Failure::Fault(MapFault::BadMap));
    }
    match decimal_of(MOST_WORDS, digits) {
        Some(size) => Ok(size),
        None => Err(Failure::Fault(MapFault::BadMap)),
    }
}

/// The number of a page: `0` or `1`.
#[tactic(auto, unfolding(crate::specs::Reading::page_of))]
pub(crate) fn page_of(digits: &str) -> Result<u8, Failure<MapFault>>
    ensures { Meets (λ x. x) (page_of digits.now) result }
{
    match digits {
        "0" => Ok(0),
        "1" => Ok(1),
        _ => Err(Failure::Fault(MapFault::BadMap)),
    }
}
