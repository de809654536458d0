//! Numbers read from text.

ghost use Rattle.std.specs.Prelude.{◌≡◌, ◌≤◌, IfSome};
ghost use Rattle.c25_meaning_common.specs.Digits.{decimal_of, hexadecimal_of};

use c25_meaning_common::digits::{are_digits, value_in};

/// How many hexadecimal digits the largest word has.
const MOST_DIGITS: usize = 4;

/// The number that a text of decimal digits stands for, if it is at most `most`. The text may have any number
/// of leading zeros; without a digit, or with another character, it stands for no number.
#[tactic(auto, unfolding(c25_meaning_common::specs::Digits::decimal_of))]
pub fn decimal_of(most: u32, word: &[u8]) -> Option<u32>
    ensures value { result ≡ decimal_of most word.now }
    ensures at_most { IfSome result (λ n. n ≤ most) }
{
    let value = value_in(10, word);
    if are_digits(10, word) && value <= u64::from(most) {
        Some(value as u32)
    } else {
        None
    }
}

/// The number that a text of hexadecimal digits, in either case, stands for, if there are one to four digits,
/// and no fewer than `least`.
#[tactic(auto, unfolding(c25_meaning_common::specs::Digits::hexadecimal_of))]
pub fn hexadecimal_of(least: usize, word: &[u8]) -> Option<u16>
    ensures { result ≡ hexadecimal_of least word.now }
{
    if are_digits(16, word) && least <= word.len() && word.len() <= MOST_DIGITS {
        Some(value_in(16, word) as u16)
    } else {
        None
    }
}
