//! Digits, and the numbers that they make.

ghost use Rattle.std.specs.Prelude.{◌≡◌, ◌^◌, min};
ghost use Rattle.c25_meaning_common.specs.Digits.{digit, all_digits, are_digits, value_in};

/// The value of a digit in any base up to 36, a letter in either case; 36 for a byte that is not a digit.
pub fn digit(b: u8) -> u8
    ensures { result ≡ digit b }
{
    match b {
        b'0'..=b'9' => b - b'0',
        b'A'..=b'Z' => b - b'A' + 10,
        b'a'..=b'z' => b - b'a' + 10,
        _ => 36,
    }
}

fn all_digits(base: u8, text: &[u8]) -> bool
    ensures { result ≡ all_digits base text.now }
{
    text.iter().all(|b| digit(*b) < base)
}

/// Whether a text is one or more digits of a base, and nothing else.
pub fn are_digits(base: u8, text: &[u8]) -> bool
    ensures { result ≡ are_digits base text.now }
{
    !text.is_empty() && all_digits(base, text)
}

/// The value of digits in a base, but at most 4,294,967,296: a larger value gives that number.
pub fn value_in(base: u8, digits: &[u8]) -> u64
    ensures { result ≡ min (value_in base digits.now) (2 ^ 32) }
{
    let mut value: u64 = 0;
    for b in digits {
        value = (value * u64::from(base) + u64::from(digit(*b))).min(1 << 32);
    }
    value
}
