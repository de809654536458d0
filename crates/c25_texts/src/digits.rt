//! Bytes and words in hexadecimal digits of upper case, made without the allocator.

ghost use Rattle.std.specs.Prelude.{◌≡◌, ◌+◌, ◌<◌, ◌≤◌, ◌∷◌, [], ◌++◌};
ghost use Rattle.arrayvec.specs.ArrayString.{array_string_len};
ghost use Rattle.c25_meaning_common.specs.Digits.{four_digits, hex_digit, two_digits};

use arrayvec::ArrayString;

/// The hexadecimal digit of a number below 16.
#[inline(always)]
fn hex_digit(number: u16) -> u8
    requires { number < 16 }
    ensures digit { result ≡ hex_digit number }
    ensures ascii { result < 128 }
{
    match number {
        0 => b'0',
        1 => b'1',
        2 => b'2',
        3 => b'3',
        4 => b'4',
        5 => b'5',
        6 => b'6',
        7 => b'7',
        8 => b'8',
        9 => b'9',
        10 => b'A',
        11 => b'B',
        12 => b'C',
        13 => b'D',
        14 => b'E',
        _ => b'F',
    }
}

/// Appends the digit of a number below 16.
#[tactic(auto, using(std::proofs::lemmas::Str::encode_ascii))]
fn add_digit<const N: usize>(digits: &mut ArrayString<N>, number: u16)
    requires small { number < 16 }
    requires room { array_string_len digits.old < N }
    ensures { digits.new.bytes ≡ digits.old.bytes ++ hex_digit number ∷ [] }
{
    digits.push(char::from(hex_digit(number)));
}

/// Appends the two digits of a number's low byte.
fn add_byte<const N: usize>(digits: &mut ArrayString<N>, number: u16)
    requires { array_string_len digits.old + 2 ≤ N }
    ensures { digits.new.bytes ≡ digits.old.bytes ++ two_digits number }
{
    add_digit(digits, number / 16 % 16);
    add_digit(digits, number % 16);
}

/// A byte in two hexadecimal digits.
pub fn two(byte: u8) -> ArrayString<2>
    ensures { result.bytes ≡ two_digits byte }
{
    let mut digits = ArrayString::new();
    add_byte(&mut digits, u16::from(byte));
    digits
}

/// A word in four hexadecimal digits.
pub fn four(word: u16) -> ArrayString<4>
    ensures { result.bytes ≡ four_digits word }
{
    let mut digits = ArrayString::new();
    add_byte(&mut digits, word / 256);
    add_byte(&mut digits, word);
    digits
}

/// A word in four hexadecimal digits, as bytes of ASCII.
#[inline(always)]
pub fn four_bytes(word: u16) -> [u8; 4]
    ensures { result ≡ four_digits word }
{
    [
        hex_digit(word / 4096 % 16),
        hex_digit(word / 256 % 16),
        hex_digit(word / 16 % 16),
        hex_digit(word % 16),
    ]
}
