//! Pieces appended to a text: other texts, numbers in digits, names. Each function fails only where memory
//! runs out; a part of the piece may then have been appended.

ghost use Rattle.std.specs.Prelude.{◌≡◌, ◌++◌, ◌∷◌, ◌+◌, ◌/◌, ◌%◌, ◌<◌, [], OnOk, string_bytes};
ghost use Rattle.std.specs.List.{flat_map};
ghost use Rattle.c25_meaning_common.specs.Digits.{four_digits, two_digits};

use crate::digits::{four, two};
use c25_meaning_common::no_memory::NoMemory;

/// Appends a text.
pub fn push_text(text: &mut String, piece: &str) -> Result<(), NoMemory>
    ensures { OnOk result (string_bytes text.new ≡ string_bytes text.old ++ piece.now) }
{
    Ok(text.push_str(piece)?)
}

/// Appends texts, one after the other.
pub fn push_texts(text: &mut String, pieces: &[&str]) -> Result<(), NoMemory>
    ensures { OnOk result (string_bytes text.new ≡ string_bytes text.old ++ flat_map (λ piece. piece.now) pieces.now) }
{
    for piece in pieces {
        push_text(text, piece)?;
    }
    Ok(())
}

/// Appends a byte in two hexadecimal digits of upper case.
pub fn push_two(text: &mut String, byte: u8) -> Result<(), NoMemory>
    ensures { OnOk result (string_bytes text.new ≡ string_bytes text.old ++ two_digits byte) }
{
    push_text(text, two(byte).as_str())
}

/// Appends a word in four hexadecimal digits of upper case.
pub fn push_four(text: &mut String, word: u16) -> Result<(), NoMemory>
    ensures { OnOk result (string_bytes text.new ≡ string_bytes text.old ++ four_digits word) }
{
    push_text(text, four(word).as_str())
}

/// Appends a number of 32 bits in eight hexadecimal digits of upper case.
pub fn push_eight(text: &mut String, number: u32) -> Result<(), NoMemory>
    ensures { OnOk result (string_bytes text.new ≡ string_bytes text.old ++ (four_digits (number / 65536) ++ four_digits (number % 65536))) }
{
    push_four(text, (number / 65_536) as u16)?;
    push_four(text, (number % 65_536) as u16)
}

/// Appends the last decimal digit of a number.
fn push_digit(text: &mut String, number: u32) -> Result<(), NoMemory>
    ensures { OnOk result (string_bytes text.new ≡ string_bytes text.old ++ (48 + number % 10) ∷ []) }
{
    push_ascii(text, b'0' + (number % 10) as u8)
}

/// Appends an ASCII character.
fn push_ascii(text: &mut String, byte: u8) -> Result<(), NoMemory>
    requires { byte < 128 }
    ensures { OnOk result (string_bytes text.new ≡ string_bytes text.old ++ byte ∷ []) }
{
    Ok(text.push(char::from(byte))?)
}

/// Appends the last five decimal digits of a number, with leading zeros: all its digits where it is below
/// 100,000.
pub fn push_five(text: &mut String, number: u32) -> Result<(), NoMemory>
    ensures { OnOk result (string_bytes text.new ≡ string_bytes text.old
        ++ (48 + number / 10000 % 10) ∷ (48 + number / 1000 % 10) ∷ (48 + number / 100 % 10) ∷ (48 + number / 10 % 10) ∷ (48 + number % 10) ∷ []) }
{
    push_digit(text, number / 10_000)?;
    push_digit(text, number / 1_000)?;
    push_digit(text, number / 100)?;
    push_digit(text, number / 10)?;
    push_digit(text, number)
}

/// Appends a blank and the last five decimal digits of a number.
pub fn push_count(text: &mut String, count: u32) -> Result<(), NoMemory>
    ensures { OnOk result (string_bytes text.new ≡ string_bytes text.old
        ++ 32 ∷ (48 + count / 10000 % 10) ∷ (48 + count / 1000 % 10) ∷ (48 + count / 100 % 10) ∷ (48 + count / 10 % 10) ∷ (48 + count % 10) ∷ []) }
{
    push_text(text, " ")?;
    push_five(text, count)
}

/// Appends a blank and a text.
pub fn push_spaced(text: &mut String, piece: &str) -> Result<(), NoMemory>
    ensures { OnOk result (string_bytes text.new ≡ string_bytes text.old ++ 32 ∷ piece.now) }
{
    push_texts(text, &[" ", piece])
}

/// Appends a blank, a name, and the LF that ends the line.
pub fn push_name(text: &mut String, name: &str) -> Result<(), NoMemory>
    ensures { OnOk result (string_bytes text.new ≡ string_bytes text.old ++ 32 ∷ name.now ++ 10 ∷ []) }
{
    push_spaced(text, name)?;
    push_text(text, "\n")
}
