//! The names of instructions (SPRU014, "Instruction Set Summary").

ghost use Rattle.std.specs.Prelude.{◌≡◌, ◌+◌, ◌*◌, ◌^◌, ◌<◌, ◌≤◌, None, Some, IfSome, length, true};
ghost use Rattle.std.specs.Char.{to_ascii_lowercase};
ghost use Rattle.c25_isa.specs.Letters as letters;
ghost use Rattle.c25_isa.specs.Letters.{is_short, lower};
ghost use Rattle.c25_meaning_instructions.specs.Table.{SameLetters, spelling_text};
ghost use Rattle.c25_meaning_instructions.specs.declared.mnemonic.Spelling.{Spelling};

use crate::in_order::table;
use c25_meaning_instructions::mnemonic::Spelling;

/// A letter in lower case.
#[inline]
fn letter(byte: u8) -> u64
    ensures value { result ≡ to_ascii_lowercase byte }
    ensures byte { result < 256 }
{
    u64::from(byte.to_ascii_lowercase())
}

/// The digit of a letter: its code in lower case plus one, so that no letter has the digit 0.
#[inline]
fn digit(byte: u8) -> u64
    ensures value { result ≡ to_ascii_lowercase byte + 1 }
    ensures byte { result ≤ 256 }
{
    letter(byte) + 1
}

/// The number of four digits, nine bits each, the first one highest.
#[inline]
fn joined(first: u64, second: u64, third: u64, fourth: u64) -> u64
    requires first { first ≤ 256 }
    requires second { second ≤ 256 }
    requires third { third ≤ 256 }
    requires fourth { fourth ≤ 256 }
    ensures { result ≡ first * 2 ^ 27 + second * 2 ^ 18 + third * 2 ^ 9 + fourth }
{
    (first << 27) + (second << 18) + (third << 9) + fourth
}

/// The number of a text of at most four letters, the same in upper and in lower case: the numbers of texts
/// are in alphabetical order. `None` for a longer text.
#[inline]
fn number_of(text: &[u8]) -> Option<u64>
    ensures value { IfSome result (λ number. number ≡ letters.number (lower text.now)) }
    ensures short { IfSome result (λ _. is_short (lower text.now) ≡ true) }
    ensures long { result ≡ None → 4 < length text.now }
{
    match text {
        [] => Some(0),
        [a] => Some(joined(digit(*a), 0, 0, 0)),
        [a, b] => Some(joined(digit(*a), digit(*b), 0, 0)),
        [a, b, c] => Some(joined(digit(*a), digit(*b), digit(*c), 0)),
        [a, b, c, d] => Some(joined(digit(*a), digit(*b), digit(*c), digit(*d))),
        _ => None,
    }
}

/// What a mnemonic stands for: one of the 130 rows, or `ZAC`, `NOP` or `LARP`, its letters in either case.
/// `None` for any other text, also with a blank before or after the name. No memory is taken.
pub fn mnemonic(text: &str) -> Option<Spelling>
    ensures found { IfSome result (λ spelling. SameLetters text.now (spelling_text spelling)) }
    ensures all { (spelling : Spelling) → SameLetters text.now (spelling_text spelling)
        → result ≡ Some spelling }
{
    let (numbers, spellings) = table();
    let number = number_of(text.as_bytes())?;
    let place = numbers.binary_search(&number).ok()?;
    Some(spellings[place])
}
