//! The kinds of words: reserved words, numbers or names.

ghost use Rattle.std.specs.Prelude.{◌≡◌, IfOk};
ghost use Rattle.std.specs.Option.{option_map_or};
ghost use Rattle.c25_meaning_linking.specs.CommandTokens.{word_numeral, is_numeral, keyword_of, number_kind, word_kind};
ghost use Rattle.c25_cmd.specs.View.{numeral_of};

use crate::bytes::{behind, front};
use c25_meaning_common::bytes::byte_at;
use c25_meaning_common::digits::{are_digits, digit, value_in};
use c25_meaning_linking::command_token::{Keyword, Kind};
use std::alloc::{AllocError, Global};

/// The base and the digits of a number.
#[derive(Clone, Copy)]
pub(crate) struct Numeral<'a> {
    pub base: u8,
    pub digits: &'a [u8],
}

fn word_numeral(text: &[u8]) -> Numeral<'_>
    ensures { numeral_of result ≡ word_numeral text.now }
{
    let second = byte_at(text, 1);
    let front_len = text.len().saturating_sub(1);
    let last = byte_at(text, front_len);
    if byte_at(text, 0) == b'0' && (second == b'x' || second == b'X') {
        Numeral {
            base: 16,
            digits: behind(text, 2),
        }
    } else if last == b'h' || last == b'H' {
        Numeral {
            base: 16,
            digits: front(text, front_len),
        }
    } else {
        Numeral {
            base: 10,
            digits: text,
        }
    }
}

fn is_numeral(number: Numeral<'_>) -> bool
    ensures { result ≡ is_numeral (numeral_of number.entry) }
{
    let digits = number.digits;
    let count = digits.len();
    are_digits(number.base, digits)
        && count < 20
        && !(number.base == 10 && byte_at(digits, 0) == b'0' && 1 < count)
}

/// The kind of a word that begins with a digit. A number above 4,294,967,295 is 4,294,967,295 here.
fn number_kind(number: Numeral<'_>) -> Kind
    ensures { result ≡ number_kind (numeral_of number.entry) }
{
    if is_numeral(number) {
        let value = value_in(number.base, number.digits);
        Kind::Number(value.min(u64::from(u32::MAX)) as u32)
    } else {
        Kind::Malformed
    }
}

fn keyword_of(lower: &str) -> Option<Keyword>
    ensures { result ≡ keyword_of lower.now }
{
    match lower {
        "memory" => Some(Keyword::Memory),
        "sections" => Some(Keyword::Sections),
        "page" => Some(Keyword::Page),
        "origin" | "org" | "o" => Some(Keyword::Origin),
        "length" | "len" | "l" => Some(Keyword::Length),
        "load" => Some(Keyword::Load),
        "run" => Some(Keyword::Run),
        _ => None,
    }
}

fn name_kind(keyword: Option<Keyword>) -> Kind
    ensures { result ≡ option_map_or Kind.Keyword keyword Kind.Name }
{
    match keyword {
        None => Kind::Name,
        Some(keyword) => Kind::Keyword(keyword),
    }
}

/// The kind of a word.
#[tactic(auto, unfolding(c25_meaning_linking::specs::CommandTokens::word_kind))]
pub(crate) fn word_kind(alloc: Global, text: &str) -> Result<Kind, AllocError>
    ensures { IfOk result (λ kind. kind ≡ word_kind text.now) }
{
    let bytes = text.as_bytes();
    if digit(byte_at(bytes, 0)) < 10 {
        return Ok(number_kind(word_numeral(bytes)));
    }
    let lower = text.to_ascii_lowercase(alloc)?;
    Ok(name_kind(keyword_of(lower.as_str())))
}
