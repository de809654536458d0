//! Lexemes: the token, blank, comment or fault at the front of a text.

ghost use Rattle.std.specs.Prelude.{◌≡◌, ◌<◌, ◌≤◌, length, true, slice_index, IfSome, min, ◌^◌};
ghost use Rattle.std.specs.List.{list_all};
ghost use Rattle.c25_meaning_common.specs.Bytes.{is_plain};
ghost use Rattle.c25_meaning_common.specs.Digits.{all_digits};
ghost use Rattle.c25_meaning_language.specs.Constant.{suffix_base, numeral, is_constant, constant_value};
ghost use Rattle.c25_meaning_language.specs.Lexeme.{name_of, constant_of, character_of, quoted_len, quoted_by, dotted_of, double_sign, single_sign, sign_by, lexeme};

use c25_meaning_common::bytes::{begins_name, byte_at, is_blank, is_digit};
use c25_meaning_common::digits::{digit, value_in};
use c25_meaning_common::runs::{constant_run, name_run};
use c25_meaning_language::line::{Lexeme, LineFault, Sign, TokenKind};

fn suffix_base(b: u8) -> Option<u8>
    ensures { result ≡ suffix_base b }
{
    match b {
        b'H' | b'h' => Some(16),
        b'Q' | b'q' => Some(8),
        b'B' | b'b' => Some(2),
        _ => None,
    }
}

/// The base and the digits of a constant.
fn numeral(text: &[u8]) -> (u8, &[u8])
    ensures base { result.0 ≡ (numeral text.now).base }
    ensures digits { result.1.now ≡ (numeral text.now).digits }
{
    let Some((last, front)) = text.split_last() else {
        return (10, text);
    };
    match suffix_base(*last) {
        Some(base) => (base, front),
        None => (10, text),
    }
}

fn all_digits(base: u8, text: &[u8]) -> bool
    ensures { result ≡ all_digits base text.now }
{
    text.iter().all(|b| digit(*b) < base)
}

fn is_constant(text: &[u8]) -> bool
    ensures { result ≡ is_constant text.now }
{
    let (base, digits) = numeral(text);
    all_digits(base, digits)
}

/// The number that the text of a constant token stands for; 2,147,483,648, which no expression has as its
/// value, for any larger one.
pub fn constant_value(text: &[u8]) -> u32
    ensures { result ≡ min (constant_value text.now) (2 ^ 31) }
{
    let (base, digits) = numeral(text);
    value_in(base, digits).min(1 << 31) as u32
}

fn constant_of(run: &[u8]) -> Lexeme
    ensures { result ≡ constant_of run.now }
{
    if is_constant(run) {
        Lexeme::Token(TokenKind::Constant, run.len())
    } else {
        Lexeme::Fault(LineFault::BadConstant)
    }
}

fn name_of(length: usize) -> Lexeme
    ensures { result ≡ name_of length }
{
    if length <= 128 {
        Lexeme::Token(TokenKind::Name, length)
    } else {
        Lexeme::Fault(LineFault::BadLabel)
    }
}

/// Whether a byte may stand outside comments: 20h to 7Eh, or a tab.
fn is_plain(b: u8) -> bool
    ensures { result ≡ is_plain b }
{
    b >= b' ' && b <= b'~' || b == b'\t'
}

fn all_plain(text: &[u8]) -> bool
    ensures { result ≡ list_all is_plain text.now }
{
    text.iter().all(|b| is_plain(*b))
}

/// The character constant at the front of a text, by the three bytes after its first quote, or `OpenQuote`
/// (12).
fn character_of(c: u8, d: u8, e: u8) -> Lexeme
    ensures { result ≡ character_of c d e }
{
    if c == b'\'' && d == b'\'' && e == b'\'' {
        Lexeme::Token(TokenKind::Character, 4)
    } else if is_plain(c) && c != b'\'' && d == b'\'' {
        Lexeme::Token(TokenKind::Character, 3)
    } else {
        Lexeme::Fault(LineFault::OpenQuote)
    }
}

/// How many bytes of the text after a string's first quote belong to the string, its closing quote among
/// them; None where no quote closes it.
pub fn quoted_len(rest: &[u8]) -> Option<usize>
    ensures value { result ≡ quoted_len true rest.now }
    ensures bound { IfSome result (λ n. n ≤ length rest.now) }
{
    let mut inside = true;
    for (i, b) in rest.iter().enumerate() {
        if *b == b'"' {
            inside = !inside;
        } else if !inside {
            return Some(i);
        }
    }
    if inside { None } else { Some(rest.len()) }
}

fn quoted_of(rest: &[u8]) -> Lexeme
    ensures { result ≡ quoted_by (quoted_len true rest.now) rest.now }
{
    match quoted_len(rest) {
        None => Lexeme::Fault(LineFault::OpenQuote),
        Some(n) if all_plain(&rest[..n]) => Lexeme::Token(TokenKind::Quoted, n + 1),
        Some(_) => Lexeme::Fault(LineFault::StrayText),
    }
}

/// The name that begins with a dot, by the text after the dot, or `StrayText` (13) where no name follows.
fn dotted_of(rest: &[u8]) -> Lexeme
    ensures { result ≡ dotted_of rest.now }
{
    if begins_name(byte_at(rest, 0)) {
        Lexeme::Token(TokenKind::DottedName, name_run(rest) + 1)
    } else {
        Lexeme::Fault(LineFault::StrayText)
    }
}

fn double_sign(b: u8, c: u8) -> Option<Sign>
    ensures { result ≡ double_sign b c }
{
    match (b, c) {
        (b'<', b'<') => Some(Sign::ShiftLeft),
        (b'>', b'>') => Some(Sign::ShiftRight),
        (b'<', b'=') => Some(Sign::LessOrEqual),
        (b'>', b'=') => Some(Sign::GreaterOrEqual),
        (b'=', b'=') => Some(Sign::Equal),
        (b'!', b'=') => Some(Sign::NotEqual),
        _ => None,
    }
}

fn single_sign(b: u8) -> Option<Sign>
    ensures { result ≡ single_sign b }
{
    match b {
        b',' => Some(Sign::Comma),
        b'$' => Some(Sign::Dollar),
        b'(' => Some(Sign::OpenParenthesis),
        b')' => Some(Sign::CloseParenthesis),
        b'+' => Some(Sign::Plus),
        b'-' => Some(Sign::Minus),
        b'~' => Some(Sign::Tilde),
        b'*' => Some(Sign::Star),
        b'/' => Some(Sign::Slash),
        b'%' => Some(Sign::Percent),
        b'<' => Some(Sign::Less),
        b'>' => Some(Sign::Greater),
        b'=' => Some(Sign::Equal),
        b'&' => Some(Sign::Ampersand),
        b'^' => Some(Sign::Caret),
        b'|' => Some(Sign::Bar),
        _ => None,
    }
}

fn sign_of(b: u8, c: u8) -> Lexeme
    ensures { result ≡ sign_by (double_sign b c) (single_sign b) }
{
    if let Some(sign) = double_sign(b, c) {
        Lexeme::Token(TokenKind::Sign(sign), 2)
    } else if let Some(sign) = single_sign(b) {
        Lexeme::Token(TokenKind::Sign(sign), 1)
    } else {
        Lexeme::Fault(LineFault::StrayText)
    }
}

/// The lexeme at the front of a text that is not empty.
#[tactic(auto, unfolding(c25_meaning_language::specs::Lexeme::lexeme))]
pub fn lexeme(text: &[u8]) -> Lexeme
    requires { 0 < length text.now }
    ensures value { result ≡ lexeme text.now }
    ensures comment { result ≡ Lexeme.Comment → slice_index text.now 0 ≡ 59 }
{
    match text[0] {
        b if is_blank(b) => Lexeme::Blank,
        b';' => Lexeme::Comment,
        b if begins_name(b) => name_of(name_run(text)),
        b if is_digit(b) => constant_of(&text[..constant_run(text)]),
        b'\'' => character_of(byte_at(text, 1), byte_at(text, 2), byte_at(text, 3)),
        b'"' => quoted_of(&text[1..]),
        b'.' => dotted_of(&text[1..]),
        b => sign_of(b, byte_at(text, 1)),
    }
}
