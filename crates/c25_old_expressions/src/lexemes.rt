//! What stands at the front of the operands of an old line.

ghost use Rattle.std.specs.Prelude.{◌≡◌, ◌<◌, length, drop, take};
ghost use Rattle.c25_meaning_common.specs.Digits.{value_in};
ghost use Rattle.c25_meaning_language.specs.Lexeme as language;
ghost use Rattle.c25_old_expressions.specs.Marks.{sym_of, symbol_by};
ghost use Rattle.c25_old_expressions.specs.OldSymbols.{begins_c, begins_greater, begins_local, begins_none, begins_two, goes_on_word, is_character, number, old_lexeme, plain_lexeme, run_in};
ghost use Rattle.c25_old_expressions.specs.Scanning.{lexeme_of};

use crate::symbol::Symbol;
use c25_meaning_common::bytes::byte_at;
use c25_meaning_common::digits::{are_digits, value_in};
use c25_meaning_common::runs::constant_run;
use c25_meaning_language::line::{Lexeme, Sign, TokenKind};
use c25_text::{constant_value, lexeme};

/// What stands at the front of old operands.
#[derive(Clone, Copy)]
pub(crate) enum OldLexeme<'a> {
    /// A blank or a tab.
    Gap,
    /// The `;` of a comment.
    End,
    /// A symbol, and how many bytes it has after its first.
    One(Symbol<'a>, usize),
    /// A constant of two characters.
    Two(u8, u8),
    /// Nothing that is read.
    Unread,
}

/// A text without so many bytes at its front.
pub(crate) fn past(text: &[u8], count: usize) -> &[u8]
    ensures { result.now ≡ drop count text.now }
{
    if count < text.len() {
        &text[count..]
    } else {
        &[]
    }
}

/// So many bytes at the front of a text.
pub(crate) fn up_to(text: &[u8], count: usize) -> &[u8]
    ensures { result.now ≡ take count text.now }
{
    if count < text.len() {
        &text[..count]
    } else {
        text
    }
}

/// The letters and digits at the front of a text.
fn run_in(text: &[u8]) -> &[u8]
    ensures { result.now ≡ run_in text.now }
{
    &text[..constant_run(text)]
}

/// Whether a text begins with a sign `>` and hexadecimal digits.
fn begins_greater(text: &[u8]) -> bool
    ensures { result ≡ begins_greater text.now }
{
    byte_at(text, 0) == b'>' && are_digits(16, run_in(past(text, 1)))
}

/// Whether a text begins with `0x` or `0X` and hexadecimal digits.
fn begins_c(text: &[u8]) -> bool
    ensures { result ≡ begins_c text.now }
{
    byte_at(text, 0) == b'0'
        && (byte_at(text, 1) == b'x' || byte_at(text, 1) == b'X')
        && are_digits(16, run_in(past(text, 2)))
}

/// Whether a byte may stand in a constant of two characters.
fn is_character(b: u8) -> bool
    ensures { result ≡ is_character b }
{
    b >= b' ' && b <= b'~' && b != b'\''
}

/// Whether a text begins with `''`, and no further quote.
fn begins_none(text: &[u8]) -> bool
    ensures { result ≡ begins_none text.now }
{
    byte_at(text, 0) == b'\'' && byte_at(text, 1) == b'\'' && byte_at(text, 2) != b'\''
}

/// Whether a text begins with two characters in quotes.
fn begins_two(text: &[u8]) -> bool
    ensures { result ≡ begins_two text.now }
{
    byte_at(text, 0) == b'\''
        && is_character(byte_at(text, 1))
        && is_character(byte_at(text, 2))
        && byte_at(text, 3) == b'\''
}

/// Whether a byte goes on with a word.
fn goes_on_word(b: u8) -> bool
    ensures { result ≡ goes_on_word b }
{
    b.is_ascii_alphanumeric() || b == b'_' || b == b'$' || b == b'?' || b == b'.'
}

/// Whether a text begins with a local label.
fn begins_local(text: &[u8]) -> bool
    ensures { result ≡ begins_local text.now }
{
    byte_at(text, 0) == b'$' && byte_at(text, 1).is_ascii_digit() && !goes_on_word(byte_at(text, 2))
}

/// The constant of hexadecimal digits.
fn hexadecimal<'a>(digits: &[u8]) -> Symbol<'a>
    ensures { sym_of result ≡ number (value_in 16 digits.now) }
{
    Symbol::Constant(value_in(16, digits).min(1 << 31) as u32)
}

/// The symbol that a token of this kind and text is.
pub(crate) fn symbol_of(kind: TokenKind, text: &[u8]) -> Symbol<'_>
    ensures { sym_of result ≡ symbol_by kind text.now }
{
    match kind {
        TokenKind::Name => Symbol::Name(text),
        TokenKind::Constant => Symbol::Constant(constant_value(text)),
        TokenKind::Character => Symbol::Constant(u32::from(byte_at(text, 1))),
        TokenKind::Quoted => Symbol::Text(text),
        TokenKind::DottedName => Symbol::Text(text),
        TokenKind::Sign(Sign::Dollar) => Symbol::Here,
        TokenKind::Sign(sign) => Symbol::Signed(sign),
    }
}

/// A lexeme of the assembler at the front of a text.
fn plain_lexeme(text: &[u8]) -> OldLexeme<'_>
    requires { 0 < length text.now }
    ensures { lexeme_of result ≡ plain_lexeme (language.lexeme text.now) text.now }
{
    match lexeme(text) {
        Lexeme::Blank => OldLexeme::Gap,
        Lexeme::Comment => OldLexeme::End,
        Lexeme::Token(kind, count) => {
            OldLexeme::One(symbol_of(kind, up_to(text, count)), count.saturating_sub(1))
        }
        Lexeme::Fault(_) => OldLexeme::Unread,
    }
}

/// What stands at the front of a text that is not empty, where local labels get names or not, and where an operand may begin or
/// not.
pub(crate) fn old_lexeme(labelled: bool, begins: bool, text: &[u8]) -> OldLexeme<'_>
    requires { 0 < length text.now }
    ensures { lexeme_of result ≡ old_lexeme labelled begins text.now }
{
    if labelled && begins_local(text) {
        OldLexeme::One(Symbol::Name(up_to(text, 2)), 1)
    } else if begins && begins_greater(text) {
        let digits = run_in(past(text, 1));
        OldLexeme::One(hexadecimal(digits), digits.len())
    } else if begins_c(text) {
        let digits = run_in(past(text, 2));
        OldLexeme::One(hexadecimal(digits), digits.len().saturating_add(1))
    } else if begins_none(text) {
        OldLexeme::One(Symbol::Constant(0), 1)
    } else if begins_two(text) {
        OldLexeme::Two(byte_at(text, 1), byte_at(text, 2))
    } else {
        plain_lexeme(text)
    }
}
