//! The kinds of bytes, and the lexeme at the front of a text.

ghost use Rattle.std.specs.Prelude.{◌≡◌, ◌≤◌, ◌<◌, ◌-◌, ◌+◌, ◌^◌, length, IfSome, drop, take};
ghost use Rattle.std.specs.List.{prefix_len};
ghost use Rattle.std.specs.Option.{option_map_or};
ghost use Rattle.c25_meaning_common.specs.Bytes.{is_space};
ghost use Rattle.c25_meaning_linking.specs.CommandTokens.{sign_of, is_word, comment_len, lexeme, covered};

use c25_meaning_common::bytes::{byte_at, is_blank};
use c25_meaning_linking::command_token::{Lexeme, Sign};

/// Whether a byte is a blank, a tab, or a character of a line's end, LF or CR.
fn is_space(byte: u8) -> bool
    ensures { result ≡ is_space byte }
{
    is_blank(byte) || byte == b'\n' || byte == b'\r'
}

fn sign_of(byte: u8) -> Option<Sign>
    ensures { result ≡ sign_of byte }
{
    match byte {
        b'{' => Some(Sign::OpenBrace),
        b'}' => Some(Sign::CloseBrace),
        b'(' => Some(Sign::OpenParenthesis),
        b')' => Some(Sign::CloseParenthesis),
        b':' => Some(Sign::Colon),
        b',' => Some(Sign::Comma),
        b'=' => Some(Sign::Equals),
        b'>' => Some(Sign::Greater),
        b'*' => Some(Sign::Star),
        _ => None,
    }
}

fn is_word(byte: u8) -> bool
    ensures { result ≡ is_word byte }
{
    byte >= 0x21 && byte <= 0x7e && !sign_of(byte).is_some() && !(byte == b'/' || byte == b'"')
}

/// The bytes after the first `count`.
pub(crate) fn behind(text: &[u8], count: usize) -> &[u8]
    ensures { result.now ≡ drop count text.now }
{
    if count <= text.len() {
        &text[count..]
    } else {
        &text[text.len()..]
    }
}

/// The first `count` bytes.
pub(crate) fn front(text: &[u8], count: usize) -> &[u8]
    ensures { result.now ≡ take count text.now }
{
    if count <= text.len() {
        &text[..count]
    } else {
        text
    }
}

fn word_len(text: &[u8]) -> usize
    ensures value { result ≡ prefix_len is_word text.now }
    ensures bound { result ≤ length text.now }
{
    text.iter().take_while(|byte| is_word(**byte)).count()
}

/// How many bytes a comment has after its `/*`, if it is closed.
fn comment_len(text: &[u8]) -> Option<usize>
    ensures value { result ≡ comment_len text.now }
    ensures bound { IfSome result (λ n. n ≤ length text.now) }
{
    for (i, byte) in text.iter().enumerate() {
        if *byte == b'*' && byte_at(text, i + 1) == b'/' {
            return Some(i + 2);
        }
    }
    None
}

fn comment_piece(length: Option<usize>) -> Lexeme
    requires { IfSome length (λ n. n ≤ 2 ^ 63) }
    ensures { result ≡ option_map_or (λ n. Lexeme.Comment (n + 2)) length Lexeme.OpenComment }
{
    match length {
        None => Lexeme::OpenComment,
        Some(length) => Lexeme::Comment(length + 2),
    }
}

fn sign_piece(sign: Option<Sign>) -> Lexeme
    ensures { result ≡ option_map_or Lexeme.Sign sign Lexeme.Stray }
{
    match sign {
        None => Lexeme::Stray,
        Some(sign) => Lexeme::Sign(sign),
    }
}

/// The lexeme at the front of a text that is not empty.
#[tactic(auto, unfolding(c25_meaning_linking::specs::CommandTokens::lexeme))]
pub(crate) fn lexeme(text: &[u8]) -> Lexeme
    requires { 0 < length text.now }
    ensures value { result ≡ lexeme text.now }
    ensures bound { covered result (drop 1 text.now) ≤ length text.now - 1 }
{
    let first = byte_at(text, 0);
    if is_space(first) {
        Lexeme::Blank
    } else if is_word(first) {
        Lexeme::Word(word_len(text))
    } else if first == b'/' && byte_at(text, 1) == b'*' {
        comment_piece(comment_len(behind(text, 2)))
    } else {
        sign_piece(sign_of(first))
    }
}
