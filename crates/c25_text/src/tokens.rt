//! The tokens of a text, one at a time.

ghost use Rattle.std.specs.Prelude.{◌≡◌, ◌+◌, ◌<◌, ◌≤◌, [], ◌∷◌, length, slice_index, IfOk, IfSome, MatchOption, Ok, Err};
ghost use Rattle.std.specs.Iterator.{YieldsFirstBy, item_count};
ghost use Rattle.c25_meaning_language.specs.Line.{scan_from, stop_of};
ghost use Rattle.c25_text.specs.View.{piece_of, end_of, pieces_left, IsFirstToken};

use crate::lexemes::lexeme;
use c25_meaning_language::line::{Lexeme, LineFault, TokenKind};

/// A token, which borrows the text.
#[derive(Clone, Copy)]
pub struct Token<'a> {
    /// What the token is.
    pub kind: TokenKind,
    /// The place of the token's first byte in the line.
    pub start: usize,
    /// The token's text, which is the slice of the line there; quotes are part of it.
    pub text: &'a str,
}

/// The tokens of a text from a place on, up to the comment, the first fault or the end.
#[derive(Clone, Copy)]
pub struct Tokens<'a> {
    pub(crate) text: &'a str,
    pub(crate) at: usize,
}

impl<'a> Iterator for Tokens<'a> {
    type Item = Token<'a>;

    ghost next_gives = { YieldsFirstBy piece_of pieces_left };

    ghost remaining = { item_count pieces_left };

    fn next(&mut self) -> Option<Token<'a>> {
        let token = token_from(self.text, self.at)?;
        self.at = token.start + token.text.len();
        Some(token)
    }
}

/// The first token from a place on.
fn token_from(text: &str, from: usize) -> Option<Token<'_>>
    ensures bound { IfSome result (λ t. end_of t ≤ length text.now) }
    ensures value { MatchOption result ((scan_from from text.now).pieces ≡ [])
        (λ t. (scan_from from text.now).pieces ≡ piece_of t ∷ (scan_from (end_of t) text.now).pieces) }
{
    let (kind, start, end) = find_token(text.as_bytes(), from)?;
    Some(Token {
        kind,
        start,
        text: &text[start..end],
    })
}

/// The first token from a place on: what it is, where it begins, and where it ends.
fn find_token(text: &[u8], from: usize) -> Option<(TokenKind, usize, usize)>
    ensures { MatchOption result ((scan_from from text.now).pieces ≡ [])
        (λ t. IsFirstToken text.now from t.0 t.1 t.2) }
{
    let mut at = from;
    while at < text.len() {
        match lexeme(&text[at..]) {
            Lexeme::Blank => at += 1,
            Lexeme::Token(kind, length) => return Some((kind, at, at + length)),
            Lexeme::Comment => return None,
            Lexeme::Fault(_) => return None,
        }
    }
    None
}

/// Where the comment begins, or where the text ends, from a place on; or the first fault before that.
pub(crate) fn comment_from(text: &[u8], from: usize) -> Result<usize, LineFault>
    requires { from ≤ length text.now }
    ensures value { result ≡ stop_of (scan_from from text.now) }
    ensures bound { IfOk result (λ stop. stop ≤ length text.now) }
    ensures semicolon { IfOk result (λ stop. stop < length text.now → slice_index text.now stop ≡ 59) }
{
    let mut at = from;
    while at < text.len() {
        match lexeme(&text[at..]) {
            Lexeme::Blank => at += 1,
            Lexeme::Token(_, length) => at += length,
            Lexeme::Comment => return Ok(at),
            Lexeme::Fault(fault) => return Err(fault),
        }
    }
    Ok(at)
}
