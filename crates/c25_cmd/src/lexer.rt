//! The tokens of a text.

ghost use Rattle.std.specs.Prelude.{◌≡◌, [], ◌++◌, ◌+◌, ◌^◌, ◌<◌, length, IfOk, OnOk, List};
ghost use Rattle.std.specs.Str.{IsUtf8};
ghost use Rattle.c25_meaning_linking.specs.CommandTokens as lexed;
ghost use Rattle.c25_cmd.specs.View.{token_of, tokens_of, option_tokens};

use crate::bytes::{behind, front, lexeme};
use crate::token::Token;
use crate::words::word_kind;
use c25_meaning_linking::command_token::{Kind, Lexeme};
use std::alloc::{AllocError, Global};

/// Bytes as the text that they are.
pub(crate) fn text_of(bytes: &[u8]) -> &str
    requires { IsUtf8 bytes.now }
    ensures { result.now ≡ bytes.now }
{
    match str::from_utf8(bytes) {
        Ok(text) => text,
        Err(_) => unreachable!(),
    }
}

fn word_token(alloc: Global, place: usize, word: &[u8]) -> Result<Token, AllocError>
    requires { IsUtf8 word.now }
    ensures { IfOk result (λ t. token_of t ≡ record { kind = lexed.word_kind word.now; place = place; text = word.now }) }
{
    let text = text_of(word);
    Ok(Token {
        kind: word_kind(alloc, text)?,
        place,
        text: String::from_str(alloc, text)?,
    })
}

/// A token other than a word, which has no text.
fn bare_token(alloc: Global, kind: Kind, place: usize) -> Token
    ensures { token_of result ≡ record { kind = kind; place = place; text = [] } }
{
    Token {
        kind,
        place,
        text: String::new(alloc),
    }
}

/// The token of the lexeme at the front of a text; `None` where the lexeme is a blank or a comment.
fn token_at(
    alloc: Global,
    piece: Lexeme,
    place: usize,
    text: &[u8],
) -> Result<Option<Token>, AllocError>
    requires piece { piece ≡ lexed.lexeme text.now }
    requires place { place + length text.now < 2 ^ 64 }
    ensures { IfOk result (λ t. (later : List lexed.Token) → lexed.before piece place text.now later ≡ option_tokens t ++ later) }
{
    match piece {
        Lexeme::Word(length) => Ok(Some(word_token(alloc, place, front(text, length))?)),
        Lexeme::Sign(sign) => Ok(Some(bare_token(alloc, Kind::Sign(sign), place))),
        Lexeme::Stray => Ok(Some(bare_token(alloc, Kind::Stray, place))),
        Lexeme::OpenComment => Ok(Some(bare_token(alloc, Kind::Stray, place + text.len()))),
        _ => Ok(None),
    }
}

fn push_found(tokens: &mut Vec<Token>, found: Option<Token>) -> Result<(), AllocError>
    ensures { OnOk result (tokens_of tokens.new.items ≡ tokens_of tokens.old.items ++ option_tokens found) }
{
    if let Some(token) = found {
        tokens.push(token)?;
    }
    Ok(())
}

/// How many bytes a lexeme has after its first.
fn covered(piece: Lexeme, text: &[u8]) -> usize
    ensures { result ≡ lexed.covered piece text.now }
{
    match piece {
        Lexeme::Word(length) => length.saturating_sub(1),
        Lexeme::Comment(length) => length.saturating_sub(1),
        Lexeme::OpenComment => text.len(),
        _ => 0,
    }
}

/// The tokens of a text, the last of which is its end.
pub(crate) fn tokens(alloc: Global, text: &[u8]) -> Result<Vec<Token>, AllocError>
    ensures { IfOk result (λ v. tokens_of v.items ≡ lexed.tokens text.now) }
{
    let mut tokens = Vec::new(alloc);
    let mut at = 0;
    while at < text.len() {
        let rest = behind(text, at);
        let piece = lexeme(rest);
        let found = token_at(alloc, piece, at, rest)?;
        push_found(&mut tokens, found)?;
        at = at + 1 + covered(piece, behind(rest, 1));
    }
    tokens.push(bare_token(alloc, Kind::End, at))?;
    Ok(tokens)
}
