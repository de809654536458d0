//! The tokens and operands of a line, and what each operand is by its tokens.

ghost use Rattle.std.specs.Prelude.{◌≡◌, IfOk, map};
ghost use Rattle.c25_meaning_language.specs.Operands.{is_comma, operands_of, is_star, is_zero, is_br0, by_one, by_ar0, by_reverse, by_two, change_behind, indirect, is_quoted, is_string, written_by, written_of};
ghost use Rattle.c25_text.specs.View.{piece_of, parts_of};
ghost use Rattle.c25_expr.specs.Pieces.{pieces_of};

use c25_meaning_common::no_memory::NoMemory;
use c25_meaning_instructions::insn::Change;
use c25_meaning_language::line::{Sign, TokenKind};
use c25_meaning_language::statement::Written;
use c25_text::line::Line;
use c25_text::tokens::Token;
use std::alloc::Global;

/// The tokens of a line's operands, in order, up to its comment. They borrow the line. `NoMemory` (9) where
/// memory runs out.
pub fn tokens_of<'a>(alloc: Global, line: &Line<'a>) -> Result<Vec<Token<'a>>, NoMemory>
    ensures { IfOk result (λ v. pieces_of v.items ≡ (parts_of line.now).pieces) }
{
    line.tokens().collect(alloc).map_err(NoMemory::from)
}

fn is_comma(kind: TokenKind) -> bool
    ensures { result ≡ is_comma kind }
{
    match kind {
        TokenKind::Sign(Sign::Comma) => true,
        _ => false,
    }
}

/// What stands between the commas of a line's tokens. Where there are no tokens there is no operand; else an
/// empty operand counts. `NoMemory` (9) where memory runs out.
pub fn operands_of<'a, 'b>(
    alloc: Global,
    tokens: &'b [Token<'a>],
) -> Result<Vec<&'b [Token<'a>]>, NoMemory>
    ensures { IfOk result (λ v. map (λ x. pieces_of x.now) v.items ≡ operands_of (pieces_of tokens.now)) }
{
    if tokens.is_empty() {
        return Ok(Vec::new(alloc));
    }
    Ok(tokens.split(|token| is_comma(token.kind)).collect(alloc)?)
}

fn is_star(kind: TokenKind) -> bool
    ensures { result ≡ is_star kind }
{
    match kind {
        TokenKind::Sign(Sign::Star) => true,
        _ => false,
    }
}

/// Whether a token is the constant `0`, written so.
fn is_zero(token: &Token<'_>) -> bool
    ensures { result ≡ is_zero token.now.kind token.now.text.now }
{
    match token.kind {
        TokenKind::Constant => token.text == "0",
        _ => false,
    }
}

/// Whether a token is the name `BR0`, its letters in either case.
fn is_br0(token: &Token<'_>) -> bool
    ensures { result ≡ is_br0 token.now.kind token.now.text.now }
{
    match token.kind {
        TokenKind::Name => token.text.eq_ignore_ascii_case("BR0"),
        _ => false,
    }
}

fn by_one(sign: TokenKind) -> Option<Change>
    ensures { result ≡ by_one sign }
{
    match sign {
        TokenKind::Sign(Sign::Minus) => Some(Change::Decrement),
        TokenKind::Sign(Sign::Plus) => Some(Change::Increment),
        _ => None,
    }
}

fn by_ar0(sign: TokenKind) -> Option<Change>
    ensures { result ≡ by_ar0 sign }
{
    match sign {
        TokenKind::Sign(Sign::Minus) => Some(Change::Subtract),
        TokenKind::Sign(Sign::Plus) => Some(Change::Add),
        _ => None,
    }
}

fn by_reverse(sign: TokenKind) -> Option<Change>
    ensures { result ≡ by_reverse sign }
{
    match sign {
        TokenKind::Sign(Sign::Minus) => Some(Change::ReverseSubtract),
        TokenKind::Sign(Sign::Plus) => Some(Change::ReverseAdd),
        _ => None,
    }
}

fn by_two(token: &Token<'_>, sign: TokenKind) -> Option<Change>
    ensures { result ≡ by_two (piece_of token.now) sign }
{
    if is_zero(token) {
        by_ar0(sign)
    } else if is_br0(token) {
        by_reverse(sign)
    } else {
        None
    }
}

/// The change of the auxiliary register that the tokens after `*` ask for.
fn change_behind(tokens: &[Token<'_>]) -> Option<Change>
    ensures { result ≡ change_behind (pieces_of tokens.now) }
{
    match tokens {
        [] => Some(Change::Keep),
        [sign] => by_one(sign.kind),
        [token, sign] => by_two(token, sign.kind),
        _ => None,
    }
}

/// The change of the auxiliary register, if the tokens are one of the seven indirect forms.
fn indirect(tokens: &[Token<'_>]) -> Option<Change>
    ensures { result ≡ indirect (pieces_of tokens.now) }
{
    match tokens {
        [star, rest @ ..] if is_star(star.kind) => change_behind(rest),
        _ => None,
    }
}

fn is_quoted(kind: TokenKind) -> bool
    ensures { result ≡ is_quoted kind }
{
    match kind {
        TokenKind::Quoted => true,
        _ => false,
    }
}

fn is_string(tokens: &[Token<'_>]) -> bool
    ensures { result ≡ is_string (pieces_of tokens.now) }
{
    match tokens {
        [token] => is_quoted(token.kind),
        _ => false,
    }
}

/// What an operand is by its tokens: one of the seven indirect forms, one string, or else an expression,
/// whether or not the tokens are a valid one.
pub fn written_of(tokens: &[Token<'_>]) -> Written
    ensures { result ≡ written_of (pieces_of tokens.now) }
{
    match indirect(tokens) {
        Some(change) => Written::Indirect(change),
        None if is_string(tokens) => Written::Quoted,
        None => Written::Expression,
    }
}
