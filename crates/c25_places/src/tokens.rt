//! The parts of tokens and operands.

ghost use Rattle.std.specs.Prelude.{◌≡◌, ◌<◌, ◌-◌, ◌^◌};
ghost use Rattle.std.specs.Option.{option_map};
ghost use Rattle.c25_meaning_language.specs.Operands as operands;
ghost use Rattle.c25_text.specs.View.{end_of, piece_of};
ghost use Rattle.c25_expr.specs.Pieces.{pieces_of};
ghost use Rattle.c25_places.specs.Refused.{AreWithin, part_of, piece_part, comma_at, operand_part};

use crate::part::Part;
use c25_meaning_language::line::{Sign, TokenKind};
use c25_text::tokens::Token;

/// The part of a line that tokens cover; None where there are none.
pub(crate) fn part_of(tokens: &[Token<'_>]) -> Option<Part>
    requires { AreWithin 0 (2 ^ 64 - 1) (pieces_of tokens.now) }
    ensures { result ≡ part_of (pieces_of tokens.now) }
{
    match (tokens.first(), tokens.last()) {
        (Some(first), Some(last)) => Some(Part {
            start: first.start,
            end: last.start + last.text.len(),
        }),
        _ => None,
    }
}

pub(crate) fn token_part(token: &Token<'_>) -> Part
    requires { end_of token.now < 2 ^ 64 }
    ensures { result ≡ piece_part (piece_of token.now) }
{
    Part {
        start: token.start,
        end: token.start + token.text.len(),
    }
}

fn is_comma(kind: TokenKind) -> bool
    ensures { result ≡ operands.is_comma kind }
{
    match kind {
        TokenKind::Sign(Sign::Comma) => true,
        _ => false,
    }
}

/// The part of the comma of this number among tokens, counted from 0.
fn comma_part(tokens: &[Token<'_>], index: usize) -> Option<Part>
    requires { AreWithin 0 (2 ^ 64 - 1) (pieces_of tokens.now) }
    ensures { result ≡ option_map piece_part (comma_at index (pieces_of tokens.now)) }
{
    let mut left = index;
    for token in tokens {
        if is_comma(token.kind) {
            if left == 0 {
                return Some(token_part(token));
            }
            left -= 1;
        }
    }
    None
}

/// The part of an operand by its index among those of a line: its tokens; where it has none, the comma after
/// it, or before it.
pub(crate) fn operand_part(
    tokens: &[Token<'_>],
    index: usize,
    operand: &[Token<'_>],
) -> Option<Part>
    requires tokens { AreWithin 0 (2 ^ 64 - 1) (pieces_of tokens.now) }
    requires operand { AreWithin 0 (2 ^ 64 - 1) (pieces_of operand.now) }
    ensures { result ≡ operand_part (pieces_of tokens.now) index (pieces_of operand.now) }
{
    if let Some(part) = part_of(operand) {
        return Some(part);
    }
    if let Some(part) = comma_part(tokens, index) {
        return Some(part);
    }
    comma_part(tokens, index.saturating_sub(1))
}
