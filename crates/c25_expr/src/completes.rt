//! Whether tokens complete an expression, found without its tree.

ghost use Rattle.std.specs.Prelude.{◌≡◌, ◌+◌, ◌-◌, ◌<◌, ◌≤◌, ◌^◌, Some, None, true, false, length, is_some, IfSome, if◌then◌else◌};
ghost use Rattle.c25_meaning_language.specs.Tree.{mark_of};
ghost use Rattle.c25_meaning_language.specs.Reading.{unary_of, binary_of, is_open, is_close};
ghost use Rattle.c25_text.specs.View.{piece_of};
ghost use Rattle.c25_expr.specs.Completes.{behind, behind_open, behind_follow, completes};
ghost use Rattle.c25_expr.specs.View.{marks_of};

use crate::signs::{binary_of, unary_of};
use c25_meaning_language::line::{Sign, TokenKind};
use c25_text::tokens::Token;

/// Whether an operand has to come, and how many parentheses are open, after one more token; None where the
/// token may not stand there.
fn behind(expects: bool, groups: usize, token: &Token<'_>) -> Option<(bool, usize)>
    requires { groups < 2 ^ 64 - 1 }
    ensures value { result ≡ behind expects groups (mark_of (piece_of token.now)) }
    ensures bound { IfSome result (λ p. p.1 ≤ groups + 1) }
{
    match token.kind {
        TokenKind::Quoted | TokenKind::DottedName => None,
        TokenKind::Name | TokenKind::Constant | TokenKind::Character => {
            behind_operand(expects, groups)
        }
        TokenKind::Sign(Sign::Dollar) => behind_operand(expects, groups),
        TokenKind::Sign(sign) => {
            if expects {
                behind_open(groups, sign)
            } else {
                behind_follow(groups, sign)
            }
        }
    }
}

fn behind_operand(expects: bool, groups: usize) -> Option<(bool, usize)>
    ensures { result ≡ (if expects then Some (false, groups) else None) }
{
    if expects { Some((false, groups)) } else { None }
}

fn behind_open(groups: usize, sign: Sign) -> Option<(bool, usize)>
    requires { groups < 2 ^ 64 - 1 }
    ensures { result ≡ behind_open groups (is_some (unary_of sign)) (is_open sign) }
{
    if unary_of(sign).is_some() {
        Some((true, groups))
    } else if sign == Sign::OpenParenthesis {
        Some((true, groups + 1))
    } else {
        None
    }
}

fn behind_follow(groups: usize, sign: Sign) -> Option<(bool, usize)>
    ensures { result ≡ behind_follow groups (is_some (binary_of sign)) (is_close sign) }
{
    if binary_of(sign).is_some() {
        Some((true, groups))
    } else if sign == Sign::CloseParenthesis && groups > 0 {
        Some((false, groups - 1))
    } else {
        None
    }
}

/// Whether tokens complete an expression of which the front was read: `expects` says whether an operand has
/// to come, `groups` how many parentheses are open.
pub(crate) fn completes(tokens: &[Token<'_>], expects: bool, groups: usize) -> bool
    requires { groups + length tokens.now < 2 ^ 64 }
    ensures { result ≡ completes (marks_of tokens.now) expects groups }
{
    let mut expects = expects;
    let mut groups = groups;
    for token in tokens {
        match behind(expects, groups, token) {
            None => return false,
            Some((next_expects, next_open)) => {
                expects = next_expects;
                groups = next_open;
            }
        }
    }
    !expects && groups == 0
}
