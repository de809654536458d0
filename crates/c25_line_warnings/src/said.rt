//! What a line says, as far as warnings need it.

ghost use Rattle.std.specs.Prelude.{◌≡◌, IfOk, option_map};
ghost use Rattle.c25_expr.specs.Pieces.{pieces_of};
ghost use Rattle.c25_meaning_language.specs.DirectiveOperands as directive;
ghost use Rattle.c25_meaning_language.specs.Forms as forms;
ghost use Rattle.c25_meaning_language.specs.Operands as operands;
ghost use Rattle.c25_line_warnings.specs.Said.{any_name, label_of, only_from, only_name, pieces_in, spelling_in};

use c25_expr::operands::{tokens_of, written_of};
use c25_meaning_common::no_memory::NoMemory;
use c25_meaning_instructions::mnemonic::Spelling;
use c25_meaning_language::line::TokenKind;
use c25_meaning_language::statement::Written;
use c25_statements::spelled;
use c25_text::line::{first_word, is_comment_line, label_in, split_line};
use c25_text::tokens::Token;
use std::alloc::Global;

/// The label of a line, if it has one.
#[tactic(auto, unfolding(crate::specs::Said::label_of))]
pub fn label_of(text: &str) -> Option<&str>
    ensures { option_map (λ t. t.now) result ≡ label_of text.now }
{
    if is_comment_line(text.as_bytes()) {
        return None;
    }
    match label_in(text) {
        Ok(label) => label,
        Err(_) => None,
    }
}

/// The instruction that a line spells, if it spells one.
#[tactic(auto, unfolding(crate::specs::Said::spelling_in))]
pub fn spelling_of(text: &str) -> Option<Spelling>
    ensures { result ≡ spelling_in text.now }
{
    match first_word(text) {
        Some(word) => match spelled(word) {
            Ok(spelling) => Some(spelling),
            Err(_) => None,
        },
        None => None,
    }
}

/// The tokens of a line's operands; none of a line whose text is wrong.
#[tactic(auto, unfolding(crate::specs::Said::pieces_in))]
pub fn tokens_in(alloc: Global, text: &str) -> Result<Vec<Token<'_>>, NoMemory>
    ensures { IfOk result (λ tokens. pieces_of tokens.items ≡ pieces_in text.now) }
{
    match split_line(text) {
        Ok(line) => tokens_of(alloc, &line),
        Err(_) => Ok(Vec::new(alloc)),
    }
}

/// Whether a token is a name.
pub fn is_name(token: &Token<'_>) -> bool
    ensures { result ≡ directive.is_name token.now.kind }
{
    match token.kind {
        TokenKind::Name => true,
        _ => false,
    }
}

/// Whether a name is among tokens.
fn has_name(tokens: &[Token<'_>]) -> bool
    ensures { result ≡ any_name (pieces_of tokens.now) }
{
    tokens.iter().any(|token| is_name(token))
}

/// The name among tokens, where there is just one.
fn only_from<'a>(tokens: &[Token<'a>]) -> Option<&'a str>
    ensures { option_map (λ t. t.now) result ≡ only_from (pieces_of tokens.now) }
{
    match tokens {
        [] => None,
        [token, rest @ ..] if is_name(token) => {
            if has_name(rest) {
                None
            } else {
                Some(token.text)
            }
        }
        [_, rest @ ..] => only_from(rest),
    }
}

/// Whether an operand is an expression, by its tokens.
fn is_expression(operand: &[Token<'_>]) -> bool
    ensures { result ≡ forms.is_expression (operands.written_of (pieces_of operand.now)) }
{
    match written_of(operand) {
        Written::Expression => true,
        _ => false,
    }
}

/// The name in an operand that is an expression with no other name.
#[tactic(auto, unfolding(crate::specs::Said::only_name))]
pub fn only_name<'a>(operand: &[Token<'a>]) -> Option<&'a str>
    ensures { option_map (λ t. t.now) result ≡ only_name (pieces_of operand.now) }
{
    if is_expression(operand) {
        only_from(operand)
    } else {
        None
    }
}
