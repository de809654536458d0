//! Operands of directives: expressions, names and strings.

ghost use Rattle.std.specs.Prelude.{◌≡◌, map};
ghost use Rattle.std.specs.String.{string_bytes};
ghost use Rattle.c25_meaning_language.specs.DirectiveOperands.{expression_in, is_name, name_in, string_in};
ghost use Rattle.c25_meaning_language.specs.Operands.{is_quoted, is_string};
ghost use Rattle.c25_meaning_language.specs.Reading.{tree_in};
ghost use Rattle.c25_meaning_common.specs.Results.{Meets, told};
ghost use Rattle.c25_meaning_language.specs.Statement.{expression_fault};
ghost use Rattle.c25_meaning_language.specs.Tree.{mark_of};
ghost use Rattle.c25_expr.specs.Pieces.{pieces_of};
ghost use Rattle.c25_expr.specs.View.{tree_of};
ghost use Rattle.c25_expr.specs.OperandTexts.{text_of};

use crate::expression_reader::read_expr;
use crate::failure::expression_fault;
use crate::operands::written_of;
use crate::tree::Expr;
use c25_meaning_common::failure::Failure;
use c25_meaning_language::line::TokenKind;
use c25_meaning_language::statement::{FaultKind, Written};
use c25_substitution::strings::string_text;
use c25_text::tokens::Token;
use std::alloc::Global;

/// The expression that tokens form (SPRU018, "Expressions"): `BadExpression` (20) where they form none,
/// `TooDeep` (21) where its parentheses and unary operators nest more than 64 deep. `NoMemory` (9) where
/// memory runs out.
pub fn tree_in(alloc: Global, tokens: &[Token<'_>]) -> Result<Expr, Failure<FaultKind>>
    ensures { Meets tree_of (told expression_fault (tree_in (map mark_of (pieces_of tokens.now)))) result }
{
    match read_expr(alloc, tokens) {
        Ok(expr) => Ok(expr),
        Err(Failure::NoMemory(error)) => Err(Failure::NoMemory(error)),
        Err(Failure::Fault(fault)) => Err(Failure::Fault(expression_fault(fault))),
    }
}

/// The expression that an operand is: `OperandForm` (52) where the operand is an indirect form or a string,
/// else `BadExpression` (20) or `TooDeep` (21) as for `tree_in`. `NoMemory` (9) where memory runs out.
pub fn expression_in(alloc: Global, operand: &[Token<'_>]) -> Result<Expr, Failure<FaultKind>>
    ensures { Meets tree_of (expression_in (pieces_of operand.now)) result }
{
    match written_of(operand) {
        Written::Expression => tree_in(alloc, operand),
        _ => Err(Failure::Fault(FaultKind::OperandForm)),
    }
}

fn is_name(kind: TokenKind) -> bool
    ensures { result ≡ is_name kind }
{
    match kind {
        TokenKind::Name => true,
        _ => false,
    }
}

/// The text of an operand that is one name; `OperandForm` (52) where it is something else.
pub fn name_in<'a>(operand: &[Token<'a>]) -> Result<&'a str, FaultKind>
    ensures { text_of result ≡ name_in (pieces_of operand.now) }
{
    match operand {
        [token] if is_name(token.kind) => Ok(token.text),
        _ => Err(FaultKind::OperandForm),
    }
}

fn is_quoted(kind: TokenKind) -> bool
    ensures { result ≡ is_quoted kind }
{
    match kind {
        TokenKind::Quoted => true,
        _ => false,
    }
}

/// Whether an operand is one string (SPRU018, "Character Strings").
pub fn is_string(operand: &[Token<'_>]) -> bool
    ensures { result ≡ is_string (pieces_of operand.now) }
{
    match operand {
        [token] => is_quoted(token.kind),
        _ => false,
    }
}

/// The text of an operand that is one string, without its quotes, and with each two quotes within it as one;
/// `OperandForm` (52) where the operand is something else. `NoMemory` (9) where memory runs out.
pub fn string_in(alloc: Global, operand: &[Token<'_>]) -> Result<String, Failure<FaultKind>>
    ensures { Meets string_bytes (string_in (pieces_of operand.now)) result }
{
    match operand {
        [token] if is_quoted(token.kind) => Ok(string_text(alloc, token.text)?),
        _ => Err(Failure::Fault(FaultKind::OperandForm)),
    }
}
