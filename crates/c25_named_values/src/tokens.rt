//! The tokens and the expression of a text.

ghost use Rattle.std.specs.Prelude.{◌≡◌, ◌++◌, codes, IfOk, string_bytes};
ghost use Rattle.c25_expr.specs.Pieces.{pieces_of};
ghost use Rattle.c25_expr.specs.View.{tree_of};
ghost use Rattle.c25_meaning_common.specs.Results.{Meets};
ghost use Rattle.c25_named_values.specs.Values.{pieces_in, tree_in};

use crate::no_value::NoValue;
use c25_expr::directive_operands::expression_in;
use c25_expr::operands::tokens_of;
use c25_expr::tree::Expr;
use c25_meaning_common::failure::Failure;
use c25_meaning_common::no_memory::NoMemory;
use c25_text::split_line;
use c25_text::tokens::Token;
use c25_texts::appending::push_texts;
use std::alloc::Global;

/// A text as the operand of a statement.
pub(crate) fn statement_of(alloc: Global, text: &str) -> Result<String, NoMemory>
    ensures { IfOk result (λ line. string_bytes line ≡ codes " print " ++ text.now) }
{
    let mut line = String::new(alloc);
    push_texts(&mut line, &[" print ", text])?;
    Ok(line)
}

/// The tokens of the operands of a statement.
pub(crate) fn tokens_in<'a>(
    alloc: Global,
    line: &'a str,
) -> Result<Vec<Token<'a>>, Failure<NoValue>>
    ensures { Meets (λ tokens. pieces_of tokens.items) (pieces_in line.entry.now) result }
{
    match split_line(line) {
        Ok(line) => Ok(tokens_of(alloc, &line)?),
        Err(_) => Err(Failure::Fault(NoValue::NoExpression)),
    }
}

/// The expression that tokens form.
pub(crate) fn tree_in(alloc: Global, tokens: &[Token<'_>]) -> Result<Expr, Failure<NoValue>>
    ensures { Meets tree_of (tree_in (pieces_of tokens.now)) result }
{
    match expression_in(alloc, tokens) {
        Ok(expr) => Ok(expr),
        Err(Failure::NoMemory(error)) => Err(Failure::NoMemory(error)),
        Err(Failure::Fault(_)) => Err(Failure::Fault(NoValue::NoExpression)),
    }
}
