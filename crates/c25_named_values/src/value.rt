//! The value of a text.

ghost use Rattle.std.specs.Prelude.{◌≡◌, List, ℕ};
ghost use Rattle.c25_expr.specs.Pieces.{pieces_of};
ghost use Rattle.c25_expr.specs.View.{tree_of};
ghost use Rattle.c25_meaning_common.specs.Results.{Meets, told};
ghost use Rattle.c25_meaning_language.specs.Value.{value_of};
ghost use Rattle.c25_named_values.specs.Known.{absolute, value_at};
ghost use Rattle.c25_named_values.specs.Values.{no_value, pieces_value, text_value, tree_in, tree_value, word_of};

use crate::names::{Names, symbols_of};
use crate::no_value::{NoValue, no_value};
use crate::tokens::{statement_of, tokens_in, tree_in};
use c25_expr::Symbols;
use c25_expr::laws::trees_are_read;
use c25_expr::tree::Expr;
use c25_expr::value::value;
use c25_meaning_common::failure::Failure;
use c25_text::tokens::Token;
use std::alloc::Global;

/// The 16 bits of a number from -32768 to 65535.
fn word_of(number: i32) -> Result<u16, NoValue>
    ensures { result ≡ word_of number }
{
    if number >= -32768 && number <= 65535 {
        Ok(number.rem_euclid(65536) as u16)
    } else {
        Err(NoValue::TooLarge)
    }
}

/// The value of an expression under symbols.
fn value_under(expr: &Expr, symbols: &Symbols) -> Result<u16, NoValue>
    ensures { result ≡ tree_value symbols.now (tree_of expr.now) }
{
    match value(expr, symbols) {
        Ok(value) => word_of(value.offset),
        Err(fault) => Err(no_value(fault)),
    }
}

/// The value of the expression that tokens form.
fn value_of_tokens<N: Names>(
    alloc: Global,
    names: &N,
    here: u16,
    tokens: &[Token<'_>],
) -> Result<u16, Failure<NoValue>>
    ensures { Meets (λ word. word) (pieces_value (N.address_of names.now) here (pieces_of tokens.now)) result }
{
    trees_are_read();
    let expr = tree_in(alloc, tokens)?;
    let symbols = symbols_of(alloc, names, here, tokens)?;
    match value_under(&expr, &symbols) {
        Ok(word) => Ok(word),
        Err(reason) => Err(Failure::Fault(reason)),
    }
}

/// The value of a text as an expression of the assembler (SPRU018, "Expressions"), in 16 bits: names stand for
/// their addresses, `AR0` to `AR7` and `PA0` to `PA15` for their numbers, and `$` for the address `here`.
/// `NoExpression` where it is no expression, `NoName` where a name stands for nothing, `DivideByZero`, and `TooLarge` where
/// a number on the way does not fit in 32 bits with its sign, or the value is not -32768 to 65535. `NoMemory` (9)
/// where memory runs out.
pub fn value_of<N: Names>(
    alloc: Global,
    names: &N,
    here: u16,
    text: &str,
) -> Result<u16, Failure<NoValue>>
    ensures { Meets (λ word. word) (text_value (N.address_of names.now) here text.now) result }
{
    let line = statement_of(alloc, text)?;
    let tokens = tokens_in(alloc, line.as_str())?;
    match value_of_tokens(alloc, names, here, tokens.as_slice()) {
        Ok(word) => Ok(word),
        Err(failure) => Err(failure),
    }
}
