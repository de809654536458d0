//! Reading an expression from tokens.

ghost use Rattle.std.specs.Prelude.{◌<◌, ◌≤◌, IfOk, IsErrOf, map};
ghost use Rattle.c25_meaning_language.specs.Reading.{tree_in};
ghost use Rattle.c25_meaning_common.specs.Results.{Meets};
ghost use Rattle.c25_meaning_language.specs.Tree.{Tree, IsTreeOf, depth, mark_of};
ghost use Rattle.c25_expr.specs.Pieces.{pieces_of};
ghost use Rattle.c25_expr.specs.View.{tree_of, marks_of};

use crate::builder::Builder;
use crate::tree::Expr;
use c25_meaning_common::failure::Failure;
use c25_meaning_language::expression::ExpressionFault;
use c25_text::tokens::Token;
use std::alloc::Global;

/// How deep parentheses and unary operators may nest.
const MOST_NESTED: usize = 64;

/// The expression that tokens form (SPRU018, "Expressions"); it owns its names and borrows nothing.
/// `BadExpression` (20) where the tokens form none, however deep they nest; `TooDeep` (21) where the
/// parentheses and unary operators of their expression nest more than 64 deep. `NoMemory` (9) where memory
/// runs out.
pub fn read_expr(alloc: Global, tokens: &[Token<'_>]) -> Result<Expr, Failure<ExpressionFault>>
    ensures ok { IfOk result (λ e. IsTreeOf (marks_of tokens.now) (tree_of e)
        × (depth (tree_of e) ≤ 64)) }
    // No tree has these tokens.
    ensures bad { IsErrOf result (Failure.Fault ExpressionFault.BadExpression) → (e : Tree)
        → ¬ IsTreeOf (marks_of tokens.now) e }
    // The tree of these tokens is too deep.
    ensures deep { IsErrOf result (Failure.Fault ExpressionFault.TooDeep) → (e : Tree)
        × IsTreeOf (marks_of tokens.now) e × (64 < depth e) }
    // The result is that of the function `tree_in` of the definition, too.
    ensures told { Meets tree_of (tree_in (map mark_of (pieces_of tokens.now))) result }
{
    let mut builder = Builder::new(alloc, tokens.len())?;
    for (i, token) in tokens.iter().enumerate() {
        builder.take(token)?;
        if builder.nesting() > MOST_NESTED {
            return Err(Failure::Fault(builder.refusal(&tokens[i + 1..])));
        }
    }
    builder.finish()
}
