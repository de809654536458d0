//! Reading the expressions of a line's operands.

ghost use Rattle.std.specs.Prelude.{◌≡◌, IfOk};
ghost use Rattle.c25_meaning_assembly.specs.StatementLine.{no_trees, with_operand, all_trees, trees_in};
ghost use Rattle.c25_expr.specs.Pieces.{pieces_of, operands_view};
ghost use Rattle.c25_meaning_common.specs.Results.{Meets};
ghost use Rattle.c25_statements.specs.Exprs.{exprs_in};
ghost use Rattle.c25_statements.specs.View.{trees_of, so_far};

use crate::statement::Exprs;
use c25_expr::expression_reader::read_expr;
use c25_expr::operands::written_of;
use c25_expr::tree::Expr;
use c25_meaning_common::failure::Failure;
use c25_meaning_common::no_memory::NoMemory;
use c25_meaning_language::expression::ExpressionFault;
use c25_meaning_language::statement::{FaultKind, Written};
use c25_text::tokens::Token;
use std::alloc::Global;

/// The expressions of the operands so far, and whether one of the operands was nested too deep.
#[derive(Drop)]
struct Trees {
    exprs: Vec<Expr>,
    deep: bool,
}

impl Trees {
    /// No expressions, with room for as many as there are operands.
    fn new(alloc: Global, room: usize) -> Result<Trees, NoMemory>
        ensures { IfOk result (λ t. so_far t ≡ no_trees) }
    {
        Ok(Trees {
            exprs: Vec::with_capacity(alloc, room)?,
            deep: false,
        })
    }

    /// Takes one operand more; one that is not written as an expression is passed over.
    #[tactic(auto, unfolding(c25_meaning_assembly::specs::StatementLine::with_operand))]
    fn add(&mut self, alloc: Global, tokens: &[Token<'_>]) -> Result<(), Failure<FaultKind>>
        ensures { Meets (λ _. so_far self.new) (with_operand (so_far self.old) (pieces_of tokens.now)) result }
    {
        if written_of(tokens) != Written::Expression {
            return Ok(());
        }
        match read_expr(alloc, tokens) {
            Ok(expr) => self.exprs.push(expr)?,
            Err(Failure::Fault(ExpressionFault::TooDeep)) => self.deep = true,
            Err(Failure::Fault(ExpressionFault::BadExpression)) => {
                return Err(Failure::Fault(FaultKind::BadExpression));
            }
            Err(Failure::NoMemory(error)) => return Err(error.into()),
        }
        Ok(())
    }

    /// All expressions, or `TooDeep` (21) if one was nested too deep. An operand that is no expression (20)
    /// has been reported before, by `add`.
    fn finish(self) -> Result<Exprs, Failure<FaultKind>>
        ensures { Meets (λ v. trees_of (exprs_in v)) (all_trees (so_far self)) result }
    {
        let Trees { exprs, deep } = self;
        if deep {
            Err(Failure::Fault(FaultKind::TooDeep))
        } else {
            Ok(Exprs::of(exprs))
        }
    }
}

/// The expressions of those operands that are written as expressions.
pub(crate) fn exprs_of(
    alloc: Global,
    operands: &[&[Token<'_>]],
) -> Result<Exprs, Failure<FaultKind>>
    ensures { Meets (λ v. trees_of (exprs_in v)) (trees_in (operands_view operands.now)) result }
{
    let mut trees = Trees::new(alloc, operands.len())?;
    for operand in operands {
        trees.add(alloc, operand)?;
    }
    trees.finish()
}
