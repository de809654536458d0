//! The operands of the assembler's directives.

ghost use Rattle.std.specs.Prelude.{◌≡◌};
ghost use Rattle.c25_meaning_language.specs.DirectiveOperands as acts;
ghost use Rattle.c25_meaning_assembly.specs.AssemblyLine as says;
ghost use Rattle.c25_meaning_common.specs.Results.{Meets};
ghost use Rattle.c25_expr.specs.Pieces.{pieces_of, operands_view};
ghost use Rattle.c25_expr.specs.View.{tree_of};
ghost use Rattle.c25_statements.specs.Exprs.{exprs_in};
ghost use Rattle.c25_statements.specs.View.{texts_of, trees_of, count_tree, room_in};

use crate::statement::{Exprs, Room};
use crate::trees::exprs_of;
use c25_expr::directive_operands::{name_in, tree_in};
use c25_expr::operands::written_of;
use c25_expr::tree::Expr;
use c25_meaning_common::failure::Failure;
use c25_meaning_language::statement::{FaultKind, Written};
use c25_text::tokens::Token;
use std::alloc::Global;

/// The expression of an operand. `OperandForm` (52) where the operand is not written as an expression; a
/// fault of the expression itself is returned inside, since it is reported later.
pub(crate) fn later_in(
    alloc: Global,
    operand: &[Token<'_>],
) -> Result<Result<Expr, FaultKind>, Failure<FaultKind>>
    ensures { Meets count_tree (says.later_in (pieces_of operand.now)) result }
{
    match written_of(operand) {
        Written::Expression => match tree_in(alloc, operand) {
            Ok(expr) => Ok(Ok(expr)),
            Err(Failure::Fault(fault)) => Ok(Err(fault)),
            Err(Failure::NoMemory(error)) => Err(Failure::NoMemory(error)),
        },
        _ => Err(Failure::Fault(FaultKind::OperandForm)),
    }
}

/// Room of a count alone, without a flag.
pub(crate) fn alone(count: Result<Expr, FaultKind>) -> Result<Room, FaultKind>
    ensures { room_in result ≡ says.alone (count_tree count) }
{
    match count {
        Ok(count) => Ok(Room { count, flag: None }),
        Err(fault) => Err(fault),
    }
}

/// Room of a count and a flag: `BadExpression` (20) of either comes before `TooDeep` (21).
pub(crate) fn flagged(
    count: Result<Expr, FaultKind>,
    flag: Result<Expr, FaultKind>,
) -> Result<Room, FaultKind>
    ensures { room_in result ≡ says.flagged (count_tree count) (count_tree flag) }
{
    match (count, flag) {
        (Ok(count), Ok(flag)) => Ok(Room {
            count,
            flag: Some(flag),
        }),
        (Ok(_), Err(fault)) => Err(fault),
        (Err(FaultKind::TooDeep), Err(fault)) => Err(fault),
        (Err(fault), _) => Err(fault),
    }
}

/// Checks that there is an operand; else `OperandCount` (51).
pub(crate) fn some(operands: &[&[Token<'_>]]) -> Result<(), FaultKind>
    ensures { result ≡ says.some (operands_view operands.now) }
{
    match operands {
        [] => Err(FaultKind::OperandCount),
        _ => Ok(()),
    }
}

/// Checks that each operand is written as an expression, and not as a string or an indirect form; else
/// `OperandForm` (52).
fn all_expressions(operands: &[&[Token<'_>]]) -> Result<(), FaultKind>
    ensures { result ≡ says.all_expressions (operands_view operands.now) }
{
    for operand in operands {
        if written_of(operand) != Written::Expression {
            return Err(FaultKind::OperandForm);
        }
    }
    Ok(())
}

/// The expressions of operands, of which there is at least one; else 51, then 52 where one is written as
/// something else, then 20 or 21.
pub(crate) fn expressions_in(
    alloc: Global,
    operands: &[&[Token<'_>]],
) -> Result<Exprs, Failure<FaultKind>>
    ensures { Meets (λ v. trees_of (exprs_in v)) (says.expressions_in (operands_view operands.now)) result }
{
    match some(operands) {
        Ok(()) => match all_expressions(operands) {
            Ok(()) => exprs_of(alloc, operands),
            Err(fault) => Err(Failure::Fault(fault)),
        },
        Err(fault) => Err(Failure::Fault(fault)),
    }
}

/// The names that operands are; `OperandForm` (52) where one is not a name.
fn names_in<'a>(
    alloc: Global,
    operands: &[&[Token<'a>]],
) -> Result<Vec<&'a str>, Failure<FaultKind>>
    ensures { Meets (λ v. texts_of v.items) (acts.names_in (operands_view operands.now)) result }
{
    let mut names = Vec::new(alloc);
    for operand in operands {
        match name_in(operand) {
            Ok(name) => names.push(name)?,
            Err(fault) => return Err(Failure::Fault(fault)),
        }
    }
    Ok(names)
}

/// The names that operands are, of which there is at least one; else 51, then 52 where one is not a name.
pub(crate) fn some_names<'a>(
    alloc: Global,
    operands: &[&[Token<'a>]],
) -> Result<Vec<&'a str>, Failure<FaultKind>>
    ensures { Meets (λ v. texts_of v.items) (says.some_names (operands_view operands.now)) result }
{
    match some(operands) {
        Ok(()) => names_in(alloc, operands),
        Err(fault) => Err(Failure::Fault(fault)),
    }
}
