//! Operands of the directives of expansion: names, and at most one expression.

ghost use Rattle.std.specs.Prelude.{Option};
ghost use Rattle.std.specs.String.{string_bytes};
ghost use Rattle.std.specs.Option.{option_map};
ghost use Rattle.c25_meaning_language.specs.Tree.{Tree};
ghost use Rattle.c25_meaning_expansion.specs.Acts as acts;
ghost use Rattle.c25_meaning_language.specs.DirectiveOperands.{name_in, names_in};
ghost use Rattle.c25_meaning_expansion.specs.Acts.{with_condition, with_option};
ghost use Rattle.c25_expr.specs.Pieces.{pieces_of, operands_view};
ghost use Rattle.c25_meaning_common.specs.Results.{Meets};
ghost use Rattle.c25_expr.specs.View.{tree_of};
ghost use Rattle.c25_macro.specs.Acts.{bytes_of_names};

use c25_expr::directive_operands::expression_in;
use c25_expr::tree::Expr;
use c25_meaning_common::failure::Failure;
use c25_meaning_language::statement::FaultKind;
use c25_text::tokens::Token;
use std::alloc::Global;

/// An operand that is one name.
pub(crate) fn name_in(alloc: Global, operand: &[Token<'_>]) -> Result<String, Failure<FaultKind>>
    ensures { Meets string_bytes (name_in (pieces_of operand.now)) result }
{
    match c25_expr::directive_operands::name_in(operand) {
        Ok(name) => Ok(String::from_str(alloc, name)?),
        Err(fault) => Err(Failure::Fault(fault)),
    }
}

/// Operands that are names.
pub(crate) fn names_in(
    alloc: Global,
    operands: &[&[Token<'_>]],
) -> Result<Vec<String>, Failure<FaultKind>>
    ensures { Meets (λ v. bytes_of_names v.items) (names_in (operands_view operands.now)) result }
{
    let mut names = Vec::new(alloc);
    for operand in operands {
        names.push(name_in(alloc, operand)?)?;
    }
    Ok(names)
}

/// One operand, which is an expression. The contract holds for any directive that takes it.
pub(crate) fn condition_in(
    alloc: Global,
    operands: &[&[Token<'_>]],
) -> Result<Expr, Failure<FaultKind>>
    ensures { (act : Tree → acts.ExpansionAct)
        → Meets (λ e. act (tree_of e)) (with_condition act (operands_view operands.now)) result }
{
    match operands {
        [operand] => expression_in(alloc, operand),
        _ => Err(Failure::Fault(FaultKind::OperandCount)),
    }
}

/// No operand, or one that is an expression. The contract holds for any directive that takes it.
pub(crate) fn option_in(
    alloc: Global,
    operands: &[&[Token<'_>]],
) -> Result<Option<Expr>, Failure<FaultKind>>
    ensures { (act : Option Tree → acts.ExpansionAct)
        → Meets (λ o. act (option_map tree_of o)) (with_option act (operands_view operands.now)) result }
{
    match operands {
        [] => Ok(None),
        [operand] => match expression_in(alloc, operand) {
            Ok(expression) => Ok(Some(expression)),
            Err(failure) => Err(failure),
        },
        _ => Err(Failure::Fault(FaultKind::OperandCount)),
    }
}
