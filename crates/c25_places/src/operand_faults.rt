//! The fault of an operand by itself, where another is wanted.

ghost use Rattle.std.specs.Prelude.{◌≡◌, ◌&&◌, not, is_ok, IfOk, map};
ghost use Rattle.c25_meaning_assembly.specs.AssemblyLine as says;
ghost use Rattle.c25_meaning_language.specs.Forms as forms;
ghost use Rattle.c25_meaning_language.specs.Operands as operands;
ghost use Rattle.c25_meaning_language.specs.Reading.{tree_in};
ghost use Rattle.c25_meaning_language.specs.Tree.{mark_of};
ghost use Rattle.c25_expr.specs.Pieces.{pieces_of};
ghost use Rattle.c25_places.specs.Wanted.{is_indirect, is_quoted, suits, takes_expression, fails_by, expression_fails, has_fault};

use crate::wanted::Wanted;
use c25_expr::directive_operands::{is_string, name_in};
use c25_expr::operands::written_of;
use c25_expr::read_expr;
use c25_meaning_common::failure::Failure;
use c25_meaning_common::no_memory::NoMemory;
use c25_meaning_language::expression::ExpressionFault;
use c25_meaning_language::statement::{FaultKind, Written};
use c25_statements::section_in;
use c25_text::tokens::Token;
use std::alloc::Global;

pub(crate) fn is_expression(operand: Written) -> bool
    ensures { result ≡ forms.is_expression operand }
{
    match operand {
        Written::Expression => true,
        _ => false,
    }
}

fn is_indirect(operand: Written) -> bool
    ensures { result ≡ is_indirect operand }
{
    match operand {
        Written::Indirect(_) => true,
        _ => false,
    }
}

fn is_quoted(operand: Written) -> bool
    ensures { result ≡ is_quoted operand }
{
    match operand {
        Written::Quoted => true,
        _ => false,
    }
}

/// Whether an operand names a section.
fn is_section(alloc: Global, operand: &[Token<'_>]) -> Result<bool, NoMemory>
    ensures { IfOk result (λ b. b ≡ is_ok (says.section_in (pieces_of operand.now))) }
{
    match section_in(alloc, operand) {
        Ok(_) => Ok(true),
        Err(Failure::Fault(_)) => Ok(false),
        Err(Failure::NoMemory(error)) => Err(error),
    }
}

/// Whether an operand is written as what it has to be.
fn suits(alloc: Global, what: Wanted, operand: &[Token<'_>]) -> Result<bool, NoMemory>
    ensures { IfOk result (λ b. b ≡ suits what (pieces_of operand.now)) }
{
    match what {
        Wanted::Expression => Ok(is_expression(written_of(operand))),
        Wanted::Memory => Ok(!is_quoted(written_of(operand))),
        Wanted::Change => Ok(is_indirect(written_of(operand))),
        Wanted::Name => Ok(name_in(operand).is_ok()),
        Wanted::Text => Ok(is_string(operand)),
        Wanted::Section => is_section(alloc, operand),
    }
}

pub(crate) fn takes_expression(what: Wanted) -> bool
    ensures { result ≡ takes_expression what }
{
    match what {
        Wanted::Expression | Wanted::Memory => true,
        _ => false,
    }
}

fn is_same(fault: ExpressionFault, other: ExpressionFault) -> bool
    ensures { result ≡ fails_by fault (Err other) }
{
    match (fault, other) {
        (ExpressionFault::BadExpression, ExpressionFault::BadExpression) => true,
        (ExpressionFault::TooDeep, ExpressionFault::TooDeep) => true,
        _ => false,
    }
}

/// Whether tokens are refused as an expression with this fault.
fn fails_by(alloc: Global, fault: ExpressionFault, operand: &[Token<'_>]) -> Result<bool, NoMemory>
    ensures { IfOk result (λ b. b ≡ fails_by fault (tree_in (map mark_of (pieces_of operand.now)))) }
{
    match read_expr(alloc, operand) {
        Ok(_) => Ok(false),
        Err(Failure::Fault(other)) => Ok(is_same(fault, other)),
        Err(Failure::NoMemory(error)) => Err(error),
    }
}

/// Whether an operand that has to be an expression, or may be one, is written as one and has this fault.
fn expression_fails(
    alloc: Global,
    fault: ExpressionFault,
    what: Wanted,
    operand: &[Token<'_>],
) -> Result<bool, NoMemory>
    ensures { IfOk result (λ b. b ≡ expression_fails fault what (pieces_of operand.now)) }
{
    if takes_expression(what) && is_expression(written_of(operand)) {
        fails_by(alloc, fault, operand)
    } else {
        Ok(false)
    }
}

/// Whether an operand has this fault of 52, 20 and 21 by itself.
#[tactic(auto, unfolding(crate::specs::Wanted::has_fault))]
pub(crate) fn has_fault(
    alloc: Global,
    kind: FaultKind,
    what: Wanted,
    operand: &[Token<'_>],
) -> Result<bool, NoMemory>
    ensures { IfOk result (λ b. b ≡ has_fault kind what (pieces_of operand.now)) }
{
    match kind {
        FaultKind::OperandForm => Ok(!suits(alloc, what, operand)?),
        FaultKind::BadExpression => {
            expression_fails(alloc, ExpressionFault::BadExpression, what, operand)
        }
        FaultKind::TooDeep => expression_fails(alloc, ExpressionFault::TooDeep, what, operand),
        _ => Ok(false),
    }
}
