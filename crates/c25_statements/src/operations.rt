//! The instruction that a line says.

ghost use Rattle.std.specs.Prelude.{◌≡◌, IfOk, map};
ghost use Rattle.c25_meaning_assembly.specs.StatementLine.{spelled, operation_of};
ghost use Rattle.c25_meaning_language.specs.Forms.{form_of};
ghost use Rattle.c25_meaning_language.specs.Operands.{written_of};
ghost use Rattle.c25_meaning_common.specs.Results.{Meets};
ghost use Rattle.c25_statements.specs.Steps.{operation_with};
ghost use Rattle.c25_expr.specs.Pieces.{operands_view};
ghost use Rattle.c25_statements.specs.View as view;

use crate::shapes::form_of;
use crate::statement::Operation;
use crate::trees::exprs_of;
use c25_expr::operands::written_of;
use c25_isa::mnemonic;
use c25_meaning_common::failure::Failure;
use c25_meaning_common::no_memory::NoMemory;
use c25_meaning_instructions::mnemonic::Spelling;
use c25_meaning_language::statement::{FaultKind, Form, Written};
use c25_text::tokens::Token;
use std::alloc::Global;

/// The spelling that a line's first word is, or `UnknownMnemonic` (50).
pub fn spelled(word: &str) -> Result<Spelling, FaultKind>
    ensures { result ≡ spelled word.now }
{
    mnemonic(word).ok_or(FaultKind::UnknownMnemonic)
}

/// What each operand is written as.
fn kinds_of(alloc: Global, operands: &[&[Token<'_>]]) -> Result<Vec<Written>, NoMemory>
    ensures { IfOk result (λ v. v.items ≡ map written_of (operands_view operands.now)) }
{
    let mut kinds = Vec::new(alloc);
    for operand in operands {
        kinds.push(written_of(operand))?;
    }
    Ok(kinds)
}

/// The form that an instruction has with any number of operands.
fn form_of_many(
    alloc: Global,
    spelling: Spelling,
    operands: &[&[Token<'_>]],
) -> Result<Result<Form, FaultKind>, NoMemory>
    ensures { IfOk result (λ form. form ≡ form_of spelling (map written_of (operands_view operands.now))) }
{
    let kinds = kinds_of(alloc, operands)?;
    Ok(form_of(spelling, kinds.as_slice()))
}

/// The form that an instruction has with these operands. Most lines have one or two operands, for which no
/// memory is taken.
fn form_in(
    alloc: Global,
    spelling: Spelling,
    operands: &[&[Token<'_>]],
) -> Result<Result<Form, FaultKind>, NoMemory>
    ensures { IfOk result (λ form. form ≡ form_of spelling (map written_of (operands_view operands.now))) }
{
    match operands {
        [] => Ok(form_of(spelling, &[])),
        [only] => Ok(form_of(spelling, &[written_of(only)])),
        [first, second] => Ok(form_of(spelling, &[written_of(first), written_of(second)])),
        _ => form_of_many(alloc, spelling, operands),
    }
}

/// The instruction of a spelling and its operands, or its first fault: too few or too many operands (51), an
/// operand of another form than the instruction takes (52), one that is no expression (20), one that nests
/// too deep (21). `NoMemory` (9) where memory runs out.
#[tactic(auto, unfolding(c25_meaning_assembly::specs::StatementLine::operation_of))]
pub fn operation_of(
    alloc: Global,
    spelling: Spelling,
    operands: &[&[Token<'_>]],
) -> Result<Operation, Failure<FaultKind>>
    ensures { Meets view.operation_of (operation_of spelling (operands_view operands.now)) result }
{
    match form_in(alloc, spelling, operands)? {
        Ok(form) => match exprs_of(alloc, operands) {
            Ok(trees) => Ok(Operation { form, trees }),
            Err(failure) => Err(failure),
        },
        Err(fault) => Err(Failure::Fault(fault)),
    }
}

/// The instruction of a line's first word and its operands.
pub(crate) fn operation_in(
    alloc: Global,
    word: &str,
    operands: &[&[Token<'_>]],
) -> Result<Operation, Failure<FaultKind>>
    ensures { Meets view.operation_of (operation_with word.now (operands_view operands.now)) result }
{
    match spelled(word) {
        Ok(spelling) => operation_of(alloc, spelling, operands),
        Err(fault) => Err(Failure::Fault(fault)),
    }
}
