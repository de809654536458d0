//! Lines with a directive of expansion: the fault for which the assembler does not read one.

ghost use Rattle.std.specs.Prelude.{◌≡◌, ◌∷◌, [], Option, Ok, Err, IfOk, MatchResult};
ghost use Rattle.std.specs.Option.{option_map};
ghost use Rattle.c25_meaning_language.specs.DirectiveOperands as meaning;
ghost use Rattle.c25_meaning_language.specs.Operands.{operands_of};
ghost use Rattle.c25_meaning_language.specs.Tree.{Tree};
ghost use Rattle.c25_meaning_expansion.specs.Acts as acts;
ghost use Rattle.c25_text.specs.View.{parts_of};
ghost use Rattle.c25_expr.specs.Pieces.{pieces_of, operands_view};
ghost use Rattle.c25_line_faults.specs.Reading.{fault_of, number_fault};

use c25_expr::directive_operands::{expression_in, is_string, name_in};
use c25_expr::failure::line_fault;
use c25_expr::operands::{operands_of, tokens_of, written_of};
use c25_meaning_common::bytes::{byte_at, is_blank};
use c25_meaning_common::failure::Failure;
use c25_meaning_common::no_memory::NoMemory;
use c25_meaning_expansion::expansion::Directive;
use c25_meaning_language::statement::{FaultKind, Written};
use c25_text::line::{Line, split_line};
use c25_text::tokens::Token;
use std::alloc::Global;

/// How many parameters a macro can have.
const MOST_PARAMETERS: usize = 32;

/// The fault of operands where there are to be none (51).
fn some_fault(operands: &[&[Token<'_>]]) -> Option<FaultKind>
    ensures { (act : acts.ExpansionAct) → result ≡ fault_of (acts.without act (operands_view operands.now)) }
{
    match operands {
        [] => None,
        _ => Some(FaultKind::OperandCount),
    }
}

/// The fault of an operand that is to be an expression.
fn expression_fault(alloc: Global, operand: &[Token<'_>]) -> Result<Option<FaultKind>, NoMemory>
    ensures { IfOk result (λ f. f ≡ fault_of (meaning.expression_in (pieces_of operand.now))) }
{
    match expression_in(alloc, operand) {
        Ok(_) => Ok(None),
        Err(Failure::Fault(fault)) => Ok(Some(fault)),
        Err(Failure::NoMemory(error)) => Err(error),
    }
}

/// The fault of an operand that is to be a name.
fn name_fault(operand: &[Token<'_>]) -> Option<FaultKind>
    ensures { result ≡ fault_of (meaning.name_in (pieces_of operand.now)) }
{
    match name_in(operand) {
        Ok(_) => None,
        Err(fault) => Some(fault),
    }
}

/// The fault of operands that are to be one expression.
fn condition_fault(alloc: Global, operands: &[&[Token<'_>]]) -> Result<Option<FaultKind>, NoMemory>
    ensures { IfOk result (λ f. (act : Tree → acts.ExpansionAct) → f ≡ fault_of (acts.with_condition act (operands_view operands.now))) }
{
    match operands {
        [operand] => expression_fault(alloc, operand),
        _ => Ok(Some(FaultKind::OperandCount)),
    }
}

/// The fault of operands that are to be one expression or none.
fn option_fault(alloc: Global, operands: &[&[Token<'_>]]) -> Result<Option<FaultKind>, NoMemory>
    ensures { IfOk result (λ f. (act : Option Tree → acts.ExpansionAct) → f ≡ fault_of (acts.with_option act (operands_view operands.now))) }
{
    match operands {
        [] => Ok(None),
        [operand] => expression_fault(alloc, operand),
        _ => Ok(Some(FaultKind::OperandCount)),
    }
}

/// The fault of operands that are to be names.
fn names_fault(operands: &[&[Token<'_>]]) -> Option<FaultKind>
    ensures { result ≡ fault_of (meaning.names_in (operands_view operands.now)) }
{
    for operand in operands {
        match name_fault(operand) {
            Some(fault) => return Some(fault),
            None => {}
        }
    }
    None
}

/// The fault of a number of parameters: at most 32 are allowed.
fn number_fault(parameters: usize) -> Option<FaultKind>
    ensures { result ≡ number_fault parameters }
{
    if parameters > MOST_PARAMETERS {
        Some(FaultKind::TooManyParameters)
    } else {
        None
    }
}

/// The fault of the operands of `.macro`.
fn definition_fault(line: &Line<'_>, operands: &[&[Token<'_>]]) -> Option<FaultKind>
    ensures { result ≡ fault_of (acts.definition_in (parts_of line.now) (operands_view operands.now)) }
{
    match names_fault(operands) {
        Some(fault) => Some(fault),
        None => number_fault(operands.len()),
    }
}

/// The last of some operands, if there are two or more.
fn last_of_two<'a, 'b>(operands: &'b [&'b [Token<'a>]]) -> Option<&'b [Token<'a>]>
    ensures { option_map (λ o. pieces_of o.now) result ≡ acts.last_of_two (operands_view operands.now) }
{
    match operands {
        [_, .., last] => Some(last),
        _ => None,
    }
}

/// The fault of the operands of `.asg`.
fn assignment_fault(text: &str, operands: &[&[Token<'_>]]) -> Option<FaultKind>
    ensures { result ≡ fault_of (acts.assignment_in text.now (operands_view operands.now)) }
{
    match last_of_two(operands) {
        Some(last) => name_fault(last),
        None => Some(FaultKind::OperandCount),
    }
}

/// The fault of the two operands of `.eval`.
fn evaluation_of(
    alloc: Global,
    first: &[Token<'_>],
    second: &[Token<'_>],
) -> Result<Option<FaultKind>, NoMemory>
    ensures { IfOk result (λ f. f ≡ fault_of (acts.evaluation_in (pieces_of first.now ∷ pieces_of second.now ∷ []))) }
{
    match (written_of(first), name_fault(second)) {
        (Written::Expression, None) => expression_fault(alloc, first),
        (Written::Expression, fault) => Ok(fault),
        _ => Ok(Some(FaultKind::OperandForm)),
    }
}

/// The fault of the operands of `.eval`.
fn evaluation_fault(alloc: Global, operands: &[&[Token<'_>]]) -> Result<Option<FaultKind>, NoMemory>
    ensures { IfOk result (λ f. f ≡ fault_of (acts.evaluation_in (operands_view operands.now))) }
{
    match operands {
        [first, second] => evaluation_of(alloc, first, second),
        _ => Ok(Some(FaultKind::OperandCount)),
    }
}

/// The fault of the operands of `.copy`.
fn copy_fault(operands: &[&[Token<'_>]]) -> Option<FaultKind>
    ensures { result ≡ fault_of (acts.copy_in (operands_view operands.now)) }
{
    match operands {
        [operand] if is_string(operand) => None,
        [_] => Some(FaultKind::OperandForm),
        _ => Some(FaultKind::OperandCount),
    }
}

/// The fault of the operands of a directive.
#[tactic(auto, unfolding(c25_meaning_expansion::specs::Acts::act_of))]
fn act_fault(
    alloc: Global,
    directive: Directive,
    text: &str,
    line: &Line<'_>,
    operands: &[&[Token<'_>]],
) -> Result<Option<FaultKind>, NoMemory>
    ensures { IfOk result (λ f. f ≡ fault_of (acts.act_of directive text.now (parts_of line.now) (operands_view operands.now))) }
{
    match directive {
        Directive::If | Directive::ElseIf => Ok(condition_fault(alloc, operands)?),
        Directive::Else | Directive::EndIf => Ok(some_fault(operands)),
        Directive::Macro => Ok(definition_fault(line, operands)),
        Directive::EndMacro | Directive::EndLoop => Ok(some_fault(operands)),
        Directive::ExitMacro | Directive::End => Ok(some_fault(operands)),
        Directive::Loop | Directive::Break => Ok(option_fault(alloc, operands)?),
        Directive::Assign => Ok(assignment_fault(text, operands)),
        Directive::Evaluate => evaluation_fault(alloc, operands),
        Directive::Copy => Ok(copy_fault(operands)),
    }
}

/// The fault of the operands of a line with a directive.
fn operands_fault(
    alloc: Global,
    directive: Directive,
    text: &str,
    line: &Line<'_>,
) -> Result<Option<FaultKind>, NoMemory>
    ensures { IfOk result (λ f. f ≡ fault_of (acts.act_of directive text.now (parts_of line.now) (operands_of (parts_of line.now).pieces))) }
{
    let tokens = tokens_of(alloc, line)?;
    let operands = operands_of(alloc, tokens.as_slice())?;
    act_fault(alloc, directive, text, line, operands.as_slice())
}

/// The parts of a line, or the fault of its text.
fn parts_in(text: &str) -> Result<Line<'_>, FaultKind>
    ensures { MatchResult result (λ l. meaning.parts_in text.now ≡ Ok (parts_of l)) (λ f. meaning.parts_in text.now ≡ Err f) }
{
    match split_line(text) {
        Ok(line) => Ok(line),
        Err(fault) => Err(line_fault(fault)),
    }
}

/// The parts of a line with a directive, or the fault of its text; `.macro` needs a label.
fn parts_for(directive: Directive, text: &str) -> Result<Line<'_>, FaultKind>
    ensures { MatchResult result (λ l. acts.parts_for directive text.now ≡ Ok (parts_of l)) (λ f. acts.parts_for directive text.now ≡ Err f) }
{
    match directive {
        Directive::Macro if is_blank(byte_at(text.as_bytes(), 0)) => Err(FaultKind::BadLabel),
        _ => parts_in(text),
    }
}

/// The fault of a line with a directive of expansion, if the assembler does not read it.
#[tactic(auto, unfolding(c25_meaning_expansion::specs::Acts::order_of))]
pub(crate) fn order_fault(
    alloc: Global,
    directive: Directive,
    text: &str,
) -> Result<Option<FaultKind>, NoMemory>
    ensures { IfOk result (λ f. f ≡ fault_of (acts.order_of directive text.now)) }
{
    match parts_for(directive, text) {
        Ok(line) => operands_fault(alloc, directive, text, &line),
        Err(fault) => Ok(Some(fault)),
    }
}
