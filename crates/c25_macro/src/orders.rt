//! What a line with a directive of expansion, or with a macro's name, asks for.

ghost use Rattle.std.specs.Prelude.{◌≡◌, [], ◌∷◌, IfOk};
ghost use Rattle.std.specs.Option.{option_map};
ghost use Rattle.std.specs.String.{string_bytes};
ghost use Rattle.c25_meaning_expansion.specs.Acts as acts;
ghost use Rattle.c25_meaning_language.specs.DirectiveOperands as directiveoperands;
ghost use Rattle.c25_meaning_language.specs.Operands.{operands_of};
ghost use Rattle.c25_text.specs.View.{parts_of};
ghost use Rattle.c25_expr.specs.Pieces.{pieces_of, operands_view};
ghost use Rattle.c25_meaning_common.specs.Results.{Meets};
ghost use Rattle.c25_macro.specs.Acts as view;

use crate::act::{ExpansionAct, Order};
use crate::macros::Macro;
use crate::operands::{condition_in, name_in, names_in, option_in};
use c25_expr::directive_operands::{expression_in, string_in};
use c25_expr::failure::line_fault;
use c25_expr::operands::{operands_of, tokens_of, written_of};
use c25_meaning_common::bytes::{byte_at, is_blank};
use c25_meaning_common::failure::Failure;
use c25_meaning_common::no_memory::NoMemory;
use c25_meaning_expansion::expansion::Directive;
use c25_meaning_language::statement::{FaultKind, Written};
use c25_substitution::arguments::{arguments, assigned_text};
use c25_text::line::{Line, split_line};
use c25_text::tokens::Token;
use std::alloc::Global;

/// How many parameters a macro can have.
const MOST_PARAMETERS: usize = 32;

/// What a directive without operands asks for; 51 where there are some.
fn without<'a>(
    act: ExpansionAct<'a>,
    operands: &[&[Token<'_>]],
) -> Result<ExpansionAct<'a>, Failure<FaultKind>>
    ensures { Meets view.act_of (acts.without (view.act_of act.entry) (operands_view operands.now)) result }
{
    operands
        .is_empty()
        .then_some(act)
        .ok_or(Failure::Fault(FaultKind::OperandCount))
}

/// What `.macro` asks for: the label is the macro's name, and the operands are its parameters, at most 32
/// (35).
fn definition_in<'a>(
    alloc: Global,
    line: &Line<'_>,
    operands: &[&[Token<'_>]],
) -> Result<ExpansionAct<'a>, Failure<FaultKind>>
    ensures { Meets view.act_of (acts.definition_in (parts_of line.now) (operands_view operands.now)) result }
{
    let parameters = names_in(alloc, operands)?;
    if parameters.len() > MOST_PARAMETERS {
        return Err(Failure::Fault(FaultKind::TooManyParameters));
    }
    let name = String::from_str(alloc, line.label.unwrap_or(""))?;
    Ok(ExpansionAct::Define { name, parameters })
}

/// The last of some operands, if there are two or more.
fn last_of_two<'a, 'b>(operands: &'b [&'b [Token<'a>]]) -> Option<&'b [Token<'a>]>
    ensures { option_map (λ o. pieces_of o.now) result ≡ acts.last_of_two (operands_view operands.now) }
{
    match operands {
        [_, .., last] => Some(last),
        _ => None,
    }
}

/// What `.asg` asks for: the last operand is the name, and the text is read from the whole line. 51 for fewer
/// than two operands.
fn assignment_in<'a>(
    alloc: Global,
    text: &str,
    operands: &[&[Token<'_>]],
) -> Result<ExpansionAct<'a>, Failure<FaultKind>>
    ensures { Meets view.act_of (acts.assignment_in text.now (operands_view operands.now)) result }
{
    match last_of_two(operands) {
        Some(last) => {
            let name = name_in(alloc, last)?;
            let text = assigned_text(alloc, text)?;
            Ok(ExpansionAct::Assign { text, name })
        }
        None => Err(Failure::Fault(FaultKind::OperandCount)),
    }
}

/// What `.eval` asks for with these two operands; the first must be written as an expression.
fn evaluation_of<'a>(
    alloc: Global,
    first: &[Token<'_>],
    second: &[Token<'_>],
) -> Result<ExpansionAct<'a>, Failure<FaultKind>>
    ensures { Meets view.act_of (acts.evaluation_in (pieces_of first.now ∷ pieces_of second.now ∷ [])) result }
{
    match written_of(first) {
        Written::Expression => {
            let name = name_in(alloc, second)?;
            let expression = expression_in(alloc, first)?;
            Ok(ExpansionAct::Evaluate { expression, name })
        }
        _ => Err(Failure::Fault(FaultKind::OperandForm)),
    }
}

/// What `.eval` asks for: an expression and a name; 51 for other than two operands.
fn evaluation_in<'a>(
    alloc: Global,
    operands: &[&[Token<'_>]],
) -> Result<ExpansionAct<'a>, Failure<FaultKind>>
    ensures { Meets view.act_of (acts.evaluation_in (operands_view operands.now)) result }
{
    match operands {
        [first, second] => evaluation_of(alloc, first, second),
        _ => Err(Failure::Fault(FaultKind::OperandCount)),
    }
}

/// What `.copy` asks for: a string, the file's name; 51 for other than one operand.
fn copy_in<'a>(
    alloc: Global,
    operands: &[&[Token<'_>]],
) -> Result<ExpansionAct<'a>, Failure<FaultKind>>
    ensures { Meets view.act_of (acts.copy_in (operands_view operands.now)) result }
{
    match operands {
        [operand] => Ok(ExpansionAct::Copy(string_in(alloc, operand)?)),
        _ => Err(Failure::Fault(FaultKind::OperandCount)),
    }
}

/// What a directive asks for with these operands.
#[tactic(auto, unfolding(c25_meaning_expansion::specs::Acts::act_of))]
fn act_of<'a>(
    alloc: Global,
    directive: Directive,
    text: &str,
    line: &Line<'_>,
    operands: &[&[Token<'_>]],
) -> Result<ExpansionAct<'a>, Failure<FaultKind>>
    ensures { Meets view.act_of (acts.act_of directive text.now (parts_of line.now) (operands_view operands.now)) result }
{
    match directive {
        Directive::If => Ok(ExpansionAct::If(condition_in(alloc, operands)?)),
        Directive::ElseIf => Ok(ExpansionAct::ElseIf(condition_in(alloc, operands)?)),
        Directive::Else => without(ExpansionAct::Else, operands),
        Directive::EndIf => without(ExpansionAct::EndIf, operands),
        Directive::Macro => definition_in(alloc, line, operands),
        Directive::EndMacro | Directive::EndLoop => without(ExpansionAct::Stray, operands),
        Directive::ExitMacro => without(ExpansionAct::Exit, operands),
        Directive::Loop => Ok(ExpansionAct::Loop(option_in(alloc, operands)?)),
        Directive::Break => Ok(ExpansionAct::Break(option_in(alloc, operands)?)),
        Directive::Assign => assignment_in(alloc, text, operands),
        Directive::Evaluate => evaluation_in(alloc, operands),
        Directive::Copy => copy_in(alloc, operands),
        Directive::End => without(ExpansionAct::End, operands),
    }
}

/// What a directive asks for in a line of these parts.
fn act_in<'a>(
    alloc: Global,
    directive: Directive,
    text: &str,
    line: &Line<'_>,
) -> Result<ExpansionAct<'a>, Failure<FaultKind>>
    ensures { Meets view.act_of (acts.act_of directive text.now (parts_of line.now) (operands_of (parts_of line.now).pieces)) result }
{
    let tokens = tokens_of(alloc, line)?;
    let operands = operands_of(alloc, tokens.as_slice())?;
    act_of(alloc, directive, text, line, operands.as_slice())
}

/// The parts of a line.
fn parts_in(text: &str) -> Result<Line<'_>, Failure<FaultKind>>
    ensures { Meets parts_of (directiveoperands.parts_in text.now) result }
{
    match split_line(text) {
        Ok(line) => Ok(line),
        Err(fault) => Err(Failure::Fault(line_fault(fault))),
    }
}

/// The parts of a line with a directive: `.macro` needs a label.
fn parts_for(directive: Directive, text: &str) -> Result<Line<'_>, Failure<FaultKind>>
    ensures { Meets parts_of (acts.parts_for directive text.now) result }
{
    match directive {
        Directive::Macro if is_blank(byte_at(text.as_bytes(), 0)) => {
            Err(Failure::Fault(FaultKind::BadLabel))
        }
        _ => parts_in(text),
    }
}

/// A copy of a label.
fn text_of(alloc: Global, label: Option<&str>) -> Result<Option<String>, NoMemory>
    ensures { IfOk result (λ o. option_map string_bytes o ≡ option_map (λ s. s.now) label.entry) }
{
    match label {
        Some(name) => Ok(Some(String::from_str(alloc, name)?)),
        None => Ok(None),
    }
}

/// The label that becomes a line of its own; that of `.macro` does not.
fn label_for(
    alloc: Global,
    directive: Directive,
    label: Option<&str>,
) -> Result<Option<String>, NoMemory>
    ensures { IfOk result (λ o. option_map string_bytes o ≡ acts.label_for directive (option_map (λ s. s.now) label.entry)) }
{
    match directive {
        Directive::Macro => Ok(None),
        _ => text_of(alloc, label),
    }
}

/// What a line with a directive asks for, and its label.
#[tactic(auto, unfolding(c25_meaning_expansion::specs::Acts::order_of))]
pub(crate) fn read_order<'a>(
    alloc: Global,
    directive: Directive,
    text: &str,
) -> Result<Order<'a>, Failure<FaultKind>>
    ensures { Meets view.order_of (acts.order_of directive text.now) result }
{
    let line = parts_for(directive, text)?;
    let label = label_for(alloc, directive, line.label)?;
    let act = act_in(alloc, directive, text, &line)?;
    Ok(Order { label, act })
}

/// What a line that calls a macro asks for, and its label.
#[tactic(auto, unfolding(c25_meaning_expansion::specs::Acts::call_of))]
pub(crate) fn read_call<'a>(
    alloc: Global,
    called: &Macro<'a>,
    text: &str,
) -> Result<Order<'a>, Failure<FaultKind>>
    ensures { Meets view.order_of (acts.call_of (view.macro_of called.now) text.now) result }
{
    let line = parts_in(text)?;
    let label = text_of(alloc, line.label)?;
    let body = called.body.copy();
    let arguments = arguments(alloc, called.parameters.as_slice(), text)?;
    Ok(Order {
        label,
        act: ExpansionAct::Call { body, arguments },
    })
}
