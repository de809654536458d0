//! The statement of one line of a module.

ghost use Rattle.std.specs.Prelude.{◌≡◌};
ghost use Rattle.std.specs.Option.{option_map};
ghost use Rattle.c25_meaning_language.specs.DirectiveOperands.{parts_in};
ghost use Rattle.c25_meaning_assembly.specs.AllFaults as faults;
ghost use Rattle.c25_meaning_assembly.specs.AssemblyLine as says;
ghost use Rattle.c25_meaning_common.specs.Results.{Meets};
ghost use Rattle.c25_text.specs.View.{part_of, parts_of};
ghost use Rattle.c25_expr.specs.Pieces.{operands_view};
ghost use Rattle.c25_statements.specs.View.{act_of, statement_of};

use crate::directives::act_of;
use crate::names::directive_in;
use crate::operations::operation_in;
use crate::statement::{AssemblyAct, Operation, Statement};
use c25_expr::failure::line_fault;
use c25_expr::operands::{operands_of, tokens_of};
use c25_meaning_assembly::assembly::{Directive, Target};
use c25_meaning_common::bytes::{byte_at, is_blank};
use c25_meaning_common::failure::Failure;
use c25_meaning_language::statement::FaultKind;
use c25_text::line::{Line, Word, is_comment_line, label_in, split_line};
use c25_text::tokens::Token;
use std::alloc::Global;

/// What a line with an instruction does.
fn instructing<'a>(
    alloc: Global,
    word: &str,
    operands: &[&[Token<'_>]],
) -> Result<AssemblyAct<'a>, Failure<FaultKind>>
    ensures { Meets act_of (says.instructing word.now (operands_view operands.now)) result }
{
    match operation_in(alloc, word, operands) {
        Ok(Operation { form, trees }) => Ok(AssemblyAct::Put(Target::Instruction(form), trees)),
        Err(failure) => Err(failure),
    }
}

/// What a line does whose first word is no directive, if it has one.
fn act_without<'a>(
    alloc: Global,
    word: Option<Word<'_>>,
    operands: &[&[Token<'_>]],
) -> Result<AssemblyAct<'a>, Failure<FaultKind>>
    ensures { Meets act_of (says.act_without (option_map part_of word.entry) (operands_view operands.now)) result }
{
    match word {
        Some(word) => instructing(alloc, word.text, operands),
        None => Ok(AssemblyAct::Nothing),
    }
}

/// What a line does, with its directive if it has one.
fn act_by<'a>(
    alloc: Global,
    directive: Option<Directive>,
    line: &Line<'a>,
) -> Result<AssemblyAct<'a>, Failure<FaultKind>>
    ensures { Meets act_of (says.act_by directive (parts_of line.now)) result }
{
    let tokens = tokens_of(alloc, line)?;
    let operands = operands_of(alloc, tokens.as_slice())?;
    match directive {
        Some(directive) => {
            let label = line.label.unwrap_or("");
            act_of(alloc, directive, label, operands.as_slice())
        }
        None => act_without(alloc, line.word, operands.as_slice()),
    }
}

/// Whether a directive itself defines the name in the label's place, after its operands are read.
pub fn names_label(directive: Option<Directive>) -> bool
    ensures { result ≡ says.names_label directive }
{
    match directive {
        Some(Directive::Set) | Some(Directive::Usect) => true,
        _ => false,
    }
}

/// The parts of a line. `BadLabel` (10) where the directive needs a label and the line begins with a blank;
/// else the first fault of the line's text (10 to 13).
fn parts_for(directive: Option<Directive>, text: &str) -> Result<Line<'_>, Failure<FaultKind>>
    ensures { Meets parts_of (says.parts_for directive text.now) result }
{
    if names_label(directive) && is_blank(byte_at(text.as_bytes(), 0)) {
        return Err(Failure::Fault(FaultKind::BadLabel));
    }
    match split_line(text) {
        Ok(line) => Ok(line),
        Err(fault) => Err(Failure::Fault(line_fault(fault))),
    }
}

/// The label that stands for the place where the line begins, if there is one.
fn label_for(directive: Option<Directive>, label: Option<&str>) -> Option<&str>
    ensures { option_map (λ t. t.now) result ≡ says.label_for directive (option_map (λ t. t.now) label.entry) }
{
    if names_label(directive) { None } else { label }
}

/// The label that stands for the place where a line begins, whatever else is wrong with the line.
#[tactic(auto, unfolding(c25_meaning_assembly::specs::AllFaults::address_label))]
pub fn address_label(text: &str) -> Option<&str>
    ensures { option_map (λ t. t.now) result ≡ faults.address_label text.now }
{
    if is_comment_line(text.as_bytes()) {
        return None;
    }
    match label_in(text) {
        Ok(label) => label_for(directive_in(text), label),
        Err(_) => None,
    }
}

/// What a line says, with its directive if it has one.
#[tactic(auto, unfolding(c25_meaning_assembly::specs::AssemblyLine::statement_by))]
fn statement_by(
    alloc: Global,
    directive: Option<Directive>,
    text: &str,
) -> Result<Statement<'_>, Failure<FaultKind>>
    ensures { Meets statement_of (says.statement_by directive text.now) result }
{
    let line = parts_for(directive, text)?;
    let label = label_for(directive, line.label);
    match act_by(alloc, directive, &line) {
        Ok(act) => Ok(Statement { label, act }),
        Err(failure) => Err(failure),
    }
}

/// What a line says, or the first fault that its text alone shows: a missing or wrong label or a wrong token
/// (10 to 13), a first word that is neither a mnemonic nor a directive (50), too few or too many operands
/// (51), an operand of another form than is asked for (52), one that is no expression (20), one that nests
/// too deep (21). A fault 20 or 21 of `.bss` or `.usect` is kept in the statement. `NoMemory` (9) where
/// memory runs out.
pub fn read_statement(alloc: Global, text: &str) -> Result<Statement<'_>, Failure<FaultKind>>
    ensures { Meets statement_of (says.read_statement text.now) result }
{
    statement_by(alloc, directive_in(text), text)
}
