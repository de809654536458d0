//! The operand of a line whose value is refused.

ghost use Rattle.std.specs.Prelude.{◌≡◌, ◌&&◌, ◌-◌, ◌^◌, IfOk, Ok, is_none};
ghost use Rattle.std.specs.Option.{option_map};
ghost use Rattle.c25_meaning_assembly.specs.AssemblyLine.{directive_in};
ghost use Rattle.c25_meaning_language.specs.DirectiveOperands.{is_name};
ghost use Rattle.c25_meaning_language.specs.Line as parts;
ghost use Rattle.c25_meaning_language.specs.Line.{first_word};
ghost use Rattle.c25_meaning_language.specs.Value.{value_named};
ghost use Rattle.c25_text.specs.View.{parts_of, piece_of};
ghost use Rattle.c25_expr.specs.Pieces.{pieces_of, operands_view};
ghost use Rattle.c25_places.specs.FoundView.{found_of};
ghost use Rattle.c25_places.specs.Refused.{AreWithin, piece_part};
ghost use Rattle.c25_places.specs.Values as values;

use crate::defined::defined_part;
use crate::operand_faults::{is_expression, takes_expression};
use crate::part::Part;
use crate::refused::operation_in;
use crate::tokens::{operand_part, token_part};
use crate::value_faults::{is_refused, misfit_of};
use crate::values::{LineValues, Role, purpose_of, role_of};
use crate::wanted::{Operation, wants};
use c25_expr::Symbols;
use c25_expr::operands::{operands_of, tokens_of, written_of};
use c25_meaning_assembly::assembly::Directive;
use c25_meaning_common::no_memory::NoMemory;
use c25_meaning_language::line::TokenKind;
use c25_meaning_language::statement::FaultKind;
use c25_statements::directive_in;
use c25_text::line::{Line, split_line};
use c25_text::tokens::Token;
use std::alloc::Global;

/// A value that does not go into its field, and the least and the largest that would.
#[derive(Clone, Copy, PartialEq, Debug)]
pub struct Misfit {
    pub value: i32,
    pub least: i32,
    pub most: i32,
}

/// The part of a line where a value is refused, and for `FieldRange` (53) the value.
#[derive(Clone, Copy, PartialEq, Debug)]
pub struct RefusedValue {
    pub part: Part,
    pub misfit: Option<Misfit>,
}

/// An operand that is refused for its value: its index, what the value is for, and its tokens.
#[derive(Clone, Copy)]
pub(crate) struct Found<'b, 'a> {
    pub(crate) index: usize,
    pub(crate) role: Role,
    pub(crate) operand: &'b [Token<'a>],
}

fn has_value(operation: Operation, index: usize, operand: &[Token<'_>]) -> bool
    ensures { result ≡ values.has_value operation index (pieces_of operand.now) }
{
    takes_expression(wants(operation, index)) && is_expression(written_of(operand))
}

/// The first operand whose value has this fault.
#[tactic(auto, unfolding(crate::specs::Values::first_found))]
fn first_found<'b, 'a>(
    alloc: Global,
    kind: FaultKind,
    symbols: &Symbols,
    line: LineValues,
    operands: &[&'b [Token<'a>]],
) -> Result<Option<Found<'b, 'a>>, NoMemory>
    ensures { IfOk result (λ o. option_map found_of o ≡ values.first_found kind symbols.now line 0 0 (operands_view operands.now)) }
{
    let mut count = 0;
    for (index, operand) in operands.iter().enumerate() {
        if has_value(line.operation, index, operand) {
            let role = role_of(line.purpose, count);
            if is_refused(alloc, kind, symbols, role, operand)? {
                return Ok(Some(Found {
                    index,
                    role,
                    operand,
                }));
            }
            count += 1;
        }
    }
    Ok(None)
}

fn is_undefined(symbols: &Symbols, token: &Token<'_>) -> bool
    ensures { result ≡ (is_name token.now.kind && is_none (value_named symbols.now token.now.text.now)) }
{
    match token.kind {
        TokenKind::Name => symbols.get(token.text).is_none(),
        _ => false,
    }
}

/// The part of the first name of an operand that stands for nothing.
fn undefined_part(symbols: &Symbols, operand: &[Token<'_>]) -> Option<Part>
    requires { AreWithin 0 (2 ^ 64 - 1) (pieces_of operand.now) }
    ensures { result ≡ option_map piece_part (values.undefined_in symbols.now (pieces_of operand.now)) }
{
    for token in operand {
        if is_undefined(symbols, token) {
            return Some(token_part(token));
        }
    }
    None
}

/// The part that is refused: for `Undefined` (22) the name, else the operand.
fn found_part(
    kind: FaultKind,
    symbols: &Symbols,
    tokens: &[Token<'_>],
    found: Found<'_, '_>,
) -> Option<Part>
    requires tokens { AreWithin 0 (2 ^ 64 - 1) (pieces_of tokens.now) }
    requires operand { AreWithin 0 (2 ^ 64 - 1) (pieces_of found.operand.now) }
    ensures { result ≡ values.found_part kind symbols.now (pieces_of tokens.now) (found_of found.entry) }
{
    if let FaultKind::Undefined = kind {
        if let Some(part) = undefined_part(symbols, found.operand) {
            return Some(part);
        }
    }
    operand_part(tokens, found.index, found.operand)
}

/// The value that does not fit its field, for `FieldRange` (53).
fn found_misfit(
    alloc: Global,
    kind: FaultKind,
    symbols: &Symbols,
    found: Found<'_, '_>,
) -> Result<Option<Misfit>, NoMemory>
    ensures { IfOk result (λ o. o ≡ values.found_misfit kind symbols.now (found_of found.entry)) }
{
    match kind {
        FaultKind::FieldRange => misfit_of(alloc, symbols, found.role, found.operand),
        _ => Ok(None),
    }
}

/// What is reported of an operand that is found.
fn found_value(
    alloc: Global,
    kind: FaultKind,
    symbols: &Symbols,
    tokens: &[Token<'_>],
    found: Found<'_, '_>,
) -> Result<Option<RefusedValue>, NoMemory>
    requires tokens { AreWithin 0 (2 ^ 64 - 1) (pieces_of tokens.now) }
    requires operand { AreWithin 0 (2 ^ 64 - 1) (pieces_of found.operand.now) }
    ensures { IfOk result (λ o. o ≡ values.found_value kind symbols.now (pieces_of tokens.now) (found_of found.entry)) }
{
    let misfit = found_misfit(alloc, kind, symbols, found)?;
    match found_part(kind, symbols, tokens, found) {
        Some(part) => Ok(Some(RefusedValue { part, misfit })),
        None => Ok(None),
    }
}

/// The operand of a line that is refused for its value.
fn refused_among(
    alloc: Global,
    kind: FaultKind,
    symbols: &Symbols,
    tokens: &[Token<'_>],
    line: LineValues,
) -> Result<Option<RefusedValue>, NoMemory>
    requires { AreWithin 0 (2 ^ 64 - 1) (pieces_of tokens.now) }
    ensures { IfOk result (λ o. o ≡ values.refused_among kind symbols.now (pieces_of tokens.now) line) }
{
    let operands = operands_of(alloc, tokens)?;
    match first_found(alloc, kind, symbols, line, operands.as_slice())? {
        Some(found) => found_value(alloc, kind, symbols, tokens, found),
        None => Ok(None),
    }
}

/// What a line does, and what its values are for.
fn line_values(
    alloc: Global,
    operation: Option<Operation>,
    tokens: &[Token<'_>],
) -> Result<Option<LineValues>, NoMemory>
    ensures { IfOk result (λ o. o ≡ values.line_values operation (pieces_of tokens.now)) }
{
    let Some(operation) = operation else {
        return Ok(None);
    };
    let operands = operands_of(alloc, tokens)?;
    match purpose_of(alloc, operation, operands.as_slice())? {
        Some(purpose) => Ok(Some(LineValues { operation, purpose })),
        None => Ok(None),
    }
}

/// The operand of a line that is refused for its value, by what the line does.
fn operand_value(
    alloc: Global,
    kind: FaultKind,
    symbols: &Symbols,
    tokens: &[Token<'_>],
    operation: Option<Operation>,
) -> Result<Option<RefusedValue>, NoMemory>
    requires { AreWithin 0 (2 ^ 64 - 1) (pieces_of tokens.now) }
    ensures { IfOk result (λ o. o ≡ values.operand_value kind symbols.now (pieces_of tokens.now) operation) }
{
    match line_values(alloc, operation, tokens)? {
        Some(values) => refused_among(alloc, kind, symbols, tokens, values),
        None => Ok(None),
    }
}

/// The name of `.def` that stands for nothing, for `Undefined` (22).
fn exported_value(
    kind: FaultKind,
    symbols: &Symbols,
    tokens: &[Token<'_>],
    directive: Option<Directive>,
) -> Option<RefusedValue>
    requires { AreWithin 0 (2 ^ 64 - 1) (pieces_of tokens.now) }
    ensures { result ≡ values.exported_value kind symbols.now directive (pieces_of tokens.now) }
{
    match (kind, directive) {
        (FaultKind::Undefined, Some(Directive::Def)) => {
            let part = undefined_part(symbols, tokens)?;
            Some(RefusedValue { part, misfit: None })
        }
        _ => None,
    }
}

/// The name that a line defines and that has a value already, for `Defined` (26).
fn defined_value(
    alloc: Global,
    kind: FaultKind,
    symbols: &Symbols,
    text: &str,
    tokens: &[Token<'_>],
) -> Result<Option<RefusedValue>, NoMemory>
    requires { AreWithin 0 (2 ^ 64 - 1) (pieces_of tokens.now) }
    ensures { IfOk result (λ o. o ≡ values.defined_value kind symbols.now (directive_in (first_word text.now)) text.now (pieces_of tokens.now)) }
{
    let FaultKind::Defined = kind else {
        return Ok(None);
    };
    match defined_part(alloc, symbols, directive_in(text), text, tokens)? {
        Some(part) => Ok(Some(RefusedValue { part, misfit: None })),
        None => Ok(None),
    }
}

/// The name that a line exports or defines.
fn name_value(
    alloc: Global,
    kind: FaultKind,
    symbols: &Symbols,
    text: &str,
    tokens: &[Token<'_>],
) -> Result<Option<RefusedValue>, NoMemory>
    requires { AreWithin 0 (2 ^ 64 - 1) (pieces_of tokens.now) }
    ensures { IfOk result (λ o. o ≡ values.name_value kind symbols.now (directive_in (first_word text.now)) text.now (pieces_of tokens.now)) }
{
    match exported_value(kind, symbols, tokens, directive_in(text)) {
        Some(refused) => Ok(Some(refused)),
        None => defined_value(alloc, kind, symbols, text, tokens),
    }
}

/// The operand of a line in parts that is refused for its value, or the name that it exports or defines.
fn value_in(
    alloc: Global,
    text: &str,
    kind: FaultKind,
    symbols: &Symbols,
    line: &Line<'_>,
) -> Result<Option<RefusedValue>, NoMemory>
    requires { parts.line_of text.now ≡ Ok (parts_of line.now) }
    ensures { IfOk result (λ o. o ≡ values.refused_value text.now kind symbols.now) }
{
    let list = tokens_of(alloc, line)?;
    let tokens = list.as_slice();
    let operation = operation_in(directive_in(text), line.word);
    match operand_value(alloc, kind, symbols, tokens, operation)? {
        Some(refused) => Ok(Some(refused)),
        None => name_value(alloc, kind, symbols, text, tokens),
    }
}

/// The operand of an expanded line that is refused for its value with this fault (22 to 25, 53, 55), or the name that
/// it exports (22) or defines (26), under these symbols: those so far, where the line needs the value at once, as
/// `.space` does, or defines a name; all symbols, where the value fills a field or a word. For `Undefined` (22) the
/// part is the name that stands for nothing, which may be one of `.def`; for `FieldRange` (53) the value is given with
/// the range of its field. For `Defined` (26) the part is the name that has a value: the label with its colon where it
/// had one before the line; that in the first operand of `.bss` and `.label`, a predefined one of `.global`, `.ref` and
/// `.def`, the word `.mmregs`; else the label.
/// None where no value has the fault. `NoMemory` (9) where memory runs out.
pub fn refused_value(
    alloc: Global,
    text: &str,
    kind: FaultKind,
    symbols: &Symbols,
) -> Result<Option<RefusedValue>, NoMemory>
    ensures { IfOk result (λ o. o ≡ values.refused_value text.now kind symbols.now) }
{
    match split_line(text) {
        Ok(line) => value_in(alloc, text, kind, symbols, &line),
        Err(_) => Ok(None),
    }
}
