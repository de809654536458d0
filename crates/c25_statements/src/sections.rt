//! Operands that name a section.

ghost use Rattle.std.specs.Prelude.{◌≡◌};
ghost use Rattle.std.specs.String.{string_bytes};
ghost use Rattle.c25_meaning_assembly.specs.AssemblyLine as says;
ghost use Rattle.c25_meaning_common.specs.Results.{Meets};
ghost use Rattle.c25_text.specs.View.{piece_of};
ghost use Rattle.c25_expr.specs.Pieces.{pieces_of};

use c25_expr::directive_operands::{is_string, string_in};
use c25_meaning_common::failure::Failure;
use c25_meaning_language::statement::FaultKind;
use c25_module::is_section_name;
use c25_text::tokens::Token;
use std::alloc::Global;

/// Whether a token begins where another one ends, without a blank between them.
fn stands_behind(before: &Token<'_>, token: &Token<'_>) -> bool
    ensures { result ≡ says.stands_behind (piece_of before.now) (piece_of token.now) }
{
    token.start >= before.start && token.start - before.start == before.text.len()
}

/// The text of an operand's tokens; `OperandForm` (52) where there is no token, or a blank between two.
fn joined(alloc: Global, operand: &[Token<'_>]) -> Result<String, Failure<FaultKind>>
    ensures { Meets string_bytes (says.joined (pieces_of operand.now)) result }
{
    let [first, rest @ ..] = operand else {
        return Err(Failure::Fault(FaultKind::OperandForm));
    };
    let mut name = String::from_str(alloc, first.text)?;
    let mut last = first;
    for token in rest {
        if !stands_behind(last, token) {
            return Err(Failure::Fault(FaultKind::OperandForm));
        }
        name.push_str(token.text)?;
        last = token;
    }
    Ok(name)
}

/// The name that an operand gives: the content of a string, or else the operand's text.
fn said_in(alloc: Global, operand: &[Token<'_>]) -> Result<String, Failure<FaultKind>>
    ensures { Meets string_bytes (says.said_in (pieces_of operand.now)) result }
{
    if is_string(operand) {
        string_in(alloc, operand)
    } else {
        joined(alloc, operand)
    }
}

/// The section that an operand names; `OperandForm` (52) where the operand is no section's name.
pub fn section_in(alloc: Global, operand: &[Token<'_>]) -> Result<String, Failure<FaultKind>>
    ensures { Meets string_bytes (says.section_in (pieces_of operand.now)) result }
{
    let name = said_in(alloc, operand)?;
    if is_section_name(name.as_bytes()) {
        Ok(name)
    } else {
        Err(Failure::Fault(FaultKind::OperandForm))
    }
}
