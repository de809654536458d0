//! The parts of a line's fields: its label, its mnemonic field, its operands.

ghost use Rattle.std.specs.Prelude.{◌≡◌, ◌-◌, ◌^◌, IfOk};
ghost use Rattle.c25_meaning_language.specs.Operands as lists;
ghost use Rattle.c25_expr.specs.Pieces.{pieces_of};
ghost use Rattle.c25_places.specs.Refused as refused;

use crate::part::Part;
use crate::tokens::operand_part;
use c25_expr::operands::operands_of;
use c25_meaning_common::bytes::{byte_at, is_blank};
use c25_meaning_common::no_memory::NoMemory;
use c25_text::tokens::Token;
use c25_text::{past_blanks, past_field};
use std::alloc::Global;

/// The mnemonic field, if there is one.
pub(crate) fn word_part(text: &[u8]) -> Option<Part>
    ensures { result ≡ refused.word_part text.now }
{
    let start = past_blanks(text, past_field(text, 0));
    let end = past_field(text, start);
    if start < end {
        Some(Part { start, end })
    } else {
        None
    }
}

/// The label's field in column 1, with its colon, if there is one.
pub(crate) fn label_part(text: &[u8]) -> Option<Part>
    ensures { result ≡ refused.label_part text.now }
{
    let end = past_field(text, 0);
    if end > 0 {
        Some(Part { start: 0, end })
    } else {
        None
    }
}

/// The mnemonic field, or the label's field where there is none.
pub(crate) fn word_or_label(text: &[u8]) -> Option<Part>
    ensures { result ≡ refused.word_or_label text.now }
{
    word_part(text).or(label_part(text))
}

/// The blank in column 1 of a line, if there is one.
pub(crate) fn blank_part(text: &[u8]) -> Option<Part>
    ensures { result ≡ refused.blank_part text.now }
{
    if is_blank(byte_at(text, 0)) {
        Some(Part { start: 0, end: 1 })
    } else {
        None
    }
}

/// The part of the first operand, if there is one.
pub(crate) fn first_part(alloc: Global, tokens: &[Token<'_>]) -> Result<Option<Part>, NoMemory>
    requires { refused.AreWithin 0 (2 ^ 64 - 1) (pieces_of tokens.now) }
    ensures { IfOk result (λ part. part ≡ refused.first_part (pieces_of tokens.now) (lists.operands_of (pieces_of tokens.now))) }
{
    let operands = operands_of(alloc, tokens)?;
    match operands.as_slice().first() {
        Some(first) => Ok(operand_part(tokens, 0, first)),
        None => Ok(None),
    }
}

/// The part of the operand with an index, counted from 0, if there is one.
pub(crate) fn operand_at(
    alloc: Global,
    tokens: &[Token<'_>],
    index: usize,
) -> Result<Option<Part>, NoMemory>
    requires { refused.AreWithin 0 (2 ^ 64 - 1) (pieces_of tokens.now) }
    ensures { IfOk result (λ part. part ≡ refused.operand_at index (pieces_of tokens.now)) }
{
    let operands = operands_of(alloc, tokens)?;
    match operands.as_slice().get(index) {
        Some(operand) => Ok(operand_part(tokens, index, operand)),
        None => Ok(None),
    }
}
