//! The part of a line where it is refused.

ghost use Rattle.std.specs.Prelude.{◌≡◌, ◌-◌, ◌^◌, IfOk, Ok};
ghost use Rattle.std.specs.Option.{option_map};
ghost use Rattle.c25_meaning_language.specs.Line as parts;
ghost use Rattle.c25_text.specs.View.{part_of, parts_of};
ghost use Rattle.c25_expr.specs.Pieces.{pieces_of, operands_view};
ghost use Rattle.c25_meaning_language.specs.declared.statement.FaultKind.{FaultKind};
ghost use Rattle.c25_places.specs.Refused as refused;

use crate::fields::{blank_part, first_part, label_part, operand_at, word_or_label, word_part};
use crate::operand_faults::has_fault;
use crate::part::Part;
use crate::room::room_part;
use crate::text_part::text_part;
use crate::tokens::{operand_part, part_of};
use crate::wanted::{Operation, wants};
use crate::whole_lines::{long_part, opener_part};
use c25_expr::operands::{operands_of, tokens_of};
use c25_meaning_assembly::assembly::Directive;
use c25_meaning_common::bytes::{byte_at, is_blank};
use c25_meaning_common::no_memory::NoMemory;
use c25_meaning_language::statement::FaultKind;
use c25_statements::{directive_in, names_label, spelled};
use c25_text::line::{Line, Word, split_line};
use c25_text::tokens::Token;
use std::alloc::Global;

/// How many parameters a macro can have.
const MOST_PARAMETERS: usize = 32;

/// The first operand of a line, whatever its values, that has this fault of 52, 20 and 21 by itself where the line
/// does this, and its index, counted from 0. `NoMemory` (9) where memory runs out.
#[tactic(auto, unfolding(crate::specs::Refused::first_refused))]
pub fn first_refused<'b, 'a>(
    alloc: Global,
    kind: FaultKind,
    operation: Operation,
    operands: &[&'b [Token<'a>]],
) -> Result<Option<(usize, &'b [Token<'a>])>, NoMemory>
    ensures { IfOk result (λ o. option_map (λ r. (r.0, pieces_of r.1.now)) o ≡ refused.first_refused kind operation 0 (operands_view operands.now)) }
{
    for (index, operand) in operands.iter().enumerate() {
        if has_fault(alloc, kind, wants(operation, index), operand)? {
            return Ok(Some((index, operand)));
        }
    }
    Ok(None)
}

/// The part of the first operand that has this fault.
fn refused_in(
    alloc: Global,
    kind: FaultKind,
    operation: Operation,
    tokens: &[Token<'_>],
) -> Result<Option<Part>, NoMemory>
    requires { refused.AreWithin 0 (2 ^ 64 - 1) (pieces_of tokens.now) }
    ensures { IfOk result (λ part. part ≡ refused.refused_in kind operation (pieces_of tokens.now)) }
{
    let operands = operands_of(alloc, tokens)?;
    match first_refused(alloc, kind, operation, operands.as_slice())? {
        Some((index, operand)) => Ok(operand_part(tokens, index, operand)),
        None => Ok(None),
    }
}

/// The part of a line that expansion acts on, as `.if` and `.copy`.
fn expansion_part(
    alloc: Global,
    kind: FaultKind,
    tokens: &[Token<'_>],
) -> Result<Option<Part>, NoMemory>
    requires { refused.AreWithin 0 (2 ^ 64 - 1) (pieces_of tokens.now) }
    ensures { IfOk result (λ part. part ≡ refused.expansion_part kind (pieces_of tokens.now)) }
{
    match kind {
        FaultKind::OperandForm => Ok(part_of(tokens)),
        FaultKind::BadExpression
        | FaultKind::TooDeep
        | FaultKind::Undefined
        | FaultKind::DivideByZero
        | FaultKind::NotAbsolute
        | FaultKind::ValueRange => first_part(alloc, tokens),
        _ => Ok(None),
    }
}

/// The part of a line whose operands are each what they have to be.
fn section_part(
    alloc: Global,
    kind: FaultKind,
    tokens: &[Token<'_>],
) -> Result<Option<Part>, NoMemory>
    requires { refused.AreWithin 0 (2 ^ 64 - 1) (pieces_of tokens.now) }
    ensures { IfOk result (λ part. part ≡ refused.section_part kind (pieces_of tokens.now)) }
{
    match kind {
        FaultKind::OperandForm => first_part(alloc, tokens),
        _ => Ok(None),
    }
}

/// The part of a line by what it does; expansion acts on one that does nothing else.
fn operation_part(
    alloc: Global,
    kind: FaultKind,
    operation: Option<Operation>,
    tokens: &[Token<'_>],
) -> Result<Option<Part>, NoMemory>
    requires { refused.AreWithin 0 (2 ^ 64 - 1) (pieces_of tokens.now) }
    ensures { IfOk result (λ part. part ≡ refused.operation_part kind (pieces_of tokens.now) operation) }
{
    let Some(operation) = operation else {
        return expansion_part(alloc, kind, tokens);
    };
    match refused_in(alloc, kind, operation, tokens)? {
        Some(part) => Ok(Some(part)),
        None => section_part(alloc, kind, tokens),
    }
}

/// The instruction of a mnemonic field, if there is one.
fn instruction_in(word: Option<Word<'_>>) -> Option<Operation>
    ensures { result ≡ refused.instruction_in (option_map part_of word.entry) }
{
    match word {
        Some(word) => match spelled(word.text) {
            Ok(spelling) => Some(Operation::Runs(spelling)),
            Err(_) => None,
        },
        None => None,
    }
}

/// What a line does: its directive, or else its instruction.
pub(crate) fn operation_in(
    directive: Option<Directive>,
    word: Option<Word<'_>>,
) -> Option<Operation>
    ensures { result ≡ refused.operation_in directive (option_map part_of word.entry) }
{
    match directive {
        Some(directive) => Some(Operation::Does(directive)),
        None => instruction_in(word),
    }
}

/// The part of a line for which there is no room.
fn full_part(
    alloc: Global,
    text: &str,
    operation: Option<Operation>,
    tokens: &[Token<'_>],
) -> Result<Option<Part>, NoMemory>
    requires { refused.AreWithin 0 (2 ^ 64 - 1) (pieces_of tokens.now) }
    ensures { IfOk result (λ part. part ≡ refused.tokens_part FaultKind.TooLarge text.now operation (pieces_of tokens.now)) }
{
    match room_part(alloc, operation, tokens)? {
        Some(part) => Ok(Some(part)),
        None => Ok(word_or_label(text.as_bytes())),
    }
}

/// The part of a line that does this and has these tokens.
fn tokens_part(
    alloc: Global,
    kind: FaultKind,
    text: &str,
    operation: Option<Operation>,
    tokens: &[Token<'_>],
) -> Result<Option<Part>, NoMemory>
    requires { refused.AreWithin 0 (2 ^ 64 - 1) (pieces_of tokens.now) }
    ensures { IfOk result (λ part. part ≡ refused.tokens_part kind text.now operation (pieces_of tokens.now)) }
{
    match kind {
        FaultKind::OperandCount => Ok(part_of(tokens).or(word_part(text.as_bytes()))),
        FaultKind::NoFile => operand_at(alloc, tokens, 0),
        FaultKind::TooManyParameters => operand_at(alloc, tokens, MOST_PARAMETERS),
        FaultKind::TooLarge => full_part(alloc, text, operation, tokens),
        FaultKind::BadBlock => operand_at(alloc, tokens, 1),
        _ => operation_part(alloc, kind, operation, tokens),
    }
}

/// The part of a line whose text has no fault.
fn statement_part(
    alloc: Global,
    kind: FaultKind,
    directive: Option<Directive>,
    text: &str,
    line: &Line<'_>,
) -> Result<Option<Part>, NoMemory>
    requires { parts.line_of text.now ≡ Ok (parts_of line.now) }
    ensures { IfOk result (λ part. part ≡ refused.statement_part kind directive text.now (parts_of line.now)) }
{
    if let FaultKind::BadLabel = kind {
        return Ok(blank_part(text.as_bytes()));
    }
    if let FaultKind::UnknownMnemonic = kind {
        return Ok(word_part(text.as_bytes()));
    }
    let tokens = tokens_of(alloc, line)?;
    let operation = operation_in(directive, line.word);
    tokens_part(alloc, kind, text, operation, tokens.as_slice())
}

/// Whether a line has a blank where its directive needs a label.
fn lacks_label(directive: Option<Directive>, text: &str) -> bool
    ensures { result ≡ refused.lacks_label directive text.now }
{
    names_label(directive) && is_blank(byte_at(text.as_bytes(), 0))
}

/// The part of a line whose text has a fault: that of the text for 10 to 13, else the mnemonic field or the label.
fn unread_part(kind: FaultKind, text: &str) -> Option<Part>
    ensures { result ≡ refused.unread_part kind text.now }
{
    match kind {
        FaultKind::BadLabel
        | FaultKind::BadConstant
        | FaultKind::OpenQuote
        | FaultKind::StrayText => text_part(text),
        _ => word_or_label(text.as_bytes()),
    }
}

/// The part of a line with this directive where it is refused with this fault.
#[tactic(auto, unfolding(crate::specs::Refused::part_in))]
fn part_in(
    alloc: Global,
    kind: FaultKind,
    directive: Option<Directive>,
    text: &str,
) -> Result<Option<Part>, NoMemory>
    ensures { IfOk result (λ part. part ≡ refused.part_in kind directive text.now) }
{
    if lacks_label(directive, text) {
        return Ok(Some(Part { start: 0, end: 1 }));
    }
    match split_line(text) {
        Ok(line) => statement_part(alloc, kind, directive, text, &line),
        Err(_) => Ok(unread_part(kind, text)),
    }
}

/// The part of a line where it is refused with this fault, where `read_statement` refuses it so: the text that
/// has the fault (10 to 13); the first word (50); all operands, or the first word where there are none (51);
/// the first operand that is not what it has to be, or else the name of a section that is of the other kind
/// (52); the first one whose expression has the fault (20, 21). Of a line for which there is no room (54) the operand
/// that says how much is reserved or which section begins, or else the first word or the label; of a block of `.bss`
/// (56) the operand that counts its words. Of a line that expansion refuses, as it stands in its file: the blank in
/// column 1 where `.macro` needs a label (10); all operands (51, 52); the first one, which is the expression, or the
/// comma after it where it has no token (20 to 25), or the name of a file (30); the first word of a line that begins a
/// block which nothing ends (31), and of any line for 32 and 33; the first parameter that is too many (35); the label
/// (36); the characters past the 1,024th byte, or all of the line where it has no more bytes (38). Where such a line
/// cannot be read before substitution it is its first word or its label. None for other faults. `NoMemory` (9) where
/// memory runs out.
pub fn refused_part(alloc: Global, text: &str, kind: FaultKind) -> Result<Option<Part>, NoMemory>
    ensures { IfOk result (λ part. part ≡ refused.refused_part text.now kind) }
{
    match kind {
        FaultKind::OpenBlock => Ok(opener_part(text)),
        FaultKind::StrayEnd | FaultKind::Depth => Ok(word_or_label(text.as_bytes())),
        FaultKind::Lines => Ok(None),
        FaultKind::Redefined => Ok(label_part(text.as_bytes())),
        FaultKind::LongLine => Ok(long_part(text.as_bytes())),
        _ => part_in(alloc, kind, directive_in(text), text),
    }
}
