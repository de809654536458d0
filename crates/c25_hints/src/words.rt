//! Remarks on a word that is no mnemonic, directive or macro (50).

ghost use Rattle.std.specs.Prelude.{◌≡◌, IfOk};
ghost use Rattle.std.specs.Option.{option_map};
ghost use Rattle.c25_text.specs.View.{part_of, piece_of};
ghost use Rattle.c25_expr.specs.Pieces.{pieces_of};
ghost use Rattle.c25_hints.specs.Remark.{remark_of};
ghost use Rattle.c25_hints.specs.Words as words;

use crate::cause::Cause;
use crate::hint::Hint;
use crate::tables::{instead_of, is_without_dot};
use crate::values::same_letters;
use c25_expr::operands::operands_of;
use c25_meaning_common::bytes::{begins_name, byte_at};
use c25_meaning_common::failure::Failure;
use c25_meaning_common::no_memory::NoMemory;
use c25_meaning_language::line::TokenKind;
use c25_statements::{operation_of, spelled};
use c25_text::line::{Word, first_word};
use c25_text::tokens::Token;
use std::alloc::Global;

/// The directives whose operands may be fractions.
static FLOATS: [&str; 2] = [".float", ".bfloat"];

/// Whether a word is a mnemonic, in either case.
fn is_mnemonic(word: &str) -> bool
    ensures { result ≡ words.is_mnemonic word.now }
{
    spelled(word).is_ok()
}

/// A mnemonic in column 1, where it is a label.
fn of_label<'a>(label: Option<&'a str>) -> Option<Hint<'a>>
    ensures { option_map remark_of result ≡ words.of_label (option_map (λ s. s.now) label.entry) }
{
    match label {
        Some(label) if is_mnemonic(label) => Some(Hint::about(Cause::MnemonicAsLabel, label)),
        _ => None,
    }
}

/// Whether a word is a mnemonic that takes these tokens for its operands.
fn is_instruction(alloc: Global, word: &str, operands: &[Token<'_>]) -> Result<bool, NoMemory>
    ensures { IfOk result (λ b. b ≡ words.is_instruction word.now (pieces_of operands.now)) }
{
    let Ok(spelling) = spelled(word) else {
        return Ok(false);
    };
    let operands = operands_of(alloc, operands)?;
    match operation_of(alloc, spelling, operands.as_slice()) {
        Ok(_) => Ok(true),
        Err(Failure::Fault(_)) => Ok(false),
        Err(Failure::NoMemory(error)) => Err(error),
    }
}

/// Whether a token and those after it are an instruction, or begin with a dot as a directive does.
fn is_statement(alloc: Global, first: &Token<'_>, after: &[Token<'_>]) -> Result<bool, NoMemory>
    ensures { IfOk result (λ b. b ≡ words.is_statement first.now.kind first.now.text.now (pieces_of after.now)) }
{
    match first.kind {
        TokenKind::DottedName => Ok(true),
        TokenKind::Name => is_instruction(alloc, first.text, after),
        _ => Ok(false),
    }
}

/// Whether a word begins as names do.
fn is_name(word: &str) -> bool
    ensures { result ≡ words.is_name word.now }
{
    begins_name(byte_at(word.as_bytes(), 0))
}

/// A name with a statement after it: a label that does not begin in column 1.
fn of_statement<'a>(
    alloc: Global,
    word: &'a str,
    tokens: &[Token<'_>],
) -> Result<Option<Hint<'a>>, NoMemory>
    ensures { IfOk result (λ o. option_map remark_of o ≡ words.of_statement word.now (pieces_of tokens.now)) }
{
    let Some((first, after)) = tokens.split_first() else {
        return Ok(None);
    };
    if is_name(word) && is_statement(alloc, first, after)? {
        Ok(Some(Hint::about(Cause::LabelAsMnemonic, word)))
    } else {
        Ok(None)
    }
}

/// A word of another assembler, with what is written here.
fn of_other<'a>(word: &'a str) -> Option<Hint<'a>>
    ensures { option_map remark_of result ≡ words.of_other word.now }
{
    match instead_of(word) {
        Some(more) => Some(Hint {
            cause: Cause::Instead,
            word,
            more,
        }),
        None => None,
    }
}

/// The same, where the word is a directive of fractions.
fn of_floating<'a>(word: &'a str) -> Option<Hint<'a>>
    ensures { option_map remark_of result ≡ words.of_floating word.now }
{
    if same_letters(&FLOATS, word).is_some() {
        of_other(word)
    } else {
        None
    }
}

/// The remark on a line of which a constant or a character is refused, where the word of the line is a directive
/// of fractions.
pub(crate) fn of_float<'a>(text: &'a str) -> Option<Hint<'a>>
    ensures { option_map remark_of result ≡ words.of_float text.now }
{
    match first_word(text) {
        Some(word) => of_floating(word),
        None => None,
    }
}

/// Whether there are operands.
fn has_some(tokens: &[Token<'_>]) -> bool
    ensures { result ≡ words.has_some (pieces_of tokens.now) }
{
    match tokens {
        [] => false,
        _ => true,
    }
}

/// A directive without its dot, by whether operands follow.
fn of_directive<'a>(operands: bool, word: &'a str) -> Option<Hint<'a>>
    ensures { option_map remark_of result ≡ words.of_directive operands word.now }
{
    if is_without_dot(operands, word) {
        Some(Hint::about(Cause::DirectiveWithoutDot, word))
    } else {
        None
    }
}

/// The first of these remarks on a word that there is.
fn of_text<'a>(
    alloc: Global,
    label: Option<&'a str>,
    word: &'a str,
    tokens: &[Token<'_>],
) -> Result<Option<Hint<'a>>, NoMemory>
    ensures { IfOk result (λ o. option_map remark_of o ≡ words.of_text (option_map (λ s. s.now) label.entry) word.now (pieces_of tokens.now)) }
{
    let statement = of_statement(alloc, word, tokens)?;
    let operands = has_some(tokens);
    Ok(
        of_label(label)
            .or(statement)
            .or(of_other(word))
            .or(of_directive(operands, word)),
    )
}

/// The remark on the mnemonic field of a line with this label and these tokens of operands.
pub(crate) fn of_word<'a>(
    alloc: Global,
    label: Option<&'a str>,
    word: Option<Word<'a>>,
    tokens: &[Token<'_>],
) -> Result<Option<Hint<'a>>, NoMemory>
    ensures { IfOk result (λ o. option_map remark_of o ≡ words.of_word (option_map (λ s. s.now) label.entry) (option_map part_of word.entry) (pieces_of tokens.now)) }
{
    match word {
        Some(word) => of_text(alloc, label, word.text, tokens),
        None => Ok(None),
    }
}
