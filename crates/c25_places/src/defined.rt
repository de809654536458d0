//! The name that a line defines, where it has a value already (26).

ghost use Rattle.std.specs.Prelude.{◌≡◌, ◌-◌, ◌&&◌, ◌^◌, IfOk, Some, is_some};
ghost use Rattle.std.specs.Option.{option_map};
ghost use Rattle.c25_meaning_language.specs.DirectiveOperands.{is_name};
ghost use Rattle.c25_meaning_language.specs.Line.{label_in};
ghost use Rattle.c25_meaning_language.specs.Operands as lists;
ghost use Rattle.c25_meaning_language.specs.Value.{predefined, value_named};
ghost use Rattle.c25_expr.specs.Pieces.{pieces_of};
ghost use Rattle.c25_places.specs.Defined as defined;
ghost use Rattle.c25_places.specs.Refused.{AreWithin, piece_part};

use crate::fields::{label_part, word_part};
use crate::part::Part;
use crate::tokens::token_part;
use crate::value_faults::value_of;
use c25_expr::Symbols;
use c25_expr::operands::operands_of;
use c25_expr::symbols::is_predefined;
use c25_meaning_assembly::assembly::Directive;
use c25_meaning_common::no_memory::NoMemory;
use c25_meaning_language::line::{Sign, TokenKind};
use c25_meaning_language::value::{Base, Value};
use c25_text::line::label_in;
use c25_text::tokens::Token;
use std::alloc::Global;

/// Whether a token is a predefined name.
fn is_register(token: &Token<'_>) -> bool
    ensures { result ≡ (is_name token.now.kind && is_some (predefined token.now.text.now)) }
{
    match token.kind {
        TokenKind::Name => is_predefined(token.text),
        _ => false,
    }
}

/// The part of the first token that is a predefined name.
fn predefined_part(tokens: &[Token<'_>]) -> Option<Part>
    requires { AreWithin 0 (2 ^ 64 - 1) (pieces_of tokens.now) }
    ensures { result ≡ option_map piece_part (defined.predefined_in (pieces_of tokens.now)) }
{
    for token in tokens {
        if is_register(token) {
            return Some(token_part(token));
        }
    }
    None
}

/// Whether a token is a name with a value.
fn stands(symbols: &Symbols, token: &Token<'_>) -> bool
    ensures { result ≡ (is_name token.now.kind && is_some (value_named symbols.now token.now.text.now)) }
{
    match token.kind {
        TokenKind::Name => symbols.get(token.text).is_some(),
        _ => false,
    }
}

/// The part of the first token that is a name with a value.
fn standing_part(symbols: &Symbols, tokens: &[Token<'_>]) -> Option<Part>
    requires { AreWithin 0 (2 ^ 64 - 1) (pieces_of tokens.now) }
    ensures { result ≡ option_map piece_part (defined.standing_in symbols.now (pieces_of tokens.now)) }
{
    for token in tokens {
        if stands(symbols, token) {
            return Some(token_part(token));
        }
    }
    None
}

/// The part of the name in the first operand, where it has a value.
fn first_standing(
    alloc: Global,
    symbols: &Symbols,
    tokens: &[Token<'_>],
) -> Result<Option<Part>, NoMemory>
    requires { AreWithin 0 (2 ^ 64 - 1) (pieces_of tokens.now) }
    ensures { IfOk result (λ part. part ≡ option_map piece_part (defined.first_standing symbols.now (lists.operands_of (pieces_of tokens.now)))) }
{
    let operands = operands_of(alloc, tokens)?;
    match operands.as_slice().first() {
        Some(first) => Ok(standing_part(symbols, first)),
        None => Ok(None),
    }
}

/// The part of the name among the operands that a line with this directive defines or declares, and may not.
fn named_part(
    alloc: Global,
    symbols: &Symbols,
    directive: Option<Directive>,
    tokens: &[Token<'_>],
) -> Result<Option<Part>, NoMemory>
    requires { AreWithin 0 (2 ^ 64 - 1) (pieces_of tokens.now) }
    ensures { IfOk result (λ part. part ≡ option_map piece_part (defined.named_in symbols.now directive (pieces_of tokens.now))) }
{
    match directive {
        Some(Directive::Bss | Directive::Label) => first_standing(alloc, symbols, tokens),
        Some(Directive::Global | Directive::Def) => Ok(predefined_part(tokens)),
        _ => Ok(None),
    }
}

/// The part of what a line defines where it has no such operand.
fn field_defined(directive: Option<Directive>, text: &[u8]) -> Option<Part>
    ensures { result ≡ defined.field_defined directive text.now }
{
    match directive {
        Some(Directive::Registers) => word_part(text),
        _ => label_part(text),
    }
}

/// Whether two places are the same one of a section.
fn is_same_place(base: Base, other: Base) -> bool
    ensures { result ≡ defined.is_same_place base other }
{
    match (base, other) {
        (Base::Section(section), Base::Section(same)) => section == same,
        _ => false,
    }
}

/// Whether a value is that of a label of a line that begins at this place.
fn is_at(here: Option<Value>, value: Value) -> bool
    ensures { result ≡ defined.is_at here value }
{
    match here {
        Some(here) => is_same_place(value.base, here.base) && value.offset == here.offset,
        None => false,
    }
}

/// The current place: what `$` stands for.
fn current_place(alloc: Global, symbols: &Symbols) -> Result<Option<Value>, NoMemory>
    ensures { IfOk result (λ here. here ≡ Some symbols.now.here) }
{
    let dollar = Token {
        kind: TokenKind::Sign(Sign::Dollar),
        start: 0,
        text: "$",
    };
    value_of(alloc, symbols, &[dollar])
}

/// Whether a name stands for something other than a label of this line.
fn stands_elsewhere(alloc: Global, symbols: &Symbols, name: &str) -> Result<bool, NoMemory>
    ensures { IfOk result (λ b. b ≡ defined.stands_elsewhere symbols.now name.now) }
{
    let here = current_place(alloc, symbols)?;
    match symbols.get(name) {
        Some(value) => Ok(!is_at(here, value)),
        None => Ok(false),
    }
}

/// Whether the label of a line had a value before the line.
fn has_old_label(alloc: Global, symbols: &Symbols, text: &str) -> Result<bool, NoMemory>
    ensures { IfOk result (λ b. b ≡ defined.is_old symbols.now (label_in text.now)) }
{
    match label_in(text) {
        Ok(Some(label)) => stands_elsewhere(alloc, symbols, label),
        _ => Ok(false),
    }
}

/// The part of the name that a line defines, where it has a value already: its label comes first.
pub(crate) fn defined_part(
    alloc: Global,
    symbols: &Symbols,
    directive: Option<Directive>,
    text: &str,
    tokens: &[Token<'_>],
) -> Result<Option<Part>, NoMemory>
    requires { AreWithin 0 (2 ^ 64 - 1) (pieces_of tokens.now) }
    ensures { IfOk result (λ part. part ≡ defined.defined_part symbols.now directive text.now (pieces_of tokens.now)) }
{
    if has_old_label(alloc, symbols, text)? {
        return Ok(label_part(text.as_bytes()));
    }
    match named_part(alloc, symbols, directive, tokens)? {
        Some(part) => Ok(Some(part)),
        None => Ok(field_defined(directive, text.as_bytes())),
    }
}
