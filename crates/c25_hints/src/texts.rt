//! Remarks on the text of a line (10 to 13), by the part that is refused.

ghost use Rattle.std.specs.Prelude.{◌≡◌, ◌==◌, ◌<◌, IfOk, length};
ghost use Rattle.std.specs.List.{list_any};
ghost use Rattle.std.specs.Option.{option_map};
ghost use Rattle.c25_hints.specs.Remark.{remark_of};
ghost use Rattle.c25_hints.specs.Texts as texts;
ghost use Rattle.c25_places.specs.Refused.{IsWithin};

use crate::cause::Cause;
use crate::hint::Hint;
use c25_meaning_common::bytes::{begins_name, byte_at, is_blank, is_digit};
use c25_meaning_common::digits::are_digits;
use c25_meaning_common::no_memory::NoMemory;
use c25_meaning_language::statement::FaultKind;
use c25_places::laws::parts_lie_in_their_lines;
use c25_places::{Part, refused_part};
use std::alloc::Global;

/// Whether a byte is below 20h, or 7Fh.
fn is_control(byte: u8) -> bool
    ensures { result ≡ texts.is_control byte }
{
    byte < b' ' || byte == 127
}

/// Whether a text has a byte.
fn has_byte(text: &[u8], byte: u8) -> bool
    ensures { result ≡ list_any (λ c. c == byte) text.now }
{
    text.iter().any(|c| *c == byte)
}

/// Why a text that has this byte first is no label.
fn label_cause(first: u8, text: &[u8]) -> Cause
    ensures { result ≡ texts.label_cause first text.now }
{
    if is_blank(first) {
        Cause::NoLabel
    } else if first == 26 {
        Cause::ControlZ
    } else if is_control(first) {
        Cause::ControlCharacter
    } else if first == b'.' {
        Cause::DirectiveAsLabel
    } else if first == b'$' {
        Cause::LocalLabel
    } else if is_digit(first) {
        Cause::LabelWithDigit
    } else if has_byte(text, b':') {
        Cause::LabelWithColon
    } else if text.len() > 128 {
        Cause::LongName
    } else {
        Cause::StrayInName
    }
}

/// What a constant with this last byte may have for digits.
fn digits_cause(last: u8) -> Cause
    ensures { result ≡ texts.digits_cause last }
{
    if last == b'h' || last == b'H' {
        Cause::HexadecimalDigits
    } else if last == b'q' || last == b'Q' {
        Cause::OctalDigits
    } else if last == b'b' || last == b'B' {
        Cause::BinaryDigits
    } else {
        Cause::DecimalDigits
    }
}

/// Why a text is no constant.
fn constant_cause(text: &[u8]) -> Cause
    ensures { result ≡ texts.constant_cause text.now }
{
    let second = byte_at(text, 1);
    if second == b'x' || second == b'X' {
        Cause::HexadecimalByX
    } else if are_digits(16, text) {
        Cause::HexadecimalAlone
    } else {
        digits_cause(byte_at(text, text.len().saturating_sub(1)))
    }
}

/// Why the quote at a place is not closed.
fn quote_cause(text: &[u8], at: usize) -> Cause
    requires { at < length text.now }
    ensures { result ≡ texts.quote_cause text.now at }
{
    if byte_at(text, at) == b'"' {
        Cause::OpenString
    } else if begins_name(byte_at(text, at.saturating_sub(1))) {
        Cause::Apostrophe
    } else if has_byte(&text[at + 1..], b'\'') {
        Cause::ManyCharacters
    } else {
        Cause::OpenCharacter
    }
}

/// Why a character may not stand there, by its byte and the next one.
fn stray_cause(byte: u8, next: u8) -> Option<Cause>
    ensures { result ≡ texts.stray_cause byte next }
{
    if byte == 26 {
        Some(Cause::ControlZ)
    } else if is_control(byte) {
        Some(Cause::ControlCharacter)
    } else if byte == b'#' {
        Some(Cause::NumberSign)
    } else if byte == b'@' {
        Some(Cause::AtSign)
    } else if byte == b'!' {
        Some(Cause::Exclamation)
    } else if byte == b'.' && is_digit(next) {
        Some(Cause::Fraction)
    } else if byte == b'?' || byte == b':' {
        Some(Cause::Unsubstituted)
    } else if byte > 127 {
        Some(Cause::BeyondAscii)
    } else {
        None
    }
}

/// Why a part of a text is refused with this fault.
fn cause_of(kind: FaultKind, text: &[u8], part: Part) -> Option<Cause>
    requires { IsWithin text.now part }
    ensures { result ≡ texts.cause_of kind text.now part }
{
    let first = byte_at(text, part.start);
    match kind {
        FaultKind::BadLabel => Some(label_cause(first, &text[part.start..part.end])),
        FaultKind::BadConstant => Some(constant_cause(&text[part.start..part.end])),
        FaultKind::OpenQuote => Some(quote_cause(text, part.start)),
        FaultKind::StrayText => stray_cause(first, byte_at(text, part.start + 1)),
        _ => None,
    }
}

/// The remark on the text of a line that is refused with this fault.
pub(crate) fn of_text(
    alloc: Global,
    text: &str,
    kind: FaultKind,
) -> Result<Option<Hint<'static>>, NoMemory>
    ensures { IfOk result (λ o. option_map remark_of o ≡ texts.of_text text.now kind) }
{
    parts_lie_in_their_lines();
    let Some(part) = refused_part(alloc, text, kind)? else {
        return Ok(None);
    };
    match cause_of(kind, text.as_bytes(), part) {
        Some(cause) => Ok(Some(Hint::plain(cause))),
        None => Ok(None),
    }
}
