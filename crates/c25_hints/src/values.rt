//! Remarks on a name that stands for nothing (22), on a number that is too large (53) and on an address where a
//! number is wanted (55).

ghost use Rattle.std.specs.Prelude.{◌≡◌, IfOk, map};
ghost use Rattle.std.specs.Option.{option_map};
ghost use Rattle.c25_meaning_assembly.specs.Sections.{register_names};
ghost use Rattle.c25_meaning_language.specs.Line as meaning;
ghost use Rattle.c25_meaning_language.specs.Line.{line_of};
ghost use Rattle.c25_meaning_language.specs.declared.statement.FaultKind.{FaultKind};
ghost use Rattle.c25_expr.specs.Pieces.{pieces_of};
ghost use Rattle.c25_hints.specs.Remark.{remark_of};
ghost use Rattle.c25_hints.specs.Values as values;

use crate::cause::Cause;
use crate::forms::form_of;
use crate::hint::Hint;
use crate::indirect::is_name;
use crate::operands::of_form;
use crate::tables::{is_spelled, longer_than};
use c25_expr::Symbols;
use c25_expr::operands::tokens_of;
use c25_meaning_common::digits::are_digits;
use c25_meaning_common::no_memory::NoMemory;
use c25_meaning_language::statement::FaultKind;
use c25_places::{Misfit, RefusedValue, refused_value};
use c25_text::line::{first_word, split_line};
use c25_text::tokens::Token;
use std::alloc::Global;

/// The names that `.mmregs` defines.
static REGISTERS: [&str; 6] = ["DRR", "DXR", "TIM", "PRD", "IMR", "GREG"];

/// The directives that need the values of their operands at once.
static AT_ONCE: [&str; 5] = [".set", ".equ", ".space", ".bss", ".usect"];

/// The instructions with a port.
static WITH_PORTS: [&str; 2] = ["IN", "OUT"];

/// The instructions that store the accumulator with a shift of 3 bits.
static WITH_STORES: [&str; 2] = ["SACL", "SACH"];

/// The names of symbols, in order of definition.
pub(crate) fn defined_names<'a>(
    alloc: Global,
    symbols: &'a Symbols,
) -> Result<Vec<&'a str>, NoMemory>
    ensures { IfOk result (λ v. map (λ n. n.now) v.items ≡ values.defined_names symbols.now) }
{
    let mut names = Vec::new(alloc);
    for number in 0..symbols.len() {
        let Some((name, _)) = symbols.entry(number) else {
            continue;
        };
        names.push(name)?;
    }
    Ok(names)
}

/// The first of these names with the letters of this one, in either case.
#[tactic(auto, unfolding(crate::specs::Values::same_letters))]
pub(crate) fn same_letters<'a>(names: &[&'a str], name: &str) -> Option<&'a str>
    ensures { option_map (λ n. n.now) result ≡ values.same_letters (map (λ n. n.now) names.now) name.now }
{
    for other in names {
        if is_spelled(other.as_bytes(), name.as_bytes()) {
            return Some(other);
        }
    }
    None
}

/// A name that is defined in other case.
pub(crate) fn of_case<'a>(names: &[&'a str], name: &str) -> Option<Hint<'a>>
    ensures { option_map remark_of result ≡ values.of_case (map (λ n. n.now) names.now) name.now }
{
    match same_letters(names, name) {
        Some(defined) => Some(Hint::about(Cause::OtherCase, defined)),
        None => None,
    }
}

/// Whether a name is hexadecimal digits with an `h` after them.
fn is_hexadecimal(name: &[u8]) -> bool
    ensures { result ≡ values.is_hexadecimal name.now }
{
    match name.split_last() {
        Some((b'h' | b'H', digits)) => are_digits(16, digits),
        _ => false,
    }
}

/// A name that is meant as a hexadecimal constant.
fn of_digits<'a>(name: &'a str) -> Option<Hint<'a>>
    ensures { option_map remark_of result ≡ values.of_digits name.now }
{
    if is_hexadecimal(name.as_bytes()) {
        Some(Hint::about(Cause::HexadecimalName, name))
    } else {
        None
    }
}

/// A name that `.mmregs` defines.
fn of_register(name: &str) -> Option<Hint<'static>>
    ensures { option_map remark_of result ≡ values.of_register name.now }
{
    match same_letters(&REGISTERS, name) {
        Some(register) => Some(Hint::about(Cause::RegisterName, register)),
        None => None,
    }
}

/// Whether two letters are AR or PA, in either case.
fn begins_register(first: u8, second: u8) -> bool
    ensures { result ≡ values.begins_register first second }
{
    ((first == b'A' || first == b'a') && (second == b'R' || second == b'r'))
        || ((first == b'P' || first == b'p') && (second == b'A' || second == b'a'))
}

/// Whether a name is AR or PA and a decimal number.
fn is_numbered(name: &[u8]) -> bool
    ensures { result ≡ values.is_numbered name.now }
{
    match name {
        [first, second, digits @ ..] => begins_register(*first, *second) && are_digits(10, digits),
        _ => false,
    }
}

/// A name like those of auxiliary registers and ports.
fn of_numbered<'a>(name: &'a str) -> Option<Hint<'a>>
    ensures { option_map remark_of result ≡ values.of_numbered name.now }
{
    if is_numbered(name.as_bytes()) {
        Some(Hint::about(Cause::NoSuchRegister, name))
    } else {
        None
    }
}

/// The remark on a name that stands for nothing, where these are defined.
fn of_name<'a>(names: &[&'a str], name: &'a str) -> Option<Hint<'a>>
    ensures { option_map remark_of result ≡ values.of_name (map (λ n. n.now) names.now) name.now }
{
    of_case(names, name)
        .or(of_digits(name))
        .or(of_register(name))
        .or(of_numbered(name))
}

/// The name that begins at a place, among tokens.
#[tactic(auto, unfolding(crate::specs::Values::name_at))]
fn name_at<'a>(start: usize, tokens: &[Token<'a>]) -> Option<&'a str>
    ensures { option_map (λ n. n.now) result ≡ values.name_at start (pieces_of tokens.now) }
{
    for token in tokens {
        if is_name(token.kind) && token.start == start {
            return Some(token.text);
        }
    }
    None
}

/// The name that begins at a place of a line.
pub(crate) fn name_in<'a>(
    alloc: Global,
    start: usize,
    text: &'a str,
) -> Result<Option<&'a str>, NoMemory>
    ensures { IfOk result (λ o. option_map (λ n. n.now) o ≡ values.name_in start (line_of text.now)) }
{
    match split_line(text) {
        Ok(line) => {
            let tokens = tokens_of(alloc, &line)?;
            Ok(name_at(start, tokens.as_slice()))
        }
        Err(_) => Ok(None),
    }
}

/// The name of a line that stands for nothing.
pub(crate) fn refused_name<'a>(
    alloc: Global,
    text: &'a str,
    symbols: &Symbols,
) -> Result<Option<&'a str>, NoMemory>
    ensures { IfOk result (λ o. option_map (λ n. n.now) o ≡ values.refused_name text.now symbols.now) }
{
    match refused_value(alloc, text, FaultKind::Undefined, symbols)? {
        Some(refused) => name_in(alloc, refused.part.start, text),
        None => Ok(None),
    }
}

/// The remark on a line of which a name is refused (22).
pub(crate) fn undefined<'a>(
    alloc: Global,
    text: &'a str,
    symbols: &'a Symbols,
) -> Result<Option<Hint<'a>>, NoMemory>
    ensures { IfOk result (λ o. option_map remark_of o ≡ values.undefined text.now symbols.now) }
{
    let names = defined_names(alloc, symbols)?;
    match refused_name(alloc, text, symbols)? {
        Some(name) => Ok(of_name(names.as_slice(), name)),
        None => Ok(None),
    }
}

/// Whether a line has a directive that needs the values of its operands at once.
fn is_at_once(word: Option<&str>) -> bool
    ensures { result ≡ values.is_at_once (option_map (λ s. s.now) word.entry) }
{
    match word {
        Some(word) => same_letters(&AT_ONCE, word).is_some(),
        None => false,
    }
}

/// The remark on a line of which a name is refused (22), where its value is needed at once.
pub(crate) fn needed_at_once<'a>(
    alloc: Global,
    text: &'a str,
    symbols: &Symbols,
) -> Result<Option<Hint<'a>>, NoMemory>
    ensures { IfOk result (λ o. option_map remark_of o ≡ values.needed_at_once text.now symbols.now) }
{
    if !is_at_once(first_word(text)) {
        return Ok(None);
    }
    match refused_name(alloc, text, symbols)? {
        Some(name) => Ok(Some(Hint::about(Cause::NeededAtOnce, name))),
        None => Ok(None),
    }
}

/// The remark on a line of which a name is refused (22), like which there is none.
pub(crate) fn nowhere_defined<'a>(
    alloc: Global,
    text: &'a str,
    symbols: &Symbols,
) -> Result<Option<Hint<'a>>, NoMemory>
    ensures { IfOk result (λ o. option_map remark_of o ≡ values.nowhere_defined text.now symbols.now) }
{
    match refused_name(alloc, text, symbols)? {
        Some(name) => Ok(Some(Hint::about(Cause::NowhereDefined, name))),
        None => Ok(None),
    }
}

/// What takes a longer number than eight bits.
fn of_word(word: &str) -> Option<Hint<'static>>
    ensures { option_map remark_of result ≡ values.of_word word.now }
{
    match longer_than(word) {
        Some(other) => Some(Hint::about(Cause::Longer, other)),
        None => None,
    }
}

/// The form of an instruction with a port.
fn of_port<'a>(word: &'a str) -> Option<Hint<'a>>
    ensures { option_map remark_of result ≡ values.of_port word.now }
{
    if same_letters(&WITH_PORTS, word).is_some() {
        let form = form_of(word)?;
        Some(of_form(word, form))
    } else {
        None
    }
}

/// What to do in place of a larger shift.
fn of_store(word: &str) -> Option<Hint<'static>>
    ensures { option_map remark_of result ≡ values.of_store word.now }
{
    let store = same_letters(&WITH_STORES, word)?;
    Some(Hint::about(Cause::ShiftBefore, store))
}

/// The remark on a number that does not go into 8, 4 or 3 bits, in a line with this word.
fn misfit_in<'a>(word: &'a str, most: i32) -> Option<Hint<'a>>
    ensures { option_map remark_of result ≡ values.misfit_in word.now most }
{
    if most == 255 {
        of_word(word)
    } else if most == 15 {
        of_port(word)
    } else if most == 7 {
        of_store(word)
    } else {
        None
    }
}

/// The same in a line that may have no word.
fn of_misfit<'a>(word: Option<&'a str>, misfit: Misfit) -> Option<Hint<'a>>
    ensures { option_map remark_of result ≡ values.of_misfit (option_map (λ s. s.now) word.entry) misfit }
{
    misfit_in(word?, misfit.most)
}

/// The remark on a line of which a number is refused (53).
pub(crate) fn out_of_range<'a>(
    alloc: Global,
    text: &'a str,
    symbols: &Symbols,
) -> Result<Option<Hint<'a>>, NoMemory>
    ensures { IfOk result (λ o. option_map remark_of o ≡ values.out_of_range text.now symbols.now) }
{
    match refused_value(alloc, text, FaultKind::FieldRange, symbols)? {
        Some(
            RefusedValue {
                misfit: Some(misfit),
                ..
            },
        ) => Ok(of_misfit(first_word(text), misfit)),
        _ => Ok(None),
    }
}

/// Whether one of these tokens stands at a place or after it.
fn goes_on(place: usize, tokens: &[Token<'_>]) -> bool
    ensures { result ≡ values.goes_on place (pieces_of tokens.now) }
{
    for token in tokens {
        if place <= token.start {
            return true;
        }
    }
    false
}

/// What takes an address, in a line that may have no word.
fn of_taker(word: Option<&str>) -> Option<Hint<'static>>
    ensures { option_map remark_of result ≡ values.of_taker (option_map (λ s. s.now) word.entry) }
{
    let taker = longer_than(word?)?;
    Some(Hint::about(Cause::TakesAddress, taker))
}

/// The same in a line whose last operand ends at a place.
fn of_address(alloc: Global, end: usize, text: &str) -> Result<Option<Hint<'static>>, NoMemory>
    ensures { IfOk result (λ o. option_map remark_of o ≡ values.of_address end (line_of text.now) (meaning.first_word text.now)) }
{
    let Ok(line) = split_line(text) else {
        return Ok(None);
    };
    let tokens = tokens_of(alloc, &line)?;
    if goes_on(end, tokens.as_slice()) {
        Ok(None)
    } else {
        Ok(of_taker(first_word(text)))
    }
}

/// The remark on a line of which an address is refused (55).
pub(crate) fn relocated(
    alloc: Global,
    text: &str,
    symbols: &Symbols,
) -> Result<Option<Hint<'static>>, NoMemory>
    ensures { IfOk result (λ o. option_map remark_of o ≡ values.relocated text.now symbols.now) }
{
    match refused_value(alloc, text, FaultKind::NotRelocatable, symbols)? {
        Some(refused) => of_address(alloc, refused.part.end, text),
        None => Ok(None),
    }
}
