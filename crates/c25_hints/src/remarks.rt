//! The remark on a line that is refused.

ghost use Rattle.std.specs.Prelude.{◌≡◌, IfOk, Ok, map, string_bytes};
ghost use Rattle.std.specs.Option.{option_map, option_or};
ghost use Rattle.c25_meaning_assembly.specs.AssemblyLine.{directive_in};
ghost use Rattle.c25_meaning_language.specs.Line.{first_word, line_of};
ghost use Rattle.c25_text.specs.View.{parts_of};
ghost use Rattle.c25_hints.specs.Hints as hints;
ghost use Rattle.c25_hints.specs.Macros as meaning;
ghost use Rattle.c25_hints.specs.Remark.{remark_of};
ghost use Rattle.c25_hints.specs.Similar.{remark_among, remark_text};

use crate::defined::of_defined;
use crate::hint::Hint;
use crate::macros::of_macros;
use crate::operands::{counted, formed, refused_in};
use crate::similar;
use crate::texts::of_text;
use crate::values::{out_of_range, relocated, undefined};
use crate::words::{of_float, of_word};
use c25_expr::Symbols;
use c25_expr::operands::tokens_of;
use c25_meaning_assembly::assembly::Directive;
use c25_meaning_common::no_memory::NoMemory;
use c25_meaning_language::statement::FaultKind;
use c25_statements::directive_in;
use c25_text::line::{Line, split_line};
use std::alloc::Global;

/// The remark on a line in parts, with this directive, that its statement is refused with this fault.
fn of_parts<'a>(
    alloc: Global,
    kind: FaultKind,
    directive: Option<Directive>,
    line: &Line<'a>,
) -> Result<Option<Hint<'a>>, NoMemory>
    ensures { IfOk result (λ o. option_map remark_of o ≡ hints.of_parts kind directive (parts_of line.now)) }
{
    let tokens = tokens_of(alloc, line)?;
    match kind {
        FaultKind::UnknownMnemonic => of_word(alloc, line.label, line.word, tokens.as_slice()),
        FaultKind::BadExpression => refused_in(alloc, line.word, tokens.as_slice()),
        FaultKind::OperandCount => counted(alloc, line.word, tokens.as_slice()),
        FaultKind::OperandForm => formed(alloc, directive, line.word, tokens.as_slice()),
        _ => Ok(None),
    }
}

/// The same of a text that may have no parts.
fn of_statement<'a>(
    alloc: Global,
    text: &'a str,
    kind: FaultKind,
) -> Result<Option<Hint<'a>>, NoMemory>
    ensures { IfOk result (λ o. option_map remark_of o ≡ hints.of_statement kind (directive_in (first_word text.now)) (line_of text.now)) }
{
    match split_line(text) {
        Ok(line) => of_parts(alloc, kind, directive_in(text), &line),
        Err(_) => Ok(None),
    }
}

/// The remark on a line of which a constant or a character is refused.
fn of_number<'a>(
    alloc: Global,
    text: &'a str,
    kind: FaultKind,
) -> Result<Option<Hint<'a>>, NoMemory>
    ensures { IfOk result (λ o. option_map remark_of o ≡ hints.of_number text.now kind) }
{
    match of_float(text) {
        Some(hint) => Ok(Some(hint)),
        None => of_text(alloc, text, kind),
    }
}

/// Why an expanded line is refused with this fault, where `read_statement` or a value refuses it so, under
/// these symbols: those so far, where the line needs a value at once, as `.space` does; else all symbols.
/// None where the line does not show it, and for other faults than 10 to 13, 20, 22, 26, 50 to 53 and 55. `NoMemory`
/// (9) where memory runs out.
pub fn hint_on<'a>(
    alloc: Global,
    text: &'a str,
    kind: FaultKind,
    symbols: &'a Symbols,
) -> Result<Option<Hint<'a>>, NoMemory>
    ensures { IfOk result (λ o. option_map remark_of o ≡ hints.remark_on text.now kind symbols.now) }
{
    match kind {
        FaultKind::BadLabel | FaultKind::OpenQuote => of_text(alloc, text, kind),
        FaultKind::BadConstant | FaultKind::StrayText => of_number(alloc, text, kind),
        FaultKind::Undefined => undefined(alloc, text, symbols),
        FaultKind::Defined => of_defined(alloc, text, symbols),
        FaultKind::FieldRange => out_of_range(alloc, text, symbols),
        FaultKind::NotRelocatable => relocated(alloc, text, symbols),
        _ => of_statement(alloc, text, kind),
    }
}

/// The remark on an expanded line that the line shows, or its word where it is the name of one of these macros.
fn hint_among<'a>(
    alloc: Global,
    text: &'a str,
    kind: FaultKind,
    symbols: &'a Symbols,
    macros: &[&'a str],
) -> Result<Option<Hint<'a>>, NoMemory>
    ensures { IfOk result (λ o. option_map remark_of o ≡ option_or (meaning.of_macros text.now kind (map (λ n. n.now) macros.now)) (hints.remark_on text.now kind symbols.now)) }
{
    match of_macros(text, kind, macros) {
        Some(hint) => Ok(Some(hint)),
        None => hint_on(alloc, text, kind, symbols),
    }
}

/// The text of the remark on an expanded line that is refused with this fault, where the macros of these names
/// are known: for `UnknownMnemonic` (50) that its word is the name of one, or has its letters in other case; or why,
/// as `hint_on` has it; or up to three names that are spelled like the word, in at most two steps: macros,
/// mnemonics or directives for 50, symbols for `Undefined` (22); or, for 22, that the value is needed at once, or that nothing defines the name.
pub fn remark_among(
    alloc: Global,
    text: &str,
    kind: FaultKind,
    symbols: &Symbols,
    macros: &[&str],
) -> Result<Option<String>, NoMemory>
    ensures { IfOk result (λ o. option_map string_bytes o ≡ remark_among text.now kind symbols.now (map (λ n. n.now) macros.now)) }
{
    match hint_among(alloc, text, kind, symbols, macros)? {
        Some(hint) => Ok(Some(hint.text(alloc)?)),
        None => similar::on_line(alloc, text, kind, symbols, macros),
    }
}

/// The text of the remark on an expanded line that is refused with this fault, as `remark_among` has it where no
/// macro is known.
pub fn remark(
    alloc: Global,
    text: &str,
    kind: FaultKind,
    symbols: &Symbols,
) -> Result<Option<String>, NoMemory>
    ensures { IfOk result (λ o. option_map string_bytes o ≡ remark_text text.now kind symbols.now) }
{
    remark_among(alloc, text, kind, symbols, &[])
}
