//! Remarks on a name that a line defines, and that has a value already (26).

ghost use Rattle.std.specs.Prelude.{◌≡◌, IfOk};
ghost use Rattle.std.specs.Option.{option_map, option_and_then};
ghost use Rattle.c25_meaning_language.specs.Line.{line_of};
ghost use Rattle.c25_hints.specs.Defined as says;
ghost use Rattle.c25_hints.specs.Remark.{remark_of};

use crate::cause::Cause;
use crate::hint::Hint;
use crate::values::name_in;
use c25_expr::Symbols;
use c25_expr::symbols::is_predefined;
use c25_meaning_common::no_memory::NoMemory;
use c25_meaning_language::statement::FaultKind;
use c25_places::refused_value;
use c25_text::line::split_line;
use std::alloc::Global;

/// The remark on a name that is predefined.
fn of_predefined<'a>(name: &'a str) -> Option<Hint<'a>>
    ensures { option_map remark_of result ≡ says.of_predefined name.now }
{
    if is_predefined(name) {
        Some(Hint::about(Cause::Predefined, name))
    } else {
        None
    }
}

/// The label of a line, if it has one.
fn label_of<'a>(text: &'a str) -> Option<&'a str>
    ensures { option_map (λ s. s.now) result ≡ says.label_of (line_of text.now) }
{
    match split_line(text) {
        Ok(line) => line.label,
        Err(_) => None,
    }
}

/// The remark on the label of a line.
fn of_label<'a>(text: &'a str) -> Option<Hint<'a>>
    ensures { option_map remark_of result ≡ option_and_then says.of_predefined (says.label_of (line_of text.now)) }
{
    match label_of(text) {
        Some(label) => of_predefined(label),
        None => None,
    }
}

/// The name among the operands of a line that it defines.
fn defined_name<'a>(
    alloc: Global,
    text: &'a str,
    symbols: &Symbols,
) -> Result<Option<&'a str>, NoMemory>
    ensures { IfOk result (λ o. option_map (λ n. n.now) o ≡ says.defined_name text.now symbols.now) }
{
    match refused_value(alloc, text, FaultKind::Defined, symbols)? {
        Some(refused) => name_in(alloc, refused.part.start, text),
        None => Ok(None),
    }
}

/// The remark on the name among the operands of a line that it defines.
fn of_operand<'a>(
    alloc: Global,
    text: &'a str,
    symbols: &Symbols,
) -> Result<Option<Hint<'a>>, NoMemory>
    ensures { IfOk result (λ o. option_map remark_of o ≡ option_and_then says.of_predefined (says.defined_name text.now symbols.now)) }
{
    match defined_name(alloc, text, symbols)? {
        Some(name) => Ok(of_predefined(name)),
        None => Ok(None),
    }
}

/// The remark on a line that defines a name which has a value already: the name is predefined.
pub(crate) fn of_defined<'a>(
    alloc: Global,
    text: &'a str,
    symbols: &Symbols,
) -> Result<Option<Hint<'a>>, NoMemory>
    ensures { IfOk result (λ o. option_map remark_of o ≡ says.of_defined text.now symbols.now) }
{
    match of_label(text) {
        Some(hint) => Ok(Some(hint)),
        None => of_operand(alloc, text, symbols),
    }
}
