//! Notes after the text of a line: what linking fills into its words.

ghost use Rattle.std.specs.Prelude.{◌≡◌, ◌++◌, OnOk, string_bytes};
ghost use Rattle.c25_dis.specs.Sections.{addend_text, base_text, filled_text, section_name, symbol_name};
ghost use Rattle.c25_module.specs.View.{contents};

use c25_meaning_common::no_memory::NoMemory;
use c25_meaning_objects::object::{Relocation, RelocationBase};
use c25_module::Parts;
use c25_texts::appending::push_text;

/// Appends the name of the section of a number.
fn push_section_name(text: &mut String, parts: &Parts, number: u16) -> Result<(), NoMemory>
    ensures { OnOk result (string_bytes text.new ≡ string_bytes text.old ++ section_name (contents parts.now) number) }
{
    match parts.sections.get(usize::from(number)) {
        None => Ok(()),
        Some(section) => push_text(text, &section.name),
    }
}

/// Appends the name of the symbol of a number.
fn push_symbol_name(text: &mut String, parts: &Parts, number: u16) -> Result<(), NoMemory>
    ensures { OnOk result (string_bytes text.new ≡ string_bytes text.old ++ symbol_name (contents parts.now) number) }
{
    match parts.symbols.get(usize::from(number)) {
        None => Ok(()),
        Some(symbol) => push_text(text, &symbol.name),
    }
}

/// Appends the name of what an addend is added to, after `load of` for the address where a section is loaded.
fn push_base(text: &mut String, parts: &Parts, base: RelocationBase) -> Result<(), NoMemory>
    ensures { OnOk result (string_bytes text.new ≡ string_bytes text.old ++ base_text (contents parts.now) base) }
{
    match base {
        RelocationBase::Section(number) => push_section_name(text, parts, number),
        RelocationBase::Loaded(number) => {
            push_text(text, "load of ")?;
            push_section_name(text, parts, number)
        }
        RelocationBase::External(number) => push_symbol_name(text, parts, number),
    }
}

/// Appends an addend with its sign, if it is not 0.
fn push_addend(text: &mut String, addend: i32) -> Result<(), NoMemory>
    ensures { OnOk result (string_bytes text.new ≡ string_bytes text.old ++ addend_text addend) }
{
    if addend == 0 {
        Ok(())
    } else if addend > 0 {
        Ok(write!(text, "+{addend}")?)
    } else {
        Ok(write!(text, "{addend}")?)
    }
}

/// Appends a note of what a relocation fills in.
pub(crate) fn push_filled(
    text: &mut String,
    parts: &Parts,
    relocation: &Relocation,
) -> Result<(), NoMemory>
    ensures { OnOk result (string_bytes text.new ≡ string_bytes text.old ++ filled_text (contents parts.now) relocation.now) }
{
    push_text(text, "  ; ")?;
    push_base(text, parts, relocation.base)?;
    push_addend(text, relocation.addend)
}
