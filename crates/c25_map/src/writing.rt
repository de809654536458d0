//! The text of a map.

ghost use Rattle.std.specs.Prelude.{◌≡◌, ◌<◌, ◌≤◌, ◌++◌, OnOk, IfOk, IfSome, All, map, string_bytes};
ghost use Rattle.std.specs.List.{flat_map};
ghost use Rattle.std.specs.Option.{option_map};
ghost use Rattle.c25_meaning_linking.specs.MapText.{address_text, part_text, place_text, run_lines, section_text, value_text, symbol_text, entry_text, entry_lines, map_text, HasDigits};
ghost use Rattle.c25_meaning_common.specs.Digits.{four_digits};
ghost use Rattle.c25_map.specs.View.{part_data, section_data, symbol_data, map_data};

use crate::map::{GlobalSymbol, Map, OutputSection, Part};
use c25_meaning_common::no_memory::NoMemory;
use c25_texts::appending::{push_count, push_eight, push_four, push_name, push_text};
use std::alloc::Global;

/// Appends an address in four hexadecimal digits, 65,536 as `10000`.
fn push_address(out: &mut String, address: u32) -> Result<(), NoMemory>
    requires { address ≤ 65536 }
    ensures { OnOk result (string_bytes out.new ≡ string_bytes out.old ++ address_text address) }
{
    if address == 65_536 {
        push_text(out, "10000")
    } else {
        push_four(out, address as u16)
    }
}

/// Appends the line of a part.
#[tactic(auto, unfolding(c25_meaning_linking::specs::MapText::part_text))]
fn push_part(out: &mut String, part: &Part) -> Result<(), NoMemory>
    requires { part.now.base ≤ 65536 }
    ensures { OnOk result (string_bytes out.new ≡ string_bytes out.old ++ part_text (part_data part.now)) }
{
    out.push_str("PART ")?;
    out.push_str(&part.number)?;
    out.push_str(" ")?;
    push_address(out, part.base)?;
    push_count(out, part.size)?;
    push_text(out, "\n")
}

/// Appends the line of a section.
#[tactic(auto, unfolding(c25_meaning_linking::specs::MapText::place_text))]
fn push_place(out: &mut String, section: &OutputSection) -> Result<(), NoMemory>
    requires { section.now.base < 65536 }
    ensures { OnOk result (string_bytes out.new ≡ string_bytes out.old ++ place_text (section_data section.now).place) }
{
    let page = section.page;
    write!(out, "SECTION {page} ")?;
    push_four(out, section.base as u16)?;
    push_count(out, section.size)?;
    push_name(out, &section.name)
}

/// Appends the line of a section's run address, if it has one.
fn push_run(out: &mut String, run: Option<u32>) -> Result<(), NoMemory>
    requires { IfSome run (λ run. run < 65536) }
    ensures { OnOk result (string_bytes out.new ≡ string_bytes out.old ++ run_lines run) }
{
    match run {
        Some(run) => {
            out.push_str("RUN ")?;
            push_four(out, run as u16)?;
            push_text(out, "\n")
        }
        None => Ok(()),
    }
}

/// Appends the lines of parts.
fn push_parts(out: &mut String, parts: &[Part]) -> Result<(), NoMemory>
    requires { All (λ p. p.base ≤ 65536) parts.now }
    ensures { OnOk result (string_bytes out.new ≡ string_bytes out.old ++ flat_map part_text (map part_data parts.now)) }
{
    for part in parts {
        push_part(out, part)?;
    }
    Ok(())
}

/// Appends the lines of a section: its own, that of its run address, and those of its parts.
fn push_section(out: &mut String, section: &OutputSection) -> Result<(), NoMemory>
    requires { HasDigits (section_data section.now) }
    ensures { OnOk result (string_bytes out.new ≡ string_bytes out.old ++ section_text (section_data section.now)) }
{
    push_place(out, section)?;
    push_run(out, section.run)?;
    push_parts(out, &section.parts)
}

/// Appends a value and its name.
#[tactic(auto, unfolding(c25_meaning_linking::specs::MapText::value_text, c25_meaning_linking::specs::MapText::eight_digits))]
fn push_value(out: &mut String, symbol: &GlobalSymbol) -> Result<(), NoMemory>
    ensures { OnOk result (string_bytes out.new ≡ string_bytes out.old ++ value_text (symbol_data symbol.now)) }
{
    push_eight(out, symbol.value)?;
    push_name(out, &symbol.name)
}

/// Appends the line of a symbol.
fn push_symbol(out: &mut String, symbol: &GlobalSymbol) -> Result<(), NoMemory>
    ensures { OnOk result (string_bytes out.new ≡ string_bytes out.old ++ symbol_text (symbol_data symbol.now)) }
{
    out.push_str("SYMBOL ")?;
    push_value(out, symbol)
}

/// Appends the line of the entry.
fn push_entry(out: &mut String, symbol: &GlobalSymbol) -> Result<(), NoMemory>
    ensures { OnOk result (string_bytes out.new ≡ string_bytes out.old ++ entry_text (symbol_data symbol.now)) }
{
    out.push_str("ENTRY ")?;
    push_value(out, symbol)
}

/// Appends the lines of sections.
fn push_sections(out: &mut String, sections: &[OutputSection]) -> Result<(), NoMemory>
    requires { All (λ s. HasDigits (section_data s)) sections.now }
    ensures { OnOk result (string_bytes out.new ≡ string_bytes out.old ++ flat_map section_text (map section_data sections.now)) }
{
    for section in sections {
        push_section(out, section)?;
    }
    Ok(())
}

/// Appends the lines of symbols, in their order: `SYMBOL`, the value in eight hexadecimal digits, the name.
/// `NoMemory` where memory runs out.
pub fn push_symbols(out: &mut String, symbols: &[GlobalSymbol]) -> Result<(), NoMemory>
    ensures { OnOk result (string_bytes out.new ≡ string_bytes out.old ++ flat_map symbol_text (map symbol_data symbols.now)) }
{
    for symbol in symbols {
        push_symbol(out, symbol)?;
    }
    Ok(())
}

/// Appends the line of the entry, if there is one.
fn push_entry_lines(out: &mut String, entry: &Option<GlobalSymbol>) -> Result<(), NoMemory>
    ensures { OnOk result (string_bytes out.new ≡ string_bytes out.old ++ entry_lines (option_map symbol_data entry.now)) }
{
    match entry {
        Some(symbol) => push_entry(out, symbol),
        None => Ok(()),
    }
}

/// The text of a map whose sections lie within their pages. Between a first line `C25 MAP 1` and a last line
/// `END` it has for each section a line, one for its run address if it has one, and one for each of its
/// parts; then a line for each global symbol, and one for the entry if there is one. Addresses and values are
/// hexadecimal in upper case; sizes are the last five decimal digits, which are all of a size below 100,000.
/// `NoMemory` where memory runs out.
pub fn write_map(alloc: Global, map: &Map) -> Result<String, NoMemory>
    requires { All HasDigits (map_data map.now).sections }
    ensures { IfOk result (λ text. string_bytes text ≡ map_text (map_data map.now)) }
{
    let mut out = String::new(alloc);
    out.push_str("C25 MAP 1\n")?;
    push_sections(&mut out, &map.sections)?;
    push_symbols(&mut out, &map.symbols)?;
    push_entry_lines(&mut out, &map.entry)?;
    out.push_str("END\n")?;
    Ok(out)
}
