//! The text of a program's symbols and of its memories.

ghost use Rattle.std.specs.Prelude.{◌≡◌, ◌++◌, List, OnOk, IfOk, map, string_bytes};
ghost use Rattle.std.specs.List.{flat_map};
ghost use Rattle.c25_cmd.specs.View.{command_data};
ghost use Rattle.c25_map.specs.View.{map_data};
ghost use Rattle.c25_meaning_linking.specs.Command.{IsCommand};
ghost use Rattle.c25_meaning_linking.specs.GoodMap.{ranges_for};
ghost use Rattle.c25_symbols.specs.Symbols.{symbols_by_name};
ghost use Rattle.c25_symbols.specs.Text.{kind_text, place_words, symbol_line, symbols_text};
ghost use Rattle.c25_symbols.specs.View.{entries_view, entry_view, places_of, places_view};

use crate::digits::push_value;
use crate::entries::{SymbolEntry, all_entries};
use crate::order::sort_by_name;
use crate::ranges::push_ranges;
use crate::used::UsedWords;
use c25_cmd::Command;
use c25_map::{Map, OutputSection};
use c25_meaning_common::no_memory::NoMemory;
use c25_meaning_objects::object::SymbolKind;
use c25_module::Module;
use c25_texts::appending::{push_name, push_spaced};
use std::alloc::Global;

/// The keyword of a symbol's kind: `SET` for a number, `IN` for an address of a section, `LOAD` for one where
/// a section is loaded, `REF` for a symbol of another module, which no text lists.
fn kind_text(kind: SymbolKind) -> &'static str
    ensures { result.now ≡ kind_text kind }
{
    match kind {
        SymbolKind::Absolute => "SET",
        SymbolKind::InSection(_) => "IN",
        SymbolKind::Loaded(_) => "LOAD",
        SymbolKind::External => "REF",
    }
}

/// Appends the keyword of a symbol's kind, its section and its source.
#[tactic(auto, unfolding(crate::specs::Text::place_words))]
fn push_place(out: &mut String, entry: &SymbolEntry<'_>) -> Result<(), NoMemory>
    ensures { OnOk result (string_bytes out.new ≡ string_bytes out.old ++ place_words (entry_view entry.now)) }
{
    out.push_str(kind_text(entry.kind))?;
    push_spaced(out, entry.section)?;
    push_spaced(out, entry.source)
}

/// Appends the line of a symbol.
#[tactic(auto, unfolding(crate::specs::Text::symbol_line))]
fn push_symbol(out: &mut String, entry: &SymbolEntry<'_>) -> Result<(), NoMemory>
    ensures { OnOk result (string_bytes out.new ≡ string_bytes out.old ++ symbol_line (entry_view entry.now)) }
{
    out.push_str("SYMBOL ")?;
    push_value(out, entry.value)?;
    out.push_str(" ")?;
    push_place(out, entry)?;
    push_name(out, entry.name)
}

/// Appends the lines of symbols, in their order.
fn push_entries(out: &mut String, entries: &[SymbolEntry<'_>]) -> Result<(), NoMemory>
    ensures { OnOk result (string_bytes out.new ≡ string_bytes out.old ++ flat_map symbol_line (entries_view entries.now)) }
{
    for entry in entries {
        push_symbol(out, entry)?;
    }
    Ok(())
}

/// Appends the lines of the symbols that modules define, in the order of their names.
fn push_symbols(
    alloc: Global,
    out: &mut String,
    modules: &[Module],
    sources: &[String],
    sections: &[OutputSection],
) -> Result<(), NoMemory>
    ensures { OnOk result (string_bytes out.new ≡ string_bytes out.old ++ flat_map symbol_line (symbols_by_name modules.now (map string_bytes sources.now) (places_view sections.now))) }
{
    let mut entries = all_entries(alloc, modules, sources, sections)?;
    sort_by_name(&mut entries)?;
    push_entries(out, &entries)
}

/// The text of a program's symbols and of its memories: a line for each symbol that a module defines, local
/// ones too, by their names, and after them one for each range of the command, between a first line `C25
/// SYMBOLS 1` and a last line `END`.
///
/// A symbol's line is `SYMBOL`, its value in four hexadecimal digits, or in eight where it does not fit in 16
/// bits, `SET` for a number, `IN` for an address of a section or `LOAD` for one where a section is loaded,
/// the name of that section, or `-`, the name of the module's source, and its own name. Symbols of one name
/// are in the order of the modules. A range's line is `RANGE`, its page, its first address in hexadecimal,
/// and in five decimal digits each how many words it has, how many of them a section uses where it is loaded
/// or where it runs, and how many are free; then its name. The sections stand where the map says.
///
/// `NoMemory` where memory runs out.
pub fn write_symbols(
    alloc: Global,
    modules: &[Module],
    sources: &[String],
    described: &Map,
    command: &Command,
) -> Result<String, NoMemory>
    requires { IsCommand (command_data command.now) }
    ensures { IfOk result (λ text. string_bytes text
        ≡ symbols_text modules.now (map string_bytes sources.now) (places_of (map_data described.now)) (ranges_for (command_data command.now))) }
{
    let used = UsedWords::new(alloc, &described.sections)?;
    let mut out = String::new(alloc);
    out.push_str("C25 SYMBOLS 1\n")?;
    push_symbols(alloc, &mut out, modules, sources, &described.sections)?;
    push_ranges(&mut out, &used, command)?;
    out.push_str("END\n")?;
    Ok(out)
}
