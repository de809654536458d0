//! The symbols that modules define.

ghost use Rattle.std.specs.Prelude.{◌≡◌, ◌++◌, ◌∷◌, [], ◌^◌, ◌%◌, ℕ, List, IfOk, OnOk, Some, map, pos, ◌+ℤ◌, string_bytes, take};
ghost use Rattle.std.specs.List.{slice_get};
ghost use Rattle.c25_bits.specs.Cut.{cut};
ghost use Rattle.c25_meaning_linking.specs.Words.{is_defined, kind_value, section_base, section_run, section_name};
ghost use Rattle.c25_meaning_objects.specs.Module.{Contents};
ghost use Rattle.c25_meaning_linking.specs.Place.{all_sections};
ghost use Rattle.c25_meaning_linking.specs.Place as place;
ghost use Rattle.c25_module.specs.View.{contents, symbol_data};
ghost use Rattle.c25_symbols.specs.Parts.{AreAlike, BeginsAt, KnowsNext};
ghost use Rattle.c25_symbols.specs.Symbols.{all_symbols, listed, module_symbols, section_of, source_of};
ghost use Rattle.c25_symbols.specs.View.{entries_view, entry_view, places_view};

use crate::parts::{AT_ZERO, NextStarts, PartStart};
use c25_map::OutputSection;
use c25_meaning_objects::object::SymbolKind;
use c25_module::{Module, Parts, Symbol};
use std::alloc::{AllocError, Global};

/// A symbol of a program, as its line shows it.
#[derive(Clone, Copy)]
pub struct SymbolEntry<'a> {
    /// The low 32 bits of the symbol's value.
    pub value: u32,
    pub kind: SymbolKind,
    /// The name of the section that the symbol counts from, `-` where it is a number.
    pub section: &'a str,
    /// The name of the source of the symbol's module.
    pub source: &'a str,
    pub name: &'a str,
}

/// The low 32 bits of the sum of an address and an offset.
fn moved(base: u32, offset: i32) -> u32
    ensures { (address : ℕ) → AreAlike base address → result ≡ cut (pos address +ℤ offset) 32 }
{
    base.wrapping_add_signed(offset)
}

/// The low 32 bits of a number, as two's complement.
fn low_number(value: i32) -> u32
    ensures { result ≡ cut value 32 }
{
    value.cast_unsigned()
}

/// Where a module's part of the section of a number begins.
pub fn part_of(next: &NextStarts<'_>, owner: &Parts, index: u16) -> PartStart
    ensures { (modules : List Contents) (places : List place.Place) (number : ℕ) → KnowsNext next.now places (all_sections (take number modules))
        → BeginsAt result (section_base modules places number (contents owner.now) index) (section_run modules places number (contents owner.now) index) }
{
    match owner.sections.get(usize::from(index)) {
        Some(section) => next.get(section.name.as_str()),
        None => AT_ZERO,
    }
}

/// The low 32 bits of the value of a module's symbol.
fn low_value(next: &NextStarts<'_>, owner: &Parts, kind: SymbolKind, value: i32) -> u32
    ensures { (modules : List Contents) (places : List place.Place) (number : ℕ) → KnowsNext next.now places (all_sections (take number modules))
        → result ≡ cut (kind_value modules places number (contents owner.now) kind value) 32 }
{
    match kind {
        SymbolKind::Absolute => low_number(value),
        SymbolKind::InSection(index) => moved(part_of(next, owner, index).run, value),
        SymbolKind::Loaded(index) => moved(part_of(next, owner, index).base, value),
        SymbolKind::External => 0,
    }
}

/// The name of a module's section, by its number.
fn section_name(owner: &Parts, index: u16) -> &str
    ensures { result.now ≡ section_name (contents owner.now) index }
{
    match owner.sections.get(usize::from(index)) {
        Some(section) => section.name.as_str(),
        None => "",
    }
}

/// The name of the section that a symbol of a module counts from, `-` where it counts from none.
fn section_of(owner: &Parts, kind: SymbolKind) -> &str
    ensures { result.now ≡ section_of (contents owner.now) kind }
{
    match kind {
        SymbolKind::Absolute => "-",
        SymbolKind::InSection(index) => section_name(owner, index),
        SymbolKind::Loaded(index) => section_name(owner, index),
        SymbolKind::External => "-",
    }
}

/// The name of the source of the module of a number; empty where none is given.
fn source_of(sources: &[String], number: usize) -> &str
    ensures { result.now ≡ source_of (map string_bytes sources.now) number }
{
    match sources.get(number) {
        Some(source) => source.as_str(),
        None => "",
    }
}

/// Whether a symbol of this kind is defined in its module.
fn is_defined(kind: SymbolKind) -> bool
    ensures { result ≡ is_defined kind }
{
    kind != SymbolKind::External
}

/// The entry of a module's symbol.
fn entry_of<'a>(
    next: &NextStarts<'_>,
    owner: &'a Parts,
    source: &'a str,
    symbol: &'a Symbol,
) -> SymbolEntry<'a>
    ensures { (modules : List Contents) (sources : List (List ℕ)) (places : List place.Place) (number : ℕ) → KnowsNext next.now places (all_sections (take number modules))
        → source.entry.now ≡ source_of sources number
        → entry_view result ≡ listed modules sources places number (contents owner.entry.now) (symbol_data symbol.entry.now) }
{
    SymbolEntry {
        value: low_value(next, owner, symbol.kind, symbol.value),
        kind: symbol.kind,
        section: section_of(owner, symbol.kind),
        source,
        name: symbol.name.as_str(),
    }
}

/// Appends the symbols that a module defines.
fn push_symbols<'a>(
    next: &NextStarts<'_>,
    owner: &'a Parts,
    source: &'a str,
    entries: &mut Vec<SymbolEntry<'a>>,
) -> Result<(), AllocError>
    ensures { (modules : List Contents) (sources : List (List ℕ)) (places : List place.Place) (number : ℕ) → KnowsNext next.now places (all_sections (take number modules))
        → source.entry.now ≡ source_of sources number
        → OnOk result (entries_view entries.new.items ≡ entries_view entries.old.items ++ module_symbols modules sources places number (contents owner.entry.now)) }
{
    for symbol in &owner.symbols {
        if is_defined(symbol.kind) {
            entries.push(entry_of(next, owner, source, symbol))?;
        }
    }
    Ok(())
}

/// The symbols that modules define, by modules and symbols, where the map says the sections stand.
#[tactic(auto, using(c25_meaning_linking::proofs::ByModules::by_modules_more, c25_meaning_linking::proofs::ByModules::by_modules_all))]
pub fn all_entries<'a>(
    alloc: Global,
    modules: &'a [Module],
    sources: &'a [String],
    sections: &'a [OutputSection],
) -> Result<Vec<SymbolEntry<'a>>, AllocError>
    ensures { IfOk result (λ v. entries_view v.items ≡ all_symbols modules.entry.now (map string_bytes sources.entry.now) (places_view sections.entry.now)) }
{
    let mut next = NextStarts::new(alloc, sections)?;
    let mut entries = Vec::new(alloc);
    for (number, module) in modules.iter().enumerate() {
        let owner = module.parts();
        push_symbols(&next, owner, source_of(sources, number), &mut entries)?;
        next.pass_all(&owner.sections)?;
    }
    Ok(entries)
}
