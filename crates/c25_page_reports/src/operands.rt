//! Direct operands that name a word of data memory.

ghost use Rattle.std.specs.Prelude.{◌≡◌, ◌+◌, ◌++◌, ◌^◌, ◌%◌, ◌+ℤ◌, ℕ, ℤ, List, IfOk, OnOk, map, take};
ghost use Rattle.c25_bits.specs.Cut.{cut};
ghost use Rattle.c25_map.specs.View.{map_data, symbol_data};
ghost use Rattle.c25_meaning_linking.specs.Linking.{symbol_value};
ghost use Rattle.c25_meaning_linking.specs.Place.{all_sections};
ghost use Rattle.c25_meaning_linking.specs.Place as place;
ghost use Rattle.c25_meaning_linking.specs.Words.{base_value, definitions, name_value, relocated_value, section_base, section_page, section_run, symbol_name};
ghost use Rattle.c25_meaning_objects.specs.Module.{Contents};
ghost use Rattle.c25_module.specs.View.{contents};
ghost use Rattle.c25_symbols.specs.Parts.{AreAlike, KnowsNext};
ghost use Rattle.c25_symbols.specs.View.{places_view};
ghost use Rattle.c25_page_reports.specs.Operands.{HasSymbols, absolute_operand, all_operands, is_absolute_of, is_direct, is_page_operand, module_absolutes, module_operands, page_operand, page_operands, value_among};

use c25_map::{GlobalSymbol, Map, OutputSection};
use c25_meaning_common::no_memory::NoMemory;
use c25_meaning_common::relocation::RelocationKind;
use c25_meaning_objects::object::{Relocation, RelocationBase};
use c25_module::{Module, Parts};
use c25_symbols::entries::part_of;
use c25_symbols::parts::NextStarts;
use std::alloc::Global;

/// A direct operand of a module that is a number from 128 on. Its word has the low seven bits of the number alone, so no
/// object says which word is meant.
#[derive(Clone, Copy, PartialEq, Debug)]
pub struct AbsoluteOperand {
    /// The number of its module among those that are linked.
    pub number: usize,
    /// The number of the section in which its instruction stands.
    pub section: u16,
    /// The offset of its instruction in the section.
    pub offset: u16,
    /// The data address of the word that is meant.
    pub word: u16,
}

/// A direct operand that names a word.
#[derive(Clone, Copy, PartialEq, Debug)]
pub struct PageOperand {
    /// The program address at which its instruction is loaded.
    pub load: u16,
    /// The program address at which its instruction runs.
    pub run: u16,
    /// The data address of the word that is meant.
    pub word: u16,
}

/// Whether a field is that of a direct operand.
fn is_direct(kind: RelocationKind) -> bool
    ensures { result ≡ is_direct kind }
{
    match kind {
        RelocationKind::Low7 => true,
        RelocationKind::Word16 | RelocationKind::Page9 => false,
    }
}

/// The page of the section of a name; 0 where there is no such section.
fn page_of(sections: &[OutputSection], name: &str) -> u8
    ensures { result ≡ place.page_of name.now (places_view sections.now) }
{
    for section in sections {
        if name == section.name.as_str() {
            return section.page;
        }
    }
    0
}

/// The page of a module's section, by its number; 0 where there is no such section.
pub(crate) fn section_page(sections: &[OutputSection], owner: &Parts, index: u16) -> u8
    ensures { result ≡ section_page (places_view sections.now) (contents owner.now) index }
{
    match owner.sections.get(usize::from(index)) {
        Some(section) => page_of(sections, section.name.as_str()),
        None => 0,
    }
}

/// The value that symbols have for a name; 0 where none has the name.
fn value_of(symbols: &[GlobalSymbol], name: &str) -> u32
    ensures { result ≡ value_among (map symbol_data symbols.now) name.now }
{
    for symbol in symbols {
        if name == symbol.name.as_str() {
            return symbol.value;
        }
    }
    0
}

/// The low 32 bits of the value of a global name; 0 where no module defines it.
fn name_value(symbols: &[GlobalSymbol], name: &str) -> u32
    ensures { (modules : List Contents) (places : List place.Place) → map symbol_data symbols.now ≡ map (symbol_value modules places) (definitions modules)
        → result ≡ cut (name_value modules places name.now) 32 }
{
    value_of(symbols, name)
}

/// The name of a module's symbol, by its number; empty where there is no such symbol.
fn symbol_name(owner: &Parts, index: u16) -> &str
    ensures { result.now ≡ symbol_name (contents owner.now) index }
{
    match owner.symbols.get(usize::from(index)) {
        Some(symbol) => symbol.name.as_str(),
        None => "",
    }
}

/// The low 32 bits of the address or value that a relocation of a module counts from.
fn base_value(map: &Map, next: &NextStarts<'_>, owner: &Parts, base: RelocationBase) -> u32
    ensures { (modules : List Contents) (number : ℕ) → HasSymbols modules (map_data map.now)
        → KnowsNext next.now (places_view map.now.sections.items) (all_sections (take number modules))
        → result ≡ cut (base_value modules (places_view map.now.sections.items) number (contents owner.now) base) 32 }
{
    match base {
        RelocationBase::Section(index) => part_of(next, owner, index).run,
        RelocationBase::Loaded(index) => part_of(next, owner, index).base,
        RelocationBase::External(index) => name_value(&map.symbols, symbol_name(owner, index)),
    }
}

/// The low 32 bits of the sum of a value, of which the low 32 bits are given, and an addend.
fn moved(base: u32, addend: i32) -> u32
    ensures { (value : ℤ) → base ≡ cut value 32 → result ≡ cut (value +ℤ addend) 32 }
{
    base.wrapping_add_signed(addend)
}

/// The low 32 bits of the value that a relocation of a module fills its field with.
pub(crate) fn relocated_value(
    map: &Map,
    next: &NextStarts<'_>,
    owner: &Parts,
    relocation: &Relocation,
) -> u32
    ensures { (modules : List Contents) (number : ℕ) → HasSymbols modules (map_data map.now)
        → KnowsNext next.now (places_view map.now.sections.items) (all_sections (take number modules))
        → result ≡ cut (relocated_value modules (places_view map.now.sections.items) number (contents owner.now) relocation.now) 32 }
{
    let base = base_value(map, next, owner, relocation.base);
    moved(base, relocation.addend)
}

/// The low 16 bits of a number of which the low 32 bits are given.
fn low_word(number: u32) -> u16
    ensures { (value : ℤ) → number ≡ cut value 32 → result ≡ cut value 16 }
{
    (number % 65_536) as u16
}

/// The low 16 bits of an address so many words after one of which the low 32 bits are given.
fn address_after(base: u32, offset: u16) -> u16
    ensures { (address : ℕ) → AreAlike base address → result ≡ (address + offset) % 2 ^ 16 }
{
    (base.wrapping_add(u32::from(offset)) % 65_536) as u16
}

/// The direct operand of a relocation of a module.
fn page_operand(
    map: &Map,
    next: &NextStarts<'_>,
    owner: &Parts,
    relocation: &Relocation,
) -> PageOperand
    ensures { (modules : List Contents) (number : ℕ) → HasSymbols modules (map_data map.now)
        → KnowsNext next.now (places_view map.now.sections.items) (all_sections (take number modules))
        → result ≡ page_operand modules (places_view map.now.sections.items) number (contents owner.now) relocation.now }
{
    let part = part_of(next, owner, relocation.section);
    PageOperand {
        load: address_after(part.base, relocation.offset),
        run: address_after(part.run, relocation.offset),
        word: low_word(relocated_value(map, next, owner, relocation)),
    }
}

/// Whether a relocation of a module is that of a direct operand of an instruction on page 0.
fn is_page_operand(map: &Map, owner: &Parts, relocation: &Relocation) -> bool
    ensures { result ≡ is_page_operand (places_view map.now.sections.items) (contents owner.now) relocation.now }
{
    is_direct(relocation.kind) && section_page(&map.sections, owner, relocation.section) == 0
}

/// Appends the relocated direct operands of a module.
fn push_operands(
    map: &Map,
    next: &NextStarts<'_>,
    owner: &Parts,
    operands: &mut Vec<PageOperand>,
) -> Result<(), NoMemory>
    ensures { (modules : List Contents) (number : ℕ) → HasSymbols modules (map_data map.now)
        → KnowsNext next.now (places_view map.now.sections.items) (all_sections (take number modules))
        → OnOk result (operands.new.items ≡ operands.old.items ++ module_operands modules (places_view map.now.sections.items) number (contents owner.now)) }
{
    for relocation in &owner.relocations {
        if is_page_operand(map, owner, relocation) {
            operands.push(page_operand(map, next, owner, relocation))?;
        }
    }
    Ok(())
}

/// A module, and its number among those that are linked.
#[derive(Clone, Copy)]
struct Owner<'a> {
    number: usize,
    parts: &'a Parts,
}

/// Whether an absolute operand is one of a module, and of an instruction on page 0.
fn is_absolute_of(map: &Map, owner: Owner<'_>, operand: AbsoluteOperand) -> bool
    ensures { result ≡ is_absolute_of (places_view map.now.sections.items) owner.entry.number (contents owner.entry.parts.now) operand }
{
    operand.number == owner.number && section_page(&map.sections, owner.parts, operand.section) == 0
}

/// The direct operand that is absolute, where its instruction is loaded and runs.
fn absolute_operand(next: &NextStarts<'_>, owner: &Parts, operand: AbsoluteOperand) -> PageOperand
    ensures { (modules : List Contents) (places : List place.Place) (number : ℕ) → KnowsNext next.now places (all_sections (take number modules))
        → result ≡ absolute_operand modules places number (contents owner.now) operand }
{
    let part = part_of(next, owner, operand.section);
    PageOperand {
        load: address_after(part.base, operand.offset),
        run: address_after(part.run, operand.offset),
        word: operand.word,
    }
}

/// Appends those of absolute operands that are of a module.
fn push_absolutes(
    map: &Map,
    next: &NextStarts<'_>,
    owner: Owner<'_>,
    absolutes: &[AbsoluteOperand],
    operands: &mut Vec<PageOperand>,
) -> Result<(), NoMemory>
    ensures { (modules : List Contents)
        → KnowsNext next.now (places_view map.now.sections.items) (all_sections (take owner.entry.number modules))
        → OnOk result (operands.new.items ≡ operands.old.items ++ module_absolutes absolutes.now modules (places_view map.now.sections.items) owner.entry.number (contents owner.entry.parts.now)) }
{
    for absolute in absolutes {
        if is_absolute_of(map, owner, *absolute) {
            operands.push(absolute_operand(next, owner.parts, *absolute))?;
        }
    }
    Ok(())
}

/// Appends the direct operands of a module: those that are relocated, and then the absolute ones.
fn push_all(
    map: &Map,
    next: &NextStarts<'_>,
    owner: Owner<'_>,
    absolutes: &[AbsoluteOperand],
    operands: &mut Vec<PageOperand>,
) -> Result<(), NoMemory>
    ensures { (modules : List Contents) → HasSymbols modules (map_data map.now)
        → KnowsNext next.now (places_view map.now.sections.items) (all_sections (take owner.entry.number modules))
        → OnOk result (operands.new.items ≡ operands.old.items ++ all_operands absolutes.now modules (places_view map.now.sections.items) owner.entry.number (contents owner.entry.parts.now)) }
{
    push_operands(map, next, owner.parts, operands)?;
    push_absolutes(map, next, owner, absolutes, operands)
}

/// The direct operands of a program that was linked to a map, by modules: those that are relocated, and the absolute ones
/// that are given.
pub fn page_operands(
    alloc: Global,
    absolutes: &[AbsoluteOperand],
    modules: &[Module],
    map: &Map,
) -> Result<Vec<PageOperand>, NoMemory>
    ensures { HasSymbols modules.now (map_data map.now) → IfOk result (λ list. list.items ≡ page_operands absolutes.now modules.now (places_view map.now.sections.items)) }
{
    let mut next = NextStarts::new(alloc, &map.sections)?;
    let mut operands = Vec::new(alloc);
    for number in 0..modules.len() {
        let parts = modules[number].parts();
        let owner = Owner { number, parts };
        push_all(map, &next, owner, absolutes, &mut operands)?;
        next.pass_all(&parts.sections)?;
    }
    Ok(operands)
}
