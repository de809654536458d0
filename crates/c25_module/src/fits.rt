//! Which items may stand in a module, after the items before them.

ghost use Rattle.std.specs.Prelude.{◌≡◌, ◌+◌};
ghost use Rattle.std.specs.List.{slice_get};
ghost use Rattle.c25_meaning_objects.specs.Module as spec;
ghost use Rattle.c25_meaning_common.specs.Fields as fields;
ghost use Rattle.c25_module.specs.View.{body_data, section_data, symbol_data, sections_data, symbols_data, files_data};

use crate::names::{is_section_name, is_symbol_name};
use crate::parts::{Body, Section, Symbol};
use c25_meaning_common::relocation::RelocationKind;
use c25_meaning_objects::object::{
    Block, LineMark, ModuleMark, Relocation, RelocationBase, Scope, SymbolKind, Version,
};

fn is_text(section: &Section) -> bool
    ensures { result ≡ spec.is_text (section_data section.now) }
{
    section.name.as_str() == ".text" && matches!(section.body, Body::Initialised(_))
}

fn begins_sections(before: &[Section], section: &Section) -> bool
    ensures { result ≡ spec.begins_sections (sections_data before.now) (section_data section.now) }
{
    !before.is_empty() || is_text(section)
}

fn has_section(before: &[Section], name: &str) -> bool
    ensures { result ≡ spec.has_section (sections_data before.now) name.now }
{
    for section in before {
        if section.name.as_str() == name {
            return true;
        }
    }
    false
}

fn size_of(body: &Body) -> usize
    ensures { result ≡ spec.body_size (body_data body.now) }
{
    match body {
        Body::Uninitialised(size) => *size as usize,
        Body::Initialised(words) => words.len(),
    }
}

/// Whether a section may follow the sections before it.
pub fn section_fits(before: &[Section], section: &Section) -> bool
    ensures { result ≡ spec.section_fits (sections_data before.now) (section_data section.now) }
{
    is_section_name(section.name.as_bytes())
        && size_of(&section.body) <= 65_536
        && begins_sections(before, section)
        && !has_section(before, &section.name)
        && before.len() < 255
}

/// The words of the section of a number; none where it is uninitialised or there is none.
fn words_at(sections: &[Section], number: u16) -> &[u16]
    ensures { result.now ≡ spec.words_at (sections_data sections.now) number }
{
    match sections.get(number as usize) {
        Some(
            Section {
                body: Body::Initialised(words),
                ..
            },
        ) => words,
        _ => &[],
    }
}

fn is_from(section: u16, offset: u32, other_section: u16, other_offset: u32) -> bool
    ensures { result ≡ spec.is_from section offset other_section other_offset }
{
    section < other_section || (section == other_section && offset <= other_offset)
}

fn past(offset: u16, size: u8) -> u32
    ensures { result ≡ offset + size }
{
    u32::from(offset) + u32::from(size)
}

fn mark_after(before: &[ModuleMark], mark: &ModuleMark) -> bool
    ensures { result ≡ spec.mark_after (spec.last_of before.now) mark.now }
{
    match before.last() {
        None => true,
        Some(last) => {
            let end = past(last.offset, last.size);
            is_from(last.section, end, mark.section, u32::from(mark.offset))
        }
    }
}

/// Whether a mark may follow the marks before it: it has one word or two, lies in an initialised section, and
/// begins after the last mark ends.
pub fn mark_fits(sections: &[Section], before: &[ModuleMark], mark: &ModuleMark) -> bool
    ensures { result ≡ spec.mark_fits (sections_data sections.now) before.now mark.now }
{
    (mark.size == 1 || mark.size == 2)
        && mark.offset as usize + mark.size as usize <= words_at(sections, mark.section).len()
        && mark_after(before, mark)
}

fn kind_allowed(version: Version, kind: SymbolKind) -> bool
    ensures { result ≡ spec.kind_allowed version kind }
{
    match version {
        Version::One => !matches!(kind, SymbolKind::Loaded(_)),
        Version::Two => true,
    }
}

fn place_fits(sections: &[Section], symbol: &Symbol) -> bool
    ensures { result ≡ spec.place_fits (sections_data sections.now) (symbol_data symbol.now) symbol.now.kind }
{
    match symbol.kind {
        SymbolKind::Absolute => true,
        SymbolKind::InSection(number) | SymbolKind::Loaded(number) => {
            (number as usize) < sections.len()
        }
        SymbolKind::External => symbol.scope == Scope::Global && symbol.value == 0,
    }
}

/// Whether a symbol may stand in a module of this version with these sections, whatever the other symbols
/// are.
pub fn symbol_stands(version: Version, sections: &[Section], symbol: &Symbol) -> bool
    ensures { result ≡ spec.symbol_stands version (sections_data sections.now) (symbol_data symbol.now) }
{
    is_symbol_name(symbol.name.as_bytes())
        && kind_allowed(version, symbol.kind)
        && place_fits(sections, symbol)
}

fn is_external(symbols: &[Symbol], number: u16) -> bool
    ensures { result ≡ spec.is_external (slice_get (symbols_data symbols.now) number) }
{
    match symbols.get(number as usize) {
        None => false,
        Some(symbol) => symbol.kind == SymbolKind::External,
    }
}

fn base_fits(
    version: Version,
    sections: &[Section],
    symbols: &[Symbol],
    base: RelocationBase,
) -> bool
    ensures { result ≡ spec.base_fits version (sections_data sections.now) (symbols_data symbols.now) base }
{
    match base {
        RelocationBase::Section(number) => (number as usize) < sections.len(),
        RelocationBase::Loaded(number) => {
            version == Version::Two && (number as usize) < sections.len()
        }
        RelocationBase::External(number) => is_external(symbols, number),
    }
}

fn field_values(kind: RelocationKind) -> u32
    ensures { result ≡ fields.field_values kind }
{
    match kind {
        RelocationKind::Word16 => 65_536,
        RelocationKind::Low7 => 128,
        RelocationKind::Page9 => 512,
    }
}

fn relocation_after(before: &[Relocation], relocation: &Relocation) -> bool
    ensures { result ≡ spec.relocation_after (spec.last_of before.now) relocation.now }
{
    match before.last() {
        None => true,
        Some(last) => {
            let end = past(last.offset, 1);
            is_from(
                last.section,
                end,
                relocation.section,
                u32::from(relocation.offset),
            )
        }
    }
}

fn field_is_clear(words: &[u16], relocation: &Relocation) -> bool
    ensures { result ≡ spec.field_is_clear words.now relocation.now }
{
    let offset = relocation.offset as usize;
    offset < words.len() && u32::from(words[offset]) % field_values(relocation.kind) == 0
}

/// Whether a relocation may follow the relocations before it.
pub fn relocation_fits(
    version: Version,
    sections: &[Section],
    symbols: &[Symbol],
    before: &[Relocation],
    relocation: &Relocation,
) -> bool
    ensures { result ≡ spec.relocation_fits version (sections_data sections.now) (symbols_data symbols.now) before.now relocation.now }
{
    base_fits(version, sections, symbols, relocation.base)
        && relocation_after(before, relocation)
        && field_is_clear(words_at(sections, relocation.section), relocation)
}

fn has_file(before: &[String], name: &str) -> bool
    ensures { result ≡ spec.has_file (files_data before.now) name.now }
{
    for file in before {
        if file.as_str() == name {
            return true;
        }
    }
    false
}

/// Whether a file may follow the files before it.
pub(crate) fn file_fits(before: &[String], name: &str) -> bool
    ensures { result ≡ spec.file_fits (files_data before.now) name.now }
{
    name.len() < 1 << 32 && !has_file(before, name)
}

/// How many files lines use, with one line more after lines that use `count` files.
pub fn used_with(count: u32, line: &LineMark) -> u32
    ensures { result ≡ spec.used_with count line.now }
{
    let file = u32::from(line.file);
    if file < count { count } else { file + 1 }
}

/// Whether a line may follow the lines before it, which use `used` files.
pub fn line_fits(
    marks: &[ModuleMark],
    files: &[String],
    before: &[LineMark],
    used: u32,
    line: &LineMark,
) -> bool
    requires { used ≡ spec.used before.now }
    ensures { result ≡ spec.line_fits marks.now (files_data files.now) before.now line.now }
{
    before.len() < marks.len()
        && (line.file as usize) < files.len()
        && u32::from(line.file) <= used
        && line.line >= 1
}

/// How many words the uninitialised section of a number reserves; 0 where there is none.
fn reserved_at(sections: &[Section], number: u16) -> usize
    ensures { result ≡ spec.reserved_at (sections_data sections.now) number }
{
    match sections.get(number as usize) {
        Some(
            Section {
                body: Body::Uninitialised(size),
                ..
            },
        ) => *size as usize,
        _ => 0,
    }
}

fn block_after(before: &[Block], block: &Block) -> bool
    ensures { result ≡ spec.block_after (spec.last_of before.now) block.now }
{
    match before.last() {
        None => true,
        Some(last) => {
            let end = past(last.offset, last.size);
            is_from(last.section, end, block.section, u32::from(block.offset))
        }
    }
}

/// Whether a block may follow the blocks before it.
pub fn block_fits(sections: &[Section], before: &[Block], block: &Block) -> bool
    ensures { result ≡ spec.block_fits (sections_data sections.now) before.now block.now }
{
    block.size >= 1
        && block.size <= 128
        && block.offset as usize + block.size as usize <= reserved_at(sections, block.section)
        && block_after(before, block)
}
