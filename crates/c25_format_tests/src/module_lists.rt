//! Lists that are a module's, and lists that are not once something is changed in them.

use crate::values::equal;
use c25_meaning_objects::object::{Block, LineMark, ModuleMark, Scope, SymbolKind, Version};
use c25_module::{Body, Parts, Section, Symbol, spells};
use std::alloc::{AllocError, Global};

/// Empty lists of version 2.
fn no_lists(alloc: Global) -> Parts {
    Parts {
        sections: Vec::new(alloc),
        marks: Vec::new(alloc),
        symbols: Vec::new(alloc),
        relocations: Vec::new(alloc),
        version: Version::Two,
        files: Vec::new(alloc),
        lines: Vec::new(alloc),
        blocks: Vec::new(alloc),
    }
}

/// Adds `.text` with the word of a `NOP`, and `.bss` of 300 words.
fn push_sections(alloc: Global, parts: &mut Parts) -> Result<(), AllocError> {
    let name = String::from_str(alloc, ".text")?;
    let body = Body::Initialised([0x5500].to_vec(alloc)?);
    parts.sections.push(Section { name, body })?;
    let name = String::from_str(alloc, ".bss")?;
    let body = Body::Uninitialised(300);
    Ok(parts.sections.push(Section { name, body })?)
}

/// Adds a symbol of this name.
fn push_symbol(alloc: Global, parts: &mut Parts, name: &str) -> Result<(), AllocError> {
    let name = String::from_str(alloc, name)?;
    Ok(
        parts.symbols.push(Symbol {
            kind: SymbolKind::Absolute,
            scope: Scope::Local,
            value: 0,
            name,
        })?,
    )
}

/// Adds a file of this name.
fn push_file(alloc: Global, parts: &mut Parts, name: &str) -> Result<(), AllocError> {
    let name = String::from_str(alloc, name)?;
    Ok(parts.files.push(name)?)
}

/// Adds a block of the second section.
fn push_block(parts: &mut Parts, offset: u16, size: u8) -> Result<(), AllocError> {
    Ok(
        parts.blocks.push(Block {
            section: 1,
            offset,
            size,
        })?,
    )
}

/// Puts a `NOP` in line 1 of `a.asm`, a symbol `GO` and a block into lists that are empty.
fn fill(alloc: Global, parts: &mut Parts) -> Result<(), AllocError> {
    push_sections(alloc, parts)?;
    push_symbol(alloc, parts, "GO")?;
    push_file(alloc, parts, "a.asm")?;
    push_block(parts, 200, 100)?;
    parts.lines.push(LineMark { file: 0, line: 1 })?;
    Ok(
        parts.marks.push(ModuleMark {
            section: 0,
            offset: 0,
            size: 1,
        })?,
    )
}

/// Whether the lists are a module's as they are, in version 1, with a symbol of the name of another, with a
/// file that no line uses, with a line without a mark, and with a block that overlaps another.
fn answers(alloc: Global, parts: &mut Parts) -> Result<[bool; 6], AllocError> {
    let whole = spells(parts);
    parts.version = Version::One;
    let in_first = spells(parts);
    parts.version = Version::Two;
    push_symbol(alloc, parts, "GO")?;
    let with_symbol = spells(parts);
    parts.symbols.truncate(1);
    push_file(alloc, parts, "c.inc")?;
    let with_file = spells(parts);
    parts.files.truncate(1);
    parts.lines.push(LineMark { file: 0, line: 8 })?;
    let with_line = spells(parts);
    parts.lines.truncate(1);
    push_block(parts, 299, 1)?;
    let with_block = spells(parts);
    parts.blocks.truncate(1);
    Ok([
        whole,
        in_first,
        with_symbol,
        with_file,
        with_line,
        with_block,
    ])
}

/// Whether the lists are a module's in version 1 without lines and blocks, then without files too, and then
/// without sections.
fn answers_of_first(parts: &mut Parts) -> [bool; 3] {
    parts.version = Version::One;
    parts.lines.clear();
    parts.blocks.clear();
    let with_file = spells(parts);
    parts.files.clear();
    let whole = spells(parts);
    parts.sections.clear();
    [with_file, whole, spells(parts)]
}

#[test]
fn lists_of_no_module_spell_nothing(rt: HostRuntime) {
    let mut parts = no_lists(rt.alloc());
    equal(&rt, fill(rt.alloc(), &mut parts), Ok(()));
    let found = answers(rt.alloc(), &mut parts);
    equal(&rt, found, Ok([true, false, false, false, false, false]));
    equal(&rt, answers_of_first(&mut parts), [false, true, false]);
}
