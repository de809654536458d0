//! What sources reserve in `.bss`.

use c25_chain::assemble_module;
use c25_macro::files::Files;
use c25_meaning_common::failure::Failure;
use c25_meaning_common::no_memory::NoMemory;
use c25_meaning_objects::object::SymbolKind;
use c25_module::{Body, Parts, Section, Symbol};
use std::alloc::Global;

/// A block of `.bss`: where it begins, counted from the part of its source, and how many words it has.
#[derive(Clone, Copy)]
pub(crate) struct BlockAt {
    pub place: u32,
    pub size: u32,
}

/// What a source reserves in `.bss`: how many words, the blocks among them in ascending order, and the names of these.
#[derive(Drop)]
pub(crate) struct Reserved {
    pub words: u32,
    pub blocks: Vec<BlockAt>,
    pub names: Vec<String>,
}

/// The number of `.bss` among sections, counted from 0, and its words.
fn bss_of(sections: &[Section]) -> Option<(u16, u32)> {
    let mut number = 0_u16;
    for section in sections {
        if section.name.as_str() == ".bss" {
            return match &section.body {
                Body::Uninitialised(words) => Some((number, *words)),
                Body::Initialised(_) => None,
            };
        }
        number = number.saturating_add(1);
    }
    None
}

/// Whether a symbol stands at an offset of a section.
fn stands_at(symbol: &Symbol, section: u16, offset: u16) -> bool {
    match symbol.kind {
        SymbolKind::InSection(number) => number == section && symbol.value == i32::from(offset),
        _ => false,
    }
}

/// The name of the first symbol at an offset of a section; an empty one where there is none.
fn name_at(
    alloc: Global,
    symbols: &[Symbol],
    section: u16,
    offset: u16,
) -> Result<String, NoMemory> {
    for symbol in symbols {
        if stands_at(symbol, section, offset) {
            return Ok(String::from_str(alloc, symbol.name.as_str())?);
        }
    }
    Ok(String::new(alloc))
}

/// What a module reserves in `.bss`.
fn reserved_in(alloc: Global, parts: &Parts) -> Result<Reserved, NoMemory> {
    let mut reserved = Reserved {
        words: 0,
        blocks: Vec::new(alloc),
        names: Vec::new(alloc),
    };
    let Some((section, words)) = bss_of(parts.sections.as_slice()) else {
        return Ok(reserved);
    };
    reserved.words = words;
    for block in &parts.blocks {
        if block.section == section {
            let name = name_at(alloc, parts.symbols.as_slice(), section, block.offset)?;
            reserved.names.push(name)?;
            reserved.blocks.push(BlockAt {
                place: u32::from(block.offset),
                size: u32::from(block.size),
            })?;
        }
    }
    Ok(reserved)
}

/// What the source of this name reserves in `.bss`, if it is assembled without a fault.
pub(crate) fn reserved_by(
    alloc: Global,
    texts: &Files,
    name: &str,
) -> Result<Option<Reserved>, NoMemory> {
    match assemble_module(alloc, texts, name) {
        Ok(module) => Ok(Some(reserved_in(alloc, module.parts())?)),
        Err(Failure::NoMemory(error)) => Err(error),
        Err(Failure::Fault(_)) => Ok(None),
    }
}
