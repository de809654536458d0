//! Modules written as bytes, and bytes read as modules.

use crate::values::equal;
use c25_meaning_common::relocation::RelocationKind;
use c25_meaning_objects::object::{
    Block, LineMark, ModuleMark, Relocation, RelocationBase, Scope, SymbolKind, Version,
};
use c25_module::{Body, Module, Parts, Section, Symbol, spells};
use c25_records::{read_module, write_module};
use std::alloc::Global;

/// A section's name, its words, and how many are reserved where it has none.
type SectionRow = (&'static str, &'static [u16], u32);

/// A symbol's kind, whether it is global, its value, and its name.
type SymbolRow = (SymbolKind, bool, i32, &'static str);

/// The contents of a module that a test expects.
#[derive(Clone, Copy)]
struct Lists {
    version: Version,
    sections: &'static [SectionRow],
    marks: &'static [ModuleMark],
    symbols: &'static [SymbolRow],
    relocations: &'static [Relocation],
    files: &'static [&'static str],
    lines: &'static [LineMark],
    blocks: &'static [Block],
}

fn is_section(section: &Section, (name, words, reserved): SectionRow) -> bool {
    match &section.body {
        Body::Initialised(found) => section.name.as_str() == name && found.as_slice() == words,
        Body::Uninitialised(found) => section.name.as_str() == name && *found == reserved,
    }
}

fn are_sections(sections: &[Section], rows: &[SectionRow]) -> bool {
    for (section, row) in sections.iter().zip(rows) {
        if !is_section(section, *row) {
            return false;
        }
    }
    sections.len() == rows.len()
}

fn is_symbol(symbol: &Symbol, (kind, is_global, value, name): SymbolRow) -> bool {
    symbol.kind == kind
        && matches!(symbol.scope, Scope::Global) == is_global
        && symbol.value == value
        && symbol.name.as_str() == name
}

fn are_symbols(symbols: &[Symbol], rows: &[SymbolRow]) -> bool {
    for (symbol, row) in symbols.iter().zip(rows) {
        if !is_symbol(symbol, *row) {
            return false;
        }
    }
    symbols.len() == rows.len()
}

fn are_files(files: &[String], names: &[&str]) -> bool {
    for (file, name) in files.iter().zip(names) {
        if file.as_str() != *name {
            return false;
        }
    }
    files.len() == names.len()
}

/// Whether each list of a module is as it should be.
fn are_lists(parts: &Parts, lists: &Lists) -> [bool; 8] {
    [
        parts.version == lists.version,
        are_sections(&parts.sections, lists.sections),
        parts.marks.as_slice() == lists.marks,
        are_symbols(&parts.symbols, lists.symbols),
        parts.relocations.as_slice() == lists.relocations,
        are_files(&parts.files, lists.files),
        parts.lines.as_slice() == lists.lines,
        parts.blocks.as_slice() == lists.blocks,
    ]
}

/// Whether a module is written as these bytes.
fn is_written(alloc: Global, object: &Module, bytes: &[u8]) -> bool {
    match write_module(alloc, object) {
        Ok(written) => written.as_slice() == bytes,
        Err(_) => false,
    }
}

/// Whether each list of the module that bytes are read as is as it should be, whether the lists are a module's, and whether
/// it is written as these bytes again.
fn goes_both_ways(alloc: Global, bytes: &[u8], lists: &Lists) -> ([bool; 8], bool, bool) {
    match read_module(alloc, bytes) {
        Ok(object) => {
            let are = are_lists(object.parts(), lists);
            (
                are,
                spells(object.parts()),
                is_written(alloc, &object, bytes),
            )
        }
        Err(_) => ([false; 8], false, false),
    }
}

/// `C25O`, version 1, an empty `.text`, and the last record.
const EMPTY: &[u8] = b"C25O\x01\x01\0\0\0\x0B\x01\x05.text\0\0\0\0\xFF\0\0\0\0";

const EMPTY_LISTS: Lists = Lists {
    version: Version::One,
    sections: &[(".text", &[], 0)],
    marks: &[],
    symbols: &[],
    relocations: &[],
    files: &[],
    lines: &[],
    blocks: &[],
};

/// A module of version 1 with every kind of record, as another writer of the format spells it.
const FIRST: &[u8] = b"C25O\x01\
    \x01\0\0\0\x13\x01\x05.text\0\0\0\x04\xFF\x80\0\0\xC8\0\x20\0\
    \x01\0\0\0\x0A\0\x04.bss\0\0\x01\x2C\
    \x02\0\0\0\x05\0\0\0\0\x02\
    \x02\0\0\0\x05\0\0\0\x02\x01\
    \x02\0\0\0\x05\0\0\0\x03\x01\
    \x03\0\0\0\x0D\0\0\0\0\xFF\xFF\xFF\xFB\x04ROOM\
    \x03\0\0\0\x0B\x01\x01\0\0\0\0\0\x02\x02GO\
    \x03\0\0\0\x0D\x01\0\0\x01\0\0\0\x07\x04X_1$\
    \x03\0\0\0\x0C\x02\x01\0\0\0\0\0\0\x03FAR\
    \x04\0\0\0\x0C\0\0\0\x01\x01\x01\0\x03\xFF\xFF\xFF\xFF\
    \x04\0\0\0\x0C\0\0\0\x02\x03\0\0\x01\0\0\0\x07\
    \x04\0\0\0\x0C\0\0\0\x03\x02\0\0\x01\0\0\0\x08\
    \xFF\0\0\0\0";

const FIRST_LISTS: Lists = Lists {
    version: Version::One,
    sections: &[
        (".text", &[0xff80, 0, 0xc800, 0x2000], 0),
        (".bss", &[], 300),
    ],
    marks: &[
        ModuleMark {
            section: 0,
            offset: 0,
            size: 2,
        },
        ModuleMark {
            section: 0,
            offset: 2,
            size: 1,
        },
        ModuleMark {
            section: 0,
            offset: 3,
            size: 1,
        },
    ],
    symbols: &[
        (SymbolKind::Absolute, false, -5, "ROOM"),
        (SymbolKind::InSection(0), true, 2, "GO"),
        (SymbolKind::InSection(1), false, 7, "X_1$"),
        (SymbolKind::External, true, 0, "FAR"),
    ],
    relocations: &[
        Relocation {
            section: 0,
            offset: 1,
            kind: RelocationKind::Word16,
            base: RelocationBase::External(3),
            addend: -1,
        },
        Relocation {
            section: 0,
            offset: 2,
            kind: RelocationKind::Page9,
            base: RelocationBase::Section(1),
            addend: 7,
        },
        Relocation {
            section: 0,
            offset: 3,
            kind: RelocationKind::Low7,
            base: RelocationBase::Section(1),
            addend: 8,
        },
    ],
    files: &[],
    lines: &[],
    blocks: &[],
};

/// `NOP` in line 1 of `a.asm`, as another writer of the format spells it.
const INSTRUCTION: &[u8] = b"C25O\x02\
    \x01\0\0\0\x0D\x01\x05.text\0\0\0\x01U\0\
    \x02\0\0\0\x05\0\0\0\0\x01\
    \x05\0\0\0\x05a.asm\
    \x06\0\0\0\x06\0\0\0\0\0\x01\
    \xFF\0\0\0\0";

const INSTRUCTION_LISTS: Lists = Lists {
    version: Version::Two,
    sections: &[(".text", &[0x5500], 0)],
    marks: &[ModuleMark {
        section: 0,
        offset: 0,
        size: 1,
    }],
    symbols: &[],
    relocations: &[],
    files: &["a.asm"],
    lines: &[LineMark { file: 0, line: 1 }],
    blocks: &[],
};

/// A module of version 2 with every kind of record, as another writer of the format spells it.
const SECOND: &[u8] = b"C25O\x02\
    \x01\0\0\0\x13\x01\x05.text\0\0\0\x04U\0\
    \0\0\xC8\0\0\0\x01\0\0\0\x0A\0\x04.bss\0\0\x01,\
    \x02\0\0\0\x05\0\0\0\0\x01\
    \x02\0\0\0\x05\0\0\0\x02\x01\
    \x03\0\0\0\x0D\0\0\0\0\xFF\xFF\xFF\xFB\x04ROOM\
    \x03\0\0\0\x0B\x01\x01\0\0\0\0\0\x02\x02GO\
    \x03\0\0\0\x0A\x03\x01\0\0\0\0\0\x02\x01L\
    \x03\0\0\0\x0C\x02\x01\0\0\0\0\0\0\x03FAR\
    \x04\0\0\0\x0C\0\0\0\x01\x01\x01\0\x03\xFF\xFF\xFF\xFF\
    \x04\0\0\0\x0C\0\0\0\x02\x03\0\0\x01\0\0\0\x07\
    \x04\0\0\0\x0C\0\0\0\x03\x01\x02\0\x01\0\0\0\x08\
    \x05\0\0\0\x05a.asm\
    \x05\0\0\0\x05b.inc\
    \x06\0\0\0\x06\0\0\0\0\0\x01\
    \x06\0\0\0\x06\0\x01\0\0\0\x07\
    \x07\0\0\0\x05\0\x01\0\0\x80\
    \x07\0\0\0\x05\0\x01\0\xC8d\
    \xFF\0\0\0\0";

const SECOND_LISTS: Lists = Lists {
    version: Version::Two,
    sections: &[(".text", &[0x5500, 0, 0xc800, 0], 0), (".bss", &[], 300)],
    marks: &[
        ModuleMark {
            section: 0,
            offset: 0,
            size: 1,
        },
        ModuleMark {
            section: 0,
            offset: 2,
            size: 1,
        },
    ],
    symbols: &[
        (SymbolKind::Absolute, false, -5, "ROOM"),
        (SymbolKind::InSection(0), true, 2, "GO"),
        (SymbolKind::Loaded(0), true, 2, "L"),
        (SymbolKind::External, true, 0, "FAR"),
    ],
    relocations: &[
        Relocation {
            section: 0,
            offset: 1,
            kind: RelocationKind::Word16,
            base: RelocationBase::External(3),
            addend: -1,
        },
        Relocation {
            section: 0,
            offset: 2,
            kind: RelocationKind::Page9,
            base: RelocationBase::Section(1),
            addend: 7,
        },
        Relocation {
            section: 0,
            offset: 3,
            kind: RelocationKind::Word16,
            base: RelocationBase::Loaded(1),
            addend: 8,
        },
    ],
    files: &["a.asm", "b.inc"],
    lines: &[LineMark { file: 0, line: 1 }, LineMark { file: 1, line: 7 }],
    blocks: &[
        Block {
            section: 1,
            offset: 0,
            size: 128,
        },
        Block {
            section: 1,
            offset: 200,
            size: 100,
        },
    ],
};

#[test]
fn modules_go_both_ways(rt: HostRuntime) {
    let found = [
        goes_both_ways(rt.alloc(), EMPTY, &EMPTY_LISTS),
        goes_both_ways(rt.alloc(), FIRST, &FIRST_LISTS),
        goes_both_ways(rt.alloc(), INSTRUCTION, &INSTRUCTION_LISTS),
        goes_both_ways(rt.alloc(), SECOND, &SECOND_LISTS),
    ];
    equal(&rt, found, [([true; 8], true, true); 4]);
}
