//! The bytes of a module, record after record.

ghost use Rattle.std.specs.Prelude.{◌≡◌, ◌++◌, ◌≤◌, ◌<◌, ◌^◌, ◌∷◌, length, IfOk, OnOk, string_bytes, [], true, All};
ghost use Rattle.std.specs.List.{flat_map};
ghost use Rattle.std.specs.Int.{w16, w32, to_be_bytes};
ghost use Rattle.c25_meaning_objects.specs.Module.{body_size, each_fits, section_fits};
ghost use Rattle.c25_meaning_objects.specs.Records as bytes;
ghost use Rattle.c25_module.specs.View.{body_data, section_data, symbol_data, sections_data, symbols_data, files_data, contents};

use crate::codes::{
    BLOCK_TAG, FILE_TAG, LAST_TAG, LINE_TAG, MARK_TAG, RELOCATION_TAG, SECTION_TAG, SYMBOL_TAG,
    base_code, base_index, body_flag, field_code, kind_code, kind_section, scope_code,
    version_code,
};
use c25_meaning_common::no_memory::NoMemory;
use c25_meaning_objects::object::{Block, LineMark, ModuleMark, Relocation};
use c25_module::{Body, Module, Parts, Section, Symbol};
use std::alloc::Global;

/// Appends bytes.
fn put(out: &mut Vec<u8>, bytes: &[u8]) -> Result<(), NoMemory>
    ensures { OnOk result (out.new.items ≡ out.old.items ++ bytes.now) }
{
    out.extend_from_slice(bytes).map_err(NoMemory::from)
}

/// Appends the head of a record: its tag and the length of its payload.
fn put_head(out: &mut Vec<u8>, tag: u8, length: u32) -> Result<(), NoMemory>
    ensures { OnOk result (out.new.items ≡ out.old.items ++ tag ∷ to_be_bytes w32 length) }
{
    let [first, second, third, last] = length.to_be_bytes();
    put(out, &[tag, first, second, third, last])
}

fn put_name(out: &mut Vec<u8>, name: &str) -> Result<(), NoMemory>
    requires { length name.now ≤ 128 }
    ensures { OnOk result (out.new.items ≡ out.old.items ++ bytes.counted name.now) }
{
    put(out, &[name.len() as u8])?;
    put(out, name.as_bytes())
}

/// Appends the number of words, and the words.
fn put_words(out: &mut Vec<u8>, words: &[u16]) -> Result<(), NoMemory>
    requires { length words.now ≤ 65536 }
    ensures { OnOk result (out.new.items ≡ out.old.items ++ (to_be_bytes w32 (length words.now) ++ flat_map (to_be_bytes w16) words.now)) }
{
    put(out, &(words.len() as u32).to_be_bytes())?;
    for word in words {
        put(out, &word.to_be_bytes())?;
    }
    Ok(())
}

fn put_body(out: &mut Vec<u8>, body: &Body) -> Result<(), NoMemory>
    requires { body_size (body_data body.now) ≤ 65536 }
    ensures { OnOk result (out.new.items ≡ out.old.items ++ bytes.body_bytes (body_data body.now)) }
{
    match body {
        Body::Uninitialised(size) => put(out, &size.to_be_bytes()),
        Body::Initialised(words) => put_words(out, words),
    }
}

/// The length of a section's payload: flag, length of the name, the name, size, and the words.
fn section_length(section: &Section) -> u32
    requires named { length (string_bytes section.now.name) ≤ 32 }
    requires sized { body_size (body_data section.now.body) ≤ 65536 }
    ensures { result ≡ length (bytes.section_payload (section_data section.now)) }
{
    let without_words = section.name.len() as u32 + 6;
    match &section.body {
        Body::Uninitialised(_) => without_words,
        Body::Initialised(words) => without_words + words.len() as u32 * 2,
    }
}

fn put_section_payload(out: &mut Vec<u8>, section: &Section) -> Result<(), NoMemory>
    requires named { length (string_bytes section.now.name) ≤ 32 }
    requires sized { body_size (body_data section.now.body) ≤ 65536 }
    ensures { OnOk result (out.new.items ≡ out.old.items ++ bytes.section_payload (section_data section.now)) }
{
    put(out, &[body_flag(&section.body)])?;
    put_name(out, &section.name)?;
    put_body(out, &section.body)
}

fn put_section(out: &mut Vec<u8>, section: &Section) -> Result<(), NoMemory>
    requires named { length (string_bytes section.now.name) ≤ 32 }
    requires sized { body_size (body_data section.now.body) ≤ 65536 }
    ensures { OnOk result (out.new.items ≡ out.old.items ++ bytes.section_entry (section_data section.now)) }
{
    put_head(out, SECTION_TAG, section_length(section))?;
    put_section_payload(out, section)
}

/// Appends the record of a mark. A module has as many marks as instructions, so the bytes are appended at
/// once.
fn put_mark(out: &mut Vec<u8>, mark: ModuleMark) -> Result<(), NoMemory>
    ensures { OnOk result (out.new.items ≡ out.old.items ++ bytes.mark_entry mark) }
{
    let [section, section_low] = mark.section.to_be_bytes();
    let [offset, offset_low] = mark.offset.to_be_bytes();
    let size = mark.size;
    put(
        out,
        &[
            MARK_TAG,
            0,
            0,
            0,
            5,
            section,
            section_low,
            offset,
            offset_low,
            size,
        ],
    )
}

fn put_symbol_payload(out: &mut Vec<u8>, symbol: &Symbol) -> Result<(), NoMemory>
    requires { length (string_bytes symbol.now.name) ≤ 128 }
    ensures { OnOk result (out.new.items ≡ out.old.items ++ bytes.symbol_payload (symbol_data symbol.now)) }
{
    let [section, section_low] = kind_section(symbol.kind).to_be_bytes();
    let [first, second, third, last] = symbol.value.to_be_bytes();
    put(
        out,
        &[
            kind_code(symbol.kind),
            scope_code(symbol.scope),
            section,
            section_low,
            first,
            second,
            third,
            last,
        ],
    )?;
    put_name(out, &symbol.name)
}

fn put_symbol(out: &mut Vec<u8>, symbol: &Symbol) -> Result<(), NoMemory>
    requires { length (string_bytes symbol.now.name) ≤ 128 }
    ensures { OnOk result (out.new.items ≡ out.old.items ++ bytes.symbol_entry (symbol_data symbol.now)) }
{
    put_head(out, SYMBOL_TAG, symbol.name.len() as u32 + 9)?;
    put_symbol_payload(out, symbol)
}

/// Appends the record of a relocation, its bytes at once.
fn put_relocation(out: &mut Vec<u8>, relocation: &Relocation) -> Result<(), NoMemory>
    ensures { OnOk result (out.new.items ≡ out.old.items ++ bytes.relocation_entry relocation.now) }
{
    let [section, section_low] = relocation.section.to_be_bytes();
    let [offset, offset_low] = relocation.offset.to_be_bytes();
    let field = field_code(relocation.kind);
    let base = base_code(relocation.base);
    let [index, index_low] = base_index(relocation.base).to_be_bytes();
    let [first, second, third, last] = relocation.addend.to_be_bytes();
    put(
        out,
        &[
            RELOCATION_TAG,
            0,
            0,
            0,
            12,
            section,
            section_low,
            offset,
            offset_low,
            field,
            base,
            index,
            index_low,
            first,
            second,
            third,
            last,
        ],
    )
}

fn put_sections(out: &mut Vec<u8>, sections: &[Section]) -> Result<(), NoMemory>
    requires { each_fits section_fits [] (sections_data sections.now) ≡ true }
    ensures { OnOk result (out.new.items ≡ out.old.items ++ flat_map bytes.section_entry (sections_data sections.now)) }
{
    for section in sections {
        put_section(out, section)?;
    }
    Ok(())
}

fn put_marks(out: &mut Vec<u8>, marks: &[ModuleMark]) -> Result<(), NoMemory>
    ensures { OnOk result (out.new.items ≡ out.old.items ++ flat_map bytes.mark_entry marks.now) }
{
    for mark in marks {
        put_mark(out, *mark)?;
    }
    Ok(())
}

fn put_symbols(out: &mut Vec<u8>, symbols: &[Symbol]) -> Result<(), NoMemory>
    requires { All (λ y. length (string_bytes y.name) ≤ 128) symbols.now }
    ensures { OnOk result (out.new.items ≡ out.old.items ++ flat_map bytes.symbol_entry (symbols_data symbols.now)) }
{
    for symbol in symbols {
        put_symbol(out, symbol)?;
    }
    Ok(())
}

fn put_relocations(out: &mut Vec<u8>, relocations: &[Relocation]) -> Result<(), NoMemory>
    ensures { OnOk result (out.new.items ≡ out.old.items ++ flat_map bytes.relocation_entry relocations.now) }
{
    for relocation in relocations {
        put_relocation(out, relocation)?;
    }
    Ok(())
}

fn put_file(out: &mut Vec<u8>, name: &str) -> Result<(), NoMemory>
    requires { length name.now < 2 ^ 32 }
    ensures { OnOk result (out.new.items ≡ out.old.items ++ bytes.file_entry name.now) }
{
    put_head(out, FILE_TAG, name.len() as u32)?;
    put(out, name.as_bytes())
}

/// Appends the record of a line, its bytes at once.
fn put_line(out: &mut Vec<u8>, line: LineMark) -> Result<(), NoMemory>
    ensures { OnOk result (out.new.items ≡ out.old.items ++ bytes.line_entry line) }
{
    let [file, file_low] = line.file.to_be_bytes();
    let [first, second, third, last] = line.line.to_be_bytes();
    put(
        out,
        &[
            LINE_TAG, 0, 0, 0, 6, file, file_low, first, second, third, last,
        ],
    )
}

/// Appends the record of a block, its bytes at once.
fn put_block(out: &mut Vec<u8>, block: Block) -> Result<(), NoMemory>
    ensures { OnOk result (out.new.items ≡ out.old.items ++ bytes.block_entry block) }
{
    let [section, section_low] = block.section.to_be_bytes();
    let [offset, offset_low] = block.offset.to_be_bytes();
    let size = block.size;
    put(
        out,
        &[
            BLOCK_TAG,
            0,
            0,
            0,
            5,
            section,
            section_low,
            offset,
            offset_low,
            size,
        ],
    )
}

fn put_files(out: &mut Vec<u8>, files: &[String]) -> Result<(), NoMemory>
    requires { All (λ f. length (string_bytes f) < 2 ^ 32) files.now }
    ensures { OnOk result (out.new.items ≡ out.old.items ++ flat_map bytes.file_entry (files_data files.now)) }
{
    for file in files {
        put_file(out, file)?;
    }
    Ok(())
}

fn put_lines(out: &mut Vec<u8>, lines: &[LineMark]) -> Result<(), NoMemory>
    ensures { OnOk result (out.new.items ≡ out.old.items ++ flat_map bytes.line_entry lines.now) }
{
    for line in lines {
        put_line(out, *line)?;
    }
    Ok(())
}

fn put_blocks(out: &mut Vec<u8>, blocks: &[Block]) -> Result<(), NoMemory>
    ensures { OnOk result (out.new.items ≡ out.old.items ++ flat_map bytes.block_entry blocks.now) }
{
    for block in blocks {
        put_block(out, *block)?;
    }
    Ok(())
}

/// Appends the records of the lists that both versions have.
fn put_first(out: &mut Vec<u8>, parts: &Parts) -> Result<(), NoMemory>
    requires sections { each_fits section_fits [] (sections_data parts.now.sections.items) ≡ true }
    requires symbols { All (λ y. length (string_bytes y.name) ≤ 128) parts.now.symbols.items }
    ensures { OnOk result (out.new.items ≡ out.old.items
        ++ (flat_map bytes.section_entry (contents parts.now).sections ++ (flat_map bytes.mark_entry (contents parts.now).marks
        ++ (flat_map bytes.symbol_entry (contents parts.now).symbols ++ flat_map bytes.relocation_entry (contents parts.now).relocations)))) }
{
    put_sections(out, &parts.sections)?;
    put_marks(out, &parts.marks)?;
    put_symbols(out, &parts.symbols)?;
    put_relocations(out, &parts.relocations)
}

/// Appends the records of the lists that version 2 alone has.
fn put_second(out: &mut Vec<u8>, parts: &Parts) -> Result<(), NoMemory>
    requires { All (λ f. length (string_bytes f) < 2 ^ 32) parts.now.files.items }
    ensures { OnOk result (out.new.items ≡ out.old.items
        ++ (flat_map bytes.file_entry (contents parts.now).files
        ++ (flat_map bytes.line_entry (contents parts.now).lines ++ flat_map bytes.block_entry (contents parts.now).blocks))) }
{
    put_files(out, &parts.files)?;
    put_lines(out, &parts.lines)?;
    put_blocks(out, &parts.blocks)
}

/// Appends the bytes of a module.
fn put_module(out: &mut Vec<u8>, object: &Module) -> Result<(), NoMemory>
    ensures { OnOk result (out.new.items ≡ out.old.items ++ bytes.spelling object.now) }
{
    let parts = object.parts();
    put(out, &[b'C', b'2', b'5', b'O', version_code(parts.version)])?;
    put_first(out, parts)?;
    put_second(out, parts)?;
    put_head(out, LAST_TAG, 0)
}

/// The bytes of a module: its one spelling. `NoMemory` where memory runs out.
pub fn write_module(alloc: Global, object: &Module) -> Result<Vec<u8>, NoMemory>
    ensures { IfOk result (λ v. v.items ≡ bytes.spelling object.now) }
{
    let mut out = Vec::new(alloc);
    put_module(&mut out, object)?;
    Ok(out)
}
