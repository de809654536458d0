//! Which lists are those of a module.

ghost use Rattle.std.specs.Prelude.{◌≡◌, []};
ghost use Rattle.std.specs.List.{list_all};
ghost use Rattle.c25_meaning_objects.specs.Module as spec;
ghost use Rattle.c25_module.specs.View.{sections_data, symbols_data, files_data, contents};

use crate::differing::{MAX_SYMBOLS, names_differ};
use crate::fits::{
    block_fits, file_fits, line_fits, mark_fits, relocation_fits, section_fits, symbol_stands,
    used_with,
};
use crate::parts::{Parts, Section, Symbol};
use c25_meaning_objects::object::{Block, LineMark, ModuleMark, Relocation, Version};

fn sections_fit(sections: &[Section]) -> bool
    ensures { result ≡ spec.each_fits spec.section_fits [] (sections_data sections.now) }
{
    for i in 0..sections.len() {
        if !section_fits(&sections[..i], &sections[i]) {
            return false;
        }
    }
    true
}

fn marks_fit(sections: &[Section], marks: &[ModuleMark]) -> bool
    ensures { result ≡ spec.each_fits (spec.mark_fits (sections_data sections.now)) [] marks.now }
{
    for i in 0..marks.len() {
        if !mark_fits(sections, &marks[..i], &marks[i]) {
            return false;
        }
    }
    true
}

fn all_symbols_stand(version: Version, sections: &[Section], symbols: &[Symbol]) -> bool
    ensures { result ≡ list_all (spec.symbol_stands version (sections_data sections.now)) (symbols_data symbols.now) }
{
    for symbol in symbols {
        if !symbol_stands(version, sections, symbol) {
            return false;
        }
    }
    true
}

fn symbols_fit(version: Version, sections: &[Section], symbols: &[Symbol]) -> bool
    ensures { result ≡ spec.each_fits (spec.symbol_fits version (sections_data sections.now)) [] (symbols_data symbols.now) }
{
    if symbols.len() > MAX_SYMBOLS {
        return false;
    }
    all_symbols_stand(version, sections, symbols) && names_differ(symbols)
}

fn relocations_fit(
    version: Version,
    sections: &[Section],
    symbols: &[Symbol],
    relocations: &[Relocation],
) -> bool
    ensures { result ≡ spec.each_fits (spec.relocation_fits version (sections_data sections.now) (symbols_data symbols.now)) [] relocations.now }
{
    for i in 0..relocations.len() {
        if !relocation_fits(
            version,
            sections,
            symbols,
            &relocations[..i],
            &relocations[i],
        ) {
            return false;
        }
    }
    true
}

fn files_fit(files: &[String]) -> bool
    ensures { result ≡ spec.each_fits spec.file_fits [] (files_data files.now) }
{
    for i in 0..files.len() {
        if !file_fits(&files[..i], &files[i]) {
            return false;
        }
    }
    true
}

fn lines_fit(marks: &[ModuleMark], files: &[String], lines: &[LineMark]) -> bool
    ensures { result ≡ spec.each_fits (spec.line_fits marks.now (files_data files.now)) [] lines.now }
{
    let mut used = 0;
    for i in 0..lines.len() {
        if !line_fits(marks, files, &lines[..i], used, &lines[i]) {
            return false;
        }
        used = used_with(used, &lines[i]);
    }
    true
}

fn used(lines: &[LineMark]) -> u32
    ensures { result ≡ spec.used lines.now }
{
    let mut count = 0;
    for line in lines {
        count = used_with(count, line);
    }
    count
}

/// Whether the lists have the lines, files and blocks that their version calls for: none in version 1; in
/// version 2 a line for each mark, and no file that lines do not use.
fn told(parts: &Parts) -> bool
    ensures { result ≡ spec.told_by parts.now.version (contents parts.now) }
{
    match parts.version {
        Version::One => {
            parts.files.is_empty() && parts.lines.is_empty() && parts.blocks.is_empty()
        }
        Version::Two => {
            parts.lines.len() == parts.marks.len()
                && used(&parts.lines) as usize == parts.files.len()
        }
    }
}

fn blocks_fit(sections: &[Section], blocks: &[Block]) -> bool
    ensures { result ≡ spec.each_fits (spec.block_fits (sections_data sections.now)) [] blocks.now }
{
    for i in 0..blocks.len() {
        if !block_fits(sections, &blocks[..i], &blocks[i]) {
            return false;
        }
    }
    true
}

/// Whether the lists are those of a module, so that its records can be written. The first section is an
/// initialised `.text`; there are at most 255 sections of at most 65,536 words, and at most 65,535 symbols;
/// names have the form of a section's or a symbol's name, and none stands twice among sections or among
/// symbols; an external symbol is global and has the value 0; marks and relocations ascend, lie inside
/// initialised sections and do not overlap; each number of a section or symbol is that of one in the lists,
/// and a relocation's symbol is external; relocated fields are 0.
///
/// In version 2 each mark has a line of 1 or more, no file's name stands twice, and each file is used, in the
/// order of files; blocks of 1 to 128 words ascend, lie inside uninitialised sections and do not overlap.
/// Version 1 has none of these lists, and nothing that counts from where a section is loaded.
///
/// The heap is not used. The time is near linear in the size of the lists, but for the names of files, each
/// of which is compared with those before it.
pub fn spells(parts: &Parts) -> bool
    ensures { result ≡ spec.is_module (contents parts.now) }
{
    let sections: &[Section] = &parts.sections;
    let marks: &[ModuleMark] = &parts.marks;
    let symbols: &[Symbol] = &parts.symbols;
    let files: &[String] = &parts.files;
    !sections.is_empty()
        && sections_fit(sections)
        && marks_fit(sections, marks)
        && symbols_fit(parts.version, sections, symbols)
        && relocations_fit(parts.version, sections, symbols, &parts.relocations)
        && files_fit(files)
        && lines_fit(marks, files, &parts.lines)
        && told(parts)
        && blocks_fit(sections, &parts.blocks)
}
