//! The instructions of an image, decoded from its words.

ghost use Rattle.std.specs.Prelude.{◌≡◌, ◌≤◌, ◌++◌, ℕ, List, OnOk, string_bytes};
ghost use Rattle.std.specs.Option.{option_map};
ghost use Rattle.c25_meaning_debugger.specs.Debugger.{source_line_at};
ghost use Rattle.c25_meaning_debugger.specs.Texts.{AreLinesOf, IsLineOf, IsWhere, ReadsAt, insn_line, insn_text, marks_from, source_line_end};
ghost use Rattle.c25_meaning_processor.specs.FirstState.{memory_of_map};

use crate::answers::digits::{push_text, push_texts};
use c25_isa::{decode, show, size_of};
use c25_link::Image;
use c25_meaning_common::no_memory::NoMemory;
use c25_meaning_image::word_map::WordMap;
use c25_meaning_instructions::insn::Insn;
use c25_texts::digits::four;
use itoa::Buffer;
use std::alloc::Global;

/// The word at an address, 0 where there is none.
fn word_at(words: &WordMap, address: u32) -> u16
    ensures { result ≡ memory_of_map words.now address }
{
    if address < 65_536 {
        words.get(address as u16).unwrap_or(0)
    } else {
        0
    }
}

/// The instruction of this size that the words at an address decode to.
fn read_at(words: &WordMap, address: u16, size: u16) -> Option<Insn>
    ensures { ReadsAt words.now address size result }
{
    let address = u32::from(address);
    let insn = decode(word_at(words, address), word_at(words, address + 1))?;
    if size_of(insn.mnemonic()) == size {
        Some(insn)
    } else {
        None
    }
}

/// Appends an instruction, or `none`.
fn push_insn(alloc: Global, text: &mut String, insn: &Option<Insn>) -> Result<(), NoMemory>
    ensures { OnOk result (string_bytes text.new ≡ string_bytes text.old ++ insn_text insn.now) }
{
    match insn {
        None => push_text(text, "none"),
        Some(insn) => {
            let shown = show(alloc, insn)?;
            push_text(text, &shown)
        }
    }
}

/// Appends the end of a line: where its instruction stands in the sources, if that is known, and LF.
fn push_end(text: &mut String, source: Option<(&str, u32)>) -> Result<(), NoMemory>
    ensures { OnOk result (string_bytes text.new ≡ string_bytes text.old ++ source_line_end (option_map (λ r. (r.0.now, r.1)) source.entry)) }
{
    match source {
        None => push_text(text, "\n"),
        Some((file, line)) => {
            let mut digits = Buffer::new();
            push_texts(text, &[" ", file, ":", digits.format(line), "\n"])
        }
    }
}

/// Appends a line: an address, an instruction or `none`, and where it stands in the sources, if that is known.
pub(crate) fn push_line(
    alloc: Global,
    text: &mut String,
    address: u16,
    insn: &Option<Insn>,
    source: Option<(&str, u32)>,
) -> Result<(), NoMemory>
    ensures { OnOk result (string_bytes text.new ≡ string_bytes text.old
        ++ insn_line address insn.now (option_map (λ r. (r.0.now, r.1)) source.entry)) }
{
    push_texts(text, &[four(address).as_str(), " "])?;
    push_insn(alloc, text, insn)?;
    push_end(text, source)
}

/// Appends the line of an instruction's place.
fn push_mark(
    alloc: Global,
    text: &mut String,
    image: &Image,
    address: u16,
    size: u16,
) -> Result<(), NoMemory>
    ensures { OnOk result ((line : List ℕ) × IsLineOf image.now.program (source_line_at image.now) (record { address = address; size = size }) line
        × (string_bytes text.new ≡ string_bytes text.old ++ line)) }
{
    let insn = read_at(image.words(0), address, size);
    push_line(alloc, text, address, &insn, image.line_of(address))
}

/// Appends the line of an address: the instruction of this size there, or `none` where the words decode to no
/// instruction of that size, and where it stands in the sources, if that is known. Without a size no
/// instruction starts there, and the line is the address with `none`.
pub(crate) fn push_instruction(
    alloc: Global,
    text: &mut String,
    image: &Image,
    address: u16,
    size: Option<u16>,
) -> Result<(), NoMemory>
    ensures { OnOk result ((line : List ℕ) × IsWhere image.now.program (source_line_at image.now) address size line
        × (string_bytes text.new ≡ string_bytes text.old ++ line)) }
{
    match size {
        None => push_line(alloc, text, address, &None, None),
        Some(size) => push_mark(alloc, text, image, address, size),
    }
}

/// Appends the lines of the first so many instructions of an image at an address or after it, in the order of
/// their places.
pub(crate) fn push_instructions(
    alloc: Global,
    text: &mut String,
    image: &Image,
    address: u16,
    count: u32,
) -> Result<(), NoMemory>
    ensures { OnOk result ((lines : List ℕ) × AreLinesOf image.now.program (source_line_at image.now) (marks_from image.now.marks address count) lines
        × (string_bytes text.new ≡ string_bytes text.old ++ lines)) }
{
    let mut left = count;
    for mark in image.marks() {
        if left == 0 {
            return Ok(());
        }
        if mark.address >= address {
            push_mark(alloc, text, image, mark.address, mark.size)?;
            left -= 1;
        }
    }
    Ok(())
}
