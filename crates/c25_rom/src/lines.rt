//! The lines that say of each file of a ROM what a programmer of EPROMs shows.

ghost use Rattle.std.specs.Prelude.{◌≡◌, ◌++◌, IfOk, OnOk, map, string_bytes};
ghost use Rattle.c25_rom.specs.Files.{checks_text, count_digits, file_line, lines_of, past_line};
ghost use Rattle.c25_rom.specs.View.{contents_of};

use crate::checks::{crc32, sum_of};
use crate::fault::PastRom;
use crate::files::RomFile;
use c25_meaning_common::no_memory::NoMemory;
use c25_texts::appending::{push_eight, push_five, push_four, push_text};
use std::alloc::Global;

/// Appends a number in five decimal digits, or in more where it has more.
fn push_count(text: &mut String, count: usize) -> Result<(), NoMemory>
    ensures { OnOk result (string_bytes text.new ≡ string_bytes text.old ++ count_digits count) }
{
    if count < 100_000 {
        push_five(text, count as u32)
    } else {
        Ok(write!(text, "{count}")?)
    }
}

/// Appends the sum and the CRC-32 of bytes.
#[tactic(auto, unfolding(crate::specs::Files::checks_text, c25_meaning_linking::specs::MapText::eight_digits))]
fn push_checks(text: &mut String, bytes: &[u8]) -> Result<(), NoMemory>
    ensures { OnOk result (string_bytes text.new ≡ string_bytes text.old ++ checks_text bytes.now) }
{
    push_text(text, " bytes sum ")?;
    push_four(text, sum_of(bytes))?;
    push_text(text, " crc32 ")?;
    push_eight(text, crc32(bytes))
}

/// Appends the line of a file.
fn push_line(text: &mut String, file: &RomFile) -> Result<(), NoMemory>
    ensures { OnOk result (string_bytes text.new ≡ string_bytes text.old ++ file_line (contents_of file.now)) }
{
    push_text(text, file.name.as_str())?;
    push_text(text, " ")?;
    push_count(text, file.bytes.len())?;
    push_checks(text, file.bytes.as_slice())?;
    push_text(text, "\n")
}

/// The lines of files: of each its name, how many bytes it has in decimal, the low 16 bits of their sum, and their
/// CRC-32, both in hexadecimal.
pub fn lines_of(alloc: Global, files: &[RomFile]) -> Result<String, NoMemory>
    ensures { IfOk result (λ text. string_bytes text ≡ lines_of (map contents_of files.now)) }
{
    let mut text = String::new(alloc);
    for file in files {
        push_line(&mut text, file)?;
    }
    Ok(text)
}

/// The line of the fault: `rom:0812: 79 PastRom` of a word at 0812h.
pub fn fault_line(alloc: Global, fault: &PastRom) -> Result<String, NoMemory>
    ensures { IfOk result (λ text. string_bytes text ≡ past_line fault.now.address) }
{
    let mut text = String::new(alloc);
    push_text(&mut text, "rom:")?;
    push_four(&mut text, fault.address)?;
    push_text(&mut text, ": 79 PastRom")?;
    Ok(text)
}
