//! ROMs that are made of programs.

ghost use Rattle.c25_meaning_common.specs.Results.{Meets};
ghost use Rattle.c25_rom.specs.Made.{made, made_of};

use crate::fault::PastRom;
use crate::files::{RomFile, rom_files};
use crate::filling::rom_words;
use crate::lines::lines_of;
use crate::shape::RomShape;
use c25_meaning_common::failure::Failure;
use c25_meaning_image::word_map::WordMap;
use std::alloc::Global;

/// A ROM: its files, and the line of each.
#[derive(Drop)]
pub struct MadeRom {
    pub files: Vec<RomFile>,
    pub lines: String,
}

/// The ROM of a program, of the words of page 0 by the addresses at which they are loaded, with the fill at the addresses
/// where the program has none. The names of its files begin with a base name. A word past the ROM is a fault (79).
pub fn make_rom(
    alloc: Global,
    base: &str,
    shape: RomShape,
    words: &WordMap,
    fill: u16,
) -> Result<MadeRom, Failure<PastRom>>
    ensures { Meets made (made_of base.now shape words.now fill) result }
{
    let rom = rom_words(alloc, words, shape.size, fill)?;
    let files = rom_files(alloc, base, shape.devices, &rom)?;
    let lines = lines_of(alloc, &files)?;
    Ok(MadeRom { files, lines })
}
