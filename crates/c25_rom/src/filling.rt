//! The words of a ROM.

ghost use Rattle.std.specs.Prelude.{◌≡◌, None, IfOk};
ghost use Rattle.c25_meaning_common.specs.Results.{Meets};
ghost use Rattle.c25_rom.specs.Rom.{first_past, rom_of, rom_words};

use crate::fault::PastRom;
use c25_meaning_common::failure::Failure;
use c25_meaning_common::no_memory::NoMemory;
use c25_meaning_image::word_map::WordMap;
use std::alloc::Global;

/// The lowest address of a word that a ROM of so many words has no place for.
fn first_past(words: &WordMap, size: usize) -> Option<u16>
    ensures { result ≡ first_past words.now size }
{
    for (address, _word) in words.iter() {
        if usize::from(*address) >= size {
            return Some(*address);
        }
    }
    None
}

/// The words of a ROM of so many words, each of which has a place in it.
fn filled(alloc: Global, words: &WordMap, size: usize, fill: u16) -> Result<Vec<u16>, NoMemory>
    requires { first_past words.now size ≡ None }
    ensures { IfOk result (λ rom. rom.items ≡ rom_words words.now size fill) }
{
    let mut rom = vec![in alloc; fill; size]?;
    for (address, word) in words.iter() {
        rom[usize::from(*address)] = *word;
    }
    Ok(rom)
}

/// The words that the EPROMs of a program hold, in the order of their addresses from 0 on: so many words, those
/// of the program, and the fill at each address where the program has none. A word at the address `size` or beyond
/// is a fault (79), of which the lowest address is the answer.
pub fn rom_words(
    alloc: Global,
    words: &WordMap,
    size: usize,
    fill: u16,
) -> Result<Vec<u16>, Failure<PastRom>>
    ensures { Meets (λ rom. rom.items) (rom_of words.now size fill) result }
{
    match first_past(words, size) {
        Some(address) => Err(Failure::Fault(PastRom { address })),
        None => Ok(filled(alloc, words, size, fill)?),
    }
}
