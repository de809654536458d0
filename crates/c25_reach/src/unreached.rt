//! Proposals of `code`: words that nothing comes to, and that read as instructions up to one that ends a routine.

use crate::places::{Places, What};
use c25_isa::{decode, size_of};
use c25_meaning_common::no_memory::NoMemory;
use c25_meaning_image::word_map::WordMap;
use c25_meaning_instructions::insn::Insn;
use c25_meaning_instructions::mnemonic::{JumpName, PlainName};
use std::alloc::Global;

/// The most instructions of a routine that is proposed.
const MOST_INSTRUCTIONS: u32 = 65_536;

/// The name of an instruction after which nothing goes on, if it is one.
fn end_name(insn: &Insn) -> Option<&'static str> {
    match *insn {
        Insn::Jump(JumpName::B, _, _, _) => Some("B"),
        Insn::Plain(PlainName::Ret, _) => Some("RET"),
        Insn::Plain(PlainName::Bacc, _) => Some("BACC"),
        _ => None,
    }
}

/// Whether an instruction goes on in the image, as far as that is known.
fn stays(words: &WordMap, insn: &Insn) -> bool {
    match *insn {
        Insn::Jump(_, target, _, _) => words.get(target).is_some(),
        _ => true,
    }
}

/// Whether a word is data of which nothing is known.
fn is_free(places: &Places, address: u16) -> bool {
    places.at(address).what == What::Data
}

/// The instruction that free words from an address on read as, if they do.
fn read_at(words: &WordMap, places: &Places, address: u16) -> Option<Insn> {
    if !is_free(places, address) {
        return None;
    }
    let second = address.checked_add(1);
    let next = match second {
        None => None,
        Some(place) => words.get(place),
    };
    let insn = decode(words.get(address)?, next.unwrap_or(0))?;
    if size_of(insn.mnemonic()) == 2 && !is_free(places, second?) {
        return None;
    }
    Some(insn)
}

/// A routine that words read as: how many instructions it has, and the name of the last one.
#[derive(Clone, Copy)]
struct Routine {
    instructions: u32,
    end: &'static str,
}

/// The routine that free words from an address on read as, if they do: two instructions at least.
fn routine_at(words: &WordMap, places: &Places, from: u16) -> Option<Routine> {
    let mut address = from;
    for before in 0..MOST_INSTRUCTIONS {
        let insn = read_at(words, places, address)?;
        if !stays(words, &insn) {
            return None;
        }
        if let Some(end) = end_name(&insn) {
            let instructions = before + 1;
            return if before == 0 {
                None
            } else {
                Some(Routine { instructions, end })
            };
        }
        address = address.checked_add(size_of(insn.mnemonic()))?;
    }
    None
}

/// Whether free words begin at an address.
fn begins_free(places: &Places, address: u16) -> bool {
    if !is_free(places, address) {
        return false;
    }
    match address.checked_sub(1) {
        None => true,
        Some(before) => !is_free(places, before),
    }
}

/// Adds a proposal of a routine.
fn add_routine(
    alloc: Global,
    lines: &mut Vec<String>,
    address: u16,
    routine: Routine,
) -> Result<(), NoMemory> {
    let Routine { instructions, end } = routine;
    lines.push(format!(in alloc;
        "code {address:04X} ; reads as {instructions} instructions up to {end}"
    )?)?;
    Ok(())
}

/// Adds a proposal for each run of free words that begins as a routine.
pub(crate) fn add_code(
    alloc: Global,
    lines: &mut Vec<String>,
    words: &WordMap,
    places: &Places,
) -> Result<(), NoMemory> {
    for address in 0..65_536u32 {
        let place = address as u16;
        if begins_free(places, place) {
            if let Some(routine) = routine_at(words, places, place) {
                add_routine(alloc, lines, place, routine)?;
            }
        }
    }
    Ok(())
}
