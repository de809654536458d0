//! Proposals of `table`: words that `TBLR` reads before a jump to the address in the accumulator.

use crate::places::{Places, What};
use crate::standing::{Standing, before};
use c25_isa::decode;
use c25_layout::hint::Hint;
use c25_meaning_common::no_memory::NoMemory;
use c25_meaning_image::word_map::WordMap;
use c25_meaning_instructions::insn::Insn;
use c25_meaning_instructions::mnemonic::{LongName, MemName, PlainName, ShiftedName};
use std::alloc::Global;

/// How many instructions before a jump are looked at.
const FURTHEST: usize = 16;

/// What the instructions before a jump say of the table that its address comes from.
#[derive(Clone, Copy)]
struct Found {
    /// The number that is put into the accumulator, the last one of the image.
    base: Option<u16>,
    /// How many words are read by `TBLR`.
    reads: u16,
    /// The shift of an index that is added.
    shift: u16,
}

/// Nothing was found.
const NOTHING: Found = Found {
    base: None,
    reads: 0,
    shift: 0,
};

/// The number that an instruction adds to the accumulator or puts there.
fn base_in(words: &WordMap, insn: &Insn) -> Option<u16> {
    match *insn {
        Insn::Long(LongName::Lalk, number, 0) | Insn::Long(LongName::Adlk, number, 0) => {
            words.get(number)?;
            Some(number)
        }
        _ => None,
    }
}

impl Found {
    /// What was found, with an instruction before those that it was found of.
    fn with(self, words: &WordMap, insn: &Insn) -> Found {
        match *insn {
            Insn::Mem(MemName::Tblr, _) => Found {
                reads: self.reads.saturating_add(1),
                ..self
            },
            Insn::Shifted(ShiftedName::Add, _, shift) if self.shift == 0 => Found { shift, ..self },
            _ if self.base.is_none() => Found {
                base: base_in(words, insn),
                ..self
            },
            _ => self,
        }
    }
}

/// What the instructions before a jump say.
fn found_before(words: &WordMap, list: &[Standing], index: usize) -> Found {
    let mut found = NOTHING;
    for back in 1..FURTHEST + 1 {
        match before(list, index, back) {
            None => return found,
            Some(here) => found = found.with(words, &here.insn),
        }
    }
    found
}

/// A table of addresses.
#[derive(Clone, Copy)]
struct Table {
    address: u16,
    count: u16,
    step: u16,
}

/// How far apart the words of a table are.
fn step_of(found: Found) -> u16 {
    match found.shift {
        1 => 2,
        2 => 4,
        3 => 8,
        4 => 16,
        _ => 1,
    }
}

/// Whether a word reads as an instruction.
fn reads_as_code(words: &WordMap, address: u16) -> bool {
    let next = match address.checked_add(1) {
        None => None,
        Some(place) => words.get(place),
    };
    match words.get(address) {
        None => false,
        Some(word) => decode(word, next.unwrap_or(0)).is_some(),
    }
}

/// Whether the word at an address may be one of a table of addresses that begins at another: it is in no instruction, and
/// it is the address of one that is not in the table itself.
fn may_be_entry(words: &WordMap, places: &Places, from: u16, address: u16) -> bool {
    if places.at(address).what == What::Code {
        return false;
    }
    match words.get(address) {
        None => false,
        Some(target) => {
            let inside = from <= target && target <= address;
            !inside && reads_as_code(words, target)
        }
    }
}

/// How many words from an address on, `step` apart, may be a table of addresses.
fn entries_from(words: &WordMap, places: &Places, from: u16, step: u16) -> u16 {
    let mut address = from;
    for count in 0..0xFFFFu16 {
        if !may_be_entry(words, places, from, address) {
            return count;
        }
        match address.checked_add(step) {
            None => return count + 1,
            Some(next) => address = next,
        }
    }
    0xFFFF
}

/// Where a table begins: some words after the number where several are read of each entry, and an entry further where the
/// index begins with 1.
fn first_entry(places: &Places, base: u16, found: Found, step: u16) -> Option<u16> {
    let read = if step > 1 {
        found.reads.saturating_sub(1)
    } else {
        0
    };
    let first = base.checked_add(read)?;
    if places.at(first).what == What::Code {
        first.checked_add(step)
    } else {
        Some(first)
    }
}

/// The table of what was found before a jump.
fn table_of(words: &WordMap, places: &Places, found: Found) -> Option<Table> {
    let base = found.base?;
    if found.reads == 0 {
        return None;
    }
    let step = step_of(found);
    let address = first_entry(places, base, found, step)?;
    let count = entries_from(words, places, address, step);
    if count == 0 {
        return None;
    }
    Some(Table {
        address,
        count,
        step,
    })
}

/// Whether an instruction jumps to the address in the accumulator.
fn jumps(insn: &Insn) -> bool {
    match *insn {
        Insn::Plain(PlainName::Bacc, _) | Insn::Plain(PlainName::Cala, _) => true,
        _ => false,
    }
}

/// Whether the instruction before a jump puts its address into the accumulator.
fn is_known(words: &WordMap, list: &[Standing], index: usize) -> bool {
    match before(list, index, 1) {
        None => false,
        Some(here) => match here.insn {
            Insn::Long(LongName::Lalk, number, 0) => words.get(number).is_some(),
            _ => false,
        },
    }
}

/// Whether a hint says that a table begins at an address.
fn is_decided(hints: &[Hint<String>], address: u16) -> bool {
    for hint in hints {
        match hint {
            Hint::Table { address: at, .. } if *at == address => return true,
            _ => {}
        }
    }
    false
}

/// The words of an image, what its source has at each address, and the hints.
#[derive(Clone, Copy)]
pub(crate) struct Known<'a> {
    pub words: &'a WordMap,
    pub places: &'a Places,
    pub hints: &'a [Hint<String>],
}

/// The table that the address of the jump at an index comes from, if it is a jump and no hint has the table.
fn table_at(known: Known<'_>, list: &[Standing], index: usize) -> Option<Table> {
    let here = list.get(index)?;
    if !jumps(&here.insn) || is_known(known.words, list, index) {
        return None;
    }
    let found = found_before(known.words, list, index);
    let table = table_of(known.words, known.places, found)?;
    if is_decided(known.hints, table.address) {
        return None;
    }
    Some(table)
}

/// Adds a proposal for each table.
pub(crate) fn add_tables(
    alloc: Global,
    lines: &mut Vec<String>,
    known: Known<'_>,
    list: &[Standing],
) -> Result<(), NoMemory> {
    for (index, here) in list.iter().enumerate() {
        if let Some(table) = table_at(known, list, index) {
            let Table {
                address,
                count,
                step,
            } = table;
            let at = here.address;
            lines.push(format!(in alloc;
                "table {address:04X} {count:X} {step:X} ; read before the jump at {at:04X}"
            )?)?;
        }
    }
    Ok(())
}
