//! What the source of an image has at each address.

use c25_isa::size_of;
use c25_layout::hint::Hint;
use c25_layout::layout::{Item, Part, Row};
use c25_meaning_common::no_memory::NoMemory;
use c25_meaning_instructions::insn::Insn;
use std::alloc::Global;

/// What the source has at an address.
#[derive(Clone, Copy, PartialEq)]
pub(crate) enum What {
    /// No word.
    Nothing,
    /// A word of an instruction.
    Code,
    /// A word of data.
    Data,
    /// A word of data by a hint, or one that is an address.
    Known,
}

/// An address.
#[derive(Clone, Copy)]
pub(crate) struct Place {
    pub what: What,
    /// Whether it has a name.
    pub named: bool,
}

/// An address without a word.
const NO_PLACE: Place = Place {
    what: What::Nothing,
    named: false,
};

/// All addresses.
#[derive(Drop)]
pub(crate) struct Places {
    places: Vec<Place>,
}

impl Places {
    /// All addresses, without words.
    fn new(alloc: Global) -> Result<Places, NoMemory> {
        let mut places = Vec::new(alloc);
        for _ in 0..65_536u32 {
            places.push(NO_PLACE)?;
        }
        Ok(Places { places })
    }

    /// What the source has at an address.
    pub(crate) fn at(&self, address: u16) -> Place {
        match self.places.get(usize::from(address)) {
            Some(place) => *place,
            None => NO_PLACE,
        }
    }

    /// Puts down what the source has at an address.
    fn put(&mut self, address: u16, place: Place) {
        match self.places.get_mut(usize::from(address)) {
            Some(at) => *at = place,
            None => {}
        }
    }

    /// Puts down what so many words from an address on are, of which the first may have a name.
    fn fill(&mut self, address: u16, count: usize, what: What, named: bool) {
        for passed in 0..count {
            let place = usize::from(address).saturating_add(passed);
            if place < 65_536 {
                let named = named && passed == 0;
                self.put(place as u16, Place { what, named });
            }
        }
    }

    /// Puts down what the words of a row are.
    fn add_row(&mut self, row: &Row) {
        let named = row.label.is_some();
        match &row.item {
            Item::Plain(insn) | Item::Named(insn, _) => {
                self.fill(row.address, words_in(insn), What::Code, named)
            }
            Item::Words(words) => self.fill(row.address, words.len(), What::Data, named),
            Item::Address(_, _) => self.fill(row.address, 1, What::Known, named),
        }
    }

    /// Puts down what the words of rows are.
    fn add_rows(&mut self, rows: &[Row]) {
        for row in rows {
            self.add_row(row);
        }
    }

    /// A word of data is known to be data.
    fn know(&mut self, address: u16) {
        let place = self.at(address);
        if place.what == What::Data {
            self.put(
                address,
                Place {
                    what: What::Known,
                    ..place
                },
            );
        }
    }

    /// So many words, `step` apart, are known to be data.
    fn know_words(&mut self, address: u16, count: u16, step: u16) {
        let mut next = Some(address);
        for _ in 0..count {
            if let Some(here) = next {
                self.know(here);
                next = here.checked_add(step);
            }
        }
    }

    /// Puts down which words hints say to be data.
    fn add_hints(&mut self, hints: &[Hint<String>]) {
        for hint in hints {
            match hint {
                Hint::Data { address, count } => self.know_words(*address, *count, 1),
                Hint::Table {
                    address,
                    count,
                    step,
                } => self.know_words(*address, *count, *step),
                _ => {}
            }
        }
    }
}

/// How many words an instruction has.
fn words_in(insn: &Insn) -> usize {
    usize::from(size_of(insn.mnemonic()))
}

/// What the source of parts has at each address, under hints.
pub(crate) fn places_of(
    alloc: Global,
    parts: &[Part],
    hints: &[Hint<String>],
) -> Result<Places, NoMemory> {
    let mut places = Places::new(alloc)?;
    for part in parts {
        places.add_rows(&part.rows);
    }
    places.add_hints(hints);
    Ok(places)
}
