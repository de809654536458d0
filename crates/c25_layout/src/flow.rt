//! Which words of an image are instructions: those that the flow comes to.

use crate::blank::ERASED;
use crate::cells::{Cells, Reason, Reference, Taken, after};
use crate::course::{Course, course_of, long_word, program_word};
use crate::hint::Hint;
use crate::hinted::{is_no_return, is_number};
use crate::standing::insn_at;
use c25_isa::size_of;
use c25_meaning_common::no_memory::NoMemory;
use c25_meaning_image::word_map::WordMap;
use c25_meaning_instructions::insn::Insn;
use c25_meaning_instructions::mnemonic::{LongName, MemName};

/// The most steps that a walk along the flow takes: each takes a word.
const MOST_STEPS: u32 = 65_536;

/// The vector of `TRAP`.
const TRAP: u16 = 0x1E;

/// The vectors of reset and of the interrupts apart from 0 (SPRU014, "Interrupts").
const VECTORS: [u16; 7] = [2, 4, 6, 0x18, 0x1A, 0x1C, TRAP];

/// An instruction of the image, with the address of its first word.
#[derive(Clone, Copy)]
pub(crate) struct Placed {
    pub address: u16,
    pub insn: Insn,
}

/// The flow so far through the words of an image: the cells, and the addresses from where it is still to be
/// followed, of which some may have been followed already.
#[derive(Drop)]
pub(crate) struct Flow<'a> {
    pub words: &'a WordMap,
    pub cells: Cells,
    pub hints: &'a [Hint<String>],
    pub entries: Vec<u16>,
}

/// The number that `LALK` without a shift puts into the accumulator, if an instruction is one.
pub(crate) fn loaded_number(insn: &Insn) -> Option<u16> {
    match *insn {
        Insn::Long(LongName::Lalk, number, 0) => Some(number),
        _ => None,
    }
}

/// Whether an instruction reads or writes the program word at the address in the accumulator.
fn is_table_access(insn: &Insn) -> bool {
    match *insn {
        Insn::Mem(MemName::Tblr, _) | Insn::Mem(MemName::Tblw, _) => true,
        _ => false,
    }
}

impl Flow<'_> {
    /// Whether the image has a word at an address.
    fn has_word(&self, address: u16) -> bool {
        self.words.get(address).is_some()
    }

    /// The flow is to be followed from an address, which has a name from then on.
    pub(crate) fn enter(&mut self, address: u16, reason: Reason) -> Result<(), NoMemory> {
        if self.has_word(address) {
            self.cells.name(address, reason);
            self.entries.push(address)?;
        }
        Ok(())
    }

    /// Whether both words at an address are erased.
    fn is_erased_pair(&self, address: u16) -> bool {
        let Some(second) = after(address, 1) else {
            return false;
        };
        self.words.get(address) == Some(ERASED) && self.words.get(second) == Some(ERASED)
    }

    /// The flow is to be followed from a vector, unless both its words are erased: then nothing stands there.
    pub(crate) fn enter_vector(&mut self, vector: u16, reason: Reason) -> Result<(), NoMemory> {
        if self.is_erased_pair(vector) {
            return Ok(());
        }
        self.enter(vector, reason)
    }

    /// The number of the instruction at an address is where the flow goes on, if the image has a word there.
    fn go_to(&mut self, from: u16, number: u16, reason: Reason) -> Result<(), NoMemory> {
        let target = self.cells.loaded_at(number);
        if self.has_word(target) {
            self.cells.refer(from, Reference { number, target });
        }
        self.enter(target, reason)
    }

    /// The number of the instruction at an address is an address of data, if the image has a word there and
    /// no hint says otherwise.
    pub(crate) fn refer_to_data(&mut self, from: u16, number: u16) {
        let target = self.cells.loaded_at(number);
        if self.has_word(target) && !is_number(self.hints, from) {
            self.cells.refer(from, Reference { number, target });
            self.cells.name(target, Reason::Data);
        }
    }

    /// The flow goes on at the address in the accumulator, if the instruction before has put it there.
    fn go_to_accumulator(
        &mut self,
        before: Option<Placed>,
        reason: Reason,
    ) -> Result<(), NoMemory> {
        let Some(before) = before else {
            return Ok(());
        };
        match loaded_number(&before.insn) {
            None => Ok(()),
            Some(number) => self.go_to(before.address, number, reason),
        }
    }

    /// The number of an instruction, or of the one before it, is an address of data.
    fn note_data(&mut self, here: Placed, before: Option<Placed>) {
        if let Some(word) = program_word(&here.insn) {
            self.refer_to_data(here.address, word);
        }
        if let Some(before) = before {
            if is_table_access(&here.insn) {
                if let Some(number) = loaded_number(&before.insn) {
                    self.refer_to_data(before.address, number);
                }
            }
        }
    }

    /// Whether the flow comes back after a call of an address.
    fn comes_back(&self, number: u16) -> bool {
        !is_no_return(self.hints, self.cells.loaded_at(number))
    }

    /// Puts down where an instruction goes on besides the next one; false where it does not go on there.
    fn leave(&mut self, here: Placed, before: Option<Placed>) -> Result<bool, NoMemory> {
        match course_of(&here.insn) {
            Course::Next => {
                self.note_data(here, before);
                Ok(true)
            }
            Course::To(number) => {
                self.go_to(here.address, number, Reason::Code)?;
                Ok(false)
            }
            Course::ToOrNext(number) => {
                self.go_to(here.address, number, Reason::Code)?;
                Ok(true)
            }
            Course::Calls(number) => {
                self.go_to(here.address, number, Reason::Call)?;
                Ok(self.comes_back(number))
            }
            Course::Nowhere => Ok(false),
            Course::ToAccumulator => {
                self.go_to_accumulator(before, Reason::Code)?;
                Ok(false)
            }
            Course::CallsAccumulator => {
                self.go_to_accumulator(before, Reason::Call)?;
                Ok(true)
            }
            Course::Traps => {
                self.enter_vector(TRAP, Reason::Vector)?;
                Ok(true)
            }
        }
    }

    /// Takes the words at an address for an instruction, if they are one and none of them is in another
    /// instruction.
    fn take(&mut self, address: u16) -> Option<Placed> {
        if self.cells.at(address).is_code() {
            return None;
        }
        let insn = insn_at(self.words, &self.cells, address)?;
        if size_of(insn.mnemonic()) == 2 {
            let second = after(address, 1)?;
            if self.cells.at(second).taken == Taken::First {
                return None;
            }
            self.cells.take(second, Taken::Second);
        }
        self.cells.take(address, Taken::First);
        Some(Placed { address, insn })
    }

    /// Takes one instruction at an address, and returns it with the address where the flow goes on.
    fn step(
        &mut self,
        address: u16,
        before: Option<Placed>,
    ) -> Result<Option<(Placed, u16)>, NoMemory> {
        let Some(here) = self.take(address) else {
            return Ok(None);
        };
        if !self.leave(here, before)? {
            return Ok(None);
        }
        match after(address, size_of(here.insn.mnemonic())) {
            None => Ok(None),
            Some(next) => Ok(Some((here, next))),
        }
    }

    /// Follows the flow from an address to its end, instruction after instruction.
    fn walk(&mut self, from: u16) -> Result<(), NoMemory> {
        let mut address = from;
        let mut before = None;
        for _ in 0..MOST_STEPS {
            match self.step(address, before)? {
                None => return Ok(()),
                Some((here, next)) => {
                    before = Some(here);
                    address = next;
                }
            }
        }
        Ok(())
    }

    /// Follows the flow from all entries, the first one first, also from those that come up on the way.
    pub(crate) fn follow(&mut self) -> Result<(), NoMemory> {
        for index in 0..usize::MAX {
            let Some(entry) = self.entries.get(index).copied() else {
                break;
            };
            self.walk(entry)?;
        }
        self.entries.clear();
        Ok(())
    }

    /// Whether the words at a vector are a branch into the image, not erased, and in no instruction so far.
    fn is_vector(&self, vector: u16) -> bool {
        let second = self.cells.at(after(vector, 1).unwrap_or(vector));
        if self.cells.at(vector).is_code() || second.is_code() || self.is_erased_pair(vector) {
            return false;
        }
        match insn_at(self.words, &self.cells, vector) {
            None => false,
            Some(insn) => match course_of(&insn) {
                Course::To(number) => self.has_word(self.cells.loaded_at(number)),
                _ => false,
            },
        }
    }

    /// Follows the flow from a vector, if there is one.
    fn follow_vector(&mut self, vector: u16) -> Result<(), NoMemory> {
        if self.is_vector(vector) {
            self.enter(vector, Reason::Vector)?;
            self.follow()?;
        }
        Ok(())
    }

    /// Follows the flow from each vector after that from address 0.
    pub(crate) fn follow_vectors(&mut self) -> Result<(), NoMemory> {
        for vector in VECTORS {
            self.follow_vector(vector)?;
        }
        Ok(())
    }

    /// Enters where hints say that instructions are: the addresses of `code`, then those in tables.
    pub(crate) fn enter_hints(&mut self) -> Result<(), NoMemory> {
        for hint in self.hints {
            match hint {
                Hint::Code { address } => self.enter(*address, Reason::Code)?,
                _ => {}
            }
        }
        for address in 0..MOST_STEPS {
            let cell = self.cells.at(address as u16);
            if let Some(reference) = cell.refers {
                self.enter(reference.target, Reason::Code)?;
            }
        }
        Ok(())
    }

    /// Puts down the addresses in instructions of which hints say that their number is one.
    pub(crate) fn take_references(&mut self) {
        for hint in self.hints {
            match hint {
                Hint::Reference { address } => self.take_reference(*address),
                _ => {}
            }
        }
    }

    /// Puts down that the number of the instruction at an address is an address.
    fn take_reference(&mut self, address: u16) {
        if self.cells.at(address).taken != Taken::First {
            return;
        }
        if let Some(insn) = insn_at(self.words, &self.cells, address) {
            if let Some(number) = long_word(&insn) {
                self.refer_to_data(address, number);
            }
        }
    }
}
