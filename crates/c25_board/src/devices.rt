//! The memories and ports of a board.

ghost use Rattle.std.specs.Prelude.{◌≡◌, [], true, vec_len, OnOk};
ghost use Rattle.c25_meaning_processor.specs.FirstState.{memory_of_map};
ghost use Rattle.c25_meaning_processor.specs.Memory.{memory_of};
ghost use Rattle.c25_meaning_image.specs.Marks.{run_fit};
ghost use Rattle.c25_board.specs.Places.{are_whole, marks_in};

use crate::places::{CodePlace, WORDS, place_at};
use crate::ports::{Feed, Sink};
use c25_core::{Bus, SinkFailed};
use c25_meaning_common::no_memory::NoMemory;
use c25_meaning_image::mark::RunMark;
use c25_meaning_image::marks::is_load;
use c25_meaning_image::word_map::WordMap;

/// What is around the processor. Each memory has 65,536 words; the words of block B0 are at 200h to 2FFh of
/// data memory under any CNF. `places` says what each word of program memory is for the instructions there,
/// and `run_marks` has the places of the instructions that run in B0.
#[derive(Drop)]
pub(crate) struct Devices<F: Feed + Drop, S: Sink + Drop> {
    pub(crate) words: Vec<u16>,
    pub(crate) program: Vec<u16>,
    pub(crate) places: Vec<CodePlace>,
    pub(crate) run_marks: Vec<RunMark>,
    pub(crate) feed: F,
    pub(crate) sink: S,
    ghost words_full: { vec_len words ≡ 65536 },
    ghost program_full: { vec_len program ≡ 65536 },
    ghost places_full: { vec_len places ≡ 65536 },
    ghost places_whole: { are_whole places.items ≡ true },
    ghost runs_fit: { run_fit (marks_in 0 places.items) run_marks.items ≡ true },
}

/// Fills an empty list with the words of a page, and 0 at all other addresses.
pub(crate) fn fill_words(memory: &mut Vec<u16>, page: &WordMap) -> Result<(), NoMemory>
    requires { memory.old.items ≡ [] }
    ensures full { OnOk result (vec_len memory.new ≡ 65536) }
    ensures words { OnOk result (memory_of memory.new.items ≡ memory_of_map page.now) }
{
    for address in 0..WORDS {
        memory.push(page.get(address as u16).unwrap_or(0))?;
    }
    Ok(())
}

impl<F: Feed + Drop, S: Sink + Drop> Bus for Devices<F, S> {
    ghost use Rattle.c25_board.specs.Board.{world};

    ghost world = { λ d. world d };

    ghost failures = { λ d. S.failures d.sink };

    fn data(&self, address: u16) -> u16 {
        self.words[usize::from(address)]
    }

    #[tactic(auto, using(c25_meaning_processor::proofs::Memories::memory_of_set))]
    fn set_data(&mut self, address: u16, word: u16) {
        self.words[usize::from(address)] = word;
    }

    fn program(&self, address: u16) -> u16 {
        self.program[usize::from(address)]
    }

    #[tactic(auto, using(c25_meaning_processor::proofs::Memories::memory_of_set))]
    fn set_program(&mut self, address: u16, word: u16) {
        self.program[usize::from(address)] = word;
    }

    fn size_at(&self, address: u16) -> Option<u16> {
        place_at(self.places.as_slice(), address).size()
    }

    fn run_at(&self, address: u16) -> Option<RunMark> {
        match self
            .run_marks
            .binary_search_by_key(&address, |mark| mark.run)
        {
            Ok(index) => Some(self.run_marks[index]),
            Err(_) => None,
        }
    }

    fn is_code(&self, address: u16) -> bool {
        is_load(self.run_marks.as_slice(), address)
            || place_at(self.places.as_slice(), address).is_code()
    }

    fn input(&mut self, port: u16) -> Option<u16> {
        self.feed.take(port)
    }

    fn output(&mut self, port: u16, word: u16) -> Result<(), SinkFailed> {
        self.sink.put(port, word)
    }
}
