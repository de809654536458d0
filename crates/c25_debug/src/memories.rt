//! The memories of a board as the processor reads them.

ghost use Rattle.c25_board.specs.Board.{state};

use crate::answers::memory::Memory;
use c25_board::board::Board;
use c25_board::ports::{Feed, Sink};

/// The data memory of a board, as the processor reads it.
#[derive(Drop)]
pub(crate) struct DataMemory<'a, F: Feed + Drop, S: Sink + Drop> {
    pub(crate) board: &'a Board<F, S>,
}

impl<F: Feed + Drop, S: Sink + Drop> Memory for DataMemory<'_, F, S> {
    ghost use Rattle.c25_board.specs.Board.{state};
    ghost use Rattle.c25_meaning_debugger.specs.Debugger.{data_word};

    ghost word_at = { λ memory address. data_word (state memory.board.now) address };

    fn word(&self, address: u16) -> u16 {
        self.board.data_at(address)
    }
}

/// The program memory of a board, as the processor reads it.
#[derive(Drop)]
pub(crate) struct ProgramMemory<'a, F: Feed + Drop, S: Sink + Drop> {
    pub(crate) board: &'a Board<F, S>,
}

impl<F: Feed + Drop, S: Sink + Drop> Memory for ProgramMemory<'_, F, S> {
    ghost use Rattle.c25_board.specs.Board.{state};
    ghost use Rattle.c25_meaning_debugger.specs.Debugger.{program_word};

    ghost word_at = { λ memory address. program_word (state memory.board.now) address };

    fn word(&self, address: u16) -> u16 {
        self.board.prog_at(address)
    }
}
