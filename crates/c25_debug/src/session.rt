//! Sessions: commands over a board, answered one by one.

ghost use Rattle.std.specs.Prelude.{◌≡◌, ◌≤◌, ◌+◌, [], false, IfOk, OnErr, string_bytes};
ghost use Rattle.c25_debug.specs.WithinMemory.{IsWithin};

use crate::breakpoints::{answer_cleared, answer_set};
use crate::shown::{
    show_data, show_list, show_place, show_program, show_registers, show_stack, show_symbols,
};
use crate::steps::{Answer, answer_steps};
use c25_board::board::Board;
use c25_board::breakpoints::Breakpoints;
use c25_board::ports::{Feed, Sink};
use c25_link::Image;
use c25_meaning_common::no_memory::NoMemory;
use c25_meaning_processor::script::Cmd;
use std::alloc::Global;

/// A session of the debugger: a board that runs an image, and breakpoints.
#[derive(Drop)]
pub struct Session<'a, F: Feed + Drop, S: Sink + Drop> {
    alloc: Global,
    board: Board<F, S>,
    image: &'a Image,
    breakpoints: Breakpoints,
    is_refused: bool,
}

impl<'a, F: Feed + Drop, S: Sink + Drop> Session<'a, F, S> {
    ghost use Rattle.c25_board.specs.Board.{entries, signals};
    ghost use Rattle.c25_debug.specs.Told.{point_of};
    ghost use Rattle.c25_debug.specs.Told as meant;

    /// A session over a board that runs this image, with no breakpoint set. Nothing is allocated.
    pub fn new(alloc: Global, board: Board<F, S>, image: &'a Image) -> Self
        ensures board { result.board ≡ board }
        ensures image { result.image.now ≡ image.now }
        ensures breakpoints { result.breakpoints ≡ [] }
        ensures refused { result.is_refused ≡ false }
    {
        Session {
            alloc,
            board,
            image,
            breakpoints: Breakpoints::new(),
            is_refused: false,
        }
    }

    /// The board as the commands so far have left it.
    pub fn board(&self) -> &Board<F, S>
        ensures { result.now ≡ self.now.board }
    {
        &self.board
    }

    /// Whether the last text that was answered says that the sink refused a word; false before the first
    /// text.
    pub fn refused(&self) -> bool
        ensures { result ≡ self.now.is_refused }
    {
        self.is_refused
    }

    /// Does what a command asks for, and gives its answer. Out of memory, the board and the breakpoints are
    /// as they were.
    fn answer(&mut self, command: &Cmd) -> Result<Answer, NoMemory>
        requires { IsWithin command.now }
        ensures answer { IfOk result (λ answer. meant.Told (signals self.old.board) self.old.image.now command.now
            (point_of self.old.board self.old.breakpoints) (string_bytes answer.text) (point_of self.new.board self.new.breakpoints)
            answer.is_refused (S.failures self.old.board.devices.sink) (S.failures self.new.board.devices.sink)) }
        ensures image { self.new.image ≡ self.old.image }
        ensures refused { self.new.is_refused ≡ self.old.is_refused }
        ensures board_kept { OnErr result (self.new.board ≡ self.old.board) }
        ensures breakpoints_kept { OnErr result (self.new.breakpoints ≡ self.old.breakpoints) }
        ensures schedule { entries self.new.board ≡ entries self.old.board }
    {
        let (alloc, image) = (self.alloc, self.image);
        match *command {
            Cmd::Step(count) => answer_steps(alloc, &mut self.board, count, &Breakpoints::new()),
            Cmd::Run(count) => answer_steps(alloc, &mut self.board, count, &self.breakpoints),
            Cmd::Break(address) => answer_set(alloc, &mut self.breakpoints, address),
            Cmd::Clear(address) => answer_cleared(alloc, &mut self.breakpoints, address),
            Cmd::Regs => show_registers(alloc, &self.board),
            Cmd::Data { address, count } => show_data(alloc, &self.board, address, count),
            Cmd::Prog { address, count } => show_program(alloc, &self.board, address, count),
            Cmd::Stack => show_stack(alloc, &self.board),
            Cmd::Where => show_place(alloc, image, &self.board),
            Cmd::List(count) => show_list(alloc, image, self.board.pc(), count),
            Cmd::Symbols => show_symbols(alloc, image),
        }
    }

    /// Does what a command asks for, and answers its text, which also says where a step stopped or the sink
    /// refused a word. No step is done after 4,294,967,295 in all. Out of memory, nothing is done: the board
    /// and the breakpoints are as they were, and so is what `refused` answers.
    pub fn command(&mut self, command: &Cmd) -> Result<String, NoMemory>
        requires { IsWithin command.now }
        ensures answer { IfOk result (λ text. meant.Told (signals self.old.board) self.old.image.now command.now
            (point_of self.old.board self.old.breakpoints) (string_bytes text) (point_of self.new.board self.new.breakpoints)
            self.new.is_refused (S.failures self.old.board.devices.sink) (S.failures self.new.board.devices.sink)) }
        ensures image { self.new.image ≡ self.old.image }
        ensures refused { OnErr result (self.new.is_refused ≡ self.old.is_refused) }
        ensures board_kept { OnErr result (self.new.board ≡ self.old.board) }
        ensures breakpoints_kept { OnErr result (self.new.breakpoints ≡ self.old.breakpoints) }
        ensures schedule { entries self.new.board ≡ entries self.old.board }
    {
        let answer = self.answer(command)?;
        self.is_refused = answer.is_refused;
        Ok(answer.text)
    }
}
