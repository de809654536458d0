//! The instruction that a program has at an address.

ghost use Rattle.std.specs.Prelude.{◌≡◌, Bool, true};
ghost use Rattle.std.specs.Option.{option_and_then};
ghost use Rattle.c25_board.specs.Board.{state};
ghost use Rattle.c25_meaning_instructions.specs.Table.{InRange, words};
ghost use Rattle.c25_meaning_processor.specs.State.{holds};
ghost use Rattle.c25_meaning_processor.specs.Statements.{IsImageOf, outside_b0, standing, statement_at};
ghost use Rattle.c25_pages.specs.Program.{IsAscending, statements_of};

use crate::run_board::RunBoard;
use c25_isa::{encode, size_of};
use c25_meaning_instructions::insn::Insn;
use c25_pages::Program;

/// Whether the processor, which sees block B0 as program memory, reads these words from an address on.
fn holds(board: &RunBoard, address: u16, words: &[u16]) -> bool
    requires { (state board.now).registers.cnf ≡ true }
    ensures { result ≡ holds (state board.now).world address words.now }
{
    let mut at = address;
    for word in words {
        if board.prog_at(at) != *word {
            return false;
        }
        at = at.wrapping_add(1);
    }
    true
}

/// The same of the words of an instruction.
fn holds_insn(board: &RunBoard, address: u16, insn: &Insn) -> bool
    requires b0 { (state board.now).registers.cnf ≡ true }
    requires in_range { InRange insn.now }
    ensures { result ≡ holds (state board.now).world address (words insn.now) }
{
    let code = encode(insn);
    holds(board, address, code.as_slice())
}

/// The instruction of the statement that stands at an address, unless under CNF 1 a word of it lies in block B0.
fn plain_at(program: &Program, cnf: bool, address: u16) -> Option<Insn>
    requires { IsAscending program.now }
    ensures { result ≡ option_and_then (outside_b0 cnf address) (statement_at (statements_of program.now).plain address) }
{
    match program.find_statement(address) {
        Some(insn) => {
            if cnf && 0xFF00 < u32::from(address) + u32::from(size_of(insn.mnemonic())) {
                None
            } else {
                Some(insn)
            }
        }
        None => None,
    }
}

/// The same where block B0 is program memory, or the instruction of the statement that runs there, if B0 holds its words.
fn copied_or_plain_at(board: &RunBoard, program: &Program, address: u16) -> Option<Insn>
    requires b0 { (state board.now).registers.cnf ≡ true }
    requires ascending { IsAscending program.now }
    requires image { IsImageOf (statements_of program.now) (state board.now).world }
    ensures { result ≡ standing (statements_of program.now) true (state board.now).world address }
{
    match program.copied_at(address) {
        Some(insn) => {
            if holds_insn(board, address, &insn) {
                Some(insn)
            } else {
                None
            }
        }
        None => plain_at(program, true, address),
    }
}

/// The instruction that a program has at an address, if it has one, where its words are those of the board.
pub(crate) fn standing_at(
    board: &RunBoard,
    program: &Program,
    cnf: bool,
    address: u16,
) -> Option<Insn>
    requires b0 { (state board.now).registers.cnf ≡ cnf }
    requires ascending { IsAscending program.now }
    requires image { IsImageOf (statements_of program.now) (state board.now).world }
    ensures { result ≡ standing (statements_of program.now) cnf (state board.now).world address }
{
    if cnf {
        copied_or_plain_at(board, program, address)
    } else {
        plain_at(program, false, address)
    }
}
