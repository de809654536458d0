//! What stopped the step of a board.

ghost use Rattle.std.specs.Prelude.{◌≡◌, ◌+◌, ◌%◌, ◌^◌, IfOk, Some, string_bytes};
ghost use Rattle.c25_board.specs.Board.{state};
ghost use Rattle.c25_meaning_processor.specs.State.{program_at};
ghost use Rattle.c25_run_ends.specs.EndNote.{AreRead, IsCause, ReadsPort, dry_by, none_lines, port_read};
ghost use Rattle.c25_unused_inputs.specs.Ports as meant;

use crate::ground::{ground_text, tblw_text};
use crate::pieces::{dry_text, unrepeatable_text};
use c25_isa::decode;
use c25_link::Image;
use c25_meaning_common::no_memory::NoMemory;
use c25_meaning_instructions::insn::Insn;
use c25_meaning_instructions::mnemonic::PortName;
use c25_meaning_processor::stop::Stop;
use c25_unused_inputs::ports::{count_at, elsewhere};
use c25_unused_inputs::stepping::RunBoard;
use std::alloc::Global;

/// The instruction as which the words at PC read.
fn insn_at_pc(board: &RunBoard) -> Option<Insn>
    ensures { AreRead (program_at (state board.now).registers.cnf (state board.now).world (state board.now).registers.pc)
        (program_at (state board.now).registers.cnf (state board.now).world (((state board.now).registers.pc + 1) % 2 ^ 16)) result }
{
    let pc = board.pc();
    let first = board.prog_at(pc);
    let second = board.prog_at(pc.wrapping_add(1));
    decode(first, second)
}

/// The port that an instruction reads, if it is an `IN`.
fn port_read(insn: &Insn) -> Option<u16>
    ensures { result ≡ port_read insn.now }
{
    match insn {
        Insn::Port(name, _, port) => match name {
            PortName::In => Some(*port),
            PortName::Out => None,
        },
        _ => None,
    }
}

/// The port that the instruction at PC reads, if it is an `IN`.
fn port_at_pc(board: &RunBoard) -> Option<u16>
    ensures { ReadsPort (state board.now) result }
{
    match insn_at_pc(board) {
        Some(insn) => port_read(&insn),
        None => None,
    }
}

/// The lines of a port that never had a sample: which ports have some, or that it has none left.
fn none_lines(alloc: Global, had: &[u64], port: u16) -> Result<String, NoMemory>
    ensures { IfOk result (λ text. string_bytes text ≡ none_lines port (meant.elsewhere had.now port)) }
{
    let others = elsewhere(alloc, had, port)?;
    if others.as_str().is_empty() {
        return dry_text(alloc, port, 0);
    }
    Ok(others)
}

/// The lines of a port that is read without samples: which ports have some, where it had none itself.
fn dry_lines(alloc: Global, had: &[u64], port: u16) -> Result<String, NoMemory>
    ensures { IfOk result (λ text. string_bytes text ≡ dry_by had.now (Some port)) }
{
    let count = count_at(had, port);
    if count == 0 {
        return none_lines(alloc, had, port);
    }
    dry_text(alloc, port, count)
}

/// The same of the port that an instruction reads, if there is one.
fn dry_by(alloc: Global, had: &[u64], port: Option<u16>) -> Result<String, NoMemory>
    ensures { IfOk result (λ text. string_bytes text ≡ dry_by had.now port) }
{
    match port {
        Some(port) => dry_lines(alloc, had, port),
        None => Ok(String::new(alloc)),
    }
}

/// What stopped the next step of a board, in a run in which the ports had so many samples.
pub(crate) fn cause_of(
    alloc: Global,
    image: &Image,
    board: &RunBoard,
    had: &[u64],
    stop: Stop,
) -> Result<String, NoMemory>
    ensures { IfOk result (λ text. IsCause image.now had.now (state board.now) stop (string_bytes text)) }
{
    match stop {
        Stop::OutOfCode => ground_text(alloc, image, board.pc()),
        Stop::CodeWrite => {
            let address = (board.regs().acc % 65_536) as u16;
            tblw_text(alloc, image, address, board.settled())
        }
        Stop::BadRepeat => unrepeatable_text(alloc),
        Stop::PortDry => dry_by(alloc, had, port_at_pc(board)),
    }
}
