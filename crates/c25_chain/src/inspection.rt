//! The registers and the place of a board, as a debugger answers them.

ghost use Rattle.std.specs.Prelude.{◌≡◌, IfOk, string_bytes};
ghost use Rattle.c25_board.specs.Board.{entries, signals, state, steps};
ghost use Rattle.c25_chain.specs.Inspection.{TellsBoth, TellsWhere};
ghost use Rattle.c25_debug.specs.Told.{point_of};

use c25_board::board::Board;
use c25_board::ports::{Feed, Sink};
use c25_debug::session::Session;
use c25_link::Image;
use c25_meaning_common::no_memory::NoMemory;
use c25_meaning_processor::script::Cmd;
use std::alloc::Global;

/// The answers of a session to `regs` and then to `where`.
fn both_answers<F: Feed + Drop, S: Sink + Drop>(
    session: &mut Session<'_, F, S>,
) -> Result<String, NoMemory>
    ensures { IfOk result (λ text. TellsBoth (signals session.old.board) session.old.image.now
        (point_of session.old.board session.old.breakpoints) (string_bytes text)) }
{
    let mut text = session.command(&Cmd::Regs)?;
    let place = session.command(&Cmd::Where)?;
    text.push_str(place.as_str())?;
    Ok(text)
}

/// The answers of a debugger to `regs` and then to `where` over a board that runs this image.
pub fn where_it_stands<F: Feed + Drop, S: Sink + Drop>(
    alloc: Global,
    board: Board<F, S>,
    image: &Image,
) -> Result<String, NoMemory>
    ensures { IfOk result (λ text. TellsWhere image.now (entries board) (steps board) (state board) (string_bytes text)) }
{
    let mut session = Session::new(alloc, board, image);
    both_answers(&mut session)
}
