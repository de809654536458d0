//! The answers of a debugging session to its commands, in order.

ghost use Rattle.std.specs.Prelude.{◌≡◌, IfOk, string_bytes};
ghost use Rattle.c25_board.specs.Board.{entries, signals};
ghost use Rattle.c25_debug.specs.WithinMemory.{AreWithin, IsWithin};
ghost use Rattle.c25_meaning_debugger.specs.Debugger.{Answers, AnswersAll, Point};
ghost use Rattle.c25_meaning_processor.specs.WordStep.{WordStep};
ghost use Rattle.c25_debug.specs.Told.{point_of};

use c25_board::ports::ListSink;
use c25_board::samples::Samples;
use c25_debug::session::Session;
use c25_meaning_common::no_memory::NoMemory;
use c25_meaning_processor::script::Cmd;
use std::alloc::Global;

/// A session whose board keeps its outputs in a list.
type ListSession<'a> = Session<'a, Samples, ListSink>;

/// The answer to one command. `NoMemory` where memory ran out for the answer or for an output.
fn answer(session: &mut ListSession<'_>, command: &Cmd) -> Result<String, NoMemory>
    requires { IsWithin command.now }
    ensures text { IfOk result (λ text. Answers WordStep (signals session.old.board) session.old.image.now command.now
        (point_of session.old.board session.old.breakpoints) (string_bytes text) (point_of session.new.board session.new.breakpoints)) }
    ensures image { session.new.image ≡ session.old.image }
    ensures schedule { entries session.new.board ≡ entries session.old.board }
{
    let text = session.command(command)?;
    match session.board().sink().refused() {
        Some(refused) => Err(refused),
        None => Ok(text),
    }
}

/// The answers to commands, in order.
pub(crate) fn answers(
    alloc: Global,
    session: &mut ListSession<'_>,
    commands: &[Cmd],
) -> Result<String, NoMemory>
    requires { AreWithin commands.now }
    ensures { IfOk result (λ text. (q : Point) × AnswersAll WordStep (signals session.old.board) session.old.image.now commands.now
        (point_of session.old.board session.old.breakpoints) (string_bytes text) q) }
{
    let mut text = String::new(alloc);
    for command in commands {
        let told = answer(session, command)?;
        text.push_str(told.as_str())?;
    }
    Ok(text)
}
