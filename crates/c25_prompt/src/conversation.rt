//! Conversations at the prompt: lines are read, and each is answered before the next is read.

ghost use Rattle.std.specs.Prelude.{◌≡◌, [], IfOk, OnOk};
ghost use Rattle.std.specs.Io.KnownBytes.{Appends, IsAtEnd};
ghost use Rattle.c25_board.specs.Board.{entries, state, steps};
ghost use Rattle.c25_meaning_processor.specs.Signals.{signals_of};
ghost use Rattle.c25_meaning_processor.specs.WordStep.{WordStep};
ghost use Rattle.c25_prompt_lines.specs.Addresses.{program_view};
ghost use Rattle.c25_prompt.specs.Conversing.{Converses, IsTurn, standing};
ghost use Rattle.c25_prompt.specs.Each.{ReadsLine};
ghost use Rattle.c25_prompt.specs.Point.{session_of};
ghost use Rattle.c25_prompt.specs.Session.{IsOnRun};

use crate::session::Prompt;
use crate::start::Start;
use c25_meaning_common::no_memory::NoMemory;
use std::alloc::Global;
use std::io::{BufRead, Write};

/// Why a conversation broke off.
#[derive(Clone, Copy, PartialEq, Debug)]
pub enum Broken {
    /// Memory ran out.
    NoMemory(NoMemory),
    /// The next line cannot be read.
    Unread,
    /// An answer cannot be written.
    Unwritten,
}

/// How a line was answered.
#[derive(Clone, Copy, PartialEq, Debug)]
pub(crate) enum Turn {
    /// It was answered, and the next may come.
    Answered,
    /// It ended the session.
    Quit,
    /// There was no line left.
    End,
}

/// Reads the next line, with its end, up to the end of what there is.
fn read_line<R: BufRead>(alloc: Global, reader: &mut R) -> Result<Vec<u8>, Broken>
    ensures line { IfOk result (λ line. ReadsLine (R.remaining reader.old) (R.remaining reader.new) line.items) }
    ensures end { IfOk result (λ line. line.items ≡ [] → IsAtEnd (R.remaining reader.old)) }
{
    let mut line = Vec::new(alloc);
    match reader.read_until(b'\n', &mut line) {
        Ok(_) => Ok(line),
        Err(_) => Err(Broken::Unread),
    }
}

/// Writes an answer, and lets the writer pass it on.
fn write_answer<W: Write>(text: &str, out: &mut W) -> Result<(), Broken>
    ensures { OnOk result (Appends (W.contents out.old) (W.contents out.new) text.now) }
{
    match out.write_all(text.as_bytes()) {
        Ok(()) => {}
        Err(_) => return Err(Broken::Unwritten),
    }
    match out.flush() {
        Ok(()) => Ok(()),
        Err(_) => Err(Broken::Unwritten),
    }
}

/// Reads a line, answers it, and writes the answer.
fn answer_line<B: Start, R: BufRead, W: Write>(
    prompt: &mut Prompt<'_, B>,
    reader: &mut R,
    out: &mut W,
) -> Result<Turn, Broken>
    requires { IsOnRun (B.schedule prompt.old.start.now) (B.first prompt.old.start.now) (entries prompt.old.board) (steps prompt.old.board) (state prompt.old.board) }
    ensures turn { IfOk result (λ turn. IsTurn WordStep (signals_of (B.schedule prompt.old.start.now)) (program_view prompt.old.program) (B.first prompt.old.start.now) turn
        (standing (R.remaining reader.old) (W.contents out.old) (session_of prompt.old.board prompt.old.stops prompt.old.displays))
        (standing (R.remaining reader.new) (W.contents out.new) (session_of prompt.new.board prompt.new.stops prompt.new.displays))) }
    ensures reached { IfOk result (λ turn. IsOnRun (B.schedule prompt.old.start.now) (B.first prompt.old.start.now) (entries prompt.new.board) (steps prompt.new.board) (state prompt.new.board)) }
    ensures program { prompt.new.program ≡ prompt.old.program }
    ensures start { prompt.new.start ≡ prompt.old.start }
{
    let line = read_line(prompt.alloc(), reader)?;
    if line.is_empty() {
        return Ok(Turn::End);
    }
    let reply = match prompt.line(&line) {
        Ok(reply) => reply,
        Err(error) => return Err(Broken::NoMemory(error)),
    };
    write_answer(reply.text.as_str(), out)?;
    if reply.is_last {
        return Ok(Turn::Quit);
    }
    Ok(Turn::Answered)
}

/// Answers the lines of a reader, each before the next is read, up to `quit` or the end of what there is.
pub fn converse<B: Start, R: BufRead, W: Write>(
    prompt: &mut Prompt<'_, B>,
    reader: &mut R,
    out: &mut W,
) -> Result<(), Broken>
    requires { IsOnRun (B.schedule prompt.old.start.now) (B.first prompt.old.start.now) (entries prompt.old.board) (steps prompt.old.board) (state prompt.old.board) }
    ensures { OnOk result (Converses WordStep (signals_of (B.schedule prompt.old.start.now)) (program_view prompt.old.program) (B.first prompt.old.start.now)
        (standing (R.remaining reader.old) (W.contents out.old) (session_of prompt.old.board prompt.old.stops prompt.old.displays))
        (standing (R.remaining reader.new) (W.contents out.new) (session_of prompt.new.board prompt.new.stops prompt.new.displays))) }
{
    for _turn in 0..u64::MAX {
        match answer_line(prompt, reader, out)? {
            Turn::Answered => {}
            Turn::Quit => return Ok(()),
            Turn::End => return Ok(()),
        }
    }
    Err(Broken::Unread)
}
