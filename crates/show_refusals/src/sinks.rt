//! Sinks with room for 0 to 9 words, under a program that puts out a word in every second step from the third
//! on.

ghost use Rattle.std.specs.Prelude.{◌≡◌, IfOk};
ghost use Rattle.c25_board.specs.Board.{steps};
ghost use Rattle.c25_debug.specs.WithinMemory.{IsWithin};

use crate::call::words_of;
use anyhow::{Result, bail};
use c25_board::board::{Board, Outcome};
use c25_board::fixed_sink::FixedSink;
use c25_board::ports::Sink;
use c25_board::samples::{Samples, read_samples};
use c25_board::schedule::read_schedule;
use c25_chain::build;
use c25_chain::built::Built;
use c25_debug::session::Session;
use c25_link::Image;
use c25_macro::files::Files;
use c25_meaning_image::marks::marks_fit;
use c25_meaning_processor::script::Cmd;
use std::alloc::Global;

/// Steps 0 and 1 make the word; step 2 and every second step after it put it out.
const SOURCE: &str = " LACK 65\n SACL 60h\nS OUT 60h,PA1\n B S\n";

/// A sink of a fixed size.
trait Fixed: Sink {
    /// How many words the sink takes.
    const ROOM: usize;

    /// An empty sink.
    fn empty() -> Self;

    /// How many words the sink has.
    fn count(&self) -> usize;

    /// Empties the sink.
    fn forget(&mut self);
}

impl<const CAP: usize> Fixed for FixedSink<CAP> {
    const ROOM: usize = CAP;

    fn empty() -> FixedSink<CAP> {
        FixedSink::new()
    }

    fn count(&self) -> usize {
        self.words().len()
    }

    fn forget(&mut self) {
        self.clear();
    }
}

/// A board that runs a program, with an empty sink.
fn board_of<S: Fixed + Drop>(alloc: Global, image: &Image) -> Result<Board<Samples, S>>
    ensures { IfOk result (λ board. steps board ≡ 0) }
{
    let samples = read_samples(alloc, "")?;
    let schedule = read_schedule(alloc, "")?;
    if !marks_fit(image.marks()) {
        bail!("these are no places of instructions");
    }
    Ok(Board::new(
        alloc,
        image.words(0),
        image.words(1),
        image.marks(),
        &[],
        schedule,
        samples,
        S::empty(),
    )?)
}

/// Prints how a run ended, and the state of the board and its sink.
fn tell<S: Fixed + Drop>(
    rt: &HostRuntime,
    run: &str,
    outcome: Outcome,
    board: &Board<Samples, S>,
) -> Result<()> {
    let words = board.sink().count();
    println!(rt; "{run}: {outcome:?}, words {words}, PC {}", board.pc())?;
    Ok(())
}

/// Runs a new board into its full sink, and on once the sink is cleared.
fn run_board<S: Fixed + Drop>(rt: &HostRuntime, board: &mut Board<Samples, S>) -> Result<()>
    requires { steps board.old ≡ 0 }
{
    let outcome = board.run(100);
    tell(rt, "run 100", outcome, board)?;
    board.sink_mut().forget();
    if board.steps() > 100 {
        bail!("a board has done more steps than it was asked for");
    }
    let outcome = board.run(1);
    tell(rt, "cleared, run 1", outcome, board)
}

/// Prints what a session answers to a command, and whether the answer reports a refused word.
fn show<S: Fixed + Drop>(
    rt: &HostRuntime,
    session: &mut Session<'_, Samples, S>,
    command: &Cmd,
) -> Result<()>
    requires { IsWithin command.now }
{
    let text = session.command(command)?;
    print!(rt; "refused {}: {text}", session.refused())?;
    Ok(())
}

/// Runs a session into its full sink, tries the word again, and asks for its registers and place.
fn debug_board<S: Fixed + Drop>(
    rt: &HostRuntime,
    session: &mut Session<'_, Samples, S>,
) -> Result<()> {
    show(rt, session, &Cmd::Step(100))?;
    show(rt, session, &Cmd::Run(1))?;
    show(rt, session, &Cmd::Where)?;
    println!(rt; "words {}", session.board().sink().count())?;
    Ok(())
}

/// Runs the cases of a sink under a board.
fn run_under_board<S: Fixed + Drop>(rt: &HostRuntime, image: &Image) -> Result<()> {
    let mut board = board_of::<S>(rt.alloc(), image)?;
    run_board(rt, &mut board)
}

/// Runs the cases of a sink under a session.
fn run_under_session<S: Fixed + Drop>(rt: &HostRuntime, image: &Image) -> Result<()> {
    let board = board_of::<S>(rt.alloc(), image)?;
    let mut session = Session::new(rt.alloc(), board, image);
    debug_board(rt, &mut session)
}

/// Runs the cases of a sink under a board and under a session.
fn run_sink<S: Fixed + Drop>(rt: &HostRuntime, image: &Image) -> Result<()> {
    println!(rt; "== a sink for {} words", S::ROOM)?;
    run_under_board::<S>(rt, image)?;
    run_under_session::<S>(rt, image)
}

/// Runs the cases of sinks of each size.
fn run_sinks(rt: &HostRuntime, image: &Image) -> Result<()> {
    run_sink::<FixedSink<0>>(rt, image)?;
    run_sink::<FixedSink<1>>(rt, image)?;
    run_sink::<FixedSink<2>>(rt, image)?;
    run_sink::<FixedSink<3>>(rt, image)?;
    run_sink::<FixedSink<4>>(rt, image)?;
    run_sink::<FixedSink<5>>(rt, image)?;
    run_sink::<FixedSink<6>>(rt, image)?;
    run_sink::<FixedSink<7>>(rt, image)?;
    run_sink::<FixedSink<8>>(rt, image)?;
    run_sink::<FixedSink<9>>(rt, image)
}

/// The program of `SOURCE`.
fn program_of(alloc: Global) -> Result<Built> {
    let mut files = Files::new(alloc);
    files.add("puts.asm", SOURCE)?;
    let sources = words_of(alloc, "puts.asm")?;
    Ok(build(alloc, &files, &sources, "")?)
}

/// Runs the cases of all sinks.
pub(crate) fn run_all(rt: &HostRuntime) -> Result<()> {
    let built = program_of(rt.alloc())?;
    run_sinks(rt, &built.linked.image)
}
