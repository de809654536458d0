//! The program on the system that it runs on.

ghost use Rattle.std.specs.Prelude.{None};
ghost use Rattle.c25_tasks.specs.Program.{IsProgram, effect_of};

use crate::program::{Streams, run_program, words_of};
use c25_disk::system::System;
use c25_prompting::asking::Asking;
use c25_report::ending::Ended;
use std::io::IsTerminal;

/// Whether commands are typed: standard input is a terminal, and there is a command line, without which standard
/// input would be a source.
fn asks(rt: &HostRuntime) -> bool {
    if !rt.stdin().is_terminal() {
        return false;
    }
    match words_of(rt.alloc(), rt) {
        Ok(words) => words.len() > 1,
        Err(_) => false,
    }
}

/// Runs the program with the command line, the files and the standard streams of the system. Each `main` of
/// the program calls this function, and ends with the status of its answer.
pub fn run_on(rt: &HostRuntime) -> Ended
    ensures { IsProgram (λ _. None) (λ _. None) None (effect_of result.report (None, None) (None, None)) }
{
    let input = Asking {
        input: rt.stdin(),
        prompts: rt.stderr(),
        asks: asks(rt),
    };
    let mut streams = Streams {
        input,
        out: rt.stdout(),
        err: rt.stderr(),
    };
    run_program(rt.alloc(), rt, &mut System::new(rt), &mut streams)
}
