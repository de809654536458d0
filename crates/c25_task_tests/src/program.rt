//! Command lines without arguments or without a task, and runs that cannot be printed.

use crate::values::equal;
use crate::worlds::{Closed, CommandLine, Narrow, NotText, empty_shelf, input_of};
use c25_disk_tests::readers::Pieces;
use c25_tasks::{Streams, run_program};
use std::alloc::Global;
use std::io::Write;
use std::process::{Abort, ExitCode};
use std::rt::Env;
use std::test::Fail;

/// The streams of a program that reads these bytes and prints to this writer.
fn streams_of<O: Write>(alloc: Global, input: &[u8], out: O) -> Streams<Pieces<'_>, O, Vec<u8>> {
    Streams {
        input: input_of(input),
        out,
        err: Vec::new(alloc),
    }
}

/// Checks that the program has status 2 for this command line, prints nothing but to standard error, and
/// reads and writes nothing.
fn are_no_task(rt: &(impl Abort + AllocGlobal), words: &impl Env, told: Option<&str>) {
    let mut shelf = empty_shelf(rt.alloc());
    let mut streams = streams_of(rt.alloc(), b" NOP\n", Vec::<u8>::new(rt.alloc()));
    let status = run_program(rt.alloc(), words, &mut shelf, &mut streams).status();
    equal(rt, status, ExitCode::from(2));
    equal(
        rt,
        (streams.out.is_empty(), shelf.written.is_empty()),
        (true, true),
    );
    equal(rt, streams.input.rest, b" NOP\n".as_slice());
    match told {
        Some(text) => equal(rt, streams.err.as_slice(), text.as_bytes()),
        None => equal(rt, streams.err.is_empty(), false),
    }
}

#[test]
fn words_that_are_no_task_have_status_2(rt: HostRuntime) {
    are_no_task(&rt, &NotText, Some("c25: a word is not UTF-8\n"));
    are_no_task(&rt, &CommandLine { words: &["asm"] }, None);
}

/// Checks the status and the report of a run of the source on standard input.
fn is_printed<O: Write>(
    rt: &(impl Abort + AllocGlobal),
    streams: &mut Streams<Pieces<'_>, O, Vec<u8>>,
    status: ExitCode,
    told: &[u8],
) {
    let mut shelf = empty_shelf(rt.alloc());
    let no_words = CommandLine { words: &[] };
    let found = run_program(rt.alloc(), &no_words, &mut shelf, streams).status();
    equal(rt, found, status);
    equal(rt, streams.err.as_slice(), told);
}

/// The report where standard output takes no more.
const CANNOT_WRITE: &[u8] = b"stdout: 7 CannotWrite\n";

#[test]
fn a_run_that_cannot_be_printed_is_a_failure(rt: HostRuntime) {
    let mut streams = streams_of(rt.alloc(), b"", Closed);
    is_printed(&rt, &mut streams, ExitCode::FAILURE, CANNOT_WRITE);
}

/// What a run of `OUTPUTS` prints.
const PRINTED: &[u8] = b"1 0000\n2 0000\nleft 2 OutOfCode\n";

/// A source with two outputs, after which it leaves the code.
const OUTPUTS: &[u8] = b" OUT 60h,PA1\n OUT 60h,PA2\n";

/// Checks that a run that is printed to a writer with this room prints its first bytes, with this status and
/// report.
fn prints_front(rt: &(impl Abort + AllocGlobal), room: usize, status: ExitCode, told: &[u8]) {
    let out = Narrow {
        room,
        taken: Vec::new(rt.alloc()),
    };
    let mut streams = streams_of(rt.alloc(), OUTPUTS, out);
    is_printed(rt, &mut streams, status, told);
    equal(
        rt,
        streams.out.taken.as_slice(),
        &PRINTED[..room.min(PRINTED.len())],
    );
}

#[test]
fn what_a_writer_took_of_a_run_stands(rt: HostRuntime) {
    for room in 0..PRINTED.len() {
        prints_front(&rt, room, ExitCode::FAILURE, CANNOT_WRITE);
    }
    prints_front(&rt, PRINTED.len(), ExitCode::from(3), b"");
}
