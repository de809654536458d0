//! Calls of the program, compared with what they must do.

use crate::memory_reader::Reading;
use crate::world::World;
use c25_tasks::{Streams, run_words};
use std::alloc::{AllocError, Global};
use std::io;
use std::process::ExitCode;

/// What a call must do.
#[derive(Clone, Copy)]
pub(crate) struct Wanted<'a> {
    pub(crate) status: u8,
    pub(crate) output: &'a str,
    pub(crate) errors: &'a str,
    pub(crate) written: &'a [u8],
}

/// The call prints this, and writes nothing.
pub(crate) fn prints(output: &str) -> Wanted<'_> {
    Wanted {
        status: 0,
        output,
        errors: "",
        written: b"",
    }
}

/// The call writes these files, and prints nothing.
pub(crate) fn writes(written: &[u8]) -> Wanted<'_> {
    Wanted {
        status: 0,
        output: "",
        errors: "",
        written,
    }
}

/// The call reports this line of a fault, and does nothing else.
pub(crate) fn refuses(errors: &str) -> Wanted<'_> {
    Wanted {
        status: 1,
        output: "",
        errors,
        written: b"",
    }
}

/// The arguments of a line, separated by blanks.
pub(crate) fn words_of(alloc: Global, line: &str) -> Result<Vec<String>, AllocError> {
    let mut words = Vec::new(alloc);
    for word in line.split_whitespace() {
        words.push(String::from_str(alloc, word)?)?;
    }
    Ok(words)
}

/// Prints a difference, unless this part of a call is right.
fn tell_unless(rt: &HostRuntime, is_right: bool, line: &str, told: &str) -> io::Result<()> {
    if is_right {
        return Ok(());
    }
    println!(rt; "{line}: {told}")
}

/// What a call did.
#[derive(Drop)]
struct Called<'a> {
    status: ExitCode,
    output: &'a [u8],
    errors: &'a [u8],
    written: &'a [u8],
}

/// Prints each part of a call that is not as it must be.
fn compare(
    rt: &HostRuntime,
    line: &str,
    called: &Called<'_>,
    wanted: Wanted<'_>,
) -> io::Result<()> {
    if called.status != ExitCode::from(wanted.status) {
        println!(rt; "{line}: another status than {}", wanted.status)?;
    }
    let has_output = called.output == wanted.output.as_bytes();
    tell_unless(rt, has_output, line, "another standard output")?;
    let has_errors = called.errors == wanted.errors.as_bytes();
    tell_unless(rt, has_errors, line, "another standard error")?;
    let has_written = called.written == wanted.written;
    tell_unless(rt, has_written, line, "other files written")
}

/// Calls the program with the command line of `line`, the program's name first, and prints each part that is
/// not as it must be.
pub(crate) fn call(
    rt: &HostRuntime,
    line: &str,
    world: &mut World<'_>,
    input: Reading<'_>,
    wanted: Wanted<'_>,
) -> io::Result<()> {
    let words = words_of(rt.alloc(), line)?;
    let mut streams = Streams {
        input,
        out: Vec::<u8>::new(rt.alloc()),
        err: Vec::<u8>::new(rt.alloc()),
    };
    let status = run_words(rt.alloc(), &words, world, &mut streams).status();
    let called = Called {
        status,
        output: &streams.out,
        errors: &streams.err,
        written: &world.written,
    };
    compare(rt, line, &called, wanted)
}
