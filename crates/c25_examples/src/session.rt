//! Sessions: commands that are run line by line. They are those shell commands that the manual's examples
//! need, and calls of the libraries.

use crate::command::{Input, call_of, lines_of};
use crate::library::call_library;
use anyhow::{Context, Result, bail};
use c25_disk::system::System;
use c25_tasks::{Streams, run_words};
use std::alloc::{AllocError, Global};
use std::io::Write;
use std::process::ExitCode;
use std::{fs, io};

/// The arguments of a line, separated by blanks.
pub(crate) fn words_of(alloc: Global, line: &str) -> Result<Vec<String>, AllocError> {
    let mut words = Vec::new(alloc);
    for word in line.split_whitespace() {
        words.push(String::from_str(alloc, word)?)?;
    }
    Ok(words)
}

/// The text on standard input.
fn input_of(rt: &HostRuntime, input: Input<'_>) -> io::Result<String> {
    match input {
        Input::Nothing => Ok(String::new(rt.alloc())),
        Input::Line(text) => Ok(format!(in rt.alloc(); "{text}\n")?),
        Input::File(name) => fs::read_to_string(rt, name),
    }
}

/// Calls the program `c25` with this command line and standard input: its status, and what it reports on
/// standard error.
fn answer(rt: &HostRuntime, words: &[String], input: &str) -> (ExitCode, Vec<u8>) {
    let mut disk = System::new(rt);
    let mut streams = Streams {
        input: input.as_bytes(),
        out: io::writer(rt),
        err: Vec::<u8>::new(rt.alloc()),
    };
    let status = run_words(rt.alloc(), words, &mut disk, &mut streams).status();
    (status, streams.err)
}

/// Runs the call of a line: standard error is shown last, and `status` is set.
fn run_call(rt: &HostRuntime, line: &str, status: &mut ExitCode) -> Result<()> {
    let Some(call) = call_of(line) else {
        bail!("no command: {line}");
    };
    let words = words_of(rt.alloc(), call.words)?;
    let input = input_of(rt, call.input)?;
    let (ended, errors) = answer(rt, &words, &input);
    *status = ended;
    if call.shows_errors {
        io::writer(rt).write_all(&errors)?;
    }
    Ok(())
}

/// The text after a byte's digits: a line feed after each 16 and after the last.
fn end_of(at: usize, count: usize) -> &'static str {
    if at % 16 == 15 || at.saturating_add(1) == count {
        "\n"
    } else {
        ""
    }
}

/// Prints bytes as hexadecimal digits, a blank before each, 16 a line.
fn show_digits(rt: &HostRuntime, bytes: &[u8]) -> io::Result<()> {
    for (at, byte) in bytes.iter().enumerate() {
        print!(rt; " {byte:02x}{}", end_of(at, bytes.len()))?;
    }
    Ok(())
}

/// `od -An -v -tx1 FILE`: prints the bytes of a file.
fn show_bytes(rt: &HostRuntime, told: &str) -> Result<()> {
    let name = told.strip_prefix("-An -v -tx1 ").context("no bytes")?;
    let bytes = fs::read(rt, name)?;
    show_digits(rt, &bytes)?;
    Ok(())
}

/// `sed -n FIRST,LASTp FILE`: prints a range of a file's lines, counted from 1.
fn show_lines(rt: &HostRuntime, told: &str) -> Result<()> {
    let lines = lines_of(told).context("no lines of a file")?;
    let text = fs::read_to_string(rt, lines.file)?;
    for line in text
        .lines()
        .take(lines.last)
        .skip(lines.first.saturating_sub(1))
    {
        println!(rt; "{line}")?;
    }
    Ok(())
}

/// The number of a status.
fn number_of(status: ExitCode) -> u8 {
    for number in 0..u8::MAX {
        if status == ExitCode::from(number) {
            return number;
        }
    }
    u8::MAX
}

/// Runs a command: `c25 ARGUMENTS..`, after `echo 'TEXT' |` too; `cat FILE`; `od` and `sed` as above; `echo
/// $?`, which prints the status of the call before; or a call of a library. A call of the program sets
/// `status`.
fn run_command(rt: &HostRuntime, line: &str, status: &mut ExitCode) -> Result<()> {
    let (name, told) = line.split_once(' ').unwrap_or((line, ""));
    match name {
        "cat" => Ok(rt.print(fs::read_to_string(rt, told)?)?),
        "od" => show_bytes(rt, told),
        "sed" => show_lines(rt, told),
        "echo" if told == "$?" => Ok(rt.println(number_of(*status))?),
        "c25" | "echo" => run_call(rt, line, status),
        _ => call_library(rt, name, told),
    }
}

/// Runs the commands of a text, printing each line before it runs.
fn run_lines(rt: &HostRuntime, text: &str) -> Result<()> {
    let mut status = ExitCode::SUCCESS;
    for line in text.lines() {
        println!(rt; "$ {line}")?;
        run_command(rt, line, &mut status)?;
    }
    Ok(())
}

/// Runs the commands of the file `session`.
pub(crate) fn run_session(rt: &HostRuntime) -> Result<()> {
    let text = fs::read_to_string(rt, "session")?;
    run_lines(rt, &text)
}
