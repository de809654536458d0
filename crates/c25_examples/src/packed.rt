//! Cases that are packed in one file.
//!
//! A case is a line `case NAME` and its entries, each a line: `word WORD` for each argument after the
//! program's name; `input LENGTH`, what stands on standard input; `given LENGTH NAME`, a file; `status
//! NUMBER`; `output LENGTH` and `errors LENGTH`, what must go to standard output and to standard error
//! (anything may go there without a line `errors`); `written LENGTH NAME`, a file that must be written. After
//! a line with a length stand so many bytes and a line feed. A length may be `LENGTH*COUNT`, for so many
//! copies of these bytes; entries of one kind, of files those of one name, are appended to one another.

use crate::case::Case;
use crate::files::File;
use anyhow::{Context, Result, bail};
use std::alloc::Global;
use std::{fs, io, str};

/// The first line of bytes, without its line feed, and what stands after it.
fn split_line(bytes: &[u8]) -> Result<(&str, &[u8])> {
    let end = bytes.iter().position(|byte| *byte == b'\n');
    let (line, rest) = split_bytes(bytes, end.context("a line without an end")?)?;
    Ok((str::from_utf8(line)?, rest))
}

/// The first `length` bytes, and what stands after them and a line feed.
fn split_bytes(bytes: &[u8], length: usize) -> Result<(&[u8], &[u8])> {
    let (first, rest) = bytes.split_at_checked(length).context("too few bytes")?;
    match rest {
        [b'\n', rest @ ..] => Ok((first, rest)),
        _ => bail!("no line feed"),
    }
}

/// The length and the number of copies of `LENGTH` or `LENGTH*COUNT`.
fn copies_of(told: &str) -> Result<(usize, usize)> {
    match told.split_once('*') {
        Some((length, count)) => Ok((length.parse()?, count.parse()?)),
        None => Ok((told.parse()?, 1)),
    }
}

/// Appends the bytes of an entry with this length, as many times as it says, and answers what stands after
/// them.
fn put_bytes<'a>(all: &mut Vec<u8>, told: &str, bytes: &'a [u8]) -> Result<&'a [u8]> {
    let (length, count) = copies_of(told)?;
    let (first, rest) = split_bytes(bytes, length)?;
    for _ in 0..count {
        all.extend_from_slice(first)?;
    }
    Ok(rest)
}

/// Appends the bytes of an entry `LENGTH NAME` to the last of these files, if it has that name, or else to a
/// new one, and answers what stands after them.
fn put_file<'a>(
    alloc: Global,
    files: &mut Vec<File>,
    told: &str,
    bytes: &'a [u8],
) -> Result<&'a [u8]> {
    let (length, name) = told.split_once(' ').context("a file without a name")?;
    let goes_on = match files.last() {
        Some(file) => file.name.as_str() == name,
        None => false,
    };
    if !goes_on {
        files.push(File::new(alloc, name, b"")?)?;
    }
    match files.last_mut() {
        Some(file) => put_bytes(&mut file.bytes, length, bytes),
        None => bail!("no file"),
    }
}

/// Adds an entry to its case. `bytes` begins after the entry's line; the answer is what stands after the
/// entry.
fn put_entry<'a>(
    alloc: Global,
    case: &mut Case<'_>,
    line: &str,
    bytes: &'a [u8],
) -> Result<&'a [u8]> {
    let (kind, told) = line.split_once(' ').context("an entry without a value")?;
    match kind {
        "word" => {
            case.words.push(String::from_str(alloc, told)?)?;
            Ok(bytes)
        }
        "status" => {
            case.status = told.parse()?;
            Ok(bytes)
        }
        "input" => put_bytes(&mut case.input, told, bytes),
        "output" => put_bytes(&mut case.output, told, bytes),
        "errors" => {
            case.has_errors = true;
            put_bytes(&mut case.errors, told, bytes)
        }
        "given" => put_file(alloc, &mut case.given, told, bytes),
        "written" => put_file(alloc, &mut case.written, told, bytes),
        _ => bail!("no entry: {line}"),
    }
}

/// Begins a case, or adds an entry to the last case, as the first line of these bytes says, and answers what
/// stands after it.
fn put_line<'a>(alloc: Global, cases: &mut Vec<Case<'a>>, bytes: &'a [u8]) -> Result<&'a [u8]> {
    let (line, rest) = split_line(bytes)?;
    if let Some(name) = line.strip_prefix("case ") {
        cases.push(Case::new(alloc, name)?)?;
        return Ok(rest);
    }
    match cases.last_mut() {
        Some(case) => put_entry(alloc, case, line, rest),
        None => bail!("an entry of no case"),
    }
}

/// Appends the cases of a file's bytes.
fn put_cases<'a>(alloc: Global, cases: &mut Vec<Case<'a>>, bytes: &'a [u8]) -> Result<()> {
    let mut rest = bytes;
    for _ in 0..bytes.len() {
        if rest.is_empty() {
            break;
        }
        rest = put_line(alloc, cases, rest)?;
    }
    Ok(())
}

/// Runs cases, and prints how many there are.
fn run_all(rt: &HostRuntime, cases: &[Case<'_>]) -> io::Result<()> {
    for case in cases {
        case.run(rt)?;
    }
    println!(rt; "{} cases", cases.len())
}

/// Runs the cases of a file.
pub(crate) fn run_cases(rt: &HostRuntime, file: &str) -> Result<()> {
    let bytes = fs::read(rt, file)?;
    let mut cases = Vec::new(rt.alloc());
    put_cases(rt.alloc(), &mut cases, &bytes)?;
    run_all(rt, &cases)?;
    Ok(())
}
