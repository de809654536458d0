//! Proposals of hints: what may be true of an image and is not known.

ghost use Rattle.std.specs.Prelude.{◌≡◌, IfOk, OnOk, string_bytes, true};
ghost use Rattle.std.specs.List.{All};
ghost use Rattle.c25_reach.specs.Proposals.{IsTaken};

use crate::copied::add_copies;
use crate::places::places_of;
use crate::referring::add_references;
use crate::standing::instructions_of;
use crate::tables::{Known, add_tables};
use crate::unreached::add_code;
use c25_layout::hint::Hint;
use c25_layout::layout::Part;
use c25_layout::read_hints;
use c25_meaning_common::failure::Failure;
use c25_meaning_common::no_memory::NoMemory;
use c25_meaning_image::word_map::WordMap;
use std::alloc::Global;

/// Lines that are proposed, before they are read.
fn found_lines(
    alloc: Global,
    words: &WordMap,
    parts: &[Part],
    hints: &[Hint<String>],
) -> Result<Vec<String>, NoMemory> {
    let list = instructions_of(alloc, parts)?;
    let places = places_of(alloc, parts, hints)?;
    let known = Known {
        words,
        places: &places,
        hints,
    };
    let mut lines = Vec::new(alloc);
    add_copies(alloc, &mut lines, &list, hints)?;
    add_tables(alloc, &mut lines, known, &list)?;
    add_code(alloc, &mut lines, words, &places)?;
    add_references(alloc, &mut lines, &list, &places, hints)?;
    Ok(lines)
}

/// Whether a line is read as one hint.
fn is_taken(alloc: Global, line: &str) -> Result<bool, NoMemory>
    ensures { IfOk result (λ taken. taken ≡ true → IsTaken line.now) }
{
    match read_hints(alloc, line) {
        Ok(hints) => Ok(hints.len() == 1),
        Err(Failure::NoMemory(error)) => Err(error),
        Err(Failure::Fault(_)) => Ok(false),
    }
}

/// Adds a line, where it is read as one hint.
fn keep_taken(alloc: Global, lines: &mut Vec<String>, line: &str) -> Result<(), NoMemory>
    requires { All (λ l. IsTaken (string_bytes l)) lines.old.items }
    ensures { OnOk result (All (λ l. IsTaken (string_bytes l)) lines.new.items) }
{
    if is_taken(alloc, line)? {
        lines.push(String::from_str(alloc, line)?)?;
    }
    Ok(())
}

/// The lines that are read as one hint each.
fn taken_lines(alloc: Global, found: &[String]) -> Result<Vec<String>, NoMemory>
    ensures { IfOk result (λ lines. All (λ l. IsTaken (string_bytes l)) lines.items) }
{
    let mut lines = Vec::new(alloc);
    for line in found {
        keep_taken(alloc, &mut lines, line.as_str())?;
    }
    Ok(lines)
}

/// Hints that may be true of an image: where words run that `RPTK` and `BLKP` copy to block B0, tables that `TBLR` reads
/// before a jump, code that nothing comes to, and numbers that may be addresses. Each is a line that `read_hints` takes
/// as one hint, with a comment that says why; which of them are true is for the user to find out.
///
/// `NoMemory` where memory runs out.
pub fn proposals_of(
    alloc: Global,
    words: &WordMap,
    parts: &[Part],
    hints: &[Hint<String>],
) -> Result<Vec<String>, NoMemory>
    ensures { IfOk result (λ lines. All (λ l. IsTaken (string_bytes l)) lines.items) }
{
    let found = found_lines(alloc, words, parts, hints)?;
    taken_lines(alloc, &found)
}
