//! An old source, moved.

ghost use Rattle.std.specs.Prelude.{◌≡◌, ◌<◌, ◌+◌, ◌==◌, ◌++◌, IfOk, OnOk, length, map, string_bytes};
ghost use Rattle.c25_move_lines.specs.LocalLabels.{IsLookedThrough};
ghost use Rattle.c25_move.specs.Promises.{IsMoved, KeepAll, at_start};
ghost use Rattle.c25_move.specs.Rewritten.{after_bytes, break_bytes, end_bytes, new_text, old_text, rewritten_of, rows_of};

use crate::line::{Manner, OldLine, OldSource, moved_line};
use crate::moved_line::{LineEnd, MovedLine};
use crate::region::Region;
use crate::regions::region_after;
use crate::rows::first_line;
use c25_meaning_common::no_memory::NoMemory;
use c25_move_lines::{Progress, has_local_names, pass_line};
use std::alloc::Global;

/// The lines of the text of an old source, moved in this manner.
fn moved_lines<'a>(
    alloc: Global,
    text: &'a str,
    manner: &Manner<'_>,
    progress: &mut Progress,
) -> Result<Vec<MovedLine<'a>>, NoMemory>
    ensures lines { IfOk result (λ lines. old_text (map rewritten_of lines.items) ≡ text.now) }
    ensures promises { IfOk result (λ lines. KeepAll manner.now.style (map (λ name. name.now) manner.now.macros.now) (at_start manner.now.named.now progress.old.blocks) (map rewritten_of lines.items)) }
{
    let mut lines = Vec::new(alloc);
    let mut region = Region::Outside;
    let mut rest = text;
    while !rest.is_empty() {
        let first = first_line(rest);
        let line = OldLine {
            text: first.line,
            end: first.end,
            region,
        };
        let moved = moved_line(alloc, manner, progress, line)?;
        lines.push(moved)?;
        pass_line(progress, first.line);
        region = region_after(manner.style, region, first.line);
        rest = first.rest;
    }
    Ok(lines)
}

/// The text in which the rules look for names that they make: an empty one where no name stands in the source that begins as one
/// of theirs.
fn named<'a>(alloc: Global, text: &'a str) -> Result<&'a str, NoMemory>
    ensures { IfOk result (λ named. IsLookedThrough text.entry.now named.now) }
{
    if has_local_names(alloc, text)? {
        Ok(text)
    } else {
        Ok("")
    }
}

/// An old source, line by line: each line has the promises of [KeepsPromises](../specs/Promises.antt). `progress` has
/// what the sources before it left, and gets the addresses of its sections for a command file. `NoMemory` (9) where
/// memory runs out; there is no other failure, whatever the text.
pub fn move_source<'a>(
    alloc: Global,
    source: &OldSource<'a, '_>,
    progress: &mut Progress,
) -> Result<Vec<MovedLine<'a>>, NoMemory>
    ensures { IfOk result (λ lines. IsMoved source.now.style (map (λ name. name.now) source.now.macros.now) progress.old.blocks source.now.text.now (map rewritten_of lines.items)) }
{
    let manner = Manner {
        style: source.style,
        long_order: source.long_order,
        macros: source.macros,
        named: named(alloc, source.text)?,
    };
    let lines = moved_lines(alloc, source.text, &manner, progress)?;
    Ok(lines)
}

/// The bytes with which a line ends.
fn end_text(end: LineEnd) -> &'static str
    ensures { result.now ≡ end_bytes end }
{
    match end {
        LineEnd::Feed => "\n",
        LineEnd::ReturnFeed => "\r\n",
        LineEnd::End => "",
    }
}

/// The bytes between the lines that take a line's place.
fn break_text(end: LineEnd) -> &'static str
    ensures { result.now ≡ break_bytes end }
{
    match end {
        LineEnd::Feed => "\n",
        LineEnd::ReturnFeed => "\r\n",
        LineEnd::End => "\n",
    }
}

/// What follows a line among the lines that take a line's place.
fn after_line(end: LineEnd, place: usize, lines: &[String]) -> &'static str
    requires { place < length lines.now }
    ensures { result.now ≡ after_bytes end (place + 1 == length lines.now) }
{
    if place + 1 == lines.len() {
        end_text(end)
    } else {
        break_text(end)
    }
}

/// Adds a line, and what follows it.
fn push_row(text: &mut String, line: &str, after: &str) -> Result<(), NoMemory>
    ensures { OnOk result (string_bytes text.new ≡ (string_bytes text.old ++ line.now) ++ after.now) }
{
    text.push_str(line)?;
    text.push_str(after)?;
    Ok(())
}

/// Adds the lines that take a line's place, with their ends.
fn push_rows(text: &mut String, end: LineEnd, lines: &[String]) -> Result<(), NoMemory>
    ensures { OnOk result (string_bytes text.new ≡ string_bytes text.old ++ rows_of end (map string_bytes lines.now)) }
{
    for (place, line) in lines.iter().enumerate() {
        push_row(text, line.as_str(), after_line(end, place, lines))?;
    }
    Ok(())
}

/// The text of a source that is moved. `NoMemory` (9) where memory runs out.
pub fn new_text(alloc: Global, lines: &[MovedLine<'_>]) -> Result<String, NoMemory>
    ensures { IfOk result (λ text. string_bytes text ≡ new_text (map rewritten_of lines.now)) }
{
    let mut text = String::new(alloc);
    for line in lines {
        push_rows(&mut text, line.end, line.change.lines.as_slice())?;
    }
    Ok(text)
}
