//! Lines of a source around one of them.

ghost use Rattle.std.specs.Prelude.{◌≡◌, ◌++◌, ◌+◌, ◌<◌, ◌≤◌, ◌^◌, drop, IfOk, length, map, OnOk, option_map, string_bytes, take};
ghost use Rattle.std.specs.Str.Lines.{lines};
ghost use Rattle.c25_prompt_texts.specs.SourceLines.{around, line_mark, lines_around, lines_before, numbered, source_line, text_around};

use c25_meaning_common::no_memory::NoMemory;
use c25_texts::appending::{push_text, push_texts};
use itoa::Buffer;
use std::alloc::{AllocError, Global};

/// The mark in front of a line, where it is the current one and where it is another.
fn line_mark(is_current: bool) -> &'static str
    ensures { result.now ≡ line_mark is_current }
{
    if is_current { "=> " } else { "   " }
}

/// Appends a line as it is shown: the mark, its number, a tab and its text.
fn push_line(text: &mut String, current: u64, number: u64, line: &str) -> Result<(), NoMemory>
    ensures { OnOk result (string_bytes text.new ≡ string_bytes text.old ++ source_line current number line.now) }
{
    let mut digits = Buffer::new();
    push_text(text, line_mark(number == current))?;
    push_texts(text, &[digits.format(number), "\t"])?;
    push_text(text, line)?;
    push_text(text, "\n")
}

/// Appends lines as they are shown, of which the first has this number.
fn push_numbered(
    text: &mut String,
    current: u64,
    first: u64,
    lines: &[&str],
) -> Result<(), NoMemory>
    requires { first + length lines.now < 2 ^ 64 }
    ensures { OnOk result (string_bytes text.new ≡ string_bytes text.old ++ numbered current first (map (λ line. line.now) lines.now)) }
{
    let mut number = first;
    for line in lines {
        push_line(text, current, number, line)?;
        number += 1;
    }
    Ok(())
}

/// The lines of a text.
fn lines_of(alloc: Global, text: &str) -> Result<Vec<&str>, AllocError>
    ensures { IfOk result (λ v. map (λ line. line.now) v.items ≡ lines text.now) }
{
    text.lines().collect(alloc)
}

/// How many lines are before those that are shown with the line of this number, which is counted from 1.
fn lines_before(number: u32) -> usize
    ensures before { result ≡ lines_before number }
    ensures small { result ≤ number }
{
    number.saturating_sub(4) as usize
}

/// The lines after so many, as far as there are any.
#[tactic(auto, using(std::proofs::lemmas::List::drop_min))]
fn lines_after<'a, 'b>(lines: &'b [&'a str], count: usize) -> &'b [&'a str]
    ensures { result.now ≡ drop count lines.entry.now }
{
    &lines[count.min(lines.len())..]
}

/// The first so many lines, as far as there are any.
#[tactic(auto, using(std::proofs::lemmas::List::take_min))]
fn first_lines<'a, 'b>(lines: &'b [&'a str], count: usize) -> &'b [&'a str]
    ensures { result.now ≡ take count lines.entry.now }
{
    &lines[..count.min(lines.len())]
}

/// The line of this number, and the three before and the three after it, as far as there are any.
fn around<'a, 'b>(lines: &'b [&'a str], number: u32) -> &'b [&'a str]
    ensures { result.now ≡ around lines.entry.now number }
{
    let before = lines_before(number);
    first_lines(lines_after(lines, before), number as usize + 3 - before)
}

/// Appends the lines of a source around the line of this number.
#[tactic(auto, using(crate::proofs::Around::around_map))]
fn push_around(alloc: Global, text: &mut String, source: &str, number: u32) -> Result<(), NoMemory>
    ensures { OnOk result (string_bytes text.new ≡ string_bytes text.old ++ lines_around source.now number) }
{
    let lines = lines_of(alloc, source)?;
    let shown = around(lines.as_slice(), number);
    let first = lines_before(number) as u64 + 1;
    push_numbered(text, u64::from(number), first, shown)
}

/// Appends the lines of a source around the line of this number, or `none` where its text is not known.
pub fn push_source(
    alloc: Global,
    text: &mut String,
    source: Option<&str>,
    number: u32,
) -> Result<(), NoMemory>
    ensures { OnOk result (string_bytes text.new ≡ string_bytes text.old ++ text_around (option_map (λ s. s.now) source.entry) number) }
{
    match source {
        None => push_texts(text, &["none\n"]),
        Some(source) => push_around(alloc, text, source, number),
    }
}
