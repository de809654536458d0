//! The lines of memory ranges: how many of their words are used.

ghost use Rattle.std.specs.Prelude.{◌≡◌, ◌≤◌, ◌++◌, List, OnOk, All, string_bytes};
ghost use Rattle.std.specs.List.{flat_map};
ghost use Rattle.c25_cmd.specs.View.{command_data, ranges_of};
ghost use Rattle.c25_meaning_linking.specs.Command.{IsCommand, IsRange};
ghost use Rattle.c25_meaning_linking.specs.GoodMap.{ranges_for};
ghost use Rattle.c25_meaning_linking.specs.Place as place;
ghost use Rattle.c25_symbols.specs.Text.{range_line, word_counts};
ghost use Rattle.c25_symbols.specs.View.{AreSized, KnowsUsed, range_view};

use crate::used::UsedWords;
use c25_cmd::{Command, MemoryRange};
use c25_meaning_common::no_memory::NoMemory;
use c25_texts::appending::{push_count, push_five, push_four, push_name};

/// A range of a page, whose use is printed.
#[derive(Clone, Copy)]
struct RangeUse<'a> {
    page: u8,
    name: &'a str,
    origin: u32,
    size: u32,
}

/// Appends how many words there are, how many of them are used, and how many are free.
#[tactic(auto, unfolding(crate::specs::Text::word_counts))]
fn push_counts(out: &mut String, size: u32, used: u32) -> Result<(), NoMemory>
    requires { used ≤ size }
    ensures { OnOk result (string_bytes out.new ≡ string_bytes out.old ++ word_counts size used) }
{
    push_five(out, size)?;
    push_count(out, used)?;
    push_count(out, size - used)
}

/// Appends the line of a range.
#[tactic(auto, unfolding(crate::specs::Text::range_line))]
fn push_range(out: &mut String, used: &UsedWords, range: &RangeUse<'_>) -> Result<(), NoMemory>
    requires sized { AreSized used.now }
    requires range { IsRange (range_view range.now) }
    ensures { (places : List place.Place) → KnowsUsed used.now places → OnOk result (string_bytes out.new ≡ string_bytes out.old ++ range_line places (range_view range.now)) }
{
    let page = range.page;
    let count = used.count(page, range.origin, range.size);
    write!(out, "RANGE {page} ")?;
    push_four(out, range.origin as u16)?;
    out.push_str(" ")?;
    push_counts(out, range.size, count)?;
    push_name(out, range.name)
}

/// Appends the lines of the ranges of a command file.
fn push_named(out: &mut String, used: &UsedWords, memory: &[MemoryRange]) -> Result<(), NoMemory>
    requires sized { AreSized used.now }
    requires ranges { All IsRange (ranges_of memory.now) }
    ensures { (places : List place.Place) → KnowsUsed used.now places → OnOk result (string_bytes out.new ≡ string_bytes out.old ++ flat_map (range_line places) (ranges_of memory.now)) }
{
    for range in memory {
        let range = RangeUse {
            page: range.page,
            name: range.name.as_str(),
            origin: range.origin,
            size: range.length,
        };
        push_range(out, used, &range)?;
    }
    Ok(())
}

/// Appends the lines of the ranges of a command: those of its file, or without `MEMORY` all words of
/// page 0 and those of page 1 from 300h on.
pub(crate) fn push_ranges(
    out: &mut String,
    used: &UsedWords,
    command: &Command,
) -> Result<(), NoMemory>
    requires sized { AreSized used.now }
    requires command { IsCommand (command_data command.now) }
    ensures { (places : List place.Place) → KnowsUsed used.now places → OnOk result (string_bytes out.new ≡ string_bytes out.old ++ flat_map (range_line places) (ranges_for (command_data command.now))) }
{
    match &command.memory {
        Some(memory) => push_named(out, used, memory),
        None => {
            let program = RangeUse {
                page: 0,
                name: "PROG",
                origin: 0,
                size: 65_536,
            };
            let store = RangeUse {
                page: 1,
                name: "DATA",
                origin: 768,
                size: 64_768,
            };
            push_range(out, used, &program)?;
            push_range(out, used, &store)
        }
    }
}
