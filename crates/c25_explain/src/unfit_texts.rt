//! What is shown of a section that does not fit, of its ranges and of its blocks, as texts of one line without its end.

ghost use Rattle.std.specs.Prelude.{◌≡◌, ◌++◌, IfOk, OnOk, string_bytes};
ghost use Rattle.c25_link_faults.specs.Overlaps.{span_data};
ghost use Rattle.c25_link_faults.specs.Unfits.{unfit_data};
ghost use Rattle.c25_rooms.specs.Crossings.{block_data};
ghost use Rattle.c25_rooms.specs.Holes.{room_data};
ghost use Rattle.std.specs.Option.{option_map};
ghost use Rattle.c25_explain.specs.Unfits as meaning;

use crate::overlaps::push_words;
use c25_link_faults::{Span, Unfit};
use c25_meaning_common::no_memory::NoMemory;
use c25_rooms::{Room, SectionBlock};
use std::alloc::Global;

/// Appends a number of words.
#[tactic(auto, unfolding(crate::specs::Unfits::count_text))]
fn push_count(text: &mut String, words: u32) -> Result<(), NoMemory>
    ensures { OnOk result (string_bytes text.new ≡ string_bytes text.old ++ meaning.count_text words) }
{
    if words == 1 {
        write!(text, "{words} word").map_err(NoMemory::from)
    } else {
        write!(text, "{words} words").map_err(NoMemory::from)
    }
}

/// A name, its first and its last word, its page, and its number of words.
fn room_text(alloc: Global, span: &Span<'_>) -> Result<String, NoMemory>
    ensures { IfOk result (λ text. string_bytes text ≡ meaning.room_text (span_data span.now)) }
{
    let mut text = String::from_str(alloc, span.name)?;
    push_words(&mut text, span)?;
    let page = span.page;
    write!(text, " of page {page}, ")?;
    push_count(
        &mut text,
        (u32::from(span.last) + 1).saturating_sub(u32::from(span.first)),
    )?;
    Ok(text)
}

/// A name and its number of words.
fn size_text(alloc: Global, name: &str, size: Option<u32>) -> Result<String, NoMemory>
    ensures { IfOk result (λ text. string_bytes text ≡ meaning.size_text name.now size) }
{
    match size {
        Some(words) => {
            let mut text = format!(in alloc; "{name}: ")?;
            push_count(&mut text, words)?;
            Ok(text)
        }
        None => format!(in alloc; "{name}: more than 65536 words").map_err(NoMemory::from),
    }
}

/// The words of a section that has an address, and of another one how many it has.
pub(crate) fn section_text(alloc: Global, name: &str, unfit: &Unfit<'_>) -> Result<String, NoMemory>
    ensures { IfOk result (λ text. string_bytes text ≡ meaning.section_text name.now (unfit_data unfit.now)) }
{
    match &unfit.span {
        Some(span) => room_text(alloc, span),
        None => size_text(alloc, name, unfit.size),
    }
}

/// Appends how many words of a range are free.
#[tactic(auto, unfolding(crate::specs::Unfits::free_text))]
fn push_free(text: &mut String, words: u32) -> Result<(), NoMemory>
    ensures { OnOk result (string_bytes text.new ≡ string_bytes text.old ++ meaning.free_text words) }
{
    write!(text, ", {words} free").map_err(NoMemory::from)
}

/// Appends how many words the largest hole of a range has.
#[tactic(auto, unfolding(crate::specs::Unfits::largest_text))]
fn push_largest(text: &mut String, words: u32) -> Result<(), NoMemory>
    ensures { OnOk result (string_bytes text.new ≡ string_bytes text.old ++ meaning.largest_text words) }
{
    write!(text, ", largest hole {words}").map_err(NoMemory::from)
}

/// A range with its free words.
pub(crate) fn free_room_text(alloc: Global, room: &Room<'_>) -> Result<String, NoMemory>
    ensures { IfOk result (λ text. string_bytes text ≡ meaning.free_room_text (room_data room.now)) }
{
    let mut text = room_text(alloc, &room.span)?;
    push_free(&mut text, room.free)?;
    push_largest(&mut text, room.largest)?;
    Ok(text)
}

/// Appends the size of a block.
#[tactic(auto, unfolding(crate::specs::Unfits::block_text))]
fn push_block(text: &mut String, size: u8) -> Result<(), NoMemory>
    ensures { OnOk result (string_bytes text.new ≡ string_bytes text.old ++ meaning.block_text size) }
{
    write!(text, ": its block of {size} words").map_err(NoMemory::from)
}

/// Appends how many words of its section stand before a block.
#[tactic(auto, unfolding(crate::specs::Unfits::offset_text))]
fn push_offset(text: &mut String, offset: u32) -> Result<(), NoMemory>
    ensures { OnOk result (string_bytes text.new ≡ string_bytes text.old ++ meaning.offset_text offset) }
{
    write!(text, " at offset {offset}").map_err(NoMemory::from)
}

/// Appends where a block crosses a page.
#[tactic(auto, unfolding(crate::specs::Unfits::crosses_text))]
fn push_crosses(text: &mut String, span: Option<&Span<'_>>) -> Result<(), NoMemory>
    ensures { OnOk result (string_bytes text.new ≡ string_bytes text.old ++ meaning.crosses_text (option_map (λ s. span_data s.now) span.entry)) }
{
    match span {
        Some(_) => text
            .push_str(" crosses a page of 128 words at that address")
            .map_err(NoMemory::from),
        None => text
            .push_str(" crosses a page of 128 words wherever the section may stand")
            .map_err(NoMemory::from),
    }
}

/// A block that crosses a page.
pub(crate) fn crossing_text(
    alloc: Global,
    name: &str,
    span: Option<&Span<'_>>,
    block: &SectionBlock,
) -> Result<String, NoMemory>
    ensures { IfOk result (λ text. string_bytes text ≡ meaning.crossing_text name.now (option_map (λ s. span_data s.now) span.entry) (block_data block.now)) }
{
    let mut text = String::from_str(alloc, name)?;
    push_block(&mut text, block.size)?;
    push_offset(&mut text, block.offset)?;
    push_crosses(&mut text, span)?;
    Ok(text)
}

/// The beginning of a line that reserves words by `.usect`.
#[tactic(auto, unfolding(crate::specs::Unfits::usect_text))]
fn usect_text(alloc: Global, name: &str) -> Result<String, NoMemory>
    ensures { IfOk result (λ text. string_bytes text ≡ meaning.usect_text name.now) }
{
    let mut text = String::from_str(alloc, "HOLE .usect \"")?;
    text.push_str(name)?;
    text.push_str("\"")?;
    Ok(text)
}

/// The beginning of a line that reserves words in a section.
#[tactic(auto, unfolding(crate::specs::Unfits::reserve_text))]
fn reserve_text(alloc: Global, name: &str) -> Result<String, NoMemory>
    ensures { IfOk result (λ text. string_bytes text ≡ meaning.reserve_text name.now) }
{
    if name == ".bss" {
        String::from_str(alloc, ".bss HOLE").map_err(NoMemory::from)
    } else {
        usect_text(alloc, name)
    }
}

/// Appends how many words a line reserves, and what that does.
#[tactic(auto, unfolding(crate::specs::Unfits::help_text))]
fn push_help(text: &mut String, words: u32) -> Result<(), NoMemory>
    ensures { OnOk result (string_bytes text.new ≡ string_bytes text.old ++ meaning.help_text words) }
{
    write!(
        text,
        ",{words} before that block would keep it inside one page"
    )
    .map_err(NoMemory::from)
}

/// What helps a block that crosses a page.
pub(crate) fn hole_text(alloc: Global, name: &str, words: u32) -> Result<String, NoMemory>
    ensures { IfOk result (λ text. string_bytes text ≡ meaning.hole_text name.now words) }
{
    let mut text = reserve_text(alloc, name)?;
    push_help(&mut text, words)?;
    Ok(text)
}
