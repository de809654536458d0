//! The address of `.bss` in place of the one that a command file gives it, where a block would cross a page.

ghost use Rattle.std.specs.Prelude.{◌≡◌, ◌==◌, ◌&&◌};
ghost use Rattle.c25_cmd.specs.View.{command_data, range_of, ranges_of};
ghost use Rattle.c25_meaning_linking.specs.GoodMap.{default_ranges, is_inside, ranges_for};
ghost use Rattle.c25_moving.specs.BssPlace as meaning;

use crate::blocks::Reserved;
use crate::bss_given::Given;
use crate::paging::parts_fit;
use c25_cmd::{Command, MemoryRange};

/// What becomes of the address that a command file gives `.bss`.
#[derive(Clone, Copy)]
pub(crate) enum BssPlace {
    /// It stays.
    Stays,
    /// It becomes this one, where the next page begins.
    AtPage(u16),
    /// It is left to the reader: a block would cross a page, and no range has the words from the next page on.
    WithinPage,
}

/// Where the next page begins; an address that begins a page is that itself.
fn next_page(address: u32) -> u64
    ensures value { result ≡ meaning.next_page address }
{
    (u64::from(address) + 127) / 128 * 128
}

/// The address of `.bss` in place of this one.
fn bss_address(given: u32, parts: &[Reserved]) -> u64
    ensures { result ≡ meaning.bss_address given parts.now }
{
    if parts_fit(given, parts) {
        u64::from(given)
    } else {
        next_page(given)
    }
}

/// How many words parts have, at most 4,294,967,295.
fn words_in(parts: &[Reserved]) -> u32
    ensures { result ≡ meaning.words_in parts.now }
{
    let mut words = 0_u32;
    for part in parts {
        words = words.saturating_add(part.words);
    }
    words
}

/// The first address and the number of words of a range.
#[derive(Clone, Copy)]
struct Span {
    origin: u32,
    size: u32,
}

/// Whether so many words from an address on lie inside a range; without words the address does.
fn is_inside(address: u32, words: u32, span: Span) -> bool
    ensures { result ≡ meaning.is_within address words span.origin span.size }
{
    let end = u64::from(address) + u64::from(words.max(1));
    span.origin <= address && end <= u64::from(span.origin) + u64::from(span.size)
}

/// Whether so many words from an address on lie inside a range of a page.
fn is_room(page: u8, address: u32, words: u32, range: &MemoryRange) -> bool
    ensures { result ≡ (page == (range_of range.now).page && is_inside address words (range_of range.now)) }
{
    let span = Span {
        origin: range.origin,
        size: range.length,
    };
    page == range.page && is_inside(address, words, span)
}

/// Whether one of some ranges of a page has room for so many words from an address on.
fn has_room_in(memory: &[MemoryRange], page: u8, address: u32, words: u32) -> bool
    ensures { result ≡ meaning.has_room page address words (ranges_of memory.now) }
{
    for range in memory {
        if is_room(page, address, words, range) {
            return true;
        }
    }
    false
}

/// Whether a range of a page has room for so many words from an address on, where the command file names no ranges: page 0
/// is one range then, and page 1 one from 300h on.
fn has_room_by_default(page: u8, address: u32, words: u32) -> bool
    ensures { result ≡ meaning.has_room page address words default_ranges }
{
    let program = Span {
        origin: 0,
        size: 65_536,
    };
    let store = Span {
        origin: 768,
        size: 64_768,
    };
    page == 0 && is_inside(address, words, program) || page == 1 && is_inside(address, words, store)
}

/// Whether a range of a page has room for so many words from an address on.
fn has_room(command: &Command, page: u8, address: u32, words: u32) -> bool
    ensures { result ≡ meaning.has_room page address words (ranges_for (command_data command.now)) }
{
    match &command.memory {
        Some(memory) => has_room_in(memory.as_slice(), page, address, words),
        None => has_room_by_default(page, address, words),
    }
}

/// What becomes of an address that is to become this one.
fn moved_to(command: &Command, page: u8, address: u64, words: u32) -> BssPlace
    ensures { result ≡ meaning.moved_to page address words (ranges_for (command_data command.now)) }
{
    match u16::try_from(address) {
        Ok(address) => {
            if has_room(command, page, u32::from(address), words) {
                BssPlace::AtPage(address)
            } else {
                BssPlace::WithinPage
            }
        }
        Err(_) => BssPlace::WithinPage,
    }
}

/// What becomes of the address that a command gives `.bss`, where the sources reserve these parts of it.
pub(crate) fn bss_place(given: Given, command: &Command, parts: &[Reserved]) -> BssPlace
    ensures { result ≡ meaning.bss_place given (ranges_for (command_data command.now)) parts.now }
{
    let address = bss_address(given.address, parts);
    if address == u64::from(given.address) {
        BssPlace::Stays
    } else {
        moved_to(command, given.page, address, words_in(parts))
    }
}
