//! Which words of an image stand in long runs of erased words, as an erased EPROM has them.

ghost use Rattle.std.specs.Prelude.{◌≡◌, ◌+◌, ◌-◌, ◌<◌, ◌≤◌, ◌&&◌, nat_le, nat_lt, true, false, IfOk};
ghost use Rattle.c25_layout.specs.Blank.{AreBlank, EndAt, IsErased, StandBefore};

use crate::blank::ERASED;
use c25_meaning_common::no_memory::NoMemory;
use c25_meaning_image::word_map::WordMap;
use std::alloc::Global;

/// Whether an image has an erased word at an address.
fn is_erased(words: &WordMap, address: u16) -> bool
    ensures there { result ≡ true → IsErased words.now address }
    ensures not_there { result ≡ false → IsErased words.now address → ⊥ }
{
    match words.get(address) {
        Some(word) => word == ERASED,
        None => false,
    }
}

/// Where the erased words from an address on end.
fn end_from(words: &WordMap, from: u32) -> u32
    requires { from ≤ 65536 }
    ensures { EndAt words.now from result }
{
    for address in from..65_536u32 {
        if !is_erased(words, address as u16) {
            return address;
        }
    }
    65_536
}

/// Where the erased words from an address on end, which is known where the address is before a known end.
pub(crate) fn end_at(words: &WordMap, address: u32, known: u32) -> u32
    requires inside { address < 65536 }
    requires known { address < known → EndAt words.now address known }
    ensures { EndAt words.now address result }
{
    if address < known {
        known
    } else {
        end_from(words, address)
    }
}

/// How many erased words stand directly before the address after one that has so many before it.
pub(crate) fn before_next(words: &WordMap, address: u32, before: u32) -> u32
    requires inside { address < 65536 }
    requires before { StandBefore words.now address before }
    ensures { StandBefore words.now (address + 1) result }
{
    if is_erased(words, address as u16) {
        before + 1
    } else {
        0
    }
}

/// Whether an address, with so many erased words before it and those from it on up to an end, is one of at least so
/// many.
fn is_long(least: u32, address: u32, before: u32, end: u32) -> bool
    requires before { before ≤ 65536 }
    requires end { end ≤ 65536 }
    ensures { result ≡ (nat_lt address end && nat_lt 0 least && nat_le least (before + (end - address))) }
{
    address < end && 0 < least && least <= before + (end - address)
}

/// Which addresses are those of `least` erased words at least, one after the other; none for 0.
pub(crate) fn long_runs(alloc: Global, words: &WordMap, least: u32) -> Result<Vec<bool>, NoMemory>
    ensures { IfOk result (λ marks. AreBlank words.now least marks.items) }
{
    let mut marks = Vec::new(alloc);
    let mut before = 0u32;
    let mut end = 0u32;
    for address in 0..65_536u32 {
        end = end_at(words, address, end);
        marks.push(is_long(least, address, before, end))?;
        before = before_next(words, address, before);
    }
    Ok(marks)
}
