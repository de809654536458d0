//! The holes with which no block crosses a page of data memory.

ghost use Rattle.std.specs.List.{list_all};
ghost use Rattle.std.specs.Prelude.{◌≡◌, IfOk};
ghost use Rattle.c25_moving.specs.BssPlace.{is_in_page, parts_fit};
ghost use Rattle.c25_moving.specs.Holes as meaning;

use crate::blocks::{BlockAt, Reserved};
use crate::bss_given::Given;
use c25_meaning_common::no_memory::NoMemory;
use std::alloc::Global;

/// The words of the hole before a block at this place: what is left of its page, where the block has more words.
fn hole_at(place: u32, size: u32) -> u32
    ensures { result ≡ meaning.hole_at place size }
{
    let within = place % 128;
    if size <= 128 - within {
        0
    } else {
        128 - within
    }
}

/// Where a block begins in its page, with so many words in holes before it.
pub(crate) fn moved_on(place: u32, filled: u32) -> u32
    ensures { result ≡ meaning.moved_on place filled }
{
    (place % 128 + filled % 128) % 128
}

/// The words of the holes before blocks, in their order, where the first block's part begins at a page.
pub(crate) fn holes(alloc: Global, blocks: &[BlockAt]) -> Result<Vec<u32>, NoMemory>
    ensures { IfOk result (λ hs. hs.items ≡ meaning.holes 0 blocks.now) }
{
    let mut holes = Vec::new(alloc);
    let mut filled = 0_u32;
    for block in blocks {
        let place = moved_on(block.place, filled);
        let hole = hole_at(place, block.size);
        let next = moved_on(hole, filled);
        holes.push(hole)?;
        filled = next;
    }
    Ok(holes)
}

/// Whether a block lies in one page, where its part begins at an address.
fn is_in_page(address: u32, block: &BlockAt) -> bool
    ensures { result ≡ is_in_page address block.now }
{
    let first = u64::from(address) + u64::from(block.place);
    first % 128 + u64::from(block.size) <= 128
}

/// Whether each of some blocks lies in one page, where their part begins at an address.
fn are_in_pages(address: u32, blocks: &[BlockAt]) -> bool
    ensures { result ≡ list_all (is_in_page address) blocks.now }
{
    for block in blocks {
        if !is_in_page(address, block) {
            return false;
        }
    }
    true
}

/// Whether each block of parts, one part after another, lies in one page, where the first part begins at an address.
#[tactic(auto, using(crate::proofs::BssPages::part_crosses, crate::proofs::BssPages::parts_done))]
pub(crate) fn parts_fit(address: u32, parts: &[Reserved]) -> bool
    ensures { result ≡ parts_fit address parts.now }
{
    let mut start = address;
    for part in parts {
        if !are_in_pages(start, part.blocks.as_slice()) {
            return false;
        }
        start = moved_on(part.words, start);
    }
    true
}

/// Whether all parts fit somewhere without holes.
fn all_fit(parts: &[Reserved]) -> bool {
    for start in 0..128_u32 {
        if parts_fit(start, parts) {
            return true;
        }
    }
    false
}

/// Whether all parts fit without holes: at the address that `.bss` is given, or else somewhere.
pub(crate) fn fit(given: Option<Given>, parts: &[Reserved]) -> bool {
    match given {
        Some(given) => parts_fit(given.address, parts),
        None => all_fit(parts),
    }
}

/// Whether all parts fit with holes in them: at the address that `.bss` is given, or from the beginning of a page, or
/// somewhere.
pub(crate) fn fit_with_holes(given: Option<Given>, parts: &[Reserved]) -> bool {
    fit(given, parts) || parts_fit(0, parts)
}

/// The words that fill a part up to whole pages, with so many words in holes.
pub(crate) fn filler(words: u32, filled: u32) -> u32 {
    (128 - moved_on(words, filled)) % 128
}
