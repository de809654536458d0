//! The addresses where a section may begin for the sake of its blocks.

ghost use Rattle.std.specs.List.{list_any};
ghost use Rattle.std.specs.Option.{option_map};
ghost use Rattle.std.specs.Prelude.{◌≡◌, ◌<◌, IfOk, false, filter, map, true, All};
ghost use Rattle.c25_link_faults.specs.Overlaps.{span_data};
ghost use Rattle.c25_meaning_linking.specs.GoodMap.{is_paged};
ghost use Rattle.c25_place.specs.Placement.{IsWithin};
ghost use Rattle.c25_place.specs.View.{places_view};
ghost use Rattle.c25_rooms.specs.Bases.{AreTried, IsFewest, bases_at, help_at};
ghost use Rattle.c25_rooms.specs.Crossings.{MayBegin, block_data, lies_in, moved};

use crate::blocks::SectionBlock;
use crate::space::open_places;
use c25_link_faults::{Span, Unfit};
use c25_place::Place;
use std::alloc::{AllocError, Global};

/// Whether the words of a section lie in a range.
fn lies_in(span: &Span<'_>, range: &Span<'_>) -> bool
    ensures { result ≡ lies_in (span_data span.now) (span_data range.now) }
{
    range.first <= span.first && span.last <= range.last
}

/// Whether the words of a section lie in one of these ranges.
fn lies_in_one(span: &Span<'_>, ranges: &[Span<'_>]) -> bool
    ensures { result ≡ list_any (lies_in (span_data span.now)) (map span_data ranges.now) }
{
    for range in ranges {
        if lies_in(span, range) {
            return true;
        }
    }
    false
}

/// The first word of a section, if its words lie in one of these ranges.
fn base_at(alloc: Global, span: &Span<'_>, ranges: &[Span<'_>]) -> Result<Vec<u32>, AllocError>
    ensures { IfOk result (λ list. list.items ≡ bases_at (span_data span.now) (map span_data ranges.now)) }
{
    if lies_in_one(span, ranges) {
        Vec::from_slice(alloc, &[u32::from(span.first)])
    } else {
        Ok(Vec::new(alloc))
    }
}

/// The addresses that stand for all where a section of `size` words that does not fit may begin, for all but its blocks.
#[tactic(auto, using(crate::proofs::Tried::tried_at))]
pub(crate) fn bases_for(
    alloc: Global,
    places: &[Place<'_>],
    unfit: &Unfit<'_>,
    size: u32,
) -> Result<Vec<u32>, AllocError>
    requires within { All IsWithin places.now }
    requires some { 0 < size }
    ensures { IfOk result (λ list. AreTried (MayBegin (places_view places.now) (map span_data unfit.now.ranges.items) (option_map span_data unfit.now.span) size) list.items) }
{
    match &unfit.span {
        Some(span) => base_at(alloc, span, &unfit.ranges),
        None => open_places(alloc, places, &unfit.ranges, size),
    }
}

/// Whether a block with so many words more before it lies inside one page of 128 words, where its section begins at an
/// address.
fn is_paged(base: u32, block: &SectionBlock, words: u32) -> bool
    ensures { result ≡ is_paged base (moved words (block_data block.now)) }
{
    let first = u64::from(base) + (u64::from(block.offset) + u64::from(words));
    first % 128 + u64::from(block.size) <= 128
}

/// Those of some addresses at which a block lies inside one page.
pub(crate) fn fitting(
    alloc: Global,
    bases: &[u32],
    block: &SectionBlock,
) -> Result<Vec<u32>, AllocError>
    ensures { IfOk result (λ list. list.items ≡ filter (λ base. is_paged base (moved 0 (block_data block.now))) bases.now) }
{
    let mut list = Vec::new(alloc);
    for base in bases {
        if is_paged(*base, block, 0) {
            list.push(*base)?;
        }
    }
    Ok(list)
}

/// Whether so many words more before a block help it, where its section begins at one of some addresses.
fn helps(bases: &[u32], block: &SectionBlock, words: u32) -> bool
    ensures { result ≡ help_at bases.now (block_data block.now) words }
{
    for base in bases {
        if is_paged(*base, block, words) {
            return true;
        }
    }
    false
}

/// The fewest words before a block that help it, where its section begins at one of some addresses.
pub(crate) fn fewest(bases: &[u32], block: &SectionBlock) -> Option<u32>
    ensures { IsFewest bases.now (block_data block.now) result }
{
    for words in 0..128 {
        if helps(bases, block, words) {
            return Some(words);
        }
    }
    None
}
