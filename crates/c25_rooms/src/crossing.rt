//! The first block of a section that crosses a page of 128 words wherever the section may stand.

ghost use Rattle.std.specs.Option.{option_map};
ghost use Rattle.std.specs.Prelude.{◌≡◌, ◌==◌, length, ℕ, List, Option, IfOk, All};
ghost use Rattle.c25_link_faults.specs.Overlaps.{SpanData, within_page};
ghost use Rattle.c25_link_faults.specs.Unfits.{unfit_data};
ghost use Rattle.c25_meaning_linking.specs.Place as place;
ghost use Rattle.c25_meaning_linking.specs.Place.{size_of_parts};
ghost use Rattle.c25_place.specs.Placement.{IsWithin};
ghost use Rattle.c25_place.specs.View.{places_view};
ghost use Rattle.c25_rooms.specs.Bases.{AreTried};
ghost use Rattle.c25_rooms.specs.Crossings.{IsCrossingOf, IsCrossingOrNone, MayBegin, blocks_data, crossing_data};

use crate::bases::{bases_for, fewest, fitting};
use crate::blocks::{SectionBlock, blocks_of};
use c25_link_faults::Unfit;
use c25_module::Module;
use c25_place::Place;
use std::alloc::{AllocError, Global};

/// A block that crosses a page of 128 words wherever its section may stand so that those before it do not.
#[derive(Clone, Copy)]
pub struct Crossing {
    pub block: SectionBlock,
    /// The fewest words that are to be reserved before the block, so that it lies inside one page; `None` where no
    /// number of words helps.
    pub hole: Option<u32>,
}

/// Whether there is no address.
fn has_none(bases: &[u32]) -> bool
    ensures { result ≡ (length bases.now == 0) }
{
    bases.is_empty()
}

/// The first of the blocks of a section that crosses a page wherever the section may begin; `start` stands for the
/// addresses where it may.
fn first_crossing(
    alloc: Global,
    start: Vec<u32>,
    blocks: &[SectionBlock],
) -> Result<Option<Crossing>, AllocError>
    ensures { (places : List place.Place) (ranges : List SpanData) (span : Option SpanData) (size : ℕ) → AreTried (MayBegin places ranges span size) start.items
        → IfOk result (λ found. IsCrossingOrNone (MayBegin places ranges span size) (blocks_data blocks.now) (option_map crossing_data found)) }
{
    let mut bases = start;
    if has_none(bases.as_slice()) {
        return Ok(None);
    }
    for block in blocks {
        let tried = bases.as_slice();
        let left = fitting(alloc, tried, block)?;
        if has_none(left.as_slice()) {
            let hole = fewest(tried, block);
            return Ok(Some(Crossing {
                block: *block,
                hole,
            }));
        }
        bases = left;
    }
    Ok(None)
}

/// The first block that crosses a page of 128 words wherever the section of a name may stand, which does not fit among
/// sections at these places; `None` where there is no such block, the section has no words, or a page has no room for
/// them.
pub(crate) fn crossing_of(
    alloc: Global,
    modules: &[Module],
    places: &[Place<'_>],
    unfit: &Unfit<'_>,
    name: &str,
) -> Result<Option<Crossing>, AllocError>
    requires within { All IsWithin places.now }
    requires size { (unfit_data unfit.now).size ≡ within_page (size_of_parts name.now modules.now) }
    ensures { IfOk result (λ found. IsCrossingOf modules.now (places_view places.now) name.now (unfit_data unfit.now) (option_map crossing_data found)) }
{
    match unfit.size {
        Some(0) | None => Ok(None),
        Some(size) => {
            let blocks = blocks_of(alloc, modules, name)?;
            let bases = bases_for(alloc, places, unfit, size)?;
            first_crossing(alloc, bases, &blocks)
        }
    }
}
