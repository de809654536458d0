//! The places in a page of 128 words where a section may begin, for all but its blocks.

ghost use Rattle.std.specs.Prelude.{◌≡◌, ◌<◌, ◌≤◌, ◌+◌, ◌-◌, ◌%◌, ◌&&◌, ◌||◌, ◌==◌, ◌∷◌, ◌++◌, [], ℕ, if◌then◌else◌, List, IfOk, OnOk, false, length, map, nat_le, replicate, slice_index_or, All};
ghost use Rattle.c25_link_faults.specs.Overlaps.{span_data};
ghost use Rattle.c25_meaning_linking.specs.Place as place;
ghost use Rattle.c25_place.specs.Room.{KnowsTaken};
ghost use Rattle.c25_place.specs.Placement.{IsWithin};
ghost use Rattle.c25_place.specs.View.{places_view};
ghost use Rattle.c25_rooms.specs.Bases.{AreOpened, AreRoomy, AreTried, marked_places};
ghost use Rattle.c25_rooms.specs.Crossings.{HasRoom};

use crate::marks::Marks;
use crate::measure::Measure;
use c25_cmd::taken::free_words;
use c25_link_faults::Span;
use c25_place::Place;
use std::alloc::{AllocError, Global};

/// How many words a page of data memory has. A block lies in one page.
const PAGE: usize = 128;

/// Marks where a section of `size` words begins that ends with a word, if so many words up to it are free.
fn mark_place(marks: &mut [bool], run: u32, size: u32, word: usize)
    requires sized { length marks.old ≡ 128 }
    requires run { run ≤ word + 1 }
    requires word { word < 65536 }
    ensures sized { length marks.new ≡ length marks.old }
    ensures marks { (k : ℕ) → slice_index_or marks.new k false ≡ (slice_index_or marks.old k false || (nat_le size run && ((word + 1 - size) % 128 == k))) }
{
    if size <= run {
        let base = word + 1 - size as usize;
        marks[base % PAGE] = true;
    }
}

/// Marks the places in a page where a section of `size` words may begin that stands on free words from `start` up to
/// `end`.
fn mark_places(marks: &mut [bool], taken: &[bool], start: usize, end: usize, size: u32)
    requires sized { length marks.old ≡ 128 }
    requires ordered { start ≤ end }
    requires within { end ≤ 65536 }
    requires page { length taken.now ≡ 65536 }
    requires some { 0 < size }
    ensures sized { length marks.new ≡ 128 }
    ensures opened { (page : ℕ) (places : List place.Place) → KnowsTaken taken.now page places → AreOpened page places start end size marks.old marks.new }
{
    let mut measure = Measure::none();
    for word in start..end {
        measure = measure.after_word(taken[word]);
        mark_place(marks, measure.run, size, word);
    }
}

/// Marks the places in a page where a section of `size` words may begin that stands on free words of a range.
#[tactic(auto, using(crate::proofs::Opened::opened_range))]
fn mark_range(marks: &mut [bool], taken: &[bool], range: &Span<'_>, size: u32)
    requires sized { length marks.old ≡ 128 }
    requires page { length taken.now ≡ 65536 }
    requires some { 0 < size }
    ensures sized { length marks.new ≡ 128 }
    ensures opened { (places : List place.Place) → KnowsTaken taken.now range.now.page places → AreOpened range.now.page places range.now.first (range.now.last + 1) size marks.old marks.new }
{
    let start = range.first as usize;
    let end = (range.last as usize + 1).max(start);
    mark_places(marks, taken, start, end, size);
}

/// Marks the places in a page where a section of `size` words has room in one of these ranges; none is marked before.
fn mark_ranges(
    alloc: Global,
    roomy: &mut [bool],
    places: &[Place<'_>],
    ranges: &[Span<'_>],
    size: u32,
) -> Result<(), AllocError>
    requires within { All IsWithin places.now }
    requires some { 0 < size }
    requires sized { length roomy.old ≡ 128 }
    requires none { AreRoomy (places_view places.now) [] size roomy.old }
    ensures sized { length roomy.new ≡ 128 }
    ensures roomy { OnOk result (AreRoomy (places_view places.now) (map span_data ranges.now) size roomy.new) }
{
    let mut marks = Marks::new(alloc, places, 0)?;
    for range in ranges {
        marks = marks.on_page(alloc, places, range.page)?;
        mark_range(roomy, marks.taken.as_slice(), range, size);
    }
    Ok(())
}

/// The places in a page where a section of `size` words has room in one of these ranges.
#[tactic(auto, using(crate::proofs::Opened::roomy_none))]
fn roomy_places(
    alloc: Global,
    places: &[Place<'_>],
    ranges: &[Span<'_>],
    size: u32,
) -> Result<Vec<bool>, AllocError>
    requires within { All IsWithin places.now }
    requires some { 0 < size }
    ensures sized { IfOk result (λ marks. length marks.items ≡ 128) }
    ensures roomy { IfOk result (λ marks. AreRoomy (places_view places.now) (map span_data ranges.now) size marks.items) }
{
    let mut roomy = free_words(alloc, 128)?;
    mark_ranges(alloc, &mut roomy, places, ranges, size)?;
    Ok(roomy)
}

/// Appends a place in a page, if it is marked.
fn push_marked(marks: &[bool], place: u32, list: &mut Vec<u32>) -> Result<(), AllocError>
    requires { place < length marks.now }
    ensures { OnOk result (list.new.items ≡ list.old.items ++ (if slice_index_or marks.now place false then place ∷ [] else [])) }
{
    if marks[place as usize] {
        list.push(place)?;
    }
    Ok(())
}

/// The places in a page that are marked.
fn marked_places(alloc: Global, marks: &[bool]) -> Result<Vec<u32>, AllocError>
    requires { length marks.now ≡ 128 }
    ensures { IfOk result (λ list. list.items ≡ marked_places marks.now) }
{
    let mut list = Vec::new(alloc);
    for place in 0..128u32 {
        push_marked(marks, place, &mut list)?;
    }
    Ok(list)
}

/// The places in a page where a section of `size` words has room in one of these ranges.
pub(crate) fn open_places(
    alloc: Global,
    places: &[Place<'_>],
    ranges: &[Span<'_>],
    size: u32,
) -> Result<Vec<u32>, AllocError>
    requires within { All IsWithin places.now }
    requires some { 0 < size }
    ensures { IfOk result (λ list. AreTried (HasRoom (places_view places.now) (map span_data ranges.now) size) list.items) }
{
    let roomy = roomy_places(alloc, places, ranges, size)?;
    marked_places(alloc, &roomy)
}
