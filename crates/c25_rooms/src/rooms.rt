//! The free words of ranges, and their largest holes.

ghost use Rattle.std.specs.Prelude.{◌≡◌, List, IfOk, length, map, All};
ghost use Rattle.c25_link_faults.specs.Overlaps.{span_data};
ghost use Rattle.c25_meaning_linking.specs.Place as place;
ghost use Rattle.c25_place.specs.Room.{KnowsTaken};
ghost use Rattle.c25_place.specs.Placement.{IsWithin};
ghost use Rattle.c25_place.specs.View.{places_view};
ghost use Rattle.c25_rooms.specs.Holes.{AreRooms, IsRoom, room_data};

use crate::marks::Marks;
use crate::measure::measured;
use c25_link_faults::Span;
use c25_place::Place;
use std::alloc::{AllocError, Global};

/// A range, how many of its words are free, and how many words its largest hole has: the longest run of words that no
/// section has.
#[derive(Clone, Copy)]
pub struct Room<'a> {
    pub span: Span<'a>,
    pub free: u32,
    pub largest: u32,
}

/// A range with its free words, where these words of its page are taken.
#[tactic(auto, using(crate::proofs::Holed::measured_range))]
fn room_of<'a>(taken: &[bool], span: &Span<'a>) -> Room<'a>
    requires { length taken.now ≡ 65536 }
    ensures span { (room_data result).span ≡ span_data span.now }
    ensures room { (places : List place.Place) → KnowsTaken taken.now span.now.page places → IsRoom places (room_data result) }
{
    let start = span.first as usize;
    let end = (span.last as usize + 1).max(start);
    let measure = measured(taken, start, end);
    Room {
        span: *span,
        free: measure.free,
        largest: measure.largest,
    }
}

/// How many words of each of these ranges are free, and how many words its largest hole has, among sections at these
/// places.
pub(crate) fn rooms_in<'a>(
    alloc: Global,
    places: &[Place<'_>],
    spans: &[Span<'a>],
) -> Result<Vec<Room<'a>>, AllocError>
    requires within { All IsWithin places.now }
    ensures { IfOk result (λ rooms. AreRooms (places_view places.now) (map span_data spans.now) (map room_data rooms.items)) }
{
    let mut rooms = Vec::new(alloc);
    let mut marks = Marks::new(alloc, places, 0)?;
    for span in spans {
        marks = marks.on_page(alloc, places, span.page)?;
        rooms.push(room_of(marks.taken.as_slice(), span))?;
    }
    Ok(rooms)
}
