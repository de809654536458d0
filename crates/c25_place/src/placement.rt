//! Where sections stand.

ghost use Rattle.std.specs.Prelude.{◌≡◌, ◌<◌, ◌≤◌, ◌+◌, ◌^◌, ◌++◌, ◌∷◌, [], List, ℕ, true, false, Ok, Err, All, IfOk, IfSome, OnOk, OnErr, MatchOption, length};
ghost use Rattle.std.specs.List.{list_any};
ghost use Rattle.c25_meaning_linking.specs.Command.{RangeData, IsRange};
ghost use Rattle.c25_meaning_linking.specs.GoodMap.{IsLeastFit, NoneFits, IsFirstFit, IsBase, IsBaseAt, IsBaseIn, is_inside, may_stand, Stands, ArePlaced, IsBaseOf, Runs, page_for};
ghost use Rattle.c25_meaning_objects.specs.Module.{Contents};
ghost use Rattle.c25_meaning_linking.specs.Place as place;
ghost use Rattle.c25_place.specs.Blocks.{KnowsBlocks, KnowsFits};
ghost use Rattle.c25_place.specs.Placement.{IsPlacedOrRefused, IsPlacement, IsFitOrNot, IsWithin, AreWords};
ghost use Rattle.c25_place.specs.Ranges.{KnowsRanges, HasRanges};
ghost use Rattle.c25_place.specs.Requests.{HasPages};
ghost use Rattle.c25_place.specs.Room.{KnowsTaken, KnowsRoom, KnowsRuns};
ghost use Rattle.c25_place.specs.View.{range_view, ranges_view, request_view, requests_view, wanted_view, place_view, places_view};

use crate::blocks::{Blocks, PAGE};
use crate::faults::{PlacingFailure, refusal};
use crate::ranges::{CommandRanges, PageRange};
use crate::requests::{Request, Wanted};
use crate::room::{PAGE_WORDS, Room, first_free};
use crate::runs::RunWords;
use c25_cmd::taken::any_taken;
use c25_meaning_common::failure::Failure;
use c25_meaning_common::no_memory::NoMemory;
use c25_meaning_common::placed::Placed;
use c25_meaning_linking::link_fault::LinkFault;
use std::alloc::{AllocError, Global};

/// A section of the program and where it stands.
#[derive(Clone, Copy)]
pub struct Place<'a> {
    pub name: &'a str,
    pub page: u8,
    /// The address where the section's first word is loaded.
    pub base: u32,
    pub size: u32,
    /// The section's run address, if `run =` gives one.
    pub run: Option<u32>,
}

/// Where sections stand up to the first that cannot be placed, and why that one cannot.
#[derive(Drop)]
pub struct Placement<'a> {
    /// The places, in the order of placement.
    pub places: Vec<Place<'a>>,
    /// The fault of the first section that cannot be placed, with its name; `None` where all are placed.
    pub refusal: Option<Placed<String, LinkFault>>,
}

/// The sections that have been placed, the words that they take, and those that they run at.
#[derive(Drop)]
struct PlacedSections<'a> {
    room: Room,
    runs: RunWords,
    places: Vec<Place<'a>>,
}

/// The least address of a range from which on so many words are free and which the section's blocks allow.
#[tactic(auto, using(crate::proofs::Fits::least_fit, crate::proofs::Fits::none_fits, crate::proofs::Fits::least_words))]
fn least_fit(range: &PageRange<'_>, size: u32, taken: &[bool], fits: &[bool]) -> Option<u32>
    requires sized { length taken.now ≡ 65536 }
    requires paged { length fits.now ≡ 128 }
    requires range { IsRange (range_view range.now) }
    requires some { 0 < size }
    ensures fit { (page : ℕ) (places : List place.Place) (blocks : List place.BlockData) → KnowsTaken taken.now page places → KnowsFits fits.now blocks
        → MatchOption result (NoneFits page size blocks places (range_view range.now)) (IsLeastFit page size blocks (range_view range.now) places) }
    ensures within { IfSome result (AreWords size) }
{
    let start = range.origin as usize;
    let end = start + range.size as usize;
    match first_free(taken, fits, start, end, size as usize) {
        Some(base) => Some(base as u32),
        None => None,
    }
}

/// The least address from which on so many words are free and which the section's blocks allow, in the first
/// range that has one.
fn first_fit(ranges: &[PageRange<'_>], size: u32, taken: &[bool], fits: &[bool]) -> Option<u32>
    requires sized { length taken.now ≡ 65536 }
    requires paged { length fits.now ≡ 128 }
    requires ranges { All IsRange (ranges_view ranges.now) }
    requires some { 0 < size }
    ensures fit { (page : ℕ) (places : List place.Place) (blocks : List place.BlockData) → KnowsTaken taken.now page places → KnowsFits fits.now blocks
        → MatchOption result (All (NoneFits page size blocks places) (ranges_view ranges.now)) (IsFirstFit page size blocks (ranges_view ranges.now) places) }
    ensures within { IfSome result (AreWords size) }
{
    for range in ranges {
        match least_fit(range, size, taken, fits) {
            Some(base) => return Some(base),
            None => {}
        }
    }
    None
}

/// Whether a section, or the address of an empty one, lies inside a range.
fn is_inside(address: u32, size: u128, range: &PageRange<'_>) -> bool
    requires { size < 2 ^ 100 }
    ensures { result ≡ is_inside address size (range_view range.now) }
{
    range.origin <= address
        && u128::from(address) + size.max(1) <= u128::from(range.origin) + u128::from(range.size)
}

/// Whether a section, or the address of an empty one, lies inside one of these ranges.
fn any_inside(address: u32, size: u128, ranges: &[PageRange<'_>]) -> bool
    requires { size < 2 ^ 100 }
    ensures { result ≡ list_any (is_inside address size) (ranges_view ranges.now) }
{
    for range in ranges {
        if is_inside(address, size, range) {
            return true;
        }
    }
    false
}

/// Whether a section may stand at its address, as its blocks and its ranges allow.
fn may_stand(address: u32, size: u128, ranges: &[PageRange<'_>], fits: &[bool]) -> bool
    requires size { size < 2 ^ 100 }
    requires paged { length fits.now ≡ 128 }
    ensures stands { (blocks : List place.BlockData) → KnowsFits fits.now blocks → result ≡ may_stand address size blocks (ranges_view ranges.now) }
    ensures inside { result ≡ true → list_any (is_inside address size) (ranges_view ranges.now) ≡ true }
{
    fits[address as usize % PAGE] && any_inside(address, size, ranges)
}

/// Where a section with an address stands, or why it cannot: `DoesNotFit` (73), else `Overlap` (74).
fn base_at(
    address: u32,
    size: u128,
    ranges: &[PageRange<'_>],
    taken: &[bool],
    fits: &[bool],
) -> Result<u32, LinkFault>
    requires sized { length taken.now ≡ 65536 }
    requires paged { length fits.now ≡ 128 }
    requires ranges { All IsRange (ranges_view ranges.now) }
    requires size { size < 2 ^ 100 }
    ensures base { (page : ℕ) (places : List place.Place) (blocks : List place.BlockData) → KnowsTaken taken.now page places → KnowsFits fits.now blocks
        → IsBaseAt address page size blocks (ranges_view ranges.now) places result }
    ensures within { IfOk result (AreWords size) }
{
    if !may_stand(address, size, ranges, fits) {
        return Err(LinkFault::DoesNotFit);
    }
    if any_taken(taken, address as usize, address as usize + size as usize) {
        return Err(LinkFault::Overlap);
    }
    Ok(address)
}

/// Where a section without an address stands, or `DoesNotFit` (73). An empty one stands at the origin of the
/// first range.
fn base_in(
    size: u128,
    first: &PageRange<'_>,
    ranges: &[PageRange<'_>],
    taken: &[bool],
    fits: &[bool],
) -> Result<u32, LinkFault>
    requires first { IsRange (range_view first.now) }
    requires sized { length taken.now ≡ 65536 }
    requires paged { length fits.now ≡ 128 }
    requires ranges { All IsRange (ranges_view ranges.now) }
    ensures base { (page : ℕ) (places : List place.Place) (blocks : List place.BlockData) → KnowsTaken taken.now page places → KnowsFits fits.now blocks
        → IsBaseIn page size blocks (range_view first.now) (ranges_view ranges.now) places result }
    ensures within { IfOk result (AreWords size) }
{
    if size == 0 {
        return Ok(first.origin);
    }
    if size > u128::from(PAGE_WORDS) {
        return Err(LinkFault::DoesNotFit);
    }
    match first_fit(ranges, size as u32, taken, fits) {
        Some(base) => Ok(base),
        None => Err(LinkFault::DoesNotFit),
    }
}

/// Where a section stands, or why it cannot; `NoRange` (72) where there is no range for it.
fn base_of(
    wanted: Wanted<'_>,
    size: u128,
    ranges: &[PageRange<'_>],
    taken: &[bool],
    fits: &[bool],
) -> Result<u32, LinkFault>
    requires sized { length taken.now ≡ 65536 }
    requires paged { length fits.now ≡ 128 }
    requires ranges { All IsRange (ranges_view ranges.now) }
    requires size { size < 2 ^ 100 }
    ensures base { (page : ℕ) (places : List place.Place) (blocks : List place.BlockData) → KnowsTaken taken.now page places → KnowsFits fits.now blocks
        → IsBase (wanted_view wanted.entry) page size blocks (ranges_view ranges.now) places result }
    ensures within { IfOk result (AreWords size) }
{
    let Some(first) = ranges.first() else {
        return Err(LinkFault::NoRange);
    };
    match wanted {
        Wanted::At(address) => base_at(address, size, ranges, taken, fits),
        _ => base_in(size, first, ranges, taken, fits),
    }
}

impl<'a> PlacedSections<'a> {
    /// Nothing placed.
    fn new(alloc: Global) -> Result<Self, AllocError>
        ensures room { IfOk result (λ p. KnowsRoom p.room []) }
        ensures runs { IfOk result (λ p. KnowsRuns p.runs []) }
        ensures places { IfOk result (λ p. p.places.items ≡ []) }
    {
        Ok(PlacedSections {
            room: Room::new(alloc)?,
            runs: RunWords::new(alloc)?,
            places: Vec::new(alloc),
        })
    }

    /// Whether a section may run where the command says, if it names a run address.
    fn may_run(&self, page: u8, size: u32, request: &Request<'_>) -> bool
        requires runs { KnowsRuns self.now.runs (places_view self.now.places.items) }
        requires size { request.now.size ≡ size }
        requires fits { size ≤ 65536 }
        ensures yes { result ≡ true → (all : List RangeData) (modules : List Contents) → page ≡ page_for all (request_view modules request.now)
            → Runs all (places_view self.now.places.items) (request_view modules request.now) }
        ensures no { result ≡ false → (all : List RangeData) (modules : List Contents) → page ≡ page_for all (request_view modules request.now)
            → ¬ Runs all (places_view self.now.places.items) (request_view modules request.now) }
        ensures within { result ≡ true → IfSome request.now.run (AreWords size) }
    {
        match request.run {
            Some(run) => page == 0 && request.initialised && self.runs.are_open(run, size),
            None => true,
        }
    }

    /// Where a section stands after those before it, or why it cannot be placed: 72, 73 or 74, else `BadRun`
    /// (78).
    fn base_for(
        &self,
        ranges: &CommandRanges<'_>,
        blocks: &Blocks<'_>,
        page: u8,
        request: &Request<'_>,
    ) -> Result<u32, LinkFault>
        requires ranges { HasRanges ranges.now }
        requires room { KnowsRoom self.now.room (places_view self.now.places.items) }
        requires runs { KnowsRuns self.now.runs (places_view self.now.places.items) }
        requires size { request.now.size < 2 ^ 100 }
        requires page { page ≤ 1 }
        ensures fits { (all : List RangeData) (modules : List Contents) → KnowsRanges ranges.now all → KnowsBlocks blocks.now modules
            → page ≡ page_for all (request_view modules request.now)
            → IsFitOrNot all (places_view self.now.places.items) (request_view modules request.now) result }
        ensures within { IfOk result (AreWords request.now.size) }
        ensures run { IfOk result (λ _. IfSome request.now.run (AreWords request.now.size)) }
    {
        let usable = ranges.usable(request.wanted, page);
        let paging = blocks.get(request.name);
        let taken = self.room.on_page(page);
        match base_of(request.wanted, request.size, usable, taken, &paging.fits) {
            Ok(base) => {
                if self.may_run(page, request.size as u32, request) {
                    Ok(base)
                } else {
                    Err(LinkFault::BadRun)
                }
            }
            Err(fault) => Err(fault),
        }
    }

    /// Places a section after those before it, or returns why it cannot be placed.
    fn place(
        &mut self,
        alloc: Global,
        ranges: &CommandRanges<'_>,
        blocks: &Blocks<'_>,
        request: &Request<'a>,
    ) -> Result<(), PlacingFailure>
        requires ranges { HasRanges ranges.now }
        requires room { KnowsRoom self.old.room (places_view self.old.places.items) }
        requires runs { KnowsRuns self.old.runs (places_view self.old.places.items) }
        requires size { request.now.size < 2 ^ 100 }
        requires page { IfSome request.now.page (λ n. n ≤ 1) }
        requires within { All IsWithin self.old.places.items }
        ensures room { OnOk result (KnowsRoom self.new.room (places_view self.new.places.items)) }
        ensures runs { OnOk result (KnowsRuns self.new.runs (places_view self.new.places.items)) }
        ensures placed { (all : List RangeData) (modules : List Contents) → KnowsRanges ranges.now all → KnowsBlocks blocks.now modules
            → IsPlacedOrRefused all (places_view self.old.places.items) (places_view self.new.places.items) (request_view modules request.now) result }
        ensures within { OnOk result (All IsWithin self.new.places.items) }
        ensures kept { OnErr result (self.new.places.items ≡ self.old.places.items) }
    {
        let page = ranges.page_for(request);
        match self.base_for(ranges, blocks, page, request) {
            Ok(base) => {
                let size = request.size as u32;
                self.room.take(page, base, size);
                self.runs.take(request.run, size);
                self.places.push(Place {
                    name: request.name,
                    page,
                    base,
                    size,
                    run: request.run,
                })?;
                Ok(())
            }
            Err(fault) => Err(Failure::Fault(refusal(alloc, fault, request.name)?)),
        }
    }
}

/// Places sections in their order, up to the first that cannot be placed.
#[tactic(auto, using(crate::proofs::Placing::placed_next, crate::proofs::Placing::refused))]
pub(crate) fn place_all<'a>(
    alloc: Global,
    ranges: &CommandRanges<'_>,
    blocks: &Blocks<'_>,
    requests: &[Request<'a>],
) -> Result<Placement<'a>, NoMemory>
    requires ranges { HasRanges ranges.now }
    requires sizes { All (λ r. r.size < 2 ^ 100) requests.now }
    requires pages { HasPages requests.now }
    ensures placed { (all : List RangeData) (modules : List Contents) → KnowsRanges ranges.now all → KnowsBlocks blocks.now modules
        → IfOk result (IsPlacement all (requests_view modules requests.now)) }
    ensures within { IfOk result (λ placement. All IsWithin placement.places.items) }
{
    let mut placed = PlacedSections::new(alloc)?;
    for request in requests {
        match placed.place(alloc, ranges, blocks, request) {
            Ok(()) => {}
            Err(Failure::NoMemory(error)) => return Err(error),
            Err(Failure::Fault(fault)) => {
                return Ok(Placement {
                    places: placed.places,
                    refusal: Some(fault),
                });
            }
        }
    }
    Ok(Placement {
        places: placed.places,
        refusal: None,
    })
}
