//! The ranges of both pages, as a command gives them.

ghost use Rattle.std.specs.Prelude.{◌≡◌, ◌≤◌, ℕ, List, filter, take, drop, IfOk, IfSome};
ghost use Rattle.c25_cmd.specs.View.{command_data, ranges_of};
ghost use Rattle.c25_meaning_linking.specs.Command.{RangeData, AreApart, Pairwise, IsCommand};
ghost use Rattle.c25_meaning_objects.specs.Module.{Contents};
ghost use Rattle.c25_meaning_linking.specs.GoodMap.{default_ranges, ranges_for, default_page, page_for, is_named_on, is_usable};
ghost use Rattle.c25_place.specs.Ranges.{KnowsPage, KnowsRanges, HasRanges};
ghost use Rattle.c25_place.specs.View.{ranges_view, request_view, wanted_view};

use crate::requests::{Request, Wanted};
use c25_cmd::{Command, MemoryRange};
use std::alloc::{AllocError, Global};
use std::collections::HashMap;

/// A range of a page: its first address and how many words it has.
#[derive(Clone, Copy)]
pub(crate) struct PageRange<'a> {
    pub page: u8,
    pub name: &'a str,
    pub origin: u32,
    pub size: u32,
}

/// The ranges of one page, with an index by name.
#[derive(Drop)]
pub(crate) struct PageRanges<'a> {
    list: Vec<PageRange<'a>>,
    found: HashMap<&'a str, usize>,
}

/// The ranges of both pages under a command.
#[derive(Drop)]
pub(crate) struct CommandRanges<'a> {
    program: PageRanges<'a>,
    store: PageRanges<'a>,
}

/// The ranges without `MEMORY`: all words of page 0, and those of page 1 from 300h on.
fn default_ranges<'a>() -> [PageRange<'a>; 2]
    ensures { ranges_view result ≡ default_ranges }
{
    [
        PageRange {
            page: 0,
            name: "PROG",
            origin: 0,
            size: 65_536,
        },
        PageRange {
            page: 1,
            name: "DATA",
            origin: 768,
            size: 64_768,
        },
    ]
}

/// The ranges of a command file.
fn named_ranges<'a>(
    alloc: Global,
    memory: &'a [MemoryRange],
) -> Result<Vec<PageRange<'a>>, AllocError>
    ensures { IfOk result (λ v. ranges_view v.items ≡ ranges_of memory.now) }
{
    let mut list = Vec::new(alloc);
    for range in memory {
        list.push(PageRange {
            page: range.page,
            name: range.name.as_str(),
            origin: range.origin,
            size: range.length,
        })?;
    }
    Ok(list)
}

/// The ranges of a command: those of its file, or without `MEMORY` the default ones.
pub(crate) fn ranges_for<'a>(
    alloc: Global,
    command: &'a Command,
) -> Result<Vec<PageRange<'a>>, AllocError>
    ensures { IfOk result (λ v. ranges_view v.items ≡ ranges_for (command_data command.now)) }
{
    match &command.memory {
        Some(memory) => named_ranges(alloc, memory),
        None => Vec::from_slice(alloc, &default_ranges()),
    }
}

/// The ranges of a page.
#[tactic(auto, using(crate::proofs::Ranged::place_more, crate::proofs::Ranged::names_before))]
fn page_ranges<'a>(
    alloc: Global,
    page: u8,
    all: &[PageRange<'a>],
) -> Result<PageRanges<'a>, AllocError>
    requires { Pairwise AreApart (ranges_view all.now) }
    ensures { IfOk result (λ p. KnowsPage p page (ranges_view all.now)) }
{
    let mut list = Vec::new(alloc);
    let mut found = HashMap::new(alloc);
    for range in all {
        if range.page == page {
            found.insert(range.name, list.len())?;
            list.push(*range)?;
        }
    }
    Ok(PageRanges { list, found })
}

/// A list of the range of a number alone; empty where there is none.
fn range_at<'a, 'b>(list: &'b [PageRange<'a>], number: usize) -> &'b [PageRange<'a>]
    ensures { result.now ≡ take 1 (drop number list.now) }
{
    if number < list.len() {
        &list[number..number + 1]
    } else {
        &[]
    }
}

/// A list of the range of a name alone; empty where there is none.
#[tactic(auto, using(crate::proofs::Ranged::one_range, crate::proofs::Ranged::no_range))]
fn one_range<'a, 'b>(ranges: &'b PageRanges<'a>, name: &str) -> &'b [PageRange<'a>]
    ensures { (page : ℕ) (all : List RangeData) → KnowsPage ranges.now page all → Pairwise AreApart all → ranges_view result.now ≡ filter (is_named_on name.now page) all }
{
    let number = ranges.found.get(name).copied();
    range_at(&ranges.list, number.unwrap_or(ranges.list.len()))
}

impl<'a> CommandRanges<'a> {
    /// The ranges of a command, by pages.
    #[tactic(auto, using(crate::proofs::Commanded::ranges_are, crate::proofs::Commanded::ranges_are_apart))]
    pub(crate) fn new(alloc: Global, command: &'a Command) -> Result<Self, AllocError>
        requires { IsCommand (command_data command.now) }
        ensures known { IfOk result (λ r. KnowsRanges r (ranges_for (command_data command.now))) }
        ensures has { IfOk result HasRanges }
    {
        let all = ranges_for(alloc, command)?;
        let program = page_ranges(alloc, 0, &all)?;
        let store = page_ranges(alloc, 1, &all)?;
        Ok(CommandRanges { program, store })
    }

    /// The ranges of page 0 or of page 1.
    fn on_page(&self, page: u8) -> &PageRanges<'a>
        requires { page ≤ 1 }
        ensures { (all : List RangeData) → KnowsRanges self.now all → KnowsPage result.now page all }
    {
        if page == 0 {
            &self.program
        } else {
            &self.store
        }
    }

    /// The page of a section for which the command names none: where it asks for a range, page 0 if that has
    /// a range of the name, else page 1; page 0 for an address; and without a target page 0 where it is
    /// initialised and page 1 where it is not.
    #[tactic(auto, using(crate::proofs::Ranged::has_range))]
    fn default_page(&self, wanted: Wanted<'_>, initialised: bool) -> u8
        ensures page { (all : List RangeData) → KnowsRanges self.now all → result ≡ default_page all (wanted_view wanted.entry) initialised }
        ensures known { result ≤ 1 }
    {
        match wanted {
            Wanted::Anywhere => { if initialised { 0 } else { 1 } }
            Wanted::InRange(name) => {
                if self.program.found.get(name).is_some() {
                    0
                } else {
                    1
                }
            }
            Wanted::At(_) => 0,
        }
    }

    /// The page of a section: the one that the command names, or the default.
    pub(crate) fn page_for(&self, request: &Request<'_>) -> u8
        requires { IfSome request.now.page (λ page. page ≤ 1) }
        ensures page { (all : List RangeData) (modules : List Contents) → KnowsRanges self.now all → result ≡ page_for all (request_view modules request.now) }
        ensures known { result ≤ 1 }
    {
        match request.page {
            Some(page) => page,
            None => self.default_page(request.wanted, request.initialised),
        }
    }

    /// The ranges of a page that a section may stand in.
    pub(crate) fn usable(&self, wanted: Wanted<'_>, page: u8) -> &[PageRange<'a>]
        requires { page ≤ 1 }
        ensures { (all : List RangeData) → KnowsRanges self.now all → ranges_view result.now ≡ filter (is_usable (wanted_view wanted.entry) page) all }
    {
        let ranges = self.on_page(page);
        match wanted {
            Wanted::InRange(name) => one_range(ranges, name),
            _ => &ranges.list,
        }
    }
}
