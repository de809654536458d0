//! The ranges of a command, and which of them a section may stand in.

ghost use Rattle.std.specs.List.{list_any};
ghost use Rattle.std.specs.Prelude.{◌≡◌, not, IfOk};
ghost use Rattle.c25_cmd.specs.View.{command_data, ranges_of, target_of};
ghost use Rattle.c25_meaning_linking.specs.GoodMap.{Request, default_page, default_ranges, is_named_on, is_usable, page_for, ranges_for};
ghost use Rattle.c25_link_faults.specs.Faults.{lacks_range};
ghost use Rattle.c25_link_faults.specs.View.{range_view, ranges_view};

use c25_cmd::{Command, MemoryRange, Target};
use std::alloc::{AllocError, Global};

/// A range of a page: its first address and how many words it has.
#[derive(Clone, Copy)]
pub(crate) struct Range<'a> {
    pub page: u8,
    pub name: &'a str,
    pub origin: u32,
    pub size: u32,
}

/// The ranges without `MEMORY`: all words of page 0, and those of page 1 from 300h on.
fn default_ranges<'a>() -> [Range<'a>; 2]
    ensures { ranges_view result ≡ default_ranges }
{
    [
        Range {
            page: 0,
            name: "PROG",
            origin: 0,
            size: 65_536,
        },
        Range {
            page: 1,
            name: "DATA",
            origin: 768,
            size: 64_768,
        },
    ]
}

/// The ranges of a command file.
fn named_ranges<'a>(alloc: Global, memory: &'a [MemoryRange]) -> Result<Vec<Range<'a>>, AllocError>
    ensures { IfOk result (λ v. ranges_view v.items ≡ ranges_of memory.now) }
{
    let mut list = Vec::new(alloc);
    for range in memory {
        list.push(Range {
            page: range.page,
            name: range.name.as_str(),
            origin: range.origin,
            size: range.length,
        })?;
    }
    Ok(list)
}

/// The ranges of a command: those of its file, or without `MEMORY` the default ones.
pub(crate) fn ranges_for<'a>(
    alloc: Global,
    command: &'a Command,
) -> Result<Vec<Range<'a>>, AllocError>
    ensures { IfOk result (λ v. ranges_view v.items ≡ ranges_for (command_data command.now)) }
{
    match &command.memory {
        Some(memory) => named_ranges(alloc, memory),
        None => Vec::from_slice(alloc, &default_ranges()),
    }
}

/// Whether a range is of a page and has a name.
fn is_named_on(range: &Range<'_>, name: &str, page: u8) -> bool
    ensures { result ≡ is_named_on name.now page (range_view range.now) }
{
    range.page == page && name == range.name
}

/// Whether a range is one for a target on a page.
pub(crate) fn is_usable(range: &Range<'_>, target: &Target, page: u8) -> bool
    ensures { result ≡ is_usable (target_of target.now) page (range_view range.now) }
{
    match target {
        Target::InRange(name) => is_named_on(range, name, page),
        Target::Anywhere | Target::At(_) => range.page == page,
    }
}

/// Whether there is a range of a name on page 0.
fn has_name(ranges: &[Range<'_>], name: &str) -> bool
    ensures { result ≡ list_any (is_named_on name.now 0) (ranges_view ranges.now) }
{
    for range in ranges {
        if is_named_on(range, name, 0) {
            return true;
        }
    }
    false
}

/// The page of a section for which the command names none.
fn default_page(ranges: &[Range<'_>], target: &Target, initialised: bool) -> u8
    ensures { result ≡ default_page (ranges_view ranges.now) (target_of target.now) initialised }
{
    match target {
        Target::Anywhere => { if initialised { 0 } else { 1 } }
        Target::InRange(name) => { if has_name(ranges, name) { 0 } else { 1 } }
        Target::At(_) => 0,
    }
}

/// Whether there is a range for a target on a page.
fn has_range(ranges: &[Range<'_>], target: &Target, page: u8) -> bool
    ensures { result ≡ list_any (is_usable (target_of target.now) page) (ranges_view ranges.now) }
{
    for range in ranges {
        if is_usable(range, target, page) {
            return true;
        }
    }
    false
}

/// The page of a section with a target, from the command where that names one.
pub(crate) fn page_for(
    ranges: &[Range<'_>],
    target: &Target,
    page: Option<u8>,
    initialised: bool,
) -> u8
    ensures { (r : Request) → r.target ≡ target_of target.now → r.page ≡ page → r.initialised ≡ initialised → result ≡ page_for (ranges_view ranges.now) r }
{
    match page {
        Some(page) => page,
        None => default_page(ranges, target, initialised),
    }
}

/// Whether there is no range for a section with a target and, where one is named, a page.
pub(crate) fn lacks_range(
    ranges: &[Range<'_>],
    target: &Target,
    page: Option<u8>,
    initialised: bool,
) -> bool
    ensures { (r : Request) → r.target ≡ target_of target.now → r.page ≡ page → r.initialised ≡ initialised → result ≡ lacks_range (ranges_view ranges.now) r }
{
    !has_range(ranges, target, page_for(ranges, target, page, initialised))
}
