//! The range that a command lacks for a section without a range to stand in.

ghost use Rattle.std.specs.List.{list_any};
ghost use Rattle.std.specs.Option.{option_map};
ghost use Rattle.std.specs.Prelude.{◌≡◌, ◌==◌, IfOk};
ghost use Rattle.std.specs.Str.{bytes_eq};
ghost use Rattle.c25_cmd.specs.View.{command_data, placing_of, placings_of};
ghost use Rattle.c25_meaning_linking.specs.GoodMap.{is_named_on};
ghost use Rattle.c25_place.specs.Missing.{has_named, has_page, missing_data, missing_for, missing_on, missing_page, missing_placing, missing_range, placing_named, unless};
ghost use Rattle.c25_place.specs.View.{range_view, ranges_view, wanted_view};

use crate::places::placings_of;
use crate::ranges::{PageRange, ranges_for};
use crate::requests::{Wanted, place_wanted};
use c25_cmd::{Command, Placing};
use c25_meaning_common::no_memory::NoMemory;
use std::alloc::Global;

/// A range that a command lacks.
#[derive(Clone, Copy)]
pub enum MissingRange<'a> {
    /// A range of this name, on a page where the command names one.
    Named { name: &'a str, page: Option<u8> },
    /// Any range of this page.
    OnPage(u8),
    /// Any range at all.
    Any,
}

/// Whether a range is of a page.
fn is_of_page(range: &PageRange<'_>, page: u8) -> bool
    ensures { result ≡ ((range_view range.now).page == page) }
{
    range.page == page
}

/// Whether a range is of a page and has a name.
fn is_named_on(range: &PageRange<'_>, name: &str, page: u8) -> bool
    ensures { result ≡ is_named_on name.now page (range_view range.now) }
{
    range.page == page && name == range.name
}

/// Whether the section that the command lists has a name.
fn is_called(placing: &Placing, name: &str) -> bool
    ensures { result ≡ bytes_eq (placing_of placing.now).name name.now }
{
    placing.name.as_str() == name
}

/// Whether a page has a range of a name.
fn is_named(ranges: &[PageRange<'_>], name: &str, page: u8) -> bool
    ensures { result ≡ list_any (is_named_on name.now page) (ranges_view ranges.now) }
{
    for range in ranges {
        if is_named_on(range, name, page) {
            return true;
        }
    }
    false
}

/// Whether there is a range of a name, on a page where one is given, else on either.
fn has_named(ranges: &[PageRange<'_>], name: &str, page: Option<u8>) -> bool
    ensures { result ≡ has_named (ranges_view ranges.now) name.now page }
{
    match page {
        Some(page) => is_named(ranges, name, page),
        None => is_named(ranges, name, 0) || is_named(ranges, name, 1),
    }
}

/// Whether there is a range of a page.
fn has_page(ranges: &[PageRange<'_>], page: u8) -> bool
    ensures { result ≡ has_page (ranges_view ranges.now) page }
{
    for range in ranges {
        if is_of_page(range, page) {
            return true;
        }
    }
    false
}

/// The missing range, unless it is there.
fn unless(is_there: bool, range: MissingRange<'_>) -> Option<MissingRange<'_>>
    ensures { option_map missing_data result ≡ unless is_there (missing_data range.entry) }
{
    if is_there { None } else { Some(range) }
}

/// Any range of a page, if the page has none.
fn missing_on<'a>(ranges: &[PageRange<'_>], page: u8) -> Option<MissingRange<'a>>
    ensures { option_map missing_data result ≡ missing_on (ranges_view ranges.now) page }
{
    unless(has_page(ranges, page), MissingRange::OnPage(page))
}

/// The missing range of a section that may stand anywhere on either page: any range of the page that has
/// none, or any at all where neither has one. `program` and `store` say whether pages 0 and 1 have ranges.
fn missing_page<'a>(program: bool, store: bool) -> Option<MissingRange<'a>>
    ensures { option_map missing_data result ≡ missing_page program store }
{
    match (program, store) {
        (true, true) => None,
        (true, false) => Some(MissingRange::OnPage(1)),
        (false, true) => Some(MissingRange::OnPage(0)),
        (false, false) => Some(MissingRange::Any),
    }
}

/// The range that these ranges lack for a section with a target and, where one is named, a page.
fn missing_for<'a>(
    ranges: &[PageRange<'_>],
    wanted: Wanted<'a>,
    page: Option<u8>,
) -> Option<MissingRange<'a>>
    ensures { option_map missing_data result ≡ missing_for (ranges_view ranges.now) (wanted_view wanted.entry) page }
{
    match wanted {
        Wanted::InRange(name) => unless(
            has_named(ranges, name, page),
            MissingRange::Named { name, page },
        ),
        Wanted::At(_) => missing_on(ranges, page.unwrap_or(0)),
        Wanted::Anywhere => match page {
            Some(page) => missing_on(ranges, page),
            None => missing_page(has_page(ranges, 0), has_page(ranges, 1)),
        },
    }
}

/// The section of a name among those that a command lists, if it is there.
fn placing_named<'a>(placings: &'a [Placing], name: &str) -> Option<&'a Placing>
    ensures { option_map (λ p. placing_of p.now) result ≡ placing_named name.now (placings_of placings.now) }
{
    for placing in placings {
        if is_called(placing, name) {
            return Some(placing);
        }
    }
    None
}

/// The range that these ranges lack for a section that a command lists, or for one that it does not list.
fn missing_placing<'a>(
    ranges: &[PageRange<'_>],
    placing: Option<&'a Placing>,
) -> Option<MissingRange<'a>>
    ensures { option_map missing_data result ≡ missing_placing (ranges_view ranges.now) (option_map (λ p. placing_of p.now) placing.entry) }
{
    match placing {
        Some(placing) => missing_for(ranges, place_wanted(&placing.target), placing.page),
        None => missing_for(ranges, Wanted::Anywhere, None),
    }
}

/// The range that a command lacks for the section of a name, where [`good_places`](crate::good_places)
/// refuses the section with `NoRange` (72). For a section that neither a target nor a page ties to one page,
/// that is any range of the page without ranges, or any range at all where neither page has one. `None` where
/// the command lacks no range; `NoMemory` where memory runs out.
pub fn missing_range<'a>(
    alloc: Global,
    command: &'a Command,
    section: &str,
) -> Result<Option<MissingRange<'a>>, NoMemory>
    ensures { IfOk result (λ range. option_map missing_data range ≡ missing_range (command_data command.now) section.now) }
{
    let ranges = ranges_for(alloc, command)?;
    let placing = placing_named(placings_of(command), section);
    Ok(missing_placing(&ranges, placing))
}
