//! A section that does not fit, and the ranges that it may be placed in.

ghost use Rattle.std.specs.List.{flat_map};
ghost use Rattle.std.specs.Option.{option_map};
ghost use Rattle.std.specs.Str.{bytes_eq};
ghost use Rattle.std.specs.Prelude.{◌≡◌, ◌++◌, IfOk, OnOk, map};
ghost use Rattle.c25_cmd.specs.View.{command_data, placing_of, placings_of, target_of};
ghost use Rattle.c25_meaning_linking.specs.GoodMap.{Request, ranges_for};
ghost use Rattle.c25_meaning_linking.specs.Place.{is_initialised};
ghost use Rattle.c25_place.specs.Missing.{placing_named};
ghost use Rattle.c25_link_faults.specs.Overlaps.{span_data, span_of, within_page};
ghost use Rattle.c25_link_faults.specs.Unfits.{placing_for, range_spans, request_for, unfit_data, unfit_of, usable_span, whole_range};
ghost use Rattle.c25_link_faults.specs.View.{range_view, ranges_view};

use crate::lacking::placings_of;
use crate::ranges::{Range, is_usable, page_for, ranges_for};
use crate::sections::all_loaded;
use crate::spans::{Span, span_from, span_of, words_of};
use c25_cmd::{Command, Placing, Target};
use c25_module::Module;
use std::alloc::{AllocError, Global};

/// A section that is to be placed, and the ranges that it may be placed in.
#[derive(Drop)]
pub struct Unfit<'a> {
    /// How many words the section has; `None` where a page has no room for so many.
    pub size: Option<u32>,
    /// The section's words, where the command gives an address and all of them are words of a page.
    pub span: Option<Span<'a>>,
    /// The ranges that the section may be placed in, in the command's order.
    pub ranges: Vec<Span<'a>>,
}

/// Whether the section that a command lists has a name.
fn is_called(placing: &Placing, name: &str) -> bool
    ensures { result ≡ bytes_eq (placing_of placing.now).name name.now }
{
    placing.name.as_str() == name
}

/// The section of a name among those that a command lists, if it is there.
fn placing_named<'a>(placings: &'a [Placing], name: &str) -> Option<&'a Placing>
    ensures { option_map (λ p. placing_of p.now) result ≡ placing_named name.now (placings_of placings.now) }
{
    for placing in placings {
        if is_called(placing, name) {
            return Some(placing);
        }
    }
    None
}

/// Whether a module has an initialised section of a name.
#[tactic(auto, using(crate::proofs::Lacked::is_initialised_by))]
fn is_initialised(alloc: Global, modules: &[Module], name: &str) -> Result<bool, AllocError>
    ensures { IfOk result (λ is. is ≡ is_initialised name.now modules.now) }
{
    let loaded = all_loaded(alloc, modules)?;
    Ok(loaded.has(name))
}

/// So many words, if a page has room for them.
fn within_page(words: u32) -> Option<u32>
    ensures { result ≡ within_page words }
{
    if words <= 65_536 { Some(words) } else { None }
}

/// A range by its first and its last word, if it has words and all of them are words of a page.
fn range_span<'a>(range: &Range<'a>) -> Option<Span<'a>>
    ensures { option_map span_data result ≡ whole_range (range_view range.now) }
{
    span_from(
        range.name,
        range.page,
        range.origin,
        within_page(range.size),
    )
}

/// Appends a range, if it is one for a target on a page.
fn push_usable<'a>(
    range: &Range<'a>,
    target: &Target,
    page: u8,
    list: &mut Vec<Span<'a>>,
) -> Result<(), AllocError>
    ensures { OnOk result (map span_data list.new.items ≡ map span_data list.old.items ++ usable_span (target_of target.now) page (range_view range.now)) }
{
    if !is_usable(range, target, page) {
        return Ok(());
    }
    match range_span(range) {
        Some(span) => {
            list.push(span)?;
            Ok(())
        }
        None => Ok(()),
    }
}

/// The ranges for a target on a page.
fn usable<'a>(
    alloc: Global,
    ranges: &[Range<'a>],
    target: &Target,
    page: u8,
) -> Result<Vec<Span<'a>>, AllocError>
    ensures { IfOk result (λ list. map span_data list.items ≡ flat_map (usable_span (target_of target.now) page) (ranges_view ranges.now)) }
{
    let mut list = Vec::new(alloc);
    for range in ranges {
        push_usable(range, target, page, &mut list)?;
    }
    Ok(list)
}

/// The ranges for a section with a target and, where one is named, a page.
fn ranges_by<'a>(
    alloc: Global,
    ranges: &[Range<'a>],
    target: &Target,
    page: Option<u8>,
    initialised: bool,
) -> Result<Vec<Span<'a>>, AllocError>
    ensures { (r : Request) → r.target ≡ target_of target.now → r.page ≡ page → r.initialised ≡ initialised
        → IfOk result (λ list. map span_data list.items ≡ range_spans (ranges_view ranges.now) r) }
{
    let page = page_for(ranges, target, page, initialised);
    usable(alloc, ranges, target, page)
}

/// The ranges that the section of a name may be placed in.
fn ranges_for_section<'a>(
    alloc: Global,
    modules: &[Module],
    command: &'a Command,
    name: &str,
) -> Result<Vec<Span<'a>>, AllocError>
    ensures { IfOk result (λ list. map span_data list.items ≡ range_spans (ranges_for (command_data command.now)) (request_for modules.now (command_data command.now) name.now)) }
{
    let ranges = ranges_for(alloc, command)?;
    let initialised = is_initialised(alloc, modules, name)?;
    match placing_named(placings_of(command), name) {
        Some(placing) => { ranges_by(alloc, &ranges, &placing.target, placing.page, initialised) }
        None => ranges_by(alloc, &ranges, &Target::Anywhere, None, initialised),
    }
}

/// The words of the section of a name, where a command gives an address and all of them are words of a page.
fn span_for<'a>(modules: &[Module], command: &'a Command, name: &str) -> Option<Span<'a>>
    ensures { option_map span_data result ≡ span_of modules.now (placing_for (command_data command.now) name.now) }
{
    match placing_named(placings_of(command), name) {
        Some(placing) => span_of(modules, placing),
        None => None,
    }
}

/// The size of the section of a name, its words where the command gives an address, and the ranges that it may
/// be placed in: what to know of a section that [`link`](c25_link::link) refuses with `DoesNotFit` (73).
/// `AllocError` where memory runs out.
pub fn unfit_of<'a>(
    alloc: Global,
    modules: &[Module],
    command: &'a Command,
    name: &str,
) -> Result<Unfit<'a>, AllocError>
    ensures { IfOk result (λ unfit. unfit_data unfit ≡ unfit_of modules.now (command_data command.now) name.now) }
{
    Ok(Unfit {
        size: words_of(modules, name),
        span: span_for(modules, command, name),
        ranges: ranges_for_section(alloc, modules, command, name)?,
    })
}
