//! Sections at the addresses that a command gives, and how many words they have.

ghost use Rattle.std.specs.Option.{option_map};
ghost use Rattle.std.specs.Prelude.{◌≡◌, ◌≤◌, ◌+◌, ◌++◌, ℕ, All, IfOk, OnOk, map};
ghost use Rattle.c25_cmd.specs.View.{placing_of, placings_of};
ghost use Rattle.c25_meaning_linking.specs.Place.{size_for, size_of_parts};
ghost use Rattle.c25_meaning_objects.specs.Module.{body_size};
ghost use Rattle.c25_module.specs.View.{body_data, section_data, sections_data};
ghost use Rattle.std.specs.List.{sum_by};
ghost use Rattle.c25_link_faults.specs.Overlaps.{listed_span, span_at, span_data, span_from, span_of, spans, within_page};

use c25_cmd::{Placing, Target};
use c25_module::{Module, Section};
use c25_place::body_size;
use std::alloc::{AllocError, Global};

/// A section at an address: its page, and its first and its last word.
#[derive(Clone, Copy)]
pub struct Span<'a> {
    pub name: &'a str,
    pub page: u8,
    pub first: u16,
    pub last: u16,
}

/// Words that a page has room for, and some more; `None` where it has no room for all.
fn plus(total: Option<u32>, words: u32) -> Option<u32>
    ensures { (n : ℕ) → total ≡ within_page n → result ≡ within_page (n + words) }
{
    let sum = u64::from(total?) + u64::from(words);
    if sum <= 65_536 {
        Some(sum as u32)
    } else {
        None
    }
}

/// The words with those that a section adds to the section of a name.
fn with_section(total: Option<u32>, name: &str, section: &Section) -> Option<u32>
    requires { body_size (body_data section.now.body) ≤ 65536 }
    ensures { (n : ℕ) → total ≡ within_page n → result ≡ within_page (n + size_for name.now (section_data section.now)) }
{
    if name == section.name.as_str() {
        plus(total, body_size(&section.body))
    } else {
        total
    }
}

/// The words with those that the sections of a module add to the section of a name.
fn with_sections(total: Option<u32>, name: &str, sections: &[Section]) -> Option<u32>
    requires { All (λ s. body_size (body_data s.body) ≤ 65536) sections.now }
    ensures { (n : ℕ) → total ≡ within_page n → result ≡ within_page (n + sum_by (size_for name.now) (sections_data sections.now)) }
{
    let mut words = total;
    for section in sections {
        words = with_section(words, name, section);
    }
    words
}

/// How many words the modules have in sections of a name; `None` where a page has no room for them.
pub(crate) fn words_of(modules: &[Module], name: &str) -> Option<u32>
    ensures { result ≡ within_page (size_of_parts name.now modules.now) }
{
    let mut words = Some(0);
    for module in modules {
        words = with_sections(words, name, &module.parts().sections);
    }
    words
}

/// A section of so many words at an address, if it has words and all of them are words of a page.
pub(crate) fn span_from<'a>(
    name: &'a str,
    page: u8,
    first: u32,
    size: Option<u32>,
) -> Option<Span<'a>>
    ensures { (n : ℕ) → size ≡ within_page n → option_map span_data result ≡ span_from name.now page first n }
{
    let size = size?;
    if size == 0 || u64::from(first) + u64::from(size) > 65_536 {
        return None;
    }
    Some(Span {
        name,
        page,
        first: first as u16,
        last: (first + size - 1) as u16,
    })
}

/// A section of modules at an address, if it has words and all of them are words of a page.
fn span_at<'a>(modules: &[Module], placing: &'a Placing, first: u32) -> Option<Span<'a>>
    ensures { option_map span_data result ≡ span_at modules.now (placing_of placing.now) first }
{
    let name = placing.name.as_str();
    span_from(
        name,
        placing.page.unwrap_or(0),
        first,
        words_of(modules, name),
    )
}

/// A section that a command lists, where it gives an address.
pub(crate) fn span_of<'a>(modules: &[Module], placing: &'a Placing) -> Option<Span<'a>>
    ensures { option_map span_data result ≡ span_of modules.now (placing_of placing.now) }
{
    match &placing.target {
        Target::Anywhere | Target::InRange(_) => None,
        Target::At(address) => span_at(modules, placing, *address),
    }
}

/// Appends a section that a command lists, where it gives an address.
fn push_listed<'a>(
    modules: &[Module],
    placing: &'a Placing,
    list: &mut Vec<Span<'a>>,
) -> Result<(), AllocError>
    ensures { OnOk result (map span_data list.new.items ≡ map span_data list.old.items ++ listed_span modules.now (placing_of placing.now)) }
{
    match span_of(modules, placing) {
        Some(span) => {
            list.push(span)?;
            Ok(())
        }
        None => Ok(()),
    }
}

/// The sections at the addresses that a command gives, in its order.
pub(crate) fn spans<'a>(
    alloc: Global,
    modules: &[Module],
    placings: &'a [Placing],
) -> Result<Vec<Span<'a>>, AllocError>
    ensures { IfOk result (λ list. map span_data list.items ≡ spans modules.now (placings_of placings.now)) }
{
    let mut list = Vec::new(alloc);
    for placing in placings {
        push_listed(modules, placing, &mut list)?;
    }
    Ok(list)
}
