//! What is at an address of program memory.

ghost use Rattle.std.specs.Prelude.{◌≡◌, IfOk, Some, map, string_bytes};
ghost use Rattle.std.specs.Option.{option_map};
ghost use Rattle.c25_map.specs.View.{map_data, section_data};
ghost use Rattle.c25_meaning_linking.specs.Linking.{line_at};
ghost use Rattle.c25_meaning_image.specs.Marks as marks;
ghost use Rattle.c25_run_ends.specs.Ground as meant;

use crate::pieces::{
    after_text, around_by, instruction_text, nothing_text, place_end, repeated_text, second_text,
    word_text, written_text,
};
use c25_link::Image;
use c25_map::{Map, OutputSection};
use c25_meaning_common::no_memory::NoMemory;
use c25_meaning_image::marks::{is_code, size_at};
use std::alloc::Global;

/// Whether a section has the word at an address of program memory.
#[tactic(auto, unfolding(crate::specs::Ground::has_word))]
fn has_word(section: &OutputSection, address: u16) -> bool
    ensures { result ≡ meant.has_word address (section_data section.now) }
{
    let address = u64::from(address);
    let base = u64::from(section.base);
    section.page == 0 && base <= address && address < base + u64::from(section.size)
}

/// Whether a section has words, and ends just before an address of program memory.
#[tactic(auto, unfolding(crate::specs::Ground::ends_before))]
fn ends_before(section: &OutputSection, address: u16) -> bool
    ensures { result ≡ meant.ends_before address (section_data section.now) }
{
    let end = u64::from(section.base) + u64::from(section.size);
    section.page == 0 && 0 < section.size && end == u64::from(address)
}

/// The first section that has the word at an address of program memory.
fn section_at(map: &Map, address: u16) -> Option<&OutputSection>
    ensures { option_map (λ section. (section_data section.now).place) result ≡ meant.place_in (meant.has_word address) (map_data map.now) }
{
    for section in &map.sections {
        if has_word(section, address) {
            return Some(section);
        }
    }
    None
}

/// The first section that ends just before an address of program memory.
fn section_before(map: &Map, address: u16) -> Option<&OutputSection>
    ensures { option_map (λ section. (section_data section.now).place) result ≡ meant.place_in (meant.ends_before address) (map_data map.now) }
{
    for section in &map.sections {
        if ends_before(section, address) {
            return Some(section);
        }
    }
    None
}

/// The text of an address that no section has.
fn missing_text(alloc: Global, map: &Map, address: u16) -> Result<String, NoMemory>
    ensures { IfOk result (λ text. string_bytes text ≡ meant.missing_text address (meant.place_in (meant.ends_before address) (map_data map.now))) }
{
    match section_before(map, address) {
        Some(section) => after_text(alloc, address, section.name.as_str()),
        None => nothing_text(alloc, address),
    }
}

/// Where the last instruction stands that begins below an address and not below a base.
fn line_below(image: &Image, base: u32, address: u16) -> Option<(&str, u32)>
    ensures { option_map (λ r. (r.0.now, r.1)) result ≡ meant.line_below image.now base address }
{
    let mut at = u32::from(address);
    while at > base {
        at -= 1;
        let found = image.line_of(at as u16);
        if found.is_some() {
            return found;
        }
    }
    None
}

/// The text of a word of a section.
fn section_text(
    alloc: Global,
    image: &Image,
    section: &OutputSection,
    address: u16,
) -> Result<String, NoMemory>
    ensures { IfOk result (λ text. string_bytes text ≡ meant.empty_text image.now address (Some (section_data section.now).place)) }
{
    let mut text = word_text(alloc, address, section.name.as_str())?;
    let around = around_by(alloc, line_below(image, section.base, address))?;
    text.push_str(around.as_str())?;
    Ok(text)
}

/// The text of an address whose word belongs to no instruction.
fn empty_text(alloc: Global, image: &Image, address: u16) -> Result<String, NoMemory>
    ensures { IfOk result (λ text. string_bytes text ≡ meant.empty_text image.now address (meant.place_in (meant.has_word address) image.now.described)) }
{
    match section_at(image.map(), address) {
        Some(section) => section_text(alloc, image, section, address),
        None => missing_text(alloc, image.map(), address),
    }
}

/// Where the instruction stands that has its first word at an address, or else the one that has it just before.
fn line_near(image: &Image, address: u16) -> Option<(&str, u32)>
    ensures { option_map (λ r. (r.0.now, r.1)) result ≡ meant.line_near image.now address (line_at address image.now.lines) }
{
    match image.line_of(address) {
        Some(place) => Some(place),
        None => image.line_of(address.wrapping_sub(1)),
    }
}

/// The text of an address where no instruction begins.
fn middle_text(alloc: Global, image: &Image, address: u16) -> Result<String, NoMemory>
    ensures { IfOk result (λ text. string_bytes text ≡ meant.middle_text image.now address (marks.is_code image.now.marks address)) }
{
    if is_code(image.marks(), address) {
        let end = place_end(alloc, line_near(image, address))?;
        return second_text(alloc, address, end.as_str());
    }
    empty_text(alloc, image, address)
}

/// What is at an address at which a run left the code.
pub(crate) fn ground_text(alloc: Global, image: &Image, address: u16) -> Result<String, NoMemory>
    ensures { IfOk result (λ text. string_bytes text ≡ meant.ground_text image.now address) }
{
    match size_at(image.marks(), address) {
        Some(_) => instruction_text(alloc, address),
        None => middle_text(alloc, image, address),
    }
}

/// What a TBLW was to write, by the address in ACC and whether it is outside a repeat.
pub(crate) fn tblw_text(
    alloc: Global,
    image: &Image,
    address: u16,
    settled: bool,
) -> Result<String, NoMemory>
    ensures { IfOk result (λ text. string_bytes text ≡ meant.tblw_text image.now address settled) }
{
    if !settled {
        return repeated_text(alloc, address);
    }
    let end = place_end(alloc, line_near(image, address))?;
    written_text(alloc, address, end.as_str())
}
