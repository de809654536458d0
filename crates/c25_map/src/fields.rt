//! The lines of a map by their kinds, read from their fields.

ghost use Rattle.std.specs.Prelude.{◌≡◌, [], IfOk};
ghost use Rattle.c25_meaning_common.specs.Results.{Meets};
ghost use Rattle.c25_map.specs.Reading.{part_of, place_of, value_of};
ghost use Rattle.c25_map.specs.View.{part_data, section_data, symbol_data};

use crate::map::{GlobalSymbol, OutputSection, Part};
use crate::map_fault::MapFault;
use crate::numbers::{address_of, is_number, long_of, page_of, size_of, word_of};
use c25_meaning_common::failure::Failure;
use c25_module::{is_section_name, is_symbol_name};
use std::alloc::Global;

/// The fields of a line `PART number base size`.
#[derive(Clone, Copy)]
pub(crate) struct PartFields<'a> {
    pub(crate) number: &'a str,
    pub(crate) base: &'a str,
    pub(crate) size: &'a str,
}

/// The fields of a line `SECTION page base size name`.
#[derive(Clone, Copy)]
pub(crate) struct SectionFields<'a> {
    pub(crate) page: &'a str,
    pub(crate) base: &'a str,
    pub(crate) size: &'a str,
    pub(crate) name: &'a str,
}

/// The part of a line `PART number base size`.
#[tactic(auto, unfolding(crate::specs::Reading::part_of))]
pub(crate) fn part_of(alloc: Global, fields: PartFields<'_>) -> Result<Part, Failure<MapFault>>
    ensures { Meets part_data (part_of fields.entry.number.now fields.entry.base.now fields.entry.size.now) result }
{
    if !is_number(fields.number.as_bytes()) {
        return Err(Failure::Fault(MapFault::BadMap));
    }
    let base = address_of(fields.base)?;
    let size = size_of(fields.size.as_bytes())?;
    let number = String::from_str(alloc, fields.number)?;
    Ok(Part { number, base, size })
}

/// The section of a line `SECTION page base size name`, without parts.
#[tactic(auto, unfolding(crate::specs::Reading::place_of))]
pub(crate) fn section_of(
    alloc: Global,
    fields: SectionFields<'_>,
) -> Result<OutputSection, Failure<MapFault>>
    ensures place { Meets (λ s. (section_data s).place) (place_of fields.entry.page.now fields.entry.base.now fields.entry.size.now fields.entry.name.now) result }
    ensures parts { IfOk result (λ s. s.parts.items ≡ []) }
{
    if !is_section_name(fields.name.as_bytes()) {
        return Err(Failure::Fault(MapFault::BadMap));
    }
    let page = page_of(fields.page)?;
    let base = u32::from(word_of(fields.base.as_bytes())?);
    let size = size_of(fields.size.as_bytes())?;
    let name = String::from_str(alloc, fields.name)?;
    Ok(OutputSection {
        name,
        page,
        base,
        size,
        run: None,
        parts: Vec::new(alloc),
    })
}

/// The symbol of a line `SYMBOL value name` or `ENTRY value name`.
#[tactic(auto, unfolding(crate::specs::Reading::value_of))]
pub(crate) fn symbol_of(
    alloc: Global,
    value: &str,
    name: &str,
) -> Result<GlobalSymbol, Failure<MapFault>>
    ensures { Meets symbol_data (value_of value.now name.now) result }
{
    if !is_symbol_name(name.as_bytes()) {
        return Err(Failure::Fault(MapFault::BadMap));
    }
    let value = long_of(value.as_bytes())?;
    let name = String::from_str(alloc, name)?;
    Ok(GlobalSymbol { name, value })
}
