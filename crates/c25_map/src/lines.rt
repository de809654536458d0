//! A map so far, with one line more.

ghost use Rattle.std.specs.Prelude.{◌≡◌, [], ◌∷◌, IfOk, map, ok_or};
ghost use Rattle.c25_meaning_common.specs.Results.{Meets};
ghost use Rattle.c25_map.specs.Reading as reading;
ghost use Rattle.c25_map.specs.declared.map_fault.MapFault.TheVariants.{BadMap};
ghost use Rattle.c25_map.specs.View.{part_data, section_data, symbol_data, map_data};

use crate::fields::{PartFields, SectionFields, part_of, section_of, symbol_of};
use crate::map::{GlobalSymbol, Map, OutputSection, Part};
use crate::map_fault::MapFault;
use crate::numbers::word_of;
use c25_meaning_common::failure::Failure;
use std::alloc::{AllocError, Global};

/// Whether neither symbols nor an entry have come yet.
fn is_open(so_far: &Map) -> bool
    ensures { result ≡ reading.is_open (map_data so_far.now) }
{
    so_far.symbols.is_empty() && so_far.entry.is_none()
}

#[tactic(auto, unfolding(crate::specs::Reading::with_section))]
fn add_section(so_far: &mut Map, section: OutputSection) -> Result<(), Failure<MapFault>>
    requires { section.parts.items ≡ [] }
    ensures { Meets (λ _. map_data so_far.new) (reading.with_section (map_data so_far.old) (section_data section).place) result }
{
    if !is_open(so_far) {
        return Err(Failure::Fault(MapFault::BadMap));
    }
    Ok(so_far.sections.push(section)?)
}

/// Adds a part to the last section.
fn add_to_last(sections: &mut Vec<OutputSection>, part: Part) -> Result<(), Failure<MapFault>>
    ensures { Meets (λ _. map section_data sections.new.items) (ok_or (reading.onto_last (map section_data sections.old.items) (part_data part)) BadMap) result }
{
    match sections.last_mut() {
        None => Err(Failure::Fault(MapFault::BadMap)),
        Some(section) => Ok(section.parts.push(part)?),
    }
}

#[tactic(auto, unfolding(crate::specs::Reading::with_part))]
fn add_part(so_far: &mut Map, part: Part) -> Result<(), Failure<MapFault>>
    ensures { Meets (λ _. map_data so_far.new) (reading.with_part (map_data so_far.old) (part_data part)) result }
{
    if !is_open(so_far) {
        return Err(Failure::Fault(MapFault::BadMap));
    }
    add_to_last(&mut so_far.sections, part)
}

/// Whether a section already has a run address or a part.
fn is_settled(section: &OutputSection) -> bool
    ensures { result ≡ reading.is_settled (section_data section.now) }
{
    section.run.is_some() || !section.parts.is_empty()
}

/// Sets the address where the last section runs.
fn run_of_last(sections: &mut Vec<OutputSection>, run: u16) -> Result<(), Failure<MapFault>>
    ensures { Meets (λ _. map section_data sections.new.items) (ok_or (reading.run_of_last (map section_data sections.old.items) run) BadMap) result }
{
    match sections.last_mut() {
        None => Err(Failure::Fault(MapFault::BadMap)),
        Some(section) => {
            if is_settled(section) {
                return Err(Failure::Fault(MapFault::BadMap));
            }
            section.run = Some(u32::from(run));
            Ok(())
        }
    }
}

/// Sets the address where the last section runs, if neither symbols nor an entry have come yet.
#[tactic(auto, unfolding(crate::specs::Reading::with_run))]
fn set_run(so_far: &mut Map, run: u16) -> Result<(), Failure<MapFault>>
    ensures { Meets (λ _. map_data so_far.new) (reading.with_run (map_data so_far.old) run) result }
{
    if !is_open(so_far) {
        return Err(Failure::Fault(MapFault::BadMap));
    }
    run_of_last(&mut so_far.sections, run)
}

#[tactic(auto, unfolding(crate::specs::Reading::with_symbol))]
fn add_symbol(so_far: &mut Map, symbol: GlobalSymbol) -> Result<(), Failure<MapFault>>
    ensures { Meets (λ _. map_data so_far.new) (reading.with_symbol (map_data so_far.old) (symbol_data symbol)) result }
{
    if so_far.entry.is_some() {
        return Err(Failure::Fault(MapFault::BadMap));
    }
    Ok(so_far.symbols.push(symbol)?)
}

#[tactic(auto, unfolding(crate::specs::Reading::with_entry))]
fn set_entry(so_far: &mut Map, entry: GlobalSymbol) -> Result<(), Failure<MapFault>>
    ensures { Meets (λ _. map_data so_far.new) (reading.with_entry (map_data so_far.old) (symbol_data entry)) result }
{
    if so_far.entry.is_some() {
        return Err(Failure::Fault(MapFault::BadMap));
    }
    so_far.entry = Some(entry);
    Ok(())
}

/// Adds a symbol, or sets the entry.
#[tactic(auto, unfolding(crate::specs::Reading::with_fields))]
fn add_named(
    alloc: Global,
    so_far: &mut Map,
    kind: &str,
    value: &str,
    name: &str,
) -> Result<(), Failure<MapFault>>
    ensures { Meets (λ _. map_data so_far.new) (reading.with_fields (map_data so_far.old) (kind.now ∷ value.now ∷ name.now ∷ [])) result }
{
    match kind {
        "SYMBOL" => add_symbol(so_far, symbol_of(alloc, value, name)?),
        "ENTRY" => set_entry(so_far, symbol_of(alloc, value, name)?),
        _ => Err(Failure::Fault(MapFault::BadMap)),
    }
}

/// Sets the address where the last section runs, if the line is a `RUN` line.
#[tactic(auto, unfolding(crate::specs::Reading::with_fields))]
fn add_run(so_far: &mut Map, kind: &str, run: &str) -> Result<(), Failure<MapFault>>
    ensures { Meets (λ _. map_data so_far.new) (reading.with_fields (map_data so_far.old) (kind.now ∷ run.now ∷ [])) result }
{
    match kind {
        "RUN" => set_run(so_far, word_of(run.as_bytes())?),
        _ => Err(Failure::Fault(MapFault::BadMap)),
    }
}

/// Adds a part, if the line is a `PART` line.
#[tactic(auto, unfolding(crate::specs::Reading::with_fields))]
fn add_part_line(
    alloc: Global,
    so_far: &mut Map,
    kind: &str,
    fields: PartFields<'_>,
) -> Result<(), Failure<MapFault>>
    ensures { Meets (λ _. map_data so_far.new) (reading.with_fields (map_data so_far.old) (kind.now ∷ fields.entry.number.now ∷ fields.entry.base.now ∷ fields.entry.size.now ∷ [])) result }
{
    match kind {
        "PART" => add_part(so_far, part_of(alloc, fields)?),
        _ => Err(Failure::Fault(MapFault::BadMap)),
    }
}

/// Adds a section, if the line is a `SECTION` line.
#[tactic(auto, unfolding(crate::specs::Reading::with_fields))]
fn add_section_line(
    alloc: Global,
    so_far: &mut Map,
    kind: &str,
    fields: SectionFields<'_>,
) -> Result<(), Failure<MapFault>>
    ensures { Meets (λ _. map_data so_far.new) (reading.with_fields (map_data so_far.old) (kind.now ∷ fields.entry.page.now ∷ fields.entry.base.now ∷ fields.entry.size.now ∷ fields.entry.name.now ∷ [])) result }
{
    match kind {
        "SECTION" => add_section(so_far, section_of(alloc, fields)?),
        _ => Err(Failure::Fault(MapFault::BadMap)),
    }
}

/// Adds what the fields of a line say to the map so far.
#[tactic(auto, unfolding(crate::specs::Reading::with_fields))]
fn add_fields(alloc: Global, so_far: &mut Map, fields: &[&str]) -> Result<(), Failure<MapFault>>
    ensures { Meets (λ _. map_data so_far.new) (reading.with_fields (map_data so_far.old) (map (λ f. f.now) fields.now)) result }
{
    match fields {
        [kind, run] => add_run(so_far, kind, run),
        [kind, value, name] => add_named(alloc, so_far, kind, value, name),
        [kind, number, base, size] => {
            let fields = PartFields { number, base, size };
            add_part_line(alloc, so_far, kind, fields)
        }
        [kind, page, base, size, name] => {
            let fields = SectionFields {
                page,
                base,
                size,
                name,
            };
            add_section_line(alloc, so_far, kind, fields)
        }
        _ => Err(Failure::Fault(MapFault::BadMap)),
    }
}

/// The fields of a line, between one blank and the next.
fn fields_of(alloc: Global, line: &str) -> Result<Vec<&str>, AllocError>
    ensures { IfOk result (λ v. map (λ f. f.now) v.items ≡ reading.cut 32 line.now) }
{
    line.split(' ').collect(alloc)
}

/// Adds what a line says to the map so far.
pub(crate) fn add_line(alloc: Global, so_far: &mut Map, line: &str) -> Result<(), Failure<MapFault>>
    ensures { Meets (λ _. map_data so_far.new) (reading.with_line (map_data so_far.old) line.now) result }
{
    let fields = fields_of(alloc, line)?;
    add_fields(alloc, so_far, fields.as_slice())
}
