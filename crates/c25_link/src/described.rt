//! The map of a linked program.

ghost use Rattle.std.specs.Prelude.{◌≡◌, ◌++◌, ◌∷◌, [], List, ℕ, map, filter, IfOk, OnOk, All, if◌then◌else◌};
ghost use Rattle.std.specs.Option.{option_map, option_map_or};
ghost use Rattle.std.specs.List.{flat_map};
ghost use Rattle.std.specs.Str.{bytes_eq};
ghost use Rattle.c25_map.specs.View.{map_data, section_data, symbol_data, part_data};
ghost use Rattle.c25_meaning_linking.specs.Linking.{section_part, section_parts, section_place, named_value, symbol_value, entry_value, map_of};
ghost use Rattle.c25_meaning_linking.specs.Place.{by_modules, is_section_named};
ghost use Rattle.c25_meaning_linking.specs.Words.{definitions};
ghost use Rattle.c25_module.specs.View.{contents};
ghost use Rattle.c25_link.specs.Described.{parts_named, part_data_of};
ghost use Rattle.c25_link.specs.Layout.{IsLaidOut, IsOwner, places_in};
ghost use Rattle.c25_link.specs.View.{definition_view, definitions_view};
ghost use Rattle.c25_place.specs.View.{named, place_view, places_view};

use crate::definitions::Definition;
use crate::layout::Layout;
use crate::values::{definition_value, name_value};
use c25_map::{GlobalSymbol, Map, OutputSection, Part};
use c25_module::Parts;
use c25_place::{Place, body_size};
use std::alloc::{AllocError, Global};
use std::collections::HashMap;

/// The part that a module has of a section, as the map describes it.
#[derive(Clone, Copy)]
struct PartPlace {
    number: usize,
    base: u32,
    size: u32,
}

/// Appends a part to those of its section's name.
fn push_part<'a>(
    alloc: Global,
    name: &'a str,
    part: PartPlace,
    found: &mut HashMap<&'a str, Vec<PartPlace>>,
) -> Result<(), AllocError>
    ensures { (other : List ℕ) → OnOk result (parts_named found.new other
        ≡ (if bytes_eq name.now other then parts_named found.old other ++ part_data_of part ∷ [] else parts_named found.old other)) }
{
    found.entry(name)?.or_insert(Vec::new(alloc)).push(part)?;
    Ok(())
}

/// Appends the parts of a module, each to those of its section's name.
fn add_parts<'a>(
    alloc: Global,
    layout: &Layout<'_, '_>,
    number: usize,
    owner: &'a Parts,
    found: &mut HashMap<&'a str, Vec<PartPlace>>,
) -> Result<(), AllocError>
    requires laid { IsLaidOut layout.now }
    requires owner { IsOwner layout.now number (contents owner.now) }
    ensures { (name : List ℕ) → OnOk result (parts_named found.new name
        ≡ parts_named found.old name ++ section_parts layout.now.modules.now (places_in layout.now) name number (contents owner.now)) }
{
    for (index, section) in owner.sections.iter().enumerate() {
        let part = PartPlace {
            number,
            base: layout.bases.get(number, index).base,
            size: body_size(&section.body),
        };
        push_part(alloc, section.name.as_str(), part, found)?;
    }
    Ok(())
}

/// The parts of all modules, by the names of their sections.
#[tactic(auto, using(c25_meaning_linking::proofs::ByModules::by_modules_more, c25_meaning_linking::proofs::ByModules::by_modules_all))]
fn parts_by_name<'a>(
    alloc: Global,
    layout: &Layout<'a, '_>,
) -> Result<HashMap<&'a str, Vec<PartPlace>>, AllocError>
    requires { IsLaidOut layout.now }
    ensures { IfOk result (λ m. (name : List ℕ) → parts_named m name ≡ by_modules (section_parts layout.now.modules.now (places_in layout.now) name) 0 layout.now.modules.now) }
{
    let mut found = HashMap::new(alloc);
    for (number, module) in layout.modules.iter().enumerate() {
        add_parts(alloc, layout, number, module.parts(), &mut found)?;
    }
    Ok(found)
}

/// The parts of one section, as the map has them.
fn described_parts(alloc: Global, parts: &[PartPlace]) -> Result<Vec<Part>, AllocError>
    ensures { IfOk result (λ v. map part_data v.items ≡ map part_data_of parts.now) }
{
    let mut described = Vec::new(alloc);
    for part in parts {
        described.push(Part {
            number: part.number.to_string(alloc)?,
            base: part.base,
            size: part.size,
        })?;
    }
    Ok(described)
}

/// The parts of the section of a name.
fn parts_of<'b>(found: &'b HashMap<&str, Vec<PartPlace>>, name: &str) -> &'b [PartPlace]
    ensures { map part_data_of result.now ≡ parts_named found.now name.now }
{
    match found.get(name) {
        Some(parts) => parts,
        None => &[],
    }
}

/// A section of the program with its parts.
fn output_section(
    alloc: Global,
    place: &Place<'_>,
    parts: &[PartPlace],
) -> Result<OutputSection, AllocError>
    ensures { IfOk result (λ s. section_data s ≡ record { place = place_view place.now; parts = map part_data_of parts.now }) }
{
    Ok(OutputSection {
        name: String::from_str(alloc, place.name)?,
        page: place.page,
        base: place.base,
        size: place.size,
        run: place.run,
        parts: described_parts(alloc, parts)?,
    })
}

/// The sections of the program with their parts, in the order of placement.
fn described_sections(
    alloc: Global,
    layout: &Layout<'_, '_>,
) -> Result<Vec<OutputSection>, AllocError>
    requires { IsLaidOut layout.now }
    ensures { IfOk result (λ v. map section_data v.items ≡ map (section_place layout.now.modules.now (places_in layout.now)) (places_in layout.now)) }
{
    let found = parts_by_name(alloc, layout)?;
    let mut sections = Vec::new(alloc);
    for place in layout.places {
        let parts = parts_of(&found, place.name);
        sections.push(output_section(alloc, place, parts)?)?;
    }
    Ok(sections)
}

/// A symbol of the map: a name, and the low 32 bits of a value.
fn global_symbol(alloc: Global, name: &str, value: i64) -> Result<GlobalSymbol, AllocError>
    ensures { IfOk result (λ y. symbol_data y ≡ named_value name.now value) }
{
    Ok(GlobalSymbol {
        name: String::from_str(alloc, name)?,
        value: value.rem_euclid(4_294_967_296) as u32,
    })
}

/// The global symbols that modules define, with their values.
fn described_symbols(
    alloc: Global,
    layout: &Layout<'_, '_>,
) -> Result<Vec<GlobalSymbol>, AllocError>
    requires { IsLaidOut layout.now }
    ensures { IfOk result (λ v. map symbol_data v.items ≡ map (symbol_value layout.now.modules.now (places_in layout.now)) (definitions layout.now.modules.now)) }
{
    let mut symbols = Vec::new(alloc);
    for definition in &layout.definitions.list {
        let value = definition_value(layout, definition);
        symbols.push(global_symbol(alloc, &definition.symbol.name, value)?)?;
    }
    Ok(symbols)
}

/// The entry and its value, where the command names one.
fn described_entry(
    alloc: Global,
    layout: &Layout<'_, '_>,
    entry: Option<&str>,
) -> Result<Option<GlobalSymbol>, AllocError>
    requires { IsLaidOut layout.now }
    ensures { IfOk result (λ e. option_map symbol_data e ≡ option_map (λ name. entry_value layout.now.modules.now (places_in layout.now) name.now) entry.entry) }
{
    match entry {
        Some(name) => {
            let value = name_value(layout, name);
            Ok(Some(global_symbol(alloc, name, value)?))
        }
        None => Ok(None),
    }
}

/// The map of a program.
pub(crate) fn described(
    alloc: Global,
    layout: &Layout<'_, '_>,
    entry: Option<&str>,
) -> Result<Map, AllocError>
    requires { IsLaidOut layout.now }
    ensures { IfOk result (λ m. map_data m ≡ map_of layout.now.modules.now (option_map (λ name. name.now) entry.entry) (places_in layout.now)) }
{
    let sections = described_sections(alloc, layout)?;
    let symbols = described_symbols(alloc, layout)?;
    let entry = described_entry(alloc, layout, entry)?;
    Ok(Map {
        sections,
        symbols,
        entry,
    })
}
