//! Where the sections of a linked program stand.

ghost use Rattle.std.specs.Prelude.{◌≡◌, ◌∷◌, ◌++◌, [], IfOk, OnOk, map, string_bytes};
ghost use Rattle.c25_chain.specs.Linked.{places_of};
ghost use Rattle.c25_map.specs.View.{map_data, section_data};
ghost use Rattle.c25_place.specs.View.{place_view, places_view};

use c25_map::{Map, OutputSection};
use c25_meaning_common::no_memory::NoMemory;
use c25_place::Place;
use std::alloc::Global;

/// Where a section stands.
fn place_of(section: &OutputSection) -> Place<'_>
    ensures { place_view result ≡ (section_data section.now).place }
{
    Place {
        name: section.name.as_str(),
        page: section.page,
        base: section.base,
        size: section.size,
        run: section.run,
    }
}

/// Where the sections of a map stand, in its order.
pub(crate) fn places_in(alloc: Global, map: &Map) -> Result<Vec<Place<'_>>, NoMemory>
    ensures { IfOk result (λ places. places_view places.items ≡ places_of (map_data map.now)) }
{
    let mut places = Vec::new(alloc);
    for section in &map.sections {
        places.push(place_of(section))?;
    }
    Ok(places)
}

/// Texts, borrowed.
pub(crate) fn borrowed(alloc: Global, texts: &[String]) -> Result<Vec<&str>, NoMemory>
    ensures { IfOk result (λ names. map (λ n. n.now) names.items ≡ map string_bytes texts.now) }
{
    let mut names = Vec::new(alloc);
    for text in texts {
        names.push(text.as_str())?;
    }
    Ok(names)
}
