//! The names of parts, with the addresses that they stand for.

ghost use Rattle.std.specs.Prelude.{◌≡◌, ◌++◌, IfOk, OnOk};
ghost use Rattle.c25_buildable.specs.Places.{all_names, part_names, places_view, row_names};
ghost use Rattle.c25_layout.specs.Layouts.{named, run_address};

use c25_layout::layout::{Part, Row};
use c25_meaning_common::no_memory::NoMemory;
use std::alloc::Global;

/// A name with the address that it stands for.
#[derive(Drop)]
pub struct NamedPlace {
    pub name: String,
    pub address: u32,
}

/// Appends a name, if there is one, with an address.
fn push_name(
    alloc: Global,
    places: &mut Vec<NamedPlace>,
    name: &Option<String>,
    address: u32,
) -> Result<(), NoMemory>
    ensures { OnOk result (places_view places.new.items ≡ places_view places.old.items ++ named name.now address) }
{
    match name {
        None => Ok(()),
        Some(text) => {
            let name = String::from_str(alloc, text)?;
            places.push(NamedPlace { name, address })?;
            Ok(())
        }
    }
}

/// Where a part runs.
fn run_address(part: &Part) -> u16
    ensures { result ≡ run_address part.now }
{
    match part.run {
        None => part.address,
        Some(run) => run,
    }
}

/// Appends the names of a row of a part.
fn push_row(
    alloc: Global,
    places: &mut Vec<NamedPlace>,
    part: &Part,
    row: &Row,
) -> Result<(), NoMemory>
    ensures { OnOk result (places_view places.new.items ≡ places_view places.old.items ++ row_names part.now row.now) }
{
    let passed = u32::from(row.address.saturating_sub(part.address));
    push_name(alloc, places, &row.load_label, u32::from(row.address))?;
    push_name(
        alloc,
        places,
        &row.label,
        u32::from(run_address(part)) + passed,
    )
}

/// Appends the names of a part.
fn push_part(alloc: Global, places: &mut Vec<NamedPlace>, part: &Part) -> Result<(), NoMemory>
    ensures { OnOk result (places_view places.new.items ≡ places_view places.old.items ++ part_names part.now) }
{
    for row in &part.rows {
        push_row(alloc, places, part, row)?;
    }
    Ok(())
}

/// The names of parts, in the order of their rows.
pub(crate) fn names_of(alloc: Global, parts: &[Part]) -> Result<Vec<NamedPlace>, NoMemory>
    ensures { IfOk result (λ places. places_view places.items ≡ all_names parts.now) }
{
    let mut places = Vec::new(alloc);
    for part in parts {
        push_part(alloc, &mut places, part)?;
    }
    Ok(places)
}
